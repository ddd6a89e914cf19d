// What stands behind the sets of a record of edition 2 (02, §8): the retired numbers and the path counts, read from a position on.
#![tactic(auto)]

ghost use Rattle.std.specs.Prelude.{◌≡◌, [], ◌≤◌};
ghost use Rattle.answer.specs.Outcome.{at};
ghost use Rattle.codec.specs.Reads.{reading_of};
ghost use Rattle.codec.specs.FieldReads.{field_at, fields_at};
ghost use Rattle.record_retired.specs.Retired.{most_retired, retired_of};
ghost use Rattle.record_tail.specs.Tails.{retired_count_refusal, retired_refusal, retired_judge, count_refusal, retired_at, counts_at, tail_at, tail_of};
ghost use Rattle.record_tail.specs.Inside.{position_after};

use answer::{Reason, Refusal};
use codec::{Field, Standing};
use record_retired::Retired;

// The retired numbers under a mark, none of them among the numbers in use, and then these path counts, no other: the retired numbers, and the
// position after the path counts.
pub fn read_tail(
    bytes: &[u8],
    start: usize,
    mark: u64,
    numbers: &[u64],
    counts: &[u64],
) -> Result<Standing<Retired>, Refusal>
    ensures { result ≡ tail_of (tail_at bytes.now mark numbers.now counts.now start) }
{
    let retired = read_retired(bytes, start, mark, numbers)?;
    let next = read_counts(bytes, retired.next, counts)?;
    Ok(Standing {
        value: retired.value,
        next,
    })
}

// A count and that many retired numbers.
fn read_retired(
    bytes: &[u8],
    start: usize,
    mark: u64,
    numbers: &[u64],
) -> Result<Standing<Retired>, Refusal>
    ensures { result ≡ tail_of (retired_at bytes.now mark numbers.now start) }
{
    let count = read_retired_count(bytes, start)?;
    read_retired_numbers(bytes, count.next, count.value as usize, mark, numbers)
}

// So many retired numbers.
fn read_retired_numbers(
    bytes: &[u8],
    start: usize,
    count: usize,
    mark: u64,
    numbers: &[u64],
) -> Result<Standing<Retired>, Refusal>
    requires { count ≤ most_retired }
    ensures { result ≡ tail_of (fields_at bytes.now Field.PartNumber (retired_judge mark numbers.now) count [] start) }
{
    let mut cells = [0; record_retired::MOST_RETIRED];
    let mut previous: u64 = 0;
    let mut next = start;
    for index in 0..count {
        let number = read_retired_number(bytes, next, previous, mark, numbers)?;
        cells[index] = number.value;
        previous = number.value;
        next = number.next;
    }
    Ok(Standing {
        value: Retired {
            count,
            numbers: cells,
        },
        next,
    })
}

// How many numbers are retired, 64 at the most.
fn read_retired_count(bytes: &[u8], start: usize) -> Result<Standing<u64>, Refusal>
    ensures { result ≡ reading_of (field_at bytes.now start Field.Count (retired_count_refusal start)) }
{
    let count = codec::read_number(bytes, start, Field::Count)?;
    if 64 < count.value {
        return Err(Reason::WrongRetired.at(start));
    }
    Ok(count)
}

// A retired number, after the one before it, under the mark and not in use.
fn read_retired_number(
    bytes: &[u8],
    start: usize,
    previous: u64,
    mark: u64,
    numbers: &[u64],
) -> Result<Standing<u64>, Refusal>
    ensures { result ≡ reading_of (field_at bytes.now start Field.PartNumber (retired_refusal mark numbers.now previous start)) }
{
    let number = codec::read_number(bytes, start, Field::PartNumber)?;
    if record_numbers::misnumbered(previous, mark, number.value) {
        return Err(Reason::WrongRetired.at(start));
    }
    if record_numbers::stands(number.value, numbers) {
        return Err(Reason::WrongRetired.at(start));
    }
    Ok(number)
}

// The path counts, each held against the one that has to stand there: the position after them.
fn read_counts(bytes: &[u8], start: usize, counts: &[u64]) -> Result<usize, Refusal>
    ensures { result ≡ position_after (counts_at bytes.now counts.now start) }
{
    let mut next = start;
    for right in counts {
        next = read_count(bytes, next, *right)?.next;
    }
    Ok(next)
}

// A path count that has to be this one.
fn read_count(bytes: &[u8], start: usize, right: u64) -> Result<Standing<u64>, Refusal>
    ensures { result ≡ reading_of (field_at bytes.now start Field.Count (count_refusal right start)) }
{
    let count = codec::read_number(bytes, start, Field::Count)?;
    if count.value != right {
        return Err(Reason::DifferentCount.at(start));
    }
    Ok(count)
}
