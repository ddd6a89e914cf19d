// What stands before the sets of a design record (01, "Records on disk"): n, the mark, n part numbers and the count of sets, read from a
// position on.
#![tactic(auto)]

ghost use Rattle.std.specs.Prelude.{◌≡◌, [], ◌≤◌};
ghost use Rattle.record_numbers.specs.Numbering.{most_parts};
ghost use Rattle.record_parts.specs.PartLists.{list_of};
ghost use Rattle.codec.specs.Reads.{found, then, reading_of};
ghost use Rattle.codec.specs.FieldReads.{field_at};
ghost use Rattle.record_head.specs.Headings.{parts_refusal, part_number_refusal, set_count_refusal, numbers_at, parts_at, head_at, heading_of};

use answer::{Reason, Refusal};
use codec::{Field, Standing};
use record_parts::PartList;

// What stands before the sets: the part list, the number of sets, and where the sets begin.
#[derive(Clone, Copy)]
pub struct Heading {
    pub list: PartList,
    pub sets: usize,
    pub begin: usize,
}

// What stands before the sets of the record at a position. The sets are not looked at.
pub fn read_heading(bytes: &[u8], start: usize) -> Result<Heading, Refusal>
    ensures { result ≡ heading_of (head_at bytes.now start) }
{
    let parts = read_parts(bytes, start)?;
    let count = read_set_count(bytes, parts.next)?;
    Ok(Heading {
        list: parts.value,
        sets: count.value as usize,
        begin: count.next,
    })
}

// n, the mark and n part numbers.
fn read_parts(bytes: &[u8], start: usize) -> Result<Standing<PartList>, Refusal>
    ensures { result ≡ reading_of (parts_at bytes.now start) }
{
    let count = read_part_count(bytes, start)?;
    let mark = codec::read_number(bytes, count.next, Field::PartNumber)?;
    read_part_numbers(bytes, mark.next, count.value as usize, mark.value)
}

// So many part numbers under a mark, as a part list.
fn read_part_numbers(
    bytes: &[u8],
    start: usize,
    count: usize,
    mark: u64,
) -> Result<Standing<PartList>, Refusal>
    requires { count ≤ most_parts }
    ensures { result ≡ reading_of (then (numbers_at bytes.now mark count [] start) (λ numbers end. found (list_of mark numbers) end)) }
{
    let mut numbers = [0; PartList::MOST_PARTS];
    let mut previous: u64 = 0;
    let mut next = start;
    for index in 0..count {
        let number = read_part_number(bytes, next, previous, mark)?;
        numbers[index] = number.value;
        previous = number.value;
        next = number.next;
    }
    Ok(Standing {
        value: PartList {
            count,
            mark,
            numbers,
        },
        next,
    })
}

// n, of 1 to 16.
fn read_part_count(bytes: &[u8], start: usize) -> Result<Standing<u64>, Refusal>
    ensures { result ≡ reading_of (field_at bytes.now start Field.Count (parts_refusal start)) }
{
    let count = codec::read_number(bytes, start, Field::Count)?;
    if !numbers::in_range(count.value as usize, PartList::MOST_PARTS) {
        return Err(Reason::WrongPartCount.at(start));
    }
    Ok(count)
}

// A part number, after the one before it and under the mark.
fn read_part_number(
    bytes: &[u8],
    start: usize,
    previous: u64,
    mark: u64,
) -> Result<Standing<u64>, Refusal>
    ensures { result ≡ reading_of (field_at bytes.now start Field.PartNumber (part_number_refusal mark previous start)) }
{
    let number = codec::read_number(bytes, start, Field::PartNumber)?;
    if record_numbers::misnumbered(previous, mark, number.value) {
        return Err(Reason::WrongPartNumber.at(start));
    }
    Ok(number)
}

// The count of sets, of 1 to 12,870.
fn read_set_count(bytes: &[u8], start: usize) -> Result<Standing<u64>, Refusal>
    ensures { result ≡ reading_of (field_at bytes.now start Field.Count (set_count_refusal start)) }
{
    let count = codec::read_number(bytes, start, Field::Count)?;
    if count.value == 0 {
        return Err(Reason::EmptyList.at(start));
    }
    if 12870 < count.value {
        return Err(Reason::LongList.at(start));
    }
    Ok(count)
}
