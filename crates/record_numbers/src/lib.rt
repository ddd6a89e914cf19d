// The part numbers and the mark of a part list (01, "Records on disk"): what refuses them, the highest of them, and the cells that hold them.
#![tactic(auto)]

ghost use Rattle.std.specs.Prelude.{◌≡◌, length, take};
ghost use Rattle.record_numbers.specs.Numbering.{most_parts, cells_of, misnumbered, part_list_refusal, highest, names, others};

use answer::{Reason, Refusal};

// The most parts of a machine, and the top part number.
pub const MOST_PARTS: usize = 16;

pub const TOP_NUMBER: u64 = 281474976710655;

// Whether these numbers and this mark make a part list.
pub fn judge(mark: u64, numbers: &[u64]) -> Result<(), Refusal>
    ensures { result ≡ part_list_refusal (length numbers.now) mark numbers.now }
{
    let count = numbers.len();
    if count == 0 {
        return Err(Reason::WrongPartCount.at(0));
    }
    if MOST_PARTS < count {
        return Err(Reason::WrongPartCount.at(0));
    }
    let mut previous = 0;
    for (index, &number) in numbers.iter().enumerate() {
        if misnumbered(previous, mark, number) {
            return Err(Reason::WrongPartNumber.at(index));
        }
        previous = number;
    }
    if TOP_NUMBER < mark {
        return Err(Reason::WrongPartNumber.at(count));
    }
    Ok(())
}

// Whether 23 refuses a part number, after the one before it (0 before the first) and under the mark.
pub fn misnumbered(previous: u64, mark: u64, number: u64) -> bool
    ensures { result ≡ misnumbered previous mark number }
{
    number <= previous || mark < number || TOP_NUMBER < number
}

// The highest of some numbers.
pub fn highest(numbers: &[u64]) -> u64
    ensures { result ≡ highest numbers.now }
{
    numbers.iter().copied().max().unwrap_or(0)
}

// The cells of a list of these numbers, the first 16 of them, without those at the positions of a group.
pub fn cells(numbers: &[u64], group: usize) -> [u64; MOST_PARTS]
    ensures { result ≡ cells_of (others (take most_parts numbers.now) group) }
{
    let mut cells = [0; MOST_PARTS];
    let count = numbers.len().min(MOST_PARTS);
    let mut next = 0;
    for (index, &number) in numbers[..count].iter().enumerate() {
        if (group >> index) % 2 == 0 {
            cells[next] = number;
            next += 1;
        }
    }
    cells
}

// Whether a number stands in a list.
pub fn stands(number: u64, numbers: &[u64]) -> bool
    ensures { result ≡ names number numbers.now }
{
    for &other in numbers {
        if other == number {
            return true;
        }
    }
    false
}
