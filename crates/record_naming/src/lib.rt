// Parts by their numbers: the position of the part that has a number, the mask of some parts, and the numbers of a mask. The numbers of the parts
// come by position, as reading a record hands them out.
#![tactic(auto)]

ghost use Rattle.std.specs.Prelude.{◌≡◌, ◌≤◌, length};
ghost use Rattle.answer.specs.Outcome.{outcome, delivered};
ghost use Rattle.record_numbers.specs.Numbering.{most_parts, named, names};
ghost use Rattle.record_lines.specs.Changes.{every};
ghost use Rattle.record_lines.specs.Names.{repeated};
ghost use Rattle.record_naming.specs.Naming.{found_position, mask_of, mask_of_refusal, found_mask, named_refusal};

use answer::{Reason, Refusal};

// The position, from 1, of the part that has a number.
pub fn position(numbers: &[u64], number: u64) -> Result<usize, Refusal>
    ensures { result ≡ found_position numbers.now number }
{
    for (i, known) in numbers.iter().enumerate() {
        if *known == number {
            return Ok(i + 1);
        }
    }
    Err(Reason::UnknownPosition.at(0))
}

// The mask of the positions at which wanted numbers stand.
pub fn mask_of(numbers: &[u64], wanted: &[u64]) -> Result<usize, Refusal>
    ensures { result ≡ found_mask numbers.now wanted.now }
{
    let verdict = wanted_verdict(numbers, wanted);
    match verdict {
        Err(refusal) => Err(refusal),
        Ok(()) => Ok(mask(numbers, wanted)),
    }
}

// The numbers at the positions of a mask, by position, into a lent buffer.
pub fn numbers_of(numbers: &[u64], mask: usize, buffer: &mut [u64]) -> Result<usize, Refusal>
    ensures { outcome result buffer.new ≡ delivered (named_refusal numbers.now mask) (named numbers.now mask) buffer.old }
{
    let count = numbers.len();
    if count == 0 {
        return Err(Reason::WrongPartCount.at(0));
    }
    if record_numbers::MOST_PARTS < count {
        return Err(Reason::WrongPartCount.at(0));
    }
    let all = numbers::power_of_two(count);
    if all <= mask {
        return Err(Reason::UnknownGroupPart.at(0));
    }
    let left_out = all - 1 - mask;
    let cells = record_numbers::cells(numbers, left_out);
    let named = masks::size(mask);
    answer::hand_out(&cells[..named], buffer)
}

// The verdict on numbers that are wanted.
fn wanted_verdict(numbers: &[u64], wanted: &[u64]) -> Result<(), Refusal>
    ensures { result ≡ mask_of_refusal numbers.now wanted.now }
{
    let count = numbers.len();
    if count == 0 {
        return Err(Reason::WrongPartCount.at(0));
    }
    if record_numbers::MOST_PARTS < count {
        return Err(Reason::WrongPartCount.at(0));
    }
    if !all_stand(wanted, numbers) {
        return Err(Reason::UnknownPosition.at(0));
    }
    if repeats(wanted) {
        return Err(Reason::RepeatedPosition.at(0));
    }
    Ok(())
}

// The mask of the wanted among up to 16 numbers.
fn mask(numbers: &[u64], wanted: &[u64]) -> usize
    requires { length numbers.now ≤ most_parts }
    ensures { result ≡ mask_of numbers.now wanted.now }
{
    let mut mask = 0;
    for (at, &number) in numbers.iter().enumerate() {
        if record_numbers::stands(number, wanted) {
            mask += 1 << at;
        }
    }
    mask
}

// Whether all numbers of one list stand in another.
fn all_stand(wanted: &[u64], numbers: &[u64]) -> bool
    ensures { result ≡ every (λ number. names number numbers.now) wanted.now }
{
    wanted
        .iter()
        .all(|&number| record_numbers::stands(number, numbers))
}

// Whether some number stands twice.
fn repeats(numbers: &[u64]) -> bool
    ensures { result ≡ repeated numbers.now }
{
    for (at, &number) in numbers.iter().enumerate() {
        if record_numbers::stands(number, &numbers[at + 1..]) {
            return true;
        }
    }
    false
}
