// One number of a record or a sheet, in groups of seven bits, lowest first (01, "Records on disk"): read at a position, and written.
#![tactic(auto)]

ghost use Rattle.std.specs.Prelude.{◌≡◌, ◌+◌, ◌≤◌, length};
ghost use Rattle.std.proofs.lemmas.List.Edits.{sets};
ghost use Rattle.codec.specs.Fields.{groups, top};
ghost use Rattle.answer.specs.Outcome.{at, outcome};
ghost use Rattle.answer.specs.Placed.{placed};
ghost use Rattle.codec.specs.ByteForm.{bytes_of};
ghost use Rattle.codec.specs.Reads.{reading_of};
ghost use Rattle.codec.specs.Reading.{number_at, ended};

use answer::{Reason, Refusal};

// What a number is read for: its field says how large it may be, and how many groups it may take.
#[derive(Clone, Copy)]
pub enum Field {
    // n, and the count of minimal sets.
    Count,
    // A part number, and the mark.
    PartNumber,
    // A minimal set.
    Set,
    // Any number of a sheet.
    Sheet,
}

// What stands at a position, and the position after it.
#[derive(Clone, Copy)]
pub struct Standing<T> {
    pub value: T,
    pub next: usize,
}

impl Field {
    // The most groups that a number of the field may take.
    pub fn groups(self) -> usize
        ensures { result ≡ groups self }
    {
        match self {
            Field::Count => 5,
            Field::PartNumber => 7,
            Field::Set => 5,
            Field::Sheet => 9,
        }
    }

    // The largest number of the field.
    pub fn top(self) -> u64
        ensures { result ≡ top self }
    {
        match self {
            Field::Count => 4294967295,
            Field::PartNumber => 281474976710655,
            Field::Set => 4294967295,
            Field::Sheet => 9223372036854775807,
        }
    }
}

// The number whose first byte is at that position, as the field allows it.
pub fn read_number(bytes: &[u8], at: usize, field: Field) -> Result<Standing<u64>, Refusal>
    ensures { result ≡ reading_of (number_at bytes.now at field) }
{
    let top = field.top();
    let mut left = field.groups();
    // What the groups so far stand for, the weight of the next one, and the least number that takes it.
    let mut value: u64 = 0;
    let mut weight: u64 = 1;
    let mut least: u64 = 0;
    let mut next = at;
    while 0 < left {
        if bytes.len() <= next {
            return Err(Reason::EndOfBytes.at(bytes.len()));
        }
        let byte = wide(bytes[next]);
        next += 1;
        if byte < 128 {
            return ended(value + byte * weight, least, top, at, next);
        }
        value += (byte - 128) * weight;
        weight *= 128;
        least = weight;
        left -= 1;
    }
    Err(Reason::WrongNumber.at(at))
}

// How many bytes a number takes: one for each seven bits, and one for 0.
#[tactic(auto, using(crate::proofs::ByteForms::length_by_bits))]
pub fn number_length(value: u64) -> usize
    ensures { result ≡ length (bytes_of value) }
{
    value.max(1).ilog2() as usize / 7 + 1
}

// Writes a number at a position of a lent buffer and answers the position after it. Where it does not fit, the buffer stays as it was
// and the answer is the position itself.
pub fn write_number(buffer: &mut [u8], at: usize, value: u64) -> usize
    ensures { outcome result buffer.new ≡ placed buffer.old at (bytes_of value) }
{
    if buffer.len() < at {
        return at;
    }
    if buffer.len() - at < number_length(value) {
        return at;
    }
    write_groups(buffer, at, value)
}

// The answer for a number whose last byte is read: 22 where it is below the least number of as many groups, or over its top value.
fn ended(
    value: u64,
    least: u64,
    top: u64,
    start: usize,
    next: usize,
) -> Result<Standing<u64>, Refusal>
    ensures { result ≡ reading_of (ended value least top start next) }
{
    if value < least {
        return Err(Reason::WrongNumber.at(start));
    }
    if top < value {
        return Err(Reason::WrongNumber.at(start));
    }
    Ok(Standing { value, next })
}

// A byte as a number of 64 bits.
fn wide(byte: u8) -> u64
    ensures { result ≡ byte }
{
    u64::from(byte)
}

// Writes a number's groups from a position on, where there is room for all of them.
#[tactic(auto, using(crate::proofs::ByteForms::bytes_some, crate::proofs::ByteForms::large_by_length, crate::proofs::ByteForms::small_by_length, crate::proofs::ByteForms::length_large, crate::proofs::ByteForms::length_small, crate::proofs::ByteForms::stores_large, crate::proofs::ByteForms::stores_small))]
fn write_groups(buffer: &mut [u8], at: usize, value: u64) -> usize
    requires { at + length (bytes_of value) ≤ length buffer.old }
    ensures value { result ≡ at + length (bytes_of value) }
    ensures buffer_after { buffer.new ≡ sets buffer.old at (bytes_of value) }
{
    let last = at + number_length(value) - 1;
    let mut rest = value;
    for next in at..last {
        buffer[next] = (rest % 128 + 128) as u8;
        rest /= 128;
    }
    buffer[last] = rest as u8;
    last + 1
}
