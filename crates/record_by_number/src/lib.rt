// Changes of design records by part numbers: the parts are looked up in the record, and then it is changed where they stand. Positions move when
// a part leaves, part numbers never do.
#![tactic(auto)]

ghost use Rattle.std.specs.Prelude.{◌≡◌};
ghost use Rattle.answer.specs.Outcome.{outcome};
ghost use Rattle.record_lines.specs.Changes.{take_out, take_out_group, add_set};
ghost use Rattle.record_by_number.specs.Parts.{part_position, parts_mask, changed_there};

use answer::Refusal;

// The position, from 1, of the part that has a number.
pub fn position_of(bytes: &[u8], number: u64) -> Result<usize, Refusal>
    ensures { result ≡ part_position bytes.now number }
{
    let contents = record_editions::whole_record(bytes);
    contents.verdict?;
    let list = contents.list;
    let numbers = list.numbers;
    let count = list.count;
    record_naming::position(&numbers[..count], number)
}

// Take out the part that has a number.
pub fn take_out_part(bytes: &[u8], number: u64, buffer: &mut [u8]) -> Result<usize, Refusal>
    ensures { outcome result buffer.new ≡ changed_there take_out (part_position bytes.now number) bytes.now buffer.old }
{
    let position = position_of(bytes, number)?;
    record_changes::take_out(bytes, position, buffer)
}

// Take out the parts that have these numbers, together.
pub fn take_out_parts(bytes: &[u8], wanted: &[u64], buffer: &mut [u8]) -> Result<usize, Refusal>
    ensures { outcome result buffer.new ≡ changed_there take_out_group (parts_mask bytes.now wanted.now) bytes.now buffer.old }
{
    let group = mask_in(bytes, wanted)?;
    record_changes::take_out_group(bytes, group, buffer)
}

// Add the path set of the parts that have these numbers.
pub fn add_set_of_parts(bytes: &[u8], wanted: &[u64], buffer: &mut [u8]) -> Result<usize, Refusal>
    ensures { outcome result buffer.new ≡ changed_there add_set (parts_mask bytes.now wanted.now) bytes.now buffer.old }
{
    let mask = mask_in(bytes, wanted)?;
    record_changes::add_set(bytes, mask as u16, buffer)
}

// The mask of the parts that have these numbers.
fn mask_in(bytes: &[u8], wanted: &[u64]) -> Result<usize, Refusal>
    ensures { result ≡ parts_mask bytes.now wanted.now }
{
    let contents = record_editions::whole_record(bytes);
    contents.verdict?;
    let list = contents.list;
    let numbers = list.numbers;
    let count = list.count;
    record_naming::mask_of(&numbers[..count], wanted)
}
