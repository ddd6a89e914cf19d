// Changes of design records (01, "Records on disk"; 02, §2 and §8): records to start from, the four changes of record bytes, and conversions to
// the other edition. The whole record is checked as a reader checks it, then the change, then the new record is written in its edition.
#![tactic(auto)]

ghost use Rattle.std.specs.Prelude.{◌≡◌, [], ◌∷◌, ◌+◌, ◌*◌, ◌≤◌, length, take};
ghost use Rattle.numbers.specs.Tables.{tabulate};
ghost use Rattle.theory_sets.specs.Structures.{listed};
ghost use Rattle.theory_orders.specs.Formulas.{path_count};
ghost use Rattle.answer.specs.Outcome.{outcome, delivered};
ghost use Rattle.answer.specs.Placed.{placed};
ghost use Rattle.theory_orders.specs.Antichains.{most_sets};
ghost use Rattle.record_numbers.specs.Numbering.{most_parts, named};
ghost use Rattle.record_parts.specs.PartLists.{list_of, numbers_of, WellFormed};
ghost use Rattle.codec.specs.ByteForm.{forms_of};
ghost use Rattle.record.specs.Records.{design};
ghost use Rattle.record.specs.RecordBytes.{record_bytes, SetRules, DesignRules};
ghost use Rattle.record_retired.specs.Retired.{most_retired, filed_all, retired_of};
ghost use Rattle.record_tail.specs.TailBytes.{tail_bytes};
ghost use Rattle.record_editions.specs.declared.Edition.TheVariants.{First, Second};
ghost use Rattle.record_editions.specs.EditionBytes.{stored_bytes};
ghost use Rattle.record_lines.specs.Changes.{add_part, take_out, take_out_group, add_set, convert, sets_without, design_without, take_out_group_refusal};
ghost use Rattle.record_lines.specs.Records.{in_edition, changed_record, entered_record, first_record};
ghost use Rattle.record_changes.specs.Inside.{retired_numbers, second_bytes};

use answer::{Reason, Refusal};
use record_editions::Edition;
use record_parts::PartList;
use record_retired::Retired;

// Add part: position n+1, part number mark+1, in no set.
pub fn add_part(bytes: &[u8], buffer: &mut [u8]) -> Result<usize, Refusal>
    ensures { outcome result buffer.new ≡ changed_record add_part bytes.now buffer.old }
{
    let opened = record_opening::open_record(bytes);
    opened.verdict?;
    let old = opened.list;
    let changed = old.add();
    changed.answer?;
    let list = changed.list;
    let sets = opened.sets;
    let count = opened.count;
    let edition = opened.edition;
    let retired = opened.retired;
    write_stored(edition, list, &sets[..count], retired, buffer)
}

// Take out the part at a position: the group of that one part.
pub fn take_out(bytes: &[u8], position: usize, buffer: &mut [u8]) -> Result<usize, Refusal>
    ensures { outcome result buffer.new ≡ changed_record (take_out position) bytes.now buffer.old }
{
    let opened = record_opening::open_record(bytes);
    opened.verdict?;
    let list = opened.list;
    let n = list.count;
    if position == 0 {
        return Err(Reason::UnknownPosition.at(0));
    }
    if n < position {
        return Err(Reason::UnknownPosition.at(0));
    }
    let sets = opened.sets;
    let count = opened.count;
    let single = numbers::power_of_two(position - 1);
    let edition = opened.edition;
    let retired = opened.retired;
    write_without(edition, list, &sets[..count], retired, single, buffer)
}

// Take out the parts of a group, a mask of positions: the sets that name one of them go, the other parts move down past all that left, part
// numbers and mark stay.
pub fn take_out_group(bytes: &[u8], group: usize, buffer: &mut [u8]) -> Result<usize, Refusal>
    ensures { outcome result buffer.new ≡ changed_record (take_out_group group) bytes.now buffer.old }
{
    let opened = record_opening::open_record(bytes);
    opened.verdict?;
    let list = opened.list;
    let sets = opened.sets;
    let count = opened.count;
    let edition = opened.edition;
    let retired = opened.retired;
    write_without(edition, list, &sets[..count], retired, group, buffer)
}

// Add set: the minimal sets of the old ones and the new one.
pub fn add_set(bytes: &[u8], set: u16, buffer: &mut [u8]) -> Result<usize, Refusal>
    ensures { outcome result buffer.new ≡ changed_record (add_set set) bytes.now buffer.old }
{
    let opened = record_opening::open_record(bytes);
    opened.verdict?;
    let list = opened.list;
    let n = list.count;
    let count = opened.count;
    let edition = opened.edition;
    let retired = opened.retired;
    let mut minimal = [0u16; 12870];
    let left = record_sets::minimal_with(n, &opened.sets[..count], set, &mut minimal)?;
    write_stored(edition, list, &minimal[..left], retired, buffer)
}

// The record in edition 1, where it has no retired numbers.
pub fn to_edition_1(bytes: &[u8], buffer: &mut [u8]) -> Result<usize, Refusal>
    ensures { outcome result buffer.new ≡ changed_record (convert First) bytes.now buffer.old }
{
    let opened = record_opening::open_record(bytes);
    opened.verdict?;
    let retired = opened.retired;
    if retired.count != 0 {
        return Err(Reason::RetiredPresent.at(0));
    }
    let list = opened.list;
    let sets = opened.sets;
    let count = opened.count;
    write_stored(Edition::First, list, &sets[..count], retired, buffer)
}

// The record in edition 2: from edition 1 it comes with no retired numbers.
pub fn to_edition_2(bytes: &[u8], buffer: &mut [u8]) -> Result<usize, Refusal>
    ensures { outcome result buffer.new ≡ changed_record (convert Second) bytes.now buffer.old }
{
    let opened = record_opening::open_record(bytes);
    opened.verdict?;
    let list = opened.list;
    let sets = opened.sets;
    let count = opened.count;
    let retired = opened.retired;
    write_stored(Edition::Second, list, &sets[..count], retired, buffer)
}

// A record of parts that already have numbers, from these and the mark, which is the highest number ever issued, and a list of sets over the
// positions of the numbers: these numbers, this mark, the minimal sets.
pub fn entered_record(
    mark: u64,
    numbers: &[u64],
    list: &[u16],
    buffer: &mut [u8],
) -> Result<usize, Refusal>
    ensures { outcome result buffer.new ≡ entered_record mark numbers.now list.now buffer.old }
{
    let mut sets = [0u16; 12870];
    let count = record_sets::minimal_of_list(numbers.len(), list, &mut sets)?;
    record_numbers::judge(mark, numbers)?;
    write_record(mark, numbers, &sets[..count], buffer)
}

// A first record, from the number of parts and a list of sets: part numbers 1 to n, mark n, the minimal sets.
pub fn first_record(n: usize, list: &[u16], buffer: &mut [u8]) -> Result<usize, Refusal>
    ensures { outcome result buffer.new ≡ first_record n list.now buffer.old }
{
    if record_numbers::MOST_PARTS < n {
        return Err(Reason::WrongPartCount.at(0));
    }
    let numbers: [u64; 16] = [1, 2, 3, 4, 5, 6, 7, 8, 9, 10, 11, 12, 13, 14, 15, 16];
    entered_record(n as u64, &numbers[..n], list, buffer)
}

// Writes the record without the parts of a group, whose numbers are filed, or says what refuses the group or how many bytes it needs.
fn write_without(
    edition: Edition,
    list: PartList,
    sets: &[u16],
    retired: Retired,
    group: usize,
    buffer: &mut [u8],
) -> Result<usize, Refusal>
    requires design_rules { DesignRules (design list sets.now) }
    requires count_le_most_retired { retired.count ≤ most_retired }
    requires count_in_bounds { retired.count ≤ length retired.numbers }
    ensures { outcome result buffer.new ≡ delivered (take_out_group_refusal group (design list sets.now)) (stored_bytes (in_edition edition (design_without group (design list sets.now)) (filed_all (named (numbers_of list) group) (retired_numbers retired)))) buffer.old }
{
    let listed = list.take_out_group(group);
    listed.verdict?;
    let others = listed.list;
    let mut kept = [0u16; 12870];
    let left = sets_left(sets, group, &mut kept);
    if left == 0 {
        return Err(Reason::InEverySet.at(0));
    }
    let filed = file_group(list, retired, group);
    write_stored(edition, others, &kept[..left], filed, buffer)
}

// The retired numbers with those of a group of the part list.
fn file_group(list: PartList, retired: Retired, group: usize) -> Retired
    requires well_formed { WellFormed list }
    requires count_le_most_retired { retired.count ≤ most_retired }
    requires count_in_bounds { retired.count ≤ length retired.numbers }
    ensures { result ≡ retired_of (filed_all (named (numbers_of list) group) (retired_numbers retired)) }
{
    let numbers = list.numbers;
    let count = list.count;
    let earlier = retired.numbers;
    let filed = retired.count;
    record_retired::filed_group(&earlier[..filed], &numbers[..count], group)
}

// The sets that have no part of a group, with higher positions moved down, into a local array, and how many they are.
fn sets_left(sets: &[u16], group: usize, kept: &mut [u16]) -> usize
    requires { length sets.now ≤ length kept.old }
    ensures { outcome (Ok result) kept.new ≡ delivered (Ok tt) (sets_without group sets.now) kept.old }
{
    let written = record_sets::sets_without(sets, group, kept);
    match written {
        Err(_) => 0,
        Ok(left) => left,
    }
}

// Writes the record of this part list and these minimal sets in an edition into a lent buffer, in edition 2 with these retired numbers, or says
// how many bytes it needs.
fn write_stored(
    edition: Edition,
    list: PartList,
    sets: &[u16],
    retired: Retired,
    buffer: &mut [u8],
) -> Result<usize, Refusal>
    requires design_rules { DesignRules (design list sets.now) }
    requires count_le_most_retired { retired.count ≤ most_retired }
    requires count_in_bounds { retired.count ≤ length retired.numbers }
    ensures { outcome result buffer.new ≡ delivered (Ok tt) (stored_bytes (in_edition edition (design list sets.now) (retired_numbers retired))) buffer.old }
{
    let numbers = list.numbers;
    let n = list.count;
    let filed = retired.numbers;
    let count = retired.count;
    match edition {
        Edition::First => write_record(list.mark, &numbers[..n], sets, buffer),
        Edition::Second => {
            let counts = fresh_counts(n, sets);
            write_second(
                list.mark,
                &numbers[..n],
                sets,
                &filed[..count],
                &counts[..n + 1],
                buffer,
            )
        }
    }
}

// The path counts of n parts and these minimal sets, in front of the cells.
fn fresh_counts(n: usize, sets: &[u16]) -> [u64; 17]
    requires set_rules { SetRules n sets.now }
    requires n_le_most_parts { n ≤ most_parts }
    ensures { take (n + 1) result ≡ tabulate (n + 1) (path_count n (listed sets.now)) }
{
    let marks = structure_words::marked(sets);
    let words = structure_closure::spread(&marks, n);
    figures_counts::counts_by_size(&words)
}

// Writes the record with this mark, these part numbers and these sets into a lent buffer, or says how many bytes it needs.
fn write_record(
    mark: u64,
    numbers: &[u64],
    sets: &[u16],
    buffer: &mut [u8],
) -> Result<usize, Refusal>
    requires numbers_len_bound { length numbers.now ≤ most_parts }
    requires sets_len_bound { length sets.now ≤ most_sets }
    ensures { outcome result buffer.new ≡ delivered (Ok tt) (record_bytes (design (list_of mark numbers.now) sets.now)) buffer.old }
{
    let needed = record_length(mark, numbers, sets);
    if buffer.len() < needed {
        return Err(Reason::ShortBuffer.at(needed));
    }
    let end = write_pieces(mark, numbers, sets, buffer, 0);
    Ok(end)
}

// Writes the record of edition 2 with these retired numbers and these path counts behind the sets into a lent buffer, or says how many bytes it
// needs.
fn write_second(
    mark: u64,
    numbers: &[u64],
    sets: &[u16],
    retired: &[u64],
    counts: &[u64],
    buffer: &mut [u8],
) -> Result<usize, Refusal>
    requires numbers_len_bound { length numbers.now ≤ most_parts }
    requires sets_len_bound { length sets.now ≤ most_sets }
    requires retired_len_bound { length retired.now ≤ most_retired }
    requires counts_len_bound { length counts.now ≤ most_retired }
    ensures { outcome result buffer.new ≡ delivered (Ok tt) (second_bytes (design (list_of mark numbers.now) sets.now) retired.now counts.now) buffer.old }
{
    let body = record_length(mark, numbers, sets);
    let whole = 2 + body + tail_length(retired, counts);
    if buffer.len() < whole {
        return Err(Reason::ShortBuffer.at(whole));
    }
    let begin = write_edition(buffer);
    let middle = write_pieces(mark, numbers, sets, buffer, begin);
    let end = write_tail(buffer, middle, retired, counts);
    Ok(end)
}

// Writes the numbers 0 and 2 in front of a buffer.
fn write_edition(buffer: &mut [u8]) -> usize
    requires { 2 ≤ length buffer.old }
    ensures { outcome result buffer.new ≡ placed buffer.old 0 (0 ∷ 2 ∷ []) }
{
    buffer[..2].copy_from_slice(&[0, 2]);
    2
}

// Writes that record of edition 1 from a position on, where there is room for all of it, and answers the position after it.
fn write_pieces(mark: u64, numbers: &[u64], sets: &[u16], buffer: &mut [u8], at: usize) -> usize
    requires { at + length (record_bytes (design (list_of mark numbers.now) sets.now)) ≤ length buffer.old }
    ensures { outcome result buffer.new ≡ placed buffer.old at (record_bytes (design (list_of mark numbers.now) sets.now)) }
{
    let first = codec::write_number(buffer, at, numbers.len() as u64);
    let second = codec::write_number(buffer, first, mark);
    let third = write_numbers(buffer, second, numbers);
    let fourth = codec::write_number(buffer, third, sets.len() as u64);
    write_sets(buffer, fourth, sets)
}

// Writes retired numbers and path counts from a position on, where there is room for all of them, and answers the position after them.
fn write_tail(buffer: &mut [u8], at: usize, retired: &[u64], counts: &[u64]) -> usize
    requires { at + length (tail_bytes retired.now counts.now) ≤ length buffer.old }
    ensures { outcome result buffer.new ≡ placed buffer.old at (tail_bytes retired.now counts.now) }
{
    let first = codec::write_number(buffer, at, retired.len() as u64);
    let second = write_numbers(buffer, first, retired);
    write_numbers(buffer, second, counts)
}

// How many bytes these take.
#[tactic(auto, using(crate::proofs::Writing::tail_length, crate::proofs::Writing::bytes_ten))]
fn tail_length(retired: &[u64], counts: &[u64]) -> usize
    requires retired_len_bound { length retired.now ≤ most_retired }
    requires counts_len_bound { length counts.now ≤ most_retired }
    ensures value { result ≡ length (tail_bytes retired.now counts.now) }
    ensures upper_bound { result ≤ 1290 }
{
    codec::number_length(retired.len() as u64) + numbers_length(retired) + numbers_length(counts)
}

// How many bytes that record takes.
#[tactic(auto, using(crate::proofs::Writing::record_length, crate::proofs::Writing::bytes_ten))]
fn record_length(mark: u64, numbers: &[u64], sets: &[u16]) -> usize
    requires numbers_len_bound { length numbers.now ≤ most_parts }
    requires sets_len_bound { length sets.now ≤ most_sets }
    ensures value { result ≡ length (record_bytes (design (list_of mark numbers.now) sets.now)) }
    ensures upper_bound { result ≤ 38800 }
{
    codec::number_length(numbers.len() as u64)
        + codec::number_length(mark)
        + numbers_length(numbers)
        + codec::number_length(sets.len() as u64)
        + sets_length(sets)
}

// How many bytes these sets take in a record.
fn sets_length(sets: &[u16]) -> usize
    requires { length sets.now ≤ most_sets }
    ensures value { result ≡ length (forms_of sets.now) }
    ensures upper_bound { result ≤ 3 * length sets.now }
{
    sets.iter()
        .map(|&set| codec::number_length(u64::from(set)))
        .sum()
}

// Writes these sets from a position on, where there is room for all of them, and answers the position after them.
fn write_sets(buffer: &mut [u8], at: usize, sets: &[u16]) -> usize
    requires { at + length (forms_of sets.now) ≤ length buffer.old }
    ensures { outcome result buffer.new ≡ placed buffer.old at (forms_of sets.now) }
{
    let mut next = at;
    for &set in sets {
        next = codec::write_number(buffer, next, u64::from(set));
    }
    next
}

// How many bytes these numbers take in a record.
fn numbers_length(numbers: &[u64]) -> usize
    requires { length numbers.now ≤ most_retired }
    ensures value { result ≡ length (forms_of numbers.now) }
    ensures upper_bound { result ≤ 10 * length numbers.now }
{
    numbers
        .iter()
        .map(|&number| codec::number_length(number))
        .sum()
}

// Writes these numbers from a position on, where there is room for all of them, and answers the position after them.
fn write_numbers(buffer: &mut [u8], at: usize, numbers: &[u64]) -> usize
    requires { at + length (forms_of numbers.now) ≤ length buffer.old }
    ensures { outcome result buffer.new ≡ placed buffer.old at (forms_of numbers.now) }
{
    let mut next = at;
    for &number in numbers {
        next = codec::write_number(buffer, next, number);
    }
    next
}
