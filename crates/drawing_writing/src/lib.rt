// A design record of either edition as a text of the drawing tool (02, §1): the text's length is worked out first, and it is written where there
// is room for all of it.
#![tactic(auto)]

ghost use Rattle.std.specs.Prelude.{◌≡◌, [], ◌∷◌, ◌+◌, ◌≤◌, ◌<◌, length};
ghost use Rattle.answer.specs.Outcome.{outcome, delivered};
ghost use Rattle.answer.specs.Placed.{placed};
ghost use Rattle.theory_orders.specs.Antichains.{most_sets};
ghost use Rattle.record_numbers.specs.Numbering.{most_parts};
ghost use Rattle.drawing_text.specs.Lines.{line_feed};
ghost use Rattle.drawing_text.specs.Forms.{parts_word, set_word, spaced, line_of};
ghost use Rattle.drawing_text.specs.Sets.{positions_of};
ghost use Rattle.drawing_text.specs.Writing.{lines_of_sets, drawing_of_record, text_of};

use answer::{Reason, Refusal};

// The text of a record's design, into a lent buffer: its number of parts, and its sets. No text is longer than 553,419 bytes.
pub fn drawing_of_record(bytes: &[u8], buffer: &mut [u8]) -> Result<usize, Refusal>
    ensures { outcome result buffer.new ≡ drawing_of_record bytes.now buffer.old }
{
    let opened = record_opening::open_record(bytes);
    opened.verdict?;
    let list = opened.list;
    let sets = opened.sets;
    let count = opened.count;
    write_text(list.count, &sets[..count], buffer)
}

// Writes the text of n parts and these sets into a lent buffer, or says how many bytes it needs.
fn write_text(n: usize, sets: &[u16], buffer: &mut [u8]) -> Result<usize, Refusal>
    requires n_le_most_parts { n ≤ most_parts }
    requires sets_len_bound { length sets.now ≤ most_sets }
    ensures { outcome result buffer.new ≡ delivered (Ok tt) (text_of n sets.now) buffer.old }
{
    let needed = parts_line_length(n) + set_lines_length(sets);
    if buffer.len() < needed {
        return Err(Reason::ShortBuffer.at(needed));
    }
    let first = put_parts_line(buffer, n);
    let end = put_set_lines(buffer, first, sets);
    Ok(end)
}

// How many bytes the first line takes.
#[tactic(auto, using(drawing_text::proofs::Lengths::parts_line_digit, drawing_text::proofs::Lengths::parts_line_ten))]
fn parts_line_length(n: usize) -> usize
    requires { n ≤ most_parts }
    ensures { result ≡ length (line_of parts_word (n ∷ [])) }
{
    if n < 10 { 8 } else { 9 }
}

// How many bytes the lines of these sets take.
fn set_lines_length(sets: &[u16]) -> usize
    requires { length sets.now ≤ most_sets }
    ensures { result ≡ length (lines_of_sets sets.now) }
{
    sets.iter().map(|&set| set_line_length(set)).sum()
}

// How many bytes the line of a set takes: four for the keyword and the line feed, two for each position, and one more for each from 10 on.
#[tactic(auto, using(drawing_text::proofs::Lengths::set_line_length))]
fn set_line_length(set: u16) -> usize
    ensures { result ≡ length (line_of set_word (positions_of set)) }
{
    let all = usize::from(set);
    4 + 2 * masks::size(all) + masks::size(all / 512)
}

// Puts the first line in front, where there is room for it, and answers the position after it.
fn put_parts_line(text: &mut [u8], n: usize) -> usize
    requires n_le_most_parts { n ≤ most_parts }
    requires n_in_bounds { length (line_of parts_word (n ∷ [])) ≤ length text.old }
    ensures { outcome result text.new ≡ placed text.old 0 (line_of parts_word (n ∷ [])) }
{
    let word = text::put(text, 0, b"parts");
    let number = put_number(text, word, n);
    end_line(text, number)
}

// Puts the lines of these sets from a position on, where there is room for all of them, and answers the position after them.
fn put_set_lines(text: &mut [u8], at: usize, sets: &[u16]) -> usize
    requires { at + length (lines_of_sets sets.now) ≤ length text.old }
    ensures { outcome result text.new ≡ placed text.old at (lines_of_sets sets.now) }
{
    let mut next = at;
    for &set in sets {
        next = put_set_line(text, next, set);
    }
    next
}

// Puts the line of a set.
fn put_set_line(text: &mut [u8], at: usize, set: u16) -> usize
    requires { at + length (line_of set_word (positions_of set)) ≤ length text.old }
    ensures { outcome result text.new ≡ placed text.old at (line_of set_word (positions_of set)) }
{
    let word = text::put(text, at, b"set");
    let positions = put_positions(text, word, set);
    end_line(text, positions)
}

// Puts the positions of a set, each behind a space.
fn put_positions(text: &mut [u8], at: usize, set: u16) -> usize
    requires { at + length (spaced (positions_of set)) ≤ length text.old }
    ensures { outcome result text.new ≡ placed text.old at (spaced (positions_of set)) }
{
    let mut next = at;
    for i in 0..16 {
        let position = i + 1;
        if (set >> (position - 1)) % 2 == 1 {
            next = put_number(text, next, position);
        }
    }
    next
}

// Puts a number of one digit, or of two of which the first is 1, behind a space, where there is room for it.
fn put_number(text: &mut [u8], at: usize, number: usize) -> usize
    requires number_bound { number < 20 }
    requires number_in_bounds { at + length (spaced (number ∷ [])) ≤ length text.old }
    ensures { outcome result text.new ≡ placed text.old at (spaced (number ∷ [])) }
{
    text[at] = b' ';
    if number < 10 {
        text[at + 1] = b'0' + number as u8;
        return at + 2;
    }
    text[at + 1] = b'1';
    text[at + 2] = b'0' + (number - 10) as u8;
    at + 3
}

// Puts the line feed that ends a line.
fn end_line(text: &mut [u8], at: usize) -> usize
    requires { at < length text.old }
    ensures { outcome result text.new ≡ placed text.old at (line_feed ∷ []) }
{
    text[at] = b'\n';
    at + 1
}
