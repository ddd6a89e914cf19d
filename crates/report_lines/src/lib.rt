// The lines of a report (01, "The report program"), each built in an array that has room for it and then put whole.
#![tactic(auto)]

ghost use Rattle.std.specs.Prelude.{◌≡◌, ◌++◌, ◌+◌, ◌≤◌, length};
ghost use Rattle.answer.specs.Outcome.{at, outcome, delivered};
ghost use Rattle.answer.specs.Placed.{placed};
ghost use Rattle.text.specs.Texts.{decimal, signed};
ghost use Rattle.report_lines.specs.Lines.{head_line, rest_of_line, refused_line};

use answer::Refusal;

// Puts the first line at a position.
pub fn put_first_line(text: &mut [u8], at: usize, parts: usize, sets: usize, mark: u64) -> usize
    ensures { outcome result text.new ≡ placed text.old at (head_line parts sets mark) }
{
    let mut line = [0u8; 80];
    let numbered = put_number(&mut line, 0, b"parts ", parts as u64);
    let counted = put_number(&mut line, numbered, b" sets ", sets as u64);
    let marked = put_number(&mut line, counted, b" mark ", mark);
    let end = text::put(&mut line, marked, b"\n");
    text::put(text, at, &line[..end])
}

// Puts a number and a signed figure, which end the line of a word.
pub fn put_figure(text: &mut [u8], at: usize, number: u64, figure: i64) -> usize
    ensures { outcome result text.new ≡ placed text.old at (rest_of_line number (signed figure)) }
{
    let mut line = [0u8; 48];
    let numbered = put_number(&mut line, 0, b" ", number);
    let spaced = text::put(&mut line, numbered, b" ");
    let figured = text::put_signed(&mut line, spaced, figure);
    let end = text::put(&mut line, figured, b"\n");
    text::put(text, at, &line[..end])
}

// Puts a number and a count, which end the line of a word.
pub fn put_count(text: &mut [u8], at: usize, number: u64, count: u64) -> usize
    ensures { outcome result text.new ≡ placed text.old at (rest_of_line number (decimal count)) }
{
    let mut line = [0u8; 48];
    let numbered = put_number(&mut line, 0, b" ", number);
    let counted = put_number(&mut line, numbered, b" ", count);
    let end = text::put(&mut line, counted, b"\n");
    text::put(text, at, &line[..end])
}

// The one line of a refusal, into a lent buffer. No such line is longer than 64 bytes.
pub fn refused_line(number: u8, place: usize, text: &mut [u8]) -> Result<usize, Refusal>
    ensures text_after { outcome result text.new ≡ delivered (Ok tt) (refused_line number place) text.old }
    ensures place_len_bound { length (refused_line number place) ≤ 64 }
{
    let mut line = [0u8; 64];
    let worded = text::put(&mut line, 0, b"refused");
    let end = put_count(&mut line, worded, number as u64, place as u64);
    answer::hand_out(&line[..end], text)
}

// Puts a word and a number behind it, where there is room for both.
fn put_number(line: &mut [u8], at: usize, word: &[u8], number: u64) -> usize
    requires { at + (length word.now + 20) ≤ length line.old }
    ensures { outcome result line.new ≡ placed line.old at (word.now ++ decimal number) }
{
    let worded = text::put(line, at, word);
    text::put_decimal(line, worded, number)
}
