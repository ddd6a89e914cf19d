// A text of the drawing tool as a design record (02, §1). The text is read once, line by line: a byte that fits no form ends the reading, and
// what refuses a line of the form is known at its end.
#![tactic(auto)]

ghost use Rattle.std.specs.Prelude.{true, ◌≡◌, [], map, ◌+◌, ◌*◌, ◌^◌, ◌≤◌, ◌<◌, length, get_or, take, drop};
ghost use Rattle.answer.specs.Outcome.{at, outcome};
ghost use Rattle.drawing_text.specs.Lines.{lines_of, first_line};
ghost use Rattle.drawing_text.specs.Forms.{same_bytes};
ghost use Rattle.drawing_text.specs.Drawings.{set_on, set_lines_refusal, drawing_refusal, drawn_parts, drawn_sets, record_of_drawing};
ghost use Rattle.drawing_reading.specs.Inside.{digit_at, held, numeral_at, parts_at, with_position, gathered_line, set_line_of, drawn_or};

use answer::{Reason, Refusal};
use codec::Standing;

// The positions of a set line so far: their set, whether one is no position of the machine, and whether one of the machine's stood twice.
#[derive(Drop)]
struct Gathered {
    set: u16,
    unknown: bool,
    repeated: bool,
}

// What a text says: the number of parts, and the sets, one a line, in front of an array. Of a refused text: no parts and no sets.
#[derive(Drop)]
struct Drawn {
    parts: usize,
    count: usize,
    sets: [u16; 12870],
    verdict: Result<(), Refusal>,
}

// The record of a drawing's text, into a lent buffer: one of edition 1, with part numbers 1 to n, mark n, the minimal sets.
pub fn record_of_drawing(text: &[u8], buffer: &mut [u8]) -> Result<usize, Refusal>
    ensures { outcome result buffer.new ≡ record_of_drawing text.now buffer.old }
{
    let drawn = read_drawing(text);
    drawn.verdict?;
    let sets = drawn.sets;
    let count = drawn.count;
    record_changes::first_record(drawn.parts, &sets[..count], buffer)
}

// All lines of a text.
fn read_drawing(text: &[u8]) -> Drawn
    ensures { result ≡ drawn_or (drawing_refusal text.now) (drawn_parts text.now) (drawn_sets text.now) }
{
    let Some(parts) = read_parts_line(text) else {
        return refused(Reason::WrongLine, 1);
    };
    let n = parts.value;
    if n == 0 {
        return refused(Reason::WrongPartCount, 1);
    }
    if 16 < n {
        return refused(Reason::WrongPartCount, 1);
    }
    let next = parts.next;
    if text.len() <= next {
        return refused(Reason::EmptyList, 1);
    }
    read_set_lines(text, next, n)
}

// The set lines from a position on, the first of which is line 2.
fn read_set_lines(text: &[u8], start: usize, n: usize) -> Drawn
    requires { n ≤ 16 }
    ensures { result ≡ drawn_or (set_lines_refusal n 2 (lines_of (drop start text.now))) n (map set_on (lines_of (drop start text.now))) }
{
    let mut sets = [0u16; 12870];
    let mut count = 0;
    let mut next = start;
    while next < text.len() {
        if count == 12870 {
            return refused(Reason::LongList, count + 2);
        }
        let line = read_set_line(text, next, n);
        match line {
            Err(reason) => {
                return refused(reason, count + 2);
            }
            Ok(read) => {
                sets[count] = read.value;
                count += 1;
                next = read.next;
            }
        }
    }
    Drawn {
        parts: n,
        count,
        sets,
        verdict: Ok(()),
    }
}

// The answer where a line refuses the text.
fn refused(reason: Reason, line: usize) -> Drawn
    ensures { result ≡ drawn_or (Err (at reason line)) 0 [] }
{
    Drawn {
        parts: 0,
        count: 0,
        sets: [0u16; 12870],
        verdict: Err(Refusal {
            reason,
            place: line,
        }),
    }
}

// The number on the first line and the position behind it: the keyword `parts`, a space, a number and a line feed; none for another form.
fn read_parts_line(text: &[u8]) -> Option<Standing<usize>>
    ensures { result ≡ parts_at text.now }
{
    if !stands(text, 0, b"parts") {
        return None;
    }
    if byte_at(text, 5) != b' ' {
        return None;
    }
    let number = read_numeral(text, 6)?;
    if byte_at(text, number.next) != b'\n' {
        return None;
    }
    Some(Standing {
        value: number.value,
        next: number.next + 1,
    })
}

// A set line at a position, its set and the position behind it: the keyword `set`, a space and a number for each position, and a line feed; or
// why it is refused.
fn read_set_line(text: &[u8], start: usize, n: usize) -> Result<Standing<u16>, Reason>
    requires n_bound { n ≤ 16 }
    requires start_in_bounds { start ≤ length text.now }
    ensures { result ≡ set_line_of n (first_line (drop start text.now)) start }
{
    if !stands(text, start, b"set") {
        return Err(Reason::WrongLine);
    }
    let first = start + 3;
    let mut next = first;
    let mut gathered = Gathered {
        set: 0,
        unknown: false,
        repeated: false,
    };
    while byte_at(text, next) == b' ' {
        let Some(number) = read_numeral(text, next + 1) else {
            return Err(Reason::WrongLine);
        };
        gathered = gathered.with(number.value, n);
        next = number.next;
    }
    if next == first {
        return Err(Reason::WrongLine);
    }
    if byte_at(text, next) != b'\n' {
        return Err(Reason::WrongLine);
    }
    gathered.line(next + 1)
}

impl Gathered {
    // One position more, of n.
    fn with(self, position: usize, n: usize) -> Gathered
        requires n_bound { n ≤ 16 }
        requires set_bound { self.set < 2 ^ n }
        ensures { result ≡ with_position n self position }
    {
        if position == 0 {
            return self.with_unknown();
        }
        if n < position {
            return self.with_unknown();
        }
        let set = self.set;
        let part = numbers::power_of_two(position - 1);
        if masks::meets(set, part) {
            return Gathered {
                set,
                unknown: self.unknown,
                repeated: true,
            };
        }
        let more = set as usize + part;
        Gathered {
            set: more as u16,
            unknown: self.unknown,
            repeated: self.repeated,
        }
    }

    // One position more, which the machine lacks.
    fn with_unknown(self) -> Gathered
        ensures { result ≡ record { set = self.set; unknown = true; repeated = self.repeated } }
    {
        Gathered {
            set: self.set,
            unknown: true,
            repeated: self.repeated,
        }
    }

    // The line on which these are all positions: 17 before 28.
    fn line(self, next: usize) -> Result<Standing<u16>, Reason>
        ensures { result ≡ gathered_line self next }
    {
        if self.unknown {
            return Err(Reason::UnknownPosition);
        }
        if self.repeated {
            return Err(Reason::RepeatedPosition);
        }
        Ok(Standing {
            value: self.set,
            next,
        })
    }
}

// The number at a position, held at 100 from there on, and the position after it: at least one digit, and no 0 in front of others.
fn read_numeral(text: &[u8], start: usize) -> Option<Standing<usize>>
    ensures { result ≡ numeral_at (drop start text.now) start }
{
    let mut value = 0;
    let mut next = start;
    let mut digit = digit_at(text, next);
    while digit < 10 {
        value = with_digit(value, digit);
        next += 1;
        digit = digit_at(text, next);
    }
    if next == start {
        return None;
    }
    if digit_at(text, start) == 0 {
        if start + 1 < next {
            return None;
        }
    }
    Some(Standing { value, next })
}

// A number with one digit more, held at 100.
fn with_digit(value: usize, digit: usize) -> usize
    requires value_bound { value ≤ 100 }
    requires digit_bound { digit < 10 }
    ensures { result ≡ held (10 * value + digit) }
{
    (10 * value + digit).min(100)
}

// What the digit at a position stands for, and 10 where there is none.
fn digit_at(text: &[u8], at: usize) -> usize
    ensures { result ≡ digit_at text.now at }
{
    match byte_at(text, at) {
        byte @ b'0'..=b'9' => usize::from(byte - b'0'),
        _ => 10,
    }
}

// The byte at a position, and 0, which stands in no form, behind the last.
fn byte_at(text: &[u8], at: usize) -> u8
    ensures { result ≡ get_or text.now at 0 }
{
    text.get(at).copied().unwrap_or(0)
}

// Whether a keyword stands at a position.
#[tactic(auto, using(crate::proofs::Keywords::word_found))]
fn stands(text: &[u8], at: usize, word: &[u8]) -> bool
    requires { at ≤ length text.now }
    ensures { result ≡ same_bytes (take (length word.now) (drop at text.now)) word.now }
{
    text[at..].starts_with(word)
}
