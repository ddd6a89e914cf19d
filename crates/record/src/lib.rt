// Design records of edition 1 (01, "Records on disk"): read from a position, and walked set by set.
#![tactic(auto)]

ghost use Rattle.std.specs.Prelude.{◌≡◌, [], ◌+◌, ◌≤◌, ◌<◌};
ghost use Rattle.answer.specs.Outcome.{at, outcome, delivered};
ghost use Rattle.structure_words.specs.Words.{in_words};
ghost use Rattle.codec.specs.Reads.{refused, reading_of};
ghost use Rattle.codec.specs.FieldReads.{field_at};
ghost use Rattle.record.specs.Records.{sets_at, record_at};
ghost use Rattle.record.specs.Contents.{structure_words, with_words_of, table_of_words, step_at};
ghost use Rattle.record.specs.Inside.{sets_read_of, rising_refusal, rising_at, marked_of, nested_at};

use answer::{Reason, Refusal};
use codec::{Field, Standing};
use record_parts::PartList;

// What reading a record finds: its part list, the number of its sets, where their bytes begin and end, and the position after the record.
// Of a refused record: a list of no parts and an empty stretch at 0.
#[derive(Clone, Copy)]
pub struct Contents {
    pub list: PartList,
    pub sets: usize,
    pub begin: usize,
    pub end: usize,
    pub next: usize,
    pub verdict: Result<(), Refusal>,
}

// The contents of a record and the words of its structure: the bit of each set of its parts that holds one of its sets. Of a refused record
// all bits are 0.
#[derive(Drop)]
pub struct WithWords {
    pub contents: Contents,
    pub words: [u64; 1024],
}

// Where a walk along the sets of a record is: the position of the next set, and how many are left.
#[derive(Clone, Copy)]
pub struct Cursor {
    pub next: usize,
    pub left: usize,
}

// One step of such a walk: a set and the cursor behind it.
#[derive(Clone, Copy)]
pub struct Step {
    pub set: u64,
    pub cursor: Cursor,
}

// The sets up to the first that does not rise, or is refused for another reason than holding an earlier one: marked, counted, with the
// position after them and that refusal.
#[derive(Drop)]
struct Marked {
    words: [u64; 1024],
    read: usize,
    next: usize,
    verdict: Result<(), Refusal>,
}

// The words of the structure that the sets of a record give and where the sets end, or why they are refused.
#[derive(Drop)]
struct SetsRead {
    words: [u64; 1024],
    end: usize,
    verdict: Result<(), Refusal>,
}

// The contents and the structure of the record of edition 1 that stands at a position. What comes after it is not looked at.
pub fn read_with_words(bytes: &[u8], start: usize) -> WithWords
    ensures { result ≡ with_words_of (record_at bytes.now start) }
{
    let head = record_head::read_heading(bytes, start);
    match head {
        Err(refusal) => refused_with_words(refusal.reason, refusal.place),
        Ok(heading) => {
            let list = heading.list;
            let sets = heading.sets;
            let begin = heading.begin;
            let read = read_sets(bytes, begin, list.count, sets);
            let judged = read.verdict;
            match judged {
                Err(refusal) => refused_with_words(refusal.reason, refusal.place),
                Ok(()) => {
                    let end = read.end;
                    let words = read.words;
                    let contents = Contents {
                        list,
                        sets,
                        begin,
                        end,
                        next: end,
                        verdict: Ok(()),
                    };
                    WithWords { contents, words }
                }
            }
        }
    }
}

impl Cursor {
    // The set at the cursor and the cursor behind it, on the bytes that the walk began with; none at the end.
    pub fn step(self, bytes: &[u8]) -> Option<Step>
        ensures { result ≡ step_at bytes.now self }
    {
        let left = self.left;
        if left == 0 {
            return None;
        }
        let number = codec::read_number(bytes, self.next, Field::Set);
        match number {
            Err(_) => None,
            Ok(found) => Some(Step {
                set: found.value,
                cursor: Cursor {
                    next: found.next,
                    left: left - 1,
                },
            }),
        }
    }
}

// The table of a record that was read with its words, into a lent buffer.
pub fn store_table(read: WithWords, table: &mut [u8]) -> Result<usize, Refusal>
    ensures { outcome result table.new ≡ delivered read.contents.verdict (table_of_words read.contents.list.count read.words) table.old }
{
    let contents = read.contents;
    let verdict = contents.verdict;
    match verdict {
        Err(refusal) => Err(refusal),
        Ok(()) => {
            let list = contents.list;
            let words = read.words;
            structure::hand_out_table(list.count, &words, table)
        }
    }
}

// A set of n parts that rises above the one before it; whether it holds an earlier one is not asked here.
fn read_set(bytes: &[u8], start: usize, n: usize, previous: u64) -> Result<Standing<u64>, Refusal>
    requires { n ≤ 16 }
    ensures { result ≡ reading_of (field_at bytes.now start Field.Set (rising_refusal n previous start)) }
{
    let number = codec::read_number(bytes, start, Field::Set);
    match number {
        Err(refusal) => Err(refusal),
        Ok(Standing { value, next }) => {
            if numbers::power_of_two(n) as u64 <= value {
                return Err(Reason::UnknownPart.at(start));
            }
            if value == 0 {
                return Err(Reason::EmptySet.at(start));
            }
            if value <= previous {
                return Err(Reason::WrongSet.at(start));
            }
            Ok(Standing { value, next })
        }
    }
}

// Of a refused record, by its number and place.
pub fn refused_with_words(reason: Reason, place: usize) -> WithWords
    ensures { result ≡ with_words_of (refused (at reason place)) }
{
    let contents = Contents {
        list: PartList {
            count: 0,
            mark: 0,
            numbers: [0; PartList::MOST_PARTS],
        },
        sets: 0,
        begin: 0,
        end: 0,
        next: 0,
        verdict: Err(Refusal { reason, place }),
    };
    WithWords {
        contents,
        words: [0u64; 1024],
    }
}

// The sets of a record, so many of n parts from a position on: each is read and marked, then the marked sets are closed upwards, and a set
// that is not minimal among them is one that holds an earlier one.
fn read_sets(bytes: &[u8], start: usize, n: usize, count: usize) -> SetsRead
    requires { n ≤ 16 }
    ensures { result ≡ sets_read_of n (sets_at bytes.now n count [] start) }
{
    let marked = mark_sets(bytes, start, n, count);
    let words = marked.words;
    let reached = structure_closure::spread(&words, n);
    let minimal = structure_closure::irredundant(&reached, n);
    let nested = first_nested(bytes, start, marked.read, &minimal);
    if let Err(refusal) = nested {
        return refused_sets(refusal.reason, refusal.place);
    }
    let verdict = marked.verdict;
    match verdict {
        Err(refusal) => refused_sets(refusal.reason, refusal.place),
        Ok(()) => SetsRead {
            words: reached,
            end: marked.next,
            verdict: Ok(()),
        },
    }
}

fn refused_sets(reason: Reason, place: usize) -> SetsRead
    ensures { result ≡ record { words = structure_words 0 []; end = 0; verdict = Err (at reason place) } }
{
    SetsRead {
        words: [0u64; 1024],
        end: 0,
        verdict: Err(Refusal { reason, place }),
    }
}

// The first pass: sets in their order up to the first that is refused without regard to what it holds.
fn mark_sets(bytes: &[u8], start: usize, n: usize, count: usize) -> Marked
    requires { n ≤ 16 }
    ensures { result ≡ marked_of (rising_at bytes.now n count [] start) }
{
    let mut words = [0u64; 1024];
    let mut previous: u64 = 0;
    let mut next = start;
    for read in 0..count {
        let set = read_set(bytes, next, n, previous);
        match set {
            Err(refusal) => {
                return Marked {
                    words,
                    read,
                    next,
                    verdict: Err(refusal),
                };
            }
            Ok(Standing { value, next: after }) => {
                let at = value as usize / 64;
                words[at] |= 1 << (value % 64);
                previous = value;
                next = after;
            }
        }
    }
    Marked {
        words,
        read: count,
        next,
        verdict: Ok(()),
    }
}

// The second pass: 24 at the first of so many sets that is none of the minimal ones.
fn first_nested(bytes: &[u8], start: usize, count: usize, minimal: &[u64]) -> Result<(), Refusal>
    ensures { result ≡ nested_at bytes.now (in_words minimal.now) count start }
{
    let mut next = start;
    for index in 0..count {
        let number = codec::read_number(bytes, next, Field::Set);
        let Ok(Standing { value, next: after }) = number else {
            return Ok(());
        };
        if !structure_words::works(minimal, value as usize) {
            return Err(Reason::WrongSet.at(next));
        }
        next = after;
    }
    Ok(())
}
