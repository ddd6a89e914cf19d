// Design records of either edition (01, "Records on disk"; 02, §8): read from a position, and checked whole. In edition 2 the numbers 0 and 2
// stand in front of the fields of edition 1, and the retired numbers and the path counts behind them.
#![tactic(auto)]

ghost use Rattle.std.specs.Prelude.{◌≡◌, ◌+◌, ◌≤◌, length};
ghost use Rattle.answer.specs.Outcome.{outcome, delivered};
ghost use Rattle.theory_sets.specs.Structures.{listed};
ghost use Rattle.theory_sets.specs.Tables.{table_of};
ghost use Rattle.record_numbers.specs.Numbering.{most_parts};
ghost use Rattle.record.specs.Contents.{stretch_of};
ghost use Rattle.record_editions.specs.Editions.{second_there, stored_at};
ghost use Rattle.record_editions.specs.Contents.{contents_at, whole_contents, record_refusal, design_in, whole_with_words, first_cursor, stored_read_of, whole_stored_read, edition_given, retired_given, end_given};
ghost use Rattle.record_editions.specs.Inside.{first_read, behind_at, second_read};

use answer::{Reason, Refusal};
use record::{Contents, Cursor, WithWords};
use record_retired::Retired;

// The edition of a record.
#[derive(Clone, Copy)]
pub enum Edition {
    First,
    Second,
}

// What reading a record finds: its contents and the words of its structure, its edition, and its retired numbers, of which edition 1 has none.
#[derive(Drop)]
pub struct StoredRead {
    pub body: WithWords,
    pub edition: Edition,
    pub retired: Retired,
}

// The contents of the record that stands at a position. What comes after it is not looked at.
pub fn read_record(bytes: &[u8], start: usize) -> Contents
    ensures { result ≡ contents_at bytes.now start }
{
    let read = read_stored(bytes, start);
    let body = read.body;
    body.contents
}

// The contents of the record that the bytes are.
pub fn whole_record(bytes: &[u8]) -> Contents
    ensures { result ≡ whole_contents bytes.now }
{
    let read = whole_with_words(bytes);
    read.contents
}

// The contents of the record that the bytes are and the words of its structure, from one reading.
pub fn whole_with_words(bytes: &[u8]) -> WithWords
    ensures { result ≡ whole_with_words bytes.now }
{
    let read = whole_stored(bytes);
    read.body
}

// All that the record that the bytes are says, from one reading.
pub fn whole_stored(bytes: &[u8]) -> StoredRead
    ensures { result ≡ whole_stored_read bytes.now }
{
    let read = read_stored(bytes, 0);
    let contents = read.body.contents;
    let verdict = contents.verdict;
    match verdict {
        Err(_) => read,
        Ok(()) => {
            let next = contents.next;
            if next < bytes.len() {
                return first_edition(record::refused_with_words(Reason::BytesLeft, next));
            }
            read
        }
    }
}

// The bytes that carry a record's sets: a part of the very slice that is handed in, and empty for a refused record.
pub fn sets_of(bytes: &[u8]) -> &[u8]
    ensures result_value { result.now ≡ stretch_of (whole_contents bytes.now) bytes.now }
    ensures ref_ptr_value { result.ref_ptr ≡ (bytes.entry.ref_ptr.0, bytes.entry.ref_ptr.1 + (whole_contents bytes.now).begin) }
{
    let contents = whole_record(bytes);
    let begin = contents.begin;
    let end = contents.end;
    &bytes[begin..end]
}

// At the first set of a record; no set is left of a refused one.
pub fn first_cursor(bytes: &[u8]) -> Cursor
    ensures { result ≡ first_cursor bytes.now }
{
    let contents = whole_record(bytes);
    Cursor {
        next: contents.begin,
        left: contents.sets,
    }
}

// The table of a record, into a lent buffer.
pub fn table_of_record(bytes: &[u8], table: &mut [u8]) -> Result<usize, Refusal>
    ensures { outcome result table.new ≡ delivered (record_refusal bytes.now) (table_of (design_in bytes.now).parts.count (listed (design_in bytes.now).sets)) table.old }
{
    record::store_table(whole_with_words(bytes), table)
}

// The edition of a record: 1 or 2.
pub fn edition_of(bytes: &[u8]) -> Result<usize, Refusal>
    ensures { result ≡ edition_given bytes.now }
{
    let read = whole_stored(bytes);
    let body = read.body;
    let contents = body.contents;
    let verdict = contents.verdict;
    if let Err(refusal) = verdict {
        return Err(refusal);
    }
    let edition = read.edition;
    match edition {
        Edition::First => Ok(1),
        Edition::Second => Ok(2),
    }
}

// The retired numbers of a record, into a lent buffer.
pub fn retired_of(bytes: &[u8], buffer: &mut [u64]) -> Result<usize, Refusal>
    ensures { outcome result buffer.new ≡ retired_given bytes.now buffer.old }
{
    let read = whole_stored(bytes);
    let body = read.body;
    let contents = body.contents;
    let verdict = contents.verdict;
    if let Err(refusal) = verdict {
        return Err(refusal);
    }
    let retired = read.retired;
    let numbers = retired.numbers;
    let count = retired.count;
    answer::hand_out(&numbers[..count], buffer)
}

// The position after the record that stands at a position.
pub fn record_end(bytes: &[u8], start: usize) -> Result<usize, Refusal>
    ensures { result ≡ end_given bytes.now start }
{
    let contents = read_record(bytes, start);
    let verdict = contents.verdict;
    if let Err(refusal) = verdict {
        return Err(refusal);
    }
    Ok(contents.next)
}

// All that the record at a position says.
fn read_stored(bytes: &[u8], start: usize) -> StoredRead
    ensures { result ≡ stored_read_of (stored_at bytes.now start) }
{
    if !second_there(bytes, start) {
        return first_edition(record::read_with_words(bytes, start));
    }
    let body = record::read_with_words(bytes, start + 2);
    let contents = body.contents;
    let verdict = contents.verdict;
    match verdict {
        Err(_) => first_edition(body),
        Ok(()) => second_edition(bytes, body),
    }
}

// Whether the numbers 0 and 2 stand at a position.
fn second_there(bytes: &[u8], start: usize) -> bool
    ensures { result ≡ second_there bytes.now start }
{
    if bytes.len() <= start {
        return false;
    }
    if bytes.len() - start < 2 {
        return false;
    }
    if bytes[start] != 0 {
        return false;
    }
    bytes[start + 1] == 2
}

// A record of edition 1: no retired numbers.
fn first_edition(body: WithWords) -> StoredRead
    ensures { result ≡ first_read body }
{
    StoredRead {
        body,
        edition: Edition::First,
        retired: Retired {
            count: 0,
            numbers: [0; record_retired::MOST_RETIRED],
        },
    }
}

// A record of edition 2: behind what is read the retired numbers and the path counts of the structure.
fn second_edition(bytes: &[u8], body: WithWords) -> StoredRead
    requires count_le_most_parts { body.contents.list.count ≤ most_parts }
    requires count_in_bounds { body.contents.list.count ≤ length body.contents.list.numbers }
    ensures { result ≡ second_read body (behind_at bytes.now body) }
{
    let contents = body.contents;
    let list = contents.list;
    let words = body.words;
    let counts = figures_counts::counts_by_size(&words);
    let n = list.count;
    let numbers = list.numbers;
    let tail = record_tail::read_tail(
        bytes,
        contents.next,
        list.mark,
        &numbers[..n],
        &counts[..n + 1],
    );
    match tail {
        Err(refusal) => first_edition(record::refused_with_words(refusal.reason, refusal.place)),
        Ok(behind) => {
            let whole = Contents {
                list,
                sets: contents.sets,
                begin: contents.begin,
                end: contents.end,
                next: behind.next,
                verdict: Ok(()),
            };
            StoredRead {
                body: WithWords {
                    contents: whole,
                    words,
                },
                edition: Edition::Second,
                retired: behind.value,
            }
        }
    }
}
