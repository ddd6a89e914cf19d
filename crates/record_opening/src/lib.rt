// Opening a design record (01, "Records on disk"): the whole record is checked as a reader checks it, and what it says is handed out, its sets in
// an array, for those who work on them.
#![tactic(auto)]

ghost use Rattle.std.specs.Prelude.{◌≡◌, ℕ, ◌≤◌, ◌<◌};
ghost use mathlib.Core.List.{Memᴰ};
ghost use Rattle.theory_orders.specs.Antichains.{most_sets};
ghost use Rattle.record_editions.specs.Editions.{whole_stored};
ghost use Rattle.record.specs.Contents.{step_at, met_in};
ghost use Rattle.record_opening.specs.Opening.{set_cells, opened_of};

use answer::Refusal;
use record::Cursor;
use record_editions::Edition;
use record_parts::PartList;
use record_retired::Retired;

// The part list of a record, the number of its sets, and these sets in front of an array; its edition and its retired numbers.
// Of a refused record: a list of no parts and no sets, as in edition 1.
#[derive(Drop)]
pub struct Opened {
    pub list: PartList,
    pub count: usize,
    pub sets: [u16; 12870],
    pub edition: Edition,
    pub retired: Retired,
    pub verdict: Result<(), Refusal>,
}

// The record that the bytes are, checked whole, and its sets loaded.
pub fn open_record(bytes: &[u8]) -> Opened
    ensures { result ≡ opened_of (whole_stored bytes.now) }
{
    let read = record_editions::whole_stored(bytes);
    let body = read.body;
    let contents = body.contents;
    let first = Cursor {
        next: contents.begin,
        left: contents.sets,
    };
    let sets = load_sets(bytes, first);
    let list = contents.list;
    let edition = read.edition;
    let retired = read.retired;
    let verdict = contents.verdict;
    Opened {
        list,
        count: contents.sets,
        sets,
        edition,
        retired,
        verdict,
    }
}

// The sets that a walk from a cursor meets.
fn load_sets(bytes: &[u8], first: Cursor) -> [u16; 12870]
    requires left_le_most_sets { first.left ≤ most_sets }
    requires by_index { (set : ℕ) → Memᴰ set (met_in first.left bytes.now (step_at bytes.now first)) → set < 65536 }
    ensures { result ≡ set_cells (met_in first.left bytes.now (step_at bytes.now first)) }
{
    let mut sets = [0u16; 12870];
    let mut cursor = first;
    for read in 0..first.left {
        let Some(step) = cursor.step(bytes) else {
            return sets;
        };
        sets[read] = step.set as u16;
        cursor = step.cursor;
    }
    sets
}
