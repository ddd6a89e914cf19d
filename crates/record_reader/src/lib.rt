// A reader that walks a design record of either edition where the host keeps it (01, "Records on disk"; 02, §8): the record's bytes and a place
// among them.
#![tactic(auto)]

ghost use Rattle.std.specs.Prelude.{◌≡◌};
ghost use Rattle.record_reader.specs.Places.{set_at};

use codec::Standing;
use record::Cursor;

// A place in a record where the host keeps it. Whether the record is accepted is not asked here: in one that is, what a reader finds from the
// first set on, as often as there are sets, are its sets. Behind the last of them a record of edition 1 ends, and in one of edition 2 other
// numbers follow; the stretch of the sets alone ends there in both.
#[derive(Drop)]
pub struct Reader<'a> {
    pub bytes: &'a [u8],
    pub offset: usize,
}

// What stands at a place, read as a set, with the place where the next one starts; none where no number stands, as behind the last byte.
pub fn set_at(bytes: &[u8], offset: usize) -> Option<Standing<u64>>
    ensures { result ≡ set_at bytes.now offset }
{
    let cursor = Cursor {
        next: offset,
        left: 1,
    };
    let step = cursor.step(bytes)?;
    Some(Standing {
        value: step.set,
        next: step.cursor.next,
    })
}

// A reader at a place.
pub fn new<'a>(bytes: &'a [u8], offset: usize) -> Reader<'a>
    ensures { (result.bytes ≡ bytes.entry) × (result.offset ≡ offset) }
{
    Reader { bytes, offset }
}

// The set where the reader is, and where the next one starts.
pub fn next<'a>(reader: Reader<'a>) -> Option<Standing<u64>>
    ensures { result ≡ set_at reader.entry.bytes.now reader.entry.offset }
{
    set_at(reader.bytes, reader.offset)
}

// The reader at another place of the same record.
pub fn moved<'a>(reader: Reader<'a>, offset: usize) -> Reader<'a>
    ensures { (result.bytes ≡ reader.entry.bytes) × (result.offset ≡ offset) }
{
    Reader {
        bytes: reader.bytes,
        offset,
    }
}

// What a reader at that place finds, for whoever holds none.
pub fn read_set(bytes: &[u8], offset: usize) -> Option<Standing<u64>>
    ensures { result ≡ set_at bytes.now offset }
{
    next(new(bytes, offset))
}
