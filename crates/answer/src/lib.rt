// Why a call is refused, and where: 01's and 02's refusals, and what is handed out into a lent buffer.
#![tactic(auto)]

ghost use Rattle.std.specs.Prelude.{◌≡◌};
ghost use Rattle.answer.specs.Refusals.{number_of};
ghost use Rattle.answer.specs.Outcome.{at, room as room_for, outcome, delivered};

// The refusals of 01 and 02, each with its own number.
#[derive(Clone, Copy, Debug, PartialEq, Eq)]
pub enum Reason {
    // N is not 1 to 16.
    WrongPartCount = 1,
    // A list of sets is empty.
    EmptyList = 2,
    // A list of sets has over 12,870.
    LongList = 3,
    // A set has bit n or above.
    UnknownPart = 4,
    // A set is mask 0.
    EmptySet = 5,
    // A table's length is not the greater of 1 and 2^n/8.
    WrongTableLength = 6,
    // A table has an unused bit set.
    UnusedBit = 7,
    // The empty set is a path set.
    EmptySetWorks = 8,
    // The full set isn't one.
    FullSetFails = 9,
    // A path set with one part more isn't one.
    BrokenSet = 10,
    // A result buffer is shorter than needed.
    ShortBuffer = 11,
    // A vector's length is wrong.
    WrongVectorLength = 12,
    // A path count is not whole, outside 0..C(n,j), φ(0) not 0 or φ(n) not 1.
    WrongPathCount = 13,
    // A proportion falls from j to j+1.
    FallingProportion = 14,
    // A group is empty.
    EmptyGroup = 15,
    // A group has bit n or above.
    UnknownGroupPart = 16,
    // A position is not 1 to n, or a part number is no part's.
    UnknownPosition = 17,
    // Every set names the part to be taken out.
    InEverySet = 18,
    // N is 16 and a part is to be added.
    FullMachine = 19,
    // The mark is 2^48-1 and a part is to be added.
    NumbersSpent = 20,
    // The bytes end inside a record or a sheet.
    EndOfBytes = 21,
    // A number is not shortest, or over its top value or its groups.
    WrongNumber = 22,
    // A part number of a record is 0, does not rise or is above the mark.
    WrongPartNumber = 23,
    // A set of a record does not rise, or holds an earlier one.
    WrongSet = 24,
    // Bytes are left after the last number.
    BytesLeft = 25,
    // A sheet's kind is not 1 to 4.
    WrongKind = 26,
    // A line of a drawing's text is of another form.
    WrongLine = 27,
    // A position stands twice on a line of a drawing's text, or a part number twice among those that are wanted.
    RepeatedPosition = 28,
    // The threshold k of a pattern is not 1 to n.
    WrongThreshold = 29,
    // A retired number of a record is 0, does not rise, is above the mark or in use, or there are more than 64.
    WrongRetired = 30,
    // A path count of a record is not that of its sets.
    DifferentCount = 31,
    // A record that is to be written as one of edition 1 has retired numbers.
    RetiredPresent = 32,
    // The blocks of a machine have more than 16 parts in all.
    ManyParts = 33,
    // A tail sheet is to be written by name.
    TailSheet = 34,
}

// A refusal: its reason and the place that it reports.
#[derive(Clone, Copy, Debug, PartialEq, Eq)]
pub struct Refusal {
    pub reason: Reason,
    pub place: usize,
}

impl Reason {
    // The number that 01 or 02 gives it.
    pub fn number(self) -> u8
        ensures { result ≡ number_of self }
    {
        self as u8
    }

    // The refusal for this reason at a place.
    pub fn at(self, place: usize) -> Refusal
        ensures { result ≡ at self place }
    {
        Refusal {
            reason: self,
            place,
        }
    }
}

// Whether as many cells are lent as are needed.
pub fn room(needed: usize, lent: usize) -> Result<(), Refusal>
    ensures { result ≡ room_for needed lent }
{
    if lent < needed {
        return Err(Reason::ShortBuffer.at(needed));
    }
    Ok(())
}

// Hands items out into a lent buffer, and says how many they are.
pub fn hand_out<T: Copy>(items: &[T], buffer: &mut [T]) -> Result<usize, Refusal>
    ensures { outcome result buffer.new ≡ delivered (Ok tt) items.now buffer.old }
{
    room(items.len(), buffer.len())?;
    buffer[..items.len()].copy_from_slice(items);
    Ok(items.len())
}
