// The entries of a vector sheet (01, "Records on disk"), read into a lent buffer.
#![tactic(auto)]

ghost use Rattle.std.specs.Prelude.{◌≡◌};
ghost use Rattle.answer.specs.Outcome.{outcome};
ghost use Rattle.sheet.specs.Sheets.{sheet_of};
ghost use Rattle.sheet_entries.specs.Answers.{entries_delivered};

use answer::Refusal;
use vector_kind::Kind;

// What reading a sheet into a lent buffer answers: its kind, n and the number of its entries.
#[derive(Clone, Copy, Debug, PartialEq, Eq)]
pub struct EntriesRead {
    pub kind: Kind,
    pub n: usize,
    pub length: usize,
}

// The entries of a sheet, into a lent buffer.
pub fn read_sheet(bytes: &[u8], cells: &mut [i64]) -> Result<EntriesRead, Refusal>
    ensures { outcome result cells.new ≡ entries_delivered (sheet_of bytes.now) cells.old }
{
    let vector = sheet_reading::vector_of_sheet(bytes)?;
    let length = answer::hand_out(&vector.entries[..vector.length], cells)?;
    Ok(EntriesRead {
        kind: vector.kind,
        n: vector.n,
        length,
    })
}
