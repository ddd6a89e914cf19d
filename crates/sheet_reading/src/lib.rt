// Vector sheets (01, "Records on disk"), read as a vector.
#![tactic(auto)]

ghost use Rattle.std.specs.Prelude.{◌≡◌, ◌≤◌};
ghost use Rattle.codec.specs.Fields.{top};
ghost use Rattle.sheet.specs.Sheets.{decoded, sheet_of};
ghost use Rattle.sheet_reading.specs.Answers.{sheet_read};
ghost use Rattle.sheet_reading.specs.Inside.{entered};

use answer::{Reason, Refusal};
use codec::Field;
use vector::Vector;
use vector_kind::Kind;

// The vector of a sheet.
pub fn vector_of_sheet(bytes: &[u8]) -> Result<Vector, Refusal>
    ensures { result ≡ sheet_read (sheet_of bytes.now) }
{
    let number = codec::read_number(bytes, 0, Field::Sheet)?;
    if 4 < number.value {
        return Err(Reason::WrongKind.at(0));
    }
    let kind = Kind::try_from(number.value as u8)?;
    let parts = codec::read_number(bytes, number.next, Field::Sheet)?;
    if parts.value < 1 || 16 < parts.value {
        return Err(Reason::WrongPartCount.at(0));
    }
    read_entries(bytes, kind, parts.value as usize, parts.next)
}

// The entries of a sheet, and what stands behind them: bytes that are left are refused before the path counts are judged.
fn read_entries(bytes: &[u8], kind: Kind, n: usize, start: usize) -> Result<Vector, Refusal>
    requires le_n { 1 ≤ n }
    requires n_bound { n ≤ 16 }
    ensures { result ≡ sheet_read (entered bytes.now kind n start) }
{
    let length = kind.entries(n);
    let mut entries = [0i64; 17];
    let mut next = start;
    for entry in &mut entries[..length] {
        let number = codec::read_number(bytes, next, Field::Sheet)?;
        *entry = decode(kind, number.value);
        next = number.next;
    }
    if next < bytes.len() {
        return Err(Reason::BytesLeft.at(next));
    }
    let vector = Vector {
        kind,
        n,
        length,
        entries,
    };
    vector.judge()?;
    Ok(vector)
}

// The entry that a number stands for.
fn decode(kind: Kind, number: u64) -> i64
    requires { number ≤ top Field.Sheet }
    ensures { result ≡ decoded kind number }
{
    match kind {
        Kind::PathCounts | Kind::Tail | Kind::Signature => number as i64,
        Kind::Domination => from_zigzag(number),
    }
}

// The entry that is written with its sign in one number.
fn from_zigzag(number: u64) -> i64
    requires { number ≤ top Field.Sheet }
    ensures { result ≡ decoded Kind.Domination number }
{
    let half = (number / 2) as i64;
    if number % 2 == 0 { half } else { -1 - half }
}
