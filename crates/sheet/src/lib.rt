// Vector sheets (01, "Records on disk"), written from a vector. Tails are read and no longer written (02, §11).
#![tactic(auto)]

ghost use Rattle.std.specs.Prelude.{◌≡◌, ◌≤◌, length};
ghost use Rattle.answer.specs.Outcome.{outcome, delivered};
ghost use Rattle.vector.specs.InStruct.{entries_of, struct_refusal};
ghost use Rattle.vector_kind.specs.Kinds.{kind_number, kind_of, kind_refusal};
ghost use Rattle.vector_conversion.specs.Vectors.{vector_refusal};
ghost use Rattle.sheet.specs.Saving.{sheet_as, saved_kind, saved_sheet, tail_sheet_refusal};
ghost use Rattle.sheet.specs.Sheets.{coded, sheet_bytes};

use answer::{Reason, Refusal};
use vector::Vector;
use vector_kind::Kind;

// Saves a vector: the sheet of its own kind, and of a tail the signature sheet with the same path counts, into a lent buffer.
pub fn save_sheet(
    kind: Kind,
    n: usize,
    entries: &[i64],
    buffer: &mut [u8],
) -> Result<usize, Refusal>
    ensures { outcome result buffer.new ≡ delivered (vector_refusal kind n entries.now) (saved_sheet kind n entries.now) buffer.old }
{
    write_as(kind, n, entries, saved_kind(kind), buffer)
}

// Saves a vector whose kind comes as a number.
#[tactic(auto, using(vector_kind::proofs::KindNumbers::kind_given, vector_kind::proofs::KindNumbers::kind_refused))]
pub fn save_sheet_numbered(
    kind: u8,
    n: usize,
    entries: &[i64],
    buffer: &mut [u8],
) -> Result<usize, Refusal>
    ensures { outcome result buffer.new ≡ delivered (kind_refusal kind (vector_refusal (kind_of kind) n entries.now)) (saved_sheet (kind_of kind) n entries.now) buffer.old }
{
    save_sheet(Kind::try_from(kind)?, n, entries, buffer)
}

// Saves a vector in a struct.
pub fn save_vector(vector: Vector, buffer: &mut [u8]) -> Result<usize, Refusal>
    ensures { outcome result buffer.new ≡ delivered (struct_refusal vector) (saved_sheet vector.kind vector.n (entries_of vector)) buffer.old }
{
    write_vector_as(vector, saved_kind(vector.kind), buffer)
}

// Saves a vector as the sheet of the kind that is named, into a lent buffer; 34 for the tail.
pub fn save_sheet_as(
    kind: Kind,
    n: usize,
    entries: &[i64],
    target: Kind,
    buffer: &mut [u8],
) -> Result<usize, Refusal>
    ensures { outcome result buffer.new ≡ delivered (tail_sheet_refusal (kind_number target) (vector_refusal kind n entries.now)) (sheet_as target kind n entries.now) buffer.old }
{
    if target == Kind::Tail {
        return Err(Reason::TailSheet.at(0));
    }
    write_as(kind, n, entries, target, buffer)
}

// Saves a vector as the sheet of the kind that is named, where both kinds come as numbers.
#[tactic(auto, using(vector_kind::proofs::KindNumbers::kind_given, vector_kind::proofs::KindNumbers::kind_refused, crate::proofs::Saving::tail_held, crate::proofs::Saving::tail_passed))]
pub fn save_sheet_as_numbered(
    kind: u8,
    n: usize,
    entries: &[i64],
    target: u8,
    buffer: &mut [u8],
) -> Result<usize, Refusal>
    ensures { outcome result buffer.new ≡ delivered (tail_sheet_refusal target (kind_refusal kind (kind_refusal target (vector_refusal (kind_of kind) n entries.now)))) (sheet_as (kind_of target) (kind_of kind) n entries.now) buffer.old }
{
    if target == 2 {
        return Err(Reason::TailSheet.at(0));
    }
    write_as(
        Kind::try_from(kind)?,
        n,
        entries,
        Kind::try_from(target)?,
        buffer,
    )
}

// Saves a vector in a struct as the sheet of the kind that is named.
pub fn save_vector_as(vector: Vector, target: Kind, buffer: &mut [u8]) -> Result<usize, Refusal>
    ensures { outcome result buffer.new ≡ delivered (tail_sheet_refusal (kind_number target) (struct_refusal vector)) (sheet_as target vector.kind vector.n (entries_of vector)) buffer.old }
{
    if target == Kind::Tail {
        return Err(Reason::TailSheet.at(0));
    }
    write_vector_as(vector, target, buffer)
}

// The kind that a vector is saved as.
fn saved_kind(kind: Kind) -> Kind
    ensures { result ≡ saved_kind kind }
{
    match kind {
        Kind::PathCounts => Kind::PathCounts,
        Kind::Tail | Kind::Signature => Kind::Signature,
        Kind::Domination => Kind::Domination,
    }
}

// The sheet of a kind for a vector in a struct.
fn write_vector_as(vector: Vector, target: Kind, buffer: &mut [u8]) -> Result<usize, Refusal>
    ensures { outcome result buffer.new ≡ delivered (struct_refusal vector) (sheet_as target vector.kind vector.n (entries_of vector)) buffer.old }
{
    write_as(vector.kind, vector.n, vector.entries(), target, buffer)
}

// The sheet of a kind for a vector: its entries are converted, and written as numbers.
fn write_as(
    kind: Kind,
    n: usize,
    entries: &[i64],
    target: Kind,
    buffer: &mut [u8],
) -> Result<usize, Refusal>
    ensures { outcome result buffer.new ≡ delivered (vector_refusal kind n entries.now) (sheet_as target kind n entries.now) buffer.old }
{
    let mut cells = [0i64; 17];
    let count = vector_conversion::convert(kind, n, entries, target, &mut cells)?;
    let mut sheet = [0u8; 155];
    let length = write_numbers(target, n, &cells[..count], &mut sheet);
    answer::hand_out(&sheet[..length], buffer)
}

// Writes a sheet's numbers into a buffer that has room for them all, and answers how many bytes they take.
fn write_numbers(kind: Kind, n: usize, entries: &[i64], buffer: &mut [u8]) -> usize
    requires { length (sheet_bytes kind n entries.now) ≤ length buffer.old }
    ensures { outcome (Ok result) buffer.new ≡ delivered (Ok tt) (sheet_bytes kind n entries.now) buffer.old }
{
    let start = codec::write_number(buffer, 0, u64::from(kind.number()));
    let mut next = codec::write_number(buffer, start, n as u64);
    for entry in entries {
        next = codec::write_number(buffer, next, code(kind, *entry));
    }
    next
}

// The number that an entry is written as.
fn code(kind: Kind, entry: i64) -> u64
    ensures { result ≡ coded kind entry }
{
    match kind {
        Kind::PathCounts | Kind::Tail | Kind::Signature => entry.unsigned_abs(),
        Kind::Domination => zigzag(entry),
    }
}

// An entry and its sign in one number: 2v, or -2v-1 when negative.
fn zigzag(entry: i64) -> u64
    ensures { result ≡ coded Kind.Domination entry }
{
    let magnitude = entry.unsigned_abs();
    if entry < 0 {
        2 * (magnitude - 1) + 1
    } else {
        2 * magnitude
    }
}
