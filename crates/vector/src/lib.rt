// Vectors of the four kinds (01, "Vector sheets"): in a struct, and with their kinds as numbers.
#![tactic(auto)]

ghost use Rattle.std.specs.Prelude.{◌≡◌, take};
ghost use Rattle.answer.specs.Outcome.{outcome, delivered};
ghost use Rattle.vector_kind.specs.Kinds.{kind_of, kind_refusal};
ghost use Rattle.vector_conversion.specs.Vectors.{vector_refusal, converted};
ghost use Rattle.vector.specs.InStruct.{struct_refusal, struct_converted};
ghost use Rattle.vector.specs.Inside.{lent_cells};

use answer::Refusal;
use vector_kind::Kind;

// A vector of a machine of n parts: its entries are the first `length` cells. In every vector that the library makes the spare cells behind
// them hold 0; in one that is built by hand they may hold anything, and nothing looks at them.
#[derive(Clone, Copy)]
pub struct Vector {
    pub kind: Kind,
    pub n: usize,
    pub length: usize,
    pub entries: [i64; 17],
}

impl Vector {
    // The entries; none where the vector claims more than it has cells, since that length is wrong for every kind.
    pub fn entries(&self) -> &[i64]
        ensures { result.now ≡ take (lent_cells self.now.length) self.now.entries }
    {
        self.entries.get(..self.length).unwrap_or(&[])
    }

    // Whether the vector is accepted.
    #[tactic(auto, using(crate::proofs::InStruct::lent_judged))]
    pub fn judge(self) -> Result<(), Refusal>
        ensures { result ≡ struct_refusal self }
    {
        vector_conversion::judge(self.kind, self.n, self.entries())
    }

    // The vector as one of another kind.
    pub fn convert(self, target: Kind) -> Result<Vector, Refusal>
        ensures { result ≡ struct_converted self target }
    {
        let mut cells = [0i64; 17];
        let length = vector_conversion::convert(
            self.kind,
            self.n,
            self.entries(),
            target,
            &mut cells,
        )?;
        Ok(Vector {
            kind: target,
            n: self.n,
            length,
            entries: cells,
        })
    }
}

// Whether a vector whose kind comes as a number is accepted.
#[tactic(auto, using(vector_kind::proofs::KindNumbers::kind_given, vector_kind::proofs::KindNumbers::kind_refused))]
pub fn judge_numbered(kind: u8, n: usize, entries: &[i64]) -> Result<(), Refusal>
    ensures { result ≡ kind_refusal kind (vector_refusal (kind_of kind) n entries.now) }
{
    vector_conversion::judge(Kind::try_from(kind)?, n, entries)
}

// A vector as one of another kind, into a lent buffer, where both kinds come as numbers.
#[tactic(auto, using(vector_kind::proofs::KindNumbers::kind_given, vector_kind::proofs::KindNumbers::kind_refused))]
pub fn convert_numbered(
    kind: u8,
    n: usize,
    entries: &[i64],
    target: u8,
    cells: &mut [i64],
) -> Result<usize, Refusal>
    ensures { outcome result cells.new ≡ delivered (kind_refusal kind (kind_refusal target (vector_refusal (kind_of kind) n entries.now))) (converted (kind_of target) (kind_of kind) n entries.now) cells.old }
{
    let kind = Kind::try_from(kind)?;
    let target = Kind::try_from(target)?;
    vector_conversion::convert(kind, n, entries, target, cells)
}
