// The four kinds of vectors (01, "Vector sheets"): each has its own number, and its own number of entries.
#![tactic(auto)]

ghost use Rattle.std.specs.Prelude.{◌≡◌};
ghost use Rattle.vector_kind.specs.Kinds.{kind_number, entry_count, is_kind, kind_of, kind_named};

use answer::{Reason, Refusal};

// What a vector's entries are, each kind with its own number.
#[derive(Clone, Copy, Debug, PartialEq, Eq)]
pub enum Kind {
    PathCounts = 1,
    Tail = 2,
    Signature = 3,
    Domination = 4,
}

impl Kind {
    // The kind's own number.
    pub fn number(self) -> u8
        ensures { result ≡ kind_number self }
    {
        self as u8
    }

    // How many entries a vector of the kind has, and 0 where n is over 16.
    pub fn entries(self, n: usize) -> usize
        ensures { result ≡ entry_count self n }
    {
        if 16 < n {
            return 0;
        }
        match self {
            Kind::PathCounts => n + 1,
            Kind::Tail => n + 1,
            Kind::Signature => n,
            Kind::Domination => n + 1,
        }
    }
}

impl TryFrom<u8> for Kind {
    type Error = Refusal;

    ghost try_from_gives = { λ number answer. answer ≡ kind_named number };

    // The kind of a number, and 26 where it is no kind's.
    fn try_from(number: u8) -> Result<Self, Refusal> {
        if is_kind(number) {
            Ok(kind_of(number))
        } else {
            Err(Reason::WrongKind.at(0))
        }
    }
}

// Whether a number is a kind's.
pub fn is_kind(number: u8) -> bool
    ensures { result ≡ is_kind number }
{
    1 <= number && number <= 4
}

// The kind of a number. A number that is no kind's gives path counts; callers ask first.
#[tactic(auto, unfolding(crate::specs::Kinds::kind_of))]
pub fn kind_of(number: u8) -> Kind
    ensures { result ≡ kind_of number }
{
    match number {
        2 => Kind::Tail,
        3 => Kind::Signature,
        4 => Kind::Domination,
        _ => Kind::PathCounts,
    }
}
