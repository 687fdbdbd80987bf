ghost use Rattle.std.specs.Prelude.{◌≡◌, ◌++◌, Some, None, MatchResult, codes};
ghost use Rattle.std.specs.Fmt.{decimal};
ghost use Rattle.kinds.specs.Kinds.{combine, combine_held, holding_of, Lawful};

use crate::access::Access;
use crate::kind::Kind;
use std::error::Error;
use std::fmt;

// What a task holds of one cell where it holds it at all: a kind, strongly or weakly.
#[derive(Clone, Copy, Debug, Default, PartialEq, Eq)]
pub struct Holding {
    pub kind: Kind,
    pub strong: bool,
}

// A code that stands for no holding.
#[derive(Clone, Copy, Debug, PartialEq, Eq)]
pub struct UnknownCode(pub u8);

impl fmt::Display for UnknownCode {
    ghost output = { λ e. Some (codes "no kind of access has code " ++ decimal e.0) };

    fn fmt<W: fmt::Write>(&self, f: &mut fmt::Formatter<W>) -> fmt::Result {
        write!(f, "no kind of access has code {}", self.0)
    }
}

impl Error for UnknownCode {}

// What the code of an access stands for.
impl TryFrom<u8> for Holding {
    type Error = UnknownCode;

    ghost try_from_gives = { λ code r. MatchResult r (λ h. holding_of code ≡ Some h) (λ e. (holding_of code ≡ None) × (e.0 ≡ code)) };

    fn try_from(code: u8) -> Result<Holding, UnknownCode> {
        let (kind, strong) = match code {
            Access::IN => (Kind::In, true),
            Access::OUT => (Kind::Out, true),
            Access::INOUT => (Kind::Inout, true),
            Access::CONCURRENT => (Kind::Concurrent, true),
            Access::COMMUTATIVE => (Kind::Commutative, true),
            Access::WEAK_IN => (Kind::In, false),
            Access::WEAK_OUT => (Kind::Out, false),
            Access::WEAK_INOUT => (Kind::Inout, false),
            _ => return Err(UnknownCode(code)),
        };
        Ok(Holding { kind, strong })
    }
}

impl Holding {
    // What two accesses of one task to the same cell come to.
    #[tactic(auto, using(crate::proofs::Combining::combine_lawful, crate::proofs::Combining::combine_held_lawful), unfolding(crate::specs::Kinds::combine))]
    pub fn combine(self, other: Holding) -> Holding
        ensures value { result ≡ combine self other }
        ensures laws { Lawful combine × Lawful combine_held }
    {
        let kind = if self.kind == other.kind {
            self.kind
        } else {
            Kind::Inout
        };
        Holding {
            kind,
            strong: self.strong || other.strong,
        }
    }
}
