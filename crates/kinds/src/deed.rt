ghost use Rattle.std.specs.Prelude.{◌≡◌};
ghost use Rattle.kinds.specs.Kinds.{kind_of};

use crate::kind::Kind;

// What a step does to its cell.
#[derive(Clone, Copy, Debug, PartialEq, Eq)]
pub enum Deed {
    Reading,
    Writing,
    Updating,
}

// The kind that a step counts as beside the holdings of descendants.
impl From<Deed> for Kind {
    ghost from_gives = { λ deed kind. kind ≡ kind_of deed };

    fn from(deed: Deed) -> Kind {
        match deed {
            Deed::Reading => Kind::In,
            Deed::Writing => Kind::Out,
            Deed::Updating => Kind::Concurrent,
        }
    }
}
