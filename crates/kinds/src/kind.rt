ghost use Rattle.std.specs.Prelude.{◌≡◌};
ghost use Rattle.kinds.specs.Kinds.{conflict, covers, fits};

use crate::deed::Deed;

// How a task may use the cells of an access. The default is only for the unused places of a list of fixed room.
#[derive(Clone, Copy, Debug, Default, PartialEq, Eq)]
pub enum Kind {
    #[default]
    In,
    Out,
    Inout,
    Concurrent,
    Commutative,
}

impl Kind {
    // Whether tasks that hold these two kinds of one cell have to keep their order.
    #[tactic(auto, unfolding(crate::specs::Kinds::conflict))]
    pub fn conflicts(self, other: Kind) -> bool
        ensures { result ≡ conflict self other }
    {
        self != other || matches!(self, Kind::Out | Kind::Inout)
    }

    // Whether a task that holds this kind may hand the child's kind to a task it creates.
    #[tactic(auto, unfolding(crate::specs::Kinds::covers))]
    pub fn covers(self, child: Kind) -> bool
        ensures { result ≡ covers self child }
    {
        self == Kind::Inout || self == child && self != Kind::Commutative
    }

    // Whether a strong holding of this kind allows the step.
    pub fn fits(self, deed: Deed) -> bool
        ensures { result ≡ fits self deed }
    {
        match self {
            Kind::In => deed == Deed::Reading,
            Kind::Out => deed == Deed::Writing,
            Kind::Inout => true,
            Kind::Concurrent | Kind::Commutative => deed == Deed::Updating,
        }
    }
}
