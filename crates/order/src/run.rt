ghost use Rattle.std.specs.Prelude.{◌≡◌};
ghost use Rattle.kinds.specs.Kinds.{within};

use kinds::holding::Holding;

// A stretch of cells that a task holds with one kind and strength: from lo up to, not including, hi.
#[derive(Clone, Copy, Debug, Default, PartialEq, Eq)]
pub struct Run {
    pub lo: u16,
    pub hi: u16,
    pub holding: Holding,
}

impl Run {
    pub(crate) fn contains(&self, cell: u16) -> bool
        ensures { result ≡ within self.now.lo self.now.hi cell }
    {
        (self.lo..self.hi).contains(&cell)
    }
}
