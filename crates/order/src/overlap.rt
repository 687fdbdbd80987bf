ghost use Rattle.std.specs.Prelude.{◌≡◌, Bool, min, max, not, ◌||◌, Some, Option, nat_lt};
ghost use Rattle.kinds.specs.declared.holding.Holding.{Holding};
ghost use Rattle.kinds.specs.Kinds.{within};
ghost use Rattle.order.specs.Holdings.{held, Compares, SomeCell};
ghost use Rattle.order.specs.Tasks.{every};

use crate::run::Run;
use crate::runs::Runs;
use kinds::holding::Holding;

// Whether the holdings of two tasks meet in some cell: a test says which two holdings of one cell do.
impl Run {
    // Whether a cell lies in both.
    fn overlaps(&self, other: &Run) -> bool
        ensures { result ≡ nat_lt (max self.now.lo other.now.lo) (min self.now.hi other.now.hi) }
    {
        self.lo.max(other.lo) < self.hi.min(other.hi)
    }

    fn meets<F: Fn(Holding, Holding) -> bool>(&self, other: &Runs, test: &F) -> bool
        requires { F.IsAlwaysCallable test.now }
        ensures { (q : Option Holding → Option Holding → Bool) → Compares (F.post test.now) q → result ≡ not (every self.now.hi (λ c. not (within self.now.lo self.now.hi c) || not (q (Some self.now.holding) (held other.now c)))) }
    {
        other.as_slice().iter().any(|run| self.overlaps(run) && test(self.holding, run.holding))
    }
}

impl Runs {
    pub(crate) fn meets<F: Fn(Holding, Holding) -> bool>(&self, other: &Runs, test: &F) -> bool
        requires { F.IsAlwaysCallable test.now }
        ensures { (q : Option Holding → Option Holding → Bool) → Compares (F.post test.now) q → SomeCell self.now (λ c. q (held self.now c) (held other.now c)) result }
    {
        self.as_slice().iter().any(|run| run.meets(other, test))
    }
}
