ghost use Rattle.std.specs.Prelude.{◌≡◌, ℕ, ◌≤◌, Bool, not, ◌||◌, Some, Option};
ghost use Rattle.kinds.specs.declared.holding.Holding.{Holding};
ghost use Rattle.kinds.specs.Kinds.{covered_by, is_commutative, is_held, within};
ghost use Rattle.order.specs.Tasks.{every};
ghost use Rattle.order.specs.Holdings.{held, in_use, Reach, SomeCell, Tests};

use crate::run::Run;
use crate::runs::Runs;
use kinds::holding::Holding;
use kinds::kind::Kind;

impl Runs {
    pub(crate) fn as_slice(&self) -> &[Run]
        ensures { result.now ≡ in_use self.now }
    {
        self.list.as_slice()
    }

    // What the task holds of the cell.
    pub(crate) fn at(&self, cell: u16) -> Option<Holding>
        ensures { result ≡ held self.now cell }
    {
        self.as_slice()
            .iter()
            .find(|run| run.contains(cell))
            .map(|run| run.holding)
    }

    pub(crate) fn has_commutative(&self) -> bool
        ensures { SomeCell self.now (λ c. is_commutative (held self.now c)) result }
    {
        self.as_slice()
            .iter()
            .any(|run| run.holding.kind == Kind::Commutative)
    }

    // Whether every cell of the region is held with a holding that passes the test: a walk from run to run as long as they touch.
    fn all_cells<F: Fn(Holding) -> bool>(&self, lo: u16, hi: u16, test: F) -> bool
        requires { F.IsAlwaysCallable test }
        ensures { (q : Option Holding → Bool) → Tests (F.post test) q → (n : ℕ) → hi ≤ n → result ≡ every n (λ c. not (within lo hi c) || q (held self.now c)) }
    {
        let end = self.as_slice().iter().fold(lo, |pos, run| {
            if run.contains(pos) && test(run.holding) {
                run.hi
            } else {
                pos
            }
        });
        end >= hi
    }

    // Whether the task holds every cell of the region.
    pub(crate) fn holds_region(&self, lo: u16, hi: u16) -> bool
        ensures { (n : ℕ) → hi ≤ n → result ≡ every n (λ c. not (within lo hi c) || is_held (held self.now c)) }
    {
        self.all_cells(lo, hi, |_| true)
    }

    // Whether every cell of the run is held with a kind that may be handed on to it.
    fn covers_run(&self, child: &Run) -> bool
        ensures { result ≡ every child.now.hi (λ c. not (within child.now.lo child.now.hi c) || covered_by (held self.now c) (Some child.now.holding)) }
    {
        self.all_cells(child.lo, child.hi, |holding| {
            holding.kind.covers(child.holding.kind)
        })
    }

    // Whether a task with these holdings may create one with the child's.
    pub(crate) fn covers_all(&self, child: &Runs) -> bool
        ensures { (n : ℕ) → Reach child.now n → result ≡ every n (λ c. covered_by (held self.now c) (held child.now c)) }
    {
        child.as_slice().iter().all(|run| self.covers_run(run))
    }
}
