ghost use Rattle.std.specs.Prelude.{◌≡◌, Bool, ◌&&◌, Option};
ghost use Rattle.kinds.specs.declared.holding.Holding.{Holding};
ghost use Rattle.order.specs.Holdings.{Compares, SomeCell};
ghost use Rattle.kinds.specs.Kinds.{allows, kind_of, meets, if_strong, is_commutative, strongly};
ghost use Rattle.order.specs.Records.{ended, holding_now};
ghost use Rattle.order.specs.Tasks.{is_created, is_running};

use crate::state::State;
use crate::task::Task;
use kinds::deed::Deed;
use kinds::holding::Holding;
use kinds::kind::Kind;

// What a task holds now, alone and beside another task. The runs of a task whose holdings have ended stay in its record.
impl Task {
    pub(crate) fn ended(&self) -> bool
        ensures { result ≡ ended self.now }
    {
        self.state == State::Finished && (!self.waits || self.open == 0)
    }

    pub(crate) fn is_created(&self) -> bool
        ensures { result ≡ is_created self.now.state }
    {
        self.state == State::Created
    }

    pub(crate) fn is_running(&self) -> bool
        ensures { result ≡ is_running self.now.state }
    {
        self.state == State::Running
    }

    pub(crate) fn holds(&self, cell: u16) -> Option<Holding>
        ensures { result ≡ holding_now self.now cell }
    {
        if self.ended() {
            None
        } else {
            self.runs.at(cell)
        }
    }

    // Whether it holds the cell with a kind in conflict with the step.
    pub(crate) fn clashes(&self, deed: Deed, cell: u16) -> bool
        ensures { result ≡ meets (holding_now self.now cell) (strongly (kind_of deed)) }
    {
        self.holds(cell)
            .is_some_and(|holding| holding.kind.conflicts(deed.into()))
    }

    // Whether it holds the cell strongly with a kind that fits the step.
    pub(crate) fn allows(&self, deed: Deed, cell: u16) -> bool
        ensures { result ≡ allows (if_strong (holding_now self.now cell)) deed }
    {
        self.holds(cell)
            .is_some_and(|holding| holding.strong && holding.kind.fits(deed))
    }

    // Whether there is a cell of which both hold something, with holdings that pass the test.
    fn meets<F: Fn(Holding, Holding) -> bool>(&self, other: &Task, test: &F) -> bool
        requires { F.IsAlwaysCallable test.now }
        ensures { (q : Option Holding → Option Holding → Bool) → Compares (F.post test.now) q → SomeCell self.now.runs (λ c. q (holding_now self.now c) (holding_now other.now c)) result }
    {
        if self.ended() || other.ended() {
            return false;
        }
        self.runs.meets(&other.runs, test)
    }

    // Whether it holds a cell in conflict with a strong holding of the later task.
    pub(crate) fn bars(&self, later: &Task) -> bool
        ensures { SomeCell self.now.runs (λ c. meets (holding_now self.now c) (if_strong (holding_now later.now c))) result }
    {
        self.meets(
            later,
            &|mine, theirs| theirs.strong && mine.kind.conflicts(theirs.kind),
        )
    }

    // Whether both hold some cell commutative.
    pub(crate) fn shares_commutative(&self, other: &Task) -> bool
        ensures { SomeCell self.now.runs (λ c. is_commutative (holding_now self.now c) && is_commutative (holding_now other.now c)) result }
    {
        let commutative = |holding: Holding| holding.kind == Kind::Commutative;
        self.meets(
            other,
            &|mine, theirs| commutative(mine) && commutative(theirs),
        )
    }
}
