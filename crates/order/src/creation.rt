ghost use Rattle.std.specs.Prelude.{◌≡◌, MatchResult};
ghost use Rattle.order.specs.Asked.{Asks, create_questions};
ghost use Rattle.order.specs.Questions.{first_number, kinds_known, region_lies, regions_lie};
ghost use Rattle.order.specs.Refusals.{refusal_number};
ghost use Rattle.order.specs.View.{view};

use crate::refusal::Refusal;
use crate::room::MOST_TASKS;
use crate::runs::Runs;
use crate::table::Table;
use kinds::access::Access;
use kinds::holding::Holding;

const MOST_ACCESSES: usize = 8;

// Whether every code stands for a kind.
fn kinds_known(accesses: &[Access]) -> bool
    ensures { result ≡ kinds_known accesses.now }
{
    accesses
        .iter()
        .all(|access| Holding::try_from(access.code).is_ok())
}

impl Table {
    // Whether the region has a cell and all its cells are there.
    pub(crate) fn has_region(&self, lo: u16, hi: u16) -> bool
        ensures { result ≡ region_lies (view self.now) lo hi }
    {
        lo < hi && hi <= self.cells
    }

    // Whether the regions of all accesses are.
    fn has_regions(&self, accesses: &[Access]) -> bool
        ensures { result ≡ regions_lie (view self.now) accesses.now }
    {
        accesses
            .iter()
            .all(|access| self.has_region(access.lo, access.hi))
    }

    // What a new task with these accesses would hold, if the parent may create it.
    pub(crate) fn may_create(&self, parent: u16, accesses: &[Access]) -> Result<Runs, Refusal>
        ensures { MatchResult result (λ s. (0 ≡ first_number (create_questions (view self.now) parent accesses.now)) × Asks self.now.cells accesses.now s) (λ e. refusal_number e ≡ first_number (create_questions (view self.now) parent accesses.now)) }
    {
        let task = self.running(parent)?;
        if self.tasks.len() >= MOST_TASKS {
            return Err(Refusal::TooManyTasks);
        }
        if accesses.len() > MOST_ACCESSES {
            return Err(Refusal::TooManyAccesses);
        }
        if !self.has_regions(accesses) {
            return Err(Refusal::BadRegion);
        }
        if !kinds_known(accesses) {
            return Err(Refusal::UnknownKind);
        }
        if task.runs.has_commutative() {
            return Err(Refusal::CommutativeParent);
        }
        let asked = Runs::of_accesses(accesses);
        if !task.runs.covers_all(&asked) {
            return Err(Refusal::NotCovered);
        }
        Ok(asked)
    }
}
