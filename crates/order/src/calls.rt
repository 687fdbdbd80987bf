ghost use Rattle.std.specs.Prelude.{◌≡◌, ℕ, ◌<◌, ◌≤◌, length, IfOk, MatchResult, ◌≢◌, slice_index_or};
ghost use Rattle.order.specs.declared.refusal.Refusal.TheVariants.{NoSuchTask};
ghost use Rattle.order.specs.declared.task.Task.{Task};
ghost use Rattle.order.specs.Asked.{running_questions};
ghost use Rattle.order.specs.Questions.{create, finish, first_number, release, resume, start, wait};
ghost use Rattle.order.specs.Tasks.{count, new};
ghost use Rattle.order.specs.View.{Did, Known, RecordOf, answer_number, view};

use crate::counters::tell_ancestors;
use crate::refusal::Refusal;
use crate::room::Room;
use crate::runs::Runs;
use crate::state::State;
use crate::table::Table;
use crate::task::Task;
use crate::turns::Turn;
use kinds::access::Access;

impl Table {
    // The record of t, if it was created.
    pub(crate) fn known(&self, t: u16) -> Result<&Task, Refusal>
        ensures { MatchResult result (λ k. Known self.now t × RecordOf self.now t k.now) (λ e. (e ≡ NoSuchTask) × (length self.now.tasks.items ≤ t)) }
    {
        self.tasks.get(t as usize).ok_or(Refusal::NoSuchTask)
    }

    // The record of t, if it was created and is running.
    pub(crate) fn running(&self, t: u16) -> Result<&Task, Refusal>
        ensures number { answer_number result ≡ first_number (running_questions (view self.now) t) }
        ensures stands { IfOk result (λ k. RecordOf self.now t k.now) }
    {
        let task = self.known(t)?;
        if !task.is_running() {
            return Err(Refusal::WrongState);
        }
        Ok(task)
    }

    // From here on each call indexes the record again: a lookup that lent it to change would have to promise which changes keep `sound`.
    // The task starts.
    pub fn start(&mut self, t: u16) -> Result<(), Refusal>
        ensures { Did (view self.old) (start t) result (view self.new) }
    {
        self.may_start(t)?;
        self.tasks[t as usize].turn(Turn::Start)
    }

    // The task waits for its children.
    pub fn wait(&mut self, t: u16) -> Result<(), Refusal>
        ensures { Did (view self.old) (wait t) result (view self.new) }
    {
        self.known(t)?;
        self.tasks[t as usize].turn(Turn::Wait)
    }

    // The task goes on: its children are complete.
    pub fn resume(&mut self, t: u16) -> Result<(), Refusal>
        ensures { Did (view self.old) (resume t) result (view self.new) }
    {
        self.known(t)?.may_resume()?;
        self.tasks[t as usize].turn(Turn::Resume)
    }

    // The task ends; its ancestors may be complete with that.
    pub fn finish(&mut self, t: u16) -> Result<(), Refusal>
        ensures { Did (view self.old) (finish t) result (view self.new) }
    {
        self.known(t)?;
        self.tasks[t as usize].turn(Turn::Finish)?;
        tell_ancestors(&mut self.tasks, t as usize);
        Ok(())
    }

    // The task lets go of the region.
    pub fn release(&mut self, t: u16, lo: u16, hi: u16) -> Result<(), Refusal>
        ensures did { Did (view self.old) (release t lo hi) result (view self.new) }
        ensures others { (x : ℕ) (d : Task) → (x ≢ t) → slice_index_or self.new.tasks.items x d ≡ slice_index_or self.old.tasks.items x d }
    {
        self.running(t)?;
        if !self.has_region(lo, hi) {
            return Err(Refusal::BadRegion);
        }
        self.tasks[t as usize].release(lo, hi)
    }

    // The parent makes a task, with the number of tasks before it.
    pub fn create(&mut self, parent: u16, waits: bool, accesses: &[Access]) -> Result<u16, Refusal>
        ensures did { Did (view self.old) (create parent waits accesses.now) result (view self.new) }
        ensures number { IfOk result (λ n. n ≡ count (view self.old)) }
    {
        let runs = self.may_create(parent, accesses)?;
        let number = self.len();
        self.tasks[parent as usize].open_child();
        self.tasks.push_reserved(Task {
            parent,
            waits,
            state: State::Created,
            open: 0,
            runs,
        });
        Ok(number)
    }

    // Task 0 alone, running, with every cell.
    pub fn new(room: Room, cells: u16) -> Table
        ensures { view result ≡ new cells }
    {
        let Room { mut tasks } = room;
        tasks.push_reserved(Task {
            parent: 0,
            waits: false,
            state: State::Running,
            open: 0,
            runs: Runs::whole(cells),
        });
        Table { cells, tasks }
    }
}
