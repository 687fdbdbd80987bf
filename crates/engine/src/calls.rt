ghost use Rattle.std.specs.Prelude.{length};
ghost use Rattle.order.specs.View.{view};
ghost use Rattle.engine.specs.declared.call.Call.TheVariants.{Create, Finish, Look, Read, Ready, Release, Resume, Start, Update, Wait, Write};
ghost use Rattle.engine.specs.declared.call.Reply.TheVariants as reply;
ghost use Rattle.engine.specs.declared.call.Reply.TheVariants.{Done, Task, Value};
ghost use Rattle.engine.specs.Calls.{Filled};
ghost use Rattle.engine.specs.Engines.{Led};
ghost use Rattle.engine.specs.Run.{noted};

use crate::engine::Engine;
use crate::refusal::Refusal;
use kinds::access::Access;
use kinds::deed::Deed;
use stores::store::Store;
use stores::update::update;

// Each call is one entry of a run: it leads from the tasks and the store before it to those after it, with its answer.
impl<S: Store> Engine<S> {
    // The parent makes a task, whose number is answered.
    pub fn create(&mut self, parent: u16, waits: bool, accesses: &[Access]) -> Result<u16, Refusal>
        ensures { Led S.Store S.E.Element self.old (Create parent waits accesses.entry) (noted Task result) self.new }
    {
        Ok(self.table.create(parent, waits, accesses)?)
    }

    // The task starts.
    pub fn start(&mut self, task: u16) -> Result<(), Refusal>
        ensures { Led S.Store S.E.Element self.old (Start task) (noted (λ _. Done) result) self.new }
    {
        Ok(self.table.start(task)?)
    }

    // The task ends.
    pub fn finish(&mut self, task: u16) -> Result<(), Refusal>
        ensures { Led S.Store S.E.Element self.old (Finish task) (noted (λ _. Done) result) self.new }
    {
        Ok(self.table.finish(task)?)
    }

    // The task waits for its children.
    pub fn wait(&mut self, task: u16) -> Result<(), Refusal>
        ensures { Led S.Store S.E.Element self.old (Wait task) (noted (λ _. Done) result) self.new }
    {
        Ok(self.table.wait(task)?)
    }

    // The task goes on after its wait.
    pub fn resume(&mut self, task: u16) -> Result<(), Refusal>
        ensures { Led S.Store S.E.Element self.old (Resume task) (noted (λ _. Done) result) self.new }
    {
        Ok(self.table.resume(task)?)
    }

    // The task lets go of the region.
    pub fn release(&mut self, task: u16, lo: u16, hi: u16) -> Result<(), Refusal>
        ensures { Led S.Store S.E.Element self.old (Release task lo hi) (noted (λ _. Done) result) self.new }
    {
        Ok(self.table.release(task, lo, hi)?)
    }

    // The value of the cell, for a task that may read it.
    pub fn read(&self, task: u16, cell: u16) -> Result<S::E, Refusal>
        ensures { Led S.Store S.E.Element self.now (Read task cell) (noted Value result) self.now }
    {
        self.admit(Deed::Reading, task, cell)?;
        let value = self.store.read(cell);
        Ok(value)
    }

    // The task sets the cell, if the store lets it.
    pub fn write(&mut self, task: u16, cell: u16, value: S::E) -> Result<(), Refusal>
        ensures { Led S.Store S.E.Element self.old (Write task cell value) (noted (λ _. Done) result) self.new }
    {
        self.admit(Deed::Writing, task, cell)?;
        Ok(self.store.write(cell, value)?)
    }

    // The task updates the cell by the amount, if the store lets it.
    pub fn update(&mut self, task: u16, cell: u16, amount: S::E) -> Result<(), Refusal>
        ensures { Led S.Store S.E.Element self.old (Update task cell amount) (noted (λ _. Done) result) self.new }
    {
        self.admit(Deed::Updating, task, cell)?;
        Ok(update(&mut self.store, cell, amount)?)
    }

    // The value of the cell, for whoever asks.
    pub fn look(&self, cell: u16) -> Result<S::E, Refusal>
        ensures { Led S.Store S.E.Element self.now (Look cell) (noted Value result) self.now }
    {
        self.admit_look(cell)?;
        Ok(self.store.read(cell))
    }

    // Lists the tasks that may start now and says how many they are.
    pub fn ready(&self, list: &mut [u16]) -> Result<usize, Refusal>
        ensures filled { Filled (view self.now.table) list.old result list.new }
        ensures one { Led S.Store S.E.Element self.now (Ready (length list.old)) (noted (λ n. reply.Ready n list.new) result) self.now }
    {
        Ok(self.table.ready(list)?)
    }
}
