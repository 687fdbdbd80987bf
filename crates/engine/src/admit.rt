ghost use Rattle.order.specs.Questions.{look, step};
ghost use Rattle.order.specs.View.{view};
ghost use Rattle.engine.specs.Calls.{Admitted};

use crate::engine::Engine;
use crate::refusal::Refusal;
use kinds::deed::Deed;
use stores::store::Store;

// What the order rules say before the store is read or asked.
impl<S: Store> Engine<S> {
    // Whether the task may take the step on the cell now, as far as the order rules decide it.
    pub(crate) fn admit(&self, deed: Deed, task: u16, cell: u16) -> Result<(), Refusal>
        ensures { Admitted (view self.now.table) (S.Store.verdict self.now.store cell) (step deed task cell) result }
    {
        Ok(self.table.admit(deed, task, cell)?)
    }

    // Whether there is such a cell to look at.
    pub(crate) fn admit_look(&self, cell: u16) -> Result<(), Refusal>
        ensures { Admitted (view self.now.table) (S.Store.verdict self.now.store cell) (look cell) result }
    {
        Ok(self.table.look(cell)?)
    }
}
