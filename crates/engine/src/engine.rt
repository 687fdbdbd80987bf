ghost use Rattle.std.specs.Prelude.{◌≡◌, length};
ghost use Rattle.order.specs.Tasks.{new};
ghost use Rattle.order.specs.View.{view};

use order::room::Room;
use order::table::Table;
use stores::store::Store;

// The tasks of a job, and the store that they work on.
#[derive(Drop)]
pub struct Engine<S> {
    pub(crate) table: Table,
    pub(crate) store: S,
}

impl<S: Store> Engine<S> {
    // Task 0 alone, running, with every cell of the store.
    pub fn new(room: Room, store: S) -> Engine<S>
        ensures tasks { view result.table ≡ new (length (S.Store.cells store)) }
        ensures store { result.store ≡ store }
    {
        let cells = store.count();
        Engine {
            table: Table::new(room, cells),
            store,
        }
    }

    // How many cells its store has.
    pub fn cells(&self) -> u16
        ensures { result ≡ length (S.Store.cells self.now.store) }
    {
        self.store.count()
    }
}
