ghost use Rattle.std.specs.Prelude.{◌≡◌};

use stores::fault::Fault;
use stores::store::Store;

// A store that is lent, so that a layer can stand on one that its owner gets back.
#[derive(Drop)]
pub struct Lent<'a, S> {
    pub store: &'a mut S,
}

impl<'a, S: Store> Store for Lent<'a, S> {
    type E = S::E;

    ghost cells = { λ s. S.Store.cells s.store.now };

    ghost verdict = { λ s i. S.Store.verdict s.store.now i };

    ghost took = { λ s i v t. S.Store.took s.store.now i v t.store.now × (t.store.ghost_name ≡ s.store.ghost_name) };

    ghost few = { λ s. S.Store.few s.store.now };

    ghost beyond = { λ s i h. S.Store.beyond s.store.now i h };

    fn count(&self) -> u16 {
        self.store.count()
    }

    fn read(&self, cell: u16) -> S::E {
        self.store.read(cell)
    }

    fn write(&mut self, cell: u16, value: S::E) -> Result<(), Fault> {
        self.store.write(cell, value)
    }
}
