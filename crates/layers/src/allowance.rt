ghost use Rattle.std.specs.Prelude.{◌≡◌, ◌+◌, length};
ghost use Rattle.stores.specs.Fault.{existing_past};
ghost use Rattle.layers.specs.Layers.{allowance_verdict};

use stores::fault::{Cause, Fault, raised};
use stores::store::Store;

// A number of writes left, over any store.
#[derive(Drop)]
pub struct Allowance<S> {
    below: S,
    left: u64,
}

impl<S: Store> Store for Allowance<S> {
    type E = S::E;

    ghost cells = { λ s. S.Store.cells s.below };

    ghost verdict = { λ s i. allowance_verdict (length (S.Store.cells s.below)) s.left i (S.Store.verdict s.below i) };

    ghost took = { λ s i v t. (t.left + 1 ≡ s.left) × S.Store.took s.below i v t.below };

    ghost few = { λ s. S.Store.few s.below };

    ghost beyond = { λ s i h. existing_past (length (S.Store.cells s.below)) i _ h };

    fn count(&self) -> u16 {
        self.below.count()
    }

    fn read(&self, cell: u16) -> S::E {
        self.below.read(cell)
    }

    fn write(&mut self, cell: u16, value: S::E) -> Result<(), Fault> {
        if cell >= self.below.count() {
            return Err(Fault::own(Cause::NoSuchCell, cell));
        }
        if self.left == 0 {
            return Err(Fault::own(Cause::AllowanceSpent, cell));
        }
        raised(self.below.write(cell, value))?;
        self.left -= 1;
        Ok(())
    }
}

impl<S> Allowance<S> {
    pub fn new(below: S, left: u64) -> Allowance<S>
        ensures below { result.below ≡ below }
        ensures left { result.left ≡ left }
    {
        Allowance { below, left }
    }
}
