ghost use Rattle.std.specs.Prelude.{◌≡◌, length, Some, None};
ghost use Rattle.stores.specs.Fault.{existing, existing_past};
ghost use Rattle.layers.specs.Layers.{covered, covered_few, held_verdict, Sank};

use crate::held::Held;
use elements::element::Element;
use stores::fault::{Cause, Fault, raised};
use stores::store::Store;

// Holds the last write back, over any store.
#[derive(Drop)]
pub struct WriteBehind<E, S> {
    below: S,
    held: Option<Held<E>>,
}

impl<S: Store> Store for WriteBehind<S::E, S> {
    type E = S::E;

    ghost cells = { λ s. covered s.held (S.Store.cells s.below) };

    ghost verdict = { λ s i. existing (length (covered s.held (S.Store.cells s.below))) i (held_verdict s.held (S.Store.verdict s.below) i) };

    ghost took = { λ s i v t. (t.held ≡ Some (record { cell = i; value = v })) × Sank S.Store.took s.held s.below i t.below };

    ghost few = { λ s. covered_few s.held (S.Store.cells s.below) (S.Store.few s.below) };

    ghost beyond = { λ s i h. existing_past (length (covered s.held (S.Store.cells s.below))) i _ h };

    fn count(&self) -> u16 {
        self.below.count()
    }

    fn read(&self, cell: u16) -> S::E {
        if cell >= self.below.count() {
            return S::E::at_rest();
        }
        match self.held {
            Some(h) if h.cell == cell => h.value,
            _ => self.below.read(cell),
        }
    }

    fn write(&mut self, cell: u16, value: S::E) -> Result<(), Fault> {
        if cell >= self.below.count() {
            return Err(Fault::own(Cause::NoSuchCell, cell));
        }
        if let Some(h) = self.held
            && h.cell != cell
        {
            raised(self.below.write(h.cell, h.value))?;
        }
        self.held = Some(Held { cell, value });
        Ok(())
    }
}

impl<S: Store> WriteBehind<S::E, S> {
    // Holds nothing at first.
    pub fn new(below: S) -> WriteBehind<S::E, S>
        ensures below { result.below ≡ below }
        ensures held { result.held ≡ None }
    {
        WriteBehind { below, held: None }
    }
}
