ghost use Rattle.std.specs.Prelude.{[], ◌∷◌, Some};
ghost use Rattle.std.proofs.Common.{lit≤};
ghost use Rattle.elements.specs.Element.{count_of};
ghost use Rattle.stores.specs.declared.fault.Cause.TheVariants.{RecordsUsedUp};
ghost use Rattle.stores.specs.Fault.{existing, existing_past};

use elements::count::Count;
use elements::element::Element;
use stores::fault::{Cause, Fault};
use stores::store::Store;

// One cell that is never open: its fault comes from 254 layers further down.
#[derive(Drop)]
pub struct Deep;

impl Store for Deep {
    type E = Count;

    ghost cells = { λ s. count_of 0 ∷ [] };

    ghost verdict = { λ s i. existing 1 i (Some (record { cause = RecordsUsedUp; depth = 254; cell = i })) };

    ghost took = { λ s i v t. ⊥ };

    ghost few = { λ s. lit≤ tt };

    ghost beyond = { λ s i h. existing_past 1 i _ h };

    fn count(&self) -> u16 {
        1
    }

    fn read(&self, cell: u16) -> Count {
        Count::at_rest()
    }

    fn write(&mut self, cell: u16, value: Count) -> Result<(), Fault> {
        // A store may ask itself for its count, as its users' stores will.
        if cell >= self.count() {
            return Err(Fault {
                cause: Cause::NoSuchCell,
                depth: 0,
                cell,
            });
        }
        Err(Fault {
            cause: Cause::RecordsUsedUp,
            depth: 254,
            cell,
        })
    }
}
