ghost use Rattle.std.specs.Prelude.{◌≡◌, ℕ, ◌≤◌, List, length, Some, slice_index_or};
ghost use Rattle.stores.specs.declared.fault.Cause.TheVariants.{NoSuchCell};
ghost use Rattle.stores.specs.Fault.{Verdict, own_fault};
ghost use Rattle.stores.specs.Store.{Wrote, most};

use crate::fault::Fault;
use elements::element::Element;

// Cells with values, each open to a write or not.
pub trait Store {
    type E: Element;

    ghost cells: { Self → List Self.E };

    ghost verdict: { Self → ℕ → Verdict };

    // The store before, a cell, a value, and the store after an accepted write of that value to that cell.
    ghost took: { Self → ℕ → Self.E → Self → Type 0 };

    ghost few: { (s : Self) → length (cells s) ≤ most };

    ghost beyond: { (s : Self) (i : ℕ) → length (cells s) ≤ i → verdict s i ≡ Some (own_fault NoSuchCell i) };

    fn count(&self) -> u16
        ensures { result ≡ length (cells self.now) };

    fn read(&self, cell: u16) -> Self::E
        ensures { result ≡ slice_index_or (cells self.now) cell Self.E.Element.rest };

    fn write(&mut self, cell: u16, value: Self::E) -> Result<(), Fault>
        ensures { Wrote cells verdict took self.old cell value result self.new };
}
