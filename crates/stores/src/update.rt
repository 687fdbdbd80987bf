ghost use Rattle.stores.specs.Members.{WroteOn, updated_at};

use crate::fault::Fault;
use crate::store::Store;
use elements::element::Element;

// Reads a cell of any store and writes it back updated by the amount.
pub fn update<S: Store>(store: &mut S, cell: u16, amount: S::E) -> Result<(), Fault>
    ensures { WroteOn S.Store store.old cell (updated_at S.Store S.E.Element store.old cell amount) result store.new }
{
    let old = store.read(cell);
    store.write(cell, old.update(amount))
}
