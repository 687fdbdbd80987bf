ghost use Rattle.std.specs.Prelude.{◌≡◌, ℕ, ◌<◌, length, slice_index_or};
ghost use Rattle.stores.specs.Store.{reached, extent};
ghost use Rattle.stores.specs.Chain.{Sound, record_value, head_values, head_values_few, chain_verdict, chain_beyond, Linked, cleared};

use crate::fault::{Cause, Fault};
use crate::reach::reach;
use crate::record::Record;
use crate::store::Store;
use elements::element::Element;

// Each write takes a new record; a cell is the chain of its records, the newest first.
// Records go by numbers, 0 for none: heads and records are the caller's memory, in a form that the caller reads too, and no heap is used.
#[derive(Drop)]
pub struct ChainStore<'a, E> {
    heads: &'a mut [u16],
    records: &'a mut [Record<E>],
    used: u16,
    ghost sound: { Sound (reached heads.now) used (extent records.now) },
}

// The value of a record by its number, and the rest value for 0.
fn value_of<E: Element>(records: &[Record<E>], number: u16) -> E
    ensures { result ≡ record_value E.Element.rest records.now number }
{
    match number {
        0 => E::at_rest(),
        _ => records
            .get(usize::from(number) - 1)
            .map_or(E::at_rest(), |record| record.value),
    }
}

impl<'a, E: Element> Store for ChainStore<'a, E> {
    type E = E;

    ghost cells = { λ s. head_values E.Element.rest s.records.now (reached s.heads.now) };

    ghost verdict = { λ s i. chain_verdict (extent s.heads.now) s.used (extent s.records.now) i };

    ghost took = { λ s i v t. Linked s.heads.now s.records.now s.used i v t.heads.now t.records.now t.used × (t.heads.ghost_name ≡ s.heads.ghost_name) × (t.records.ghost_name ≡ s.records.ghost_name) };

    ghost few = { λ s. head_values_few E.Element.rest s.records.now s.heads.now };

    ghost beyond = { λ s i h. chain_beyond E.Element.rest s.records.now s.heads.now s.used (extent s.records.now) i h };

    fn count(&self) -> u16 {
        self.heads_taken()
    }

    fn read(&self, cell: u16) -> E {
        if cell >= reach(self.heads.len()) {
            return E::at_rest();
        }
        self.value_at(cell)
    }

    fn write(&mut self, cell: u16, value: E) -> Result<(), Fault> {
        if cell >= reach(self.heads.len()) {
            return Err(Fault::own(Cause::NoSuchCell, cell));
        }
        if self.used >= reach(self.records.len()) {
            return Err(Fault::own(Cause::RecordsUsedUp, cell));
        }
        self.link(cell, value);
        Ok(())
    }
}

impl<'a, E: Element> ChainStore<'a, E> {
    // How many heads the store takes, and so cells.
    fn heads_taken(&self) -> u16
        ensures { result ≡ length (head_values E.Element.rest self.now.records.now (reached self.now.heads.now)) }
    {
        reach(self.heads.len())
    }

    // The value of a cell's head record.
    fn value_at(&self, cell: u16) -> E
        requires { cell < extent self.now.heads.now }
        ensures { result ≡ slice_index_or (head_values E.Element.rest self.now.records.now (reached self.now.heads.now)) cell E.Element.rest }
    {
        value_of(&*self.records, self.heads[cell as usize])
    }

    // Takes the next record for the value, points it at the cell's head and makes it the head.
    fn link(&mut self, cell: u16, value: E)
        requires { (cell < extent self.old.heads.now) × (self.old.used < extent self.old.records.now) }
        ensures linked { Linked self.old.heads.now self.old.records.now self.old.used cell value self.new.heads.now self.new.records.now self.new.used }
        ensures heads { self.new.heads.ghost_name ≡ self.old.heads.ghost_name }
        ensures records { self.new.records.ghost_name ≡ self.old.records.ghost_name }
    {
        let next = self.heads[cell as usize];
        self.records[self.used as usize] = Record { value, next };
        self.used += 1;
        self.heads[cell as usize] = self.used;
    }
}

// Sets the places that the store takes to 0.
fn clear(heads: &mut [u16])
    ensures { heads.new ≡ cleared heads.old }
{
    let taken = reach(heads.len()) as usize;
    heads[..taken].fill(0);
}

impl<'a, E> ChainStore<'a, E> {
    pub fn new(heads: &'a mut [u16], records: &'a mut [Record<E>]) -> ChainStore<'a, E>
        ensures heads { result.heads.now ≡ cleared heads.old }
        ensures records { result.records.now ≡ records.old }
        ensures used { result.used ≡ 0 }
        ensures lent_heads { result.heads.ghost_name ≡ heads.entry.ghost_name }
        ensures lent_records { result.records.ghost_name ≡ records.entry.ghost_name }
    {
        clear(heads);
        ChainStore {
            heads,
            records,
            used: 0,
        }
    }
}
