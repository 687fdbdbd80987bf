ghost use Rattle.std.specs.Prelude.{◌≡◌, ◌<◌, None, slice_index_or, slice_set};
ghost use Rattle.stores.specs.Fault.{existing};
ghost use Rattle.stores.specs.Store.{reached, extent, reached_few, flat_beyond};

use crate::fault::{Cause, Fault};
use crate::reach::{reach, reach_of};
use crate::store::Store;
use elements::element::Element;

// The caller's cells as they are, the first 65,535 of them; every cell is open.
#[derive(Drop)]
pub struct FlatStore<'a, E> {
    places: &'a mut [E],
}

impl<'a, E: Element> Store for FlatStore<'a, E> {
    type E = E;

    ghost cells = { λ s. reached s.places.now };

    ghost verdict = { λ s i. existing (extent s.places.now) i None };

    ghost took = { λ s i v t. (t.places.now ≡ slice_set s.places.now i v) × (t.places.ghost_name ≡ s.places.ghost_name) };

    ghost few = { λ s. reached_few s.places.now };

    ghost beyond = { λ s i h. flat_beyond s.places.now i h };

    fn count(&self) -> u16 {
        reach_of(&*self.places)
    }

    fn read(&self, cell: u16) -> E {
        if cell >= reach(self.places.len()) {
            return E::at_rest();
        }
        self.value_at(cell)
    }

    fn write(&mut self, cell: u16, value: E) -> Result<(), Fault> {
        if cell >= reach(self.places.len()) {
            return Err(Fault::own(Cause::NoSuchCell, cell));
        }
        self.places[cell as usize] = value;
        Ok(())
    }
}

impl<'a, E: Element> FlatStore<'a, E> {
    fn value_at(&self, cell: u16) -> E
        requires { cell < extent self.now.places.now }
        ensures { result ≡ slice_index_or (reached self.now.places.now) cell E.Element.rest }
    {
        self.places[cell as usize]
    }
}

impl<'a, E> FlatStore<'a, E> {
    pub fn new(places: &'a mut [E]) -> FlatStore<'a, E>
        ensures kept { result.places.now ≡ places.old }
        ensures lent { result.places.ghost_name ≡ places.entry.ghost_name }
    {
        FlatStore { places }
    }
}
