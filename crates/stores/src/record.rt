ghost use Rattle.std.specs.Prelude.{◌≡◌};

use elements::element::Element;

// One write that a chain store keeps: the value, and the number of the record before it, 0 for none.
#[derive(Clone, Copy)]
pub struct Record<E> {
    pub value: E,
    pub next: u16,
}

impl<E: Element> Record<E> {
    // A record that no write has taken.
    pub fn unused() -> Record<E>
        ensures { result ≡ record { value = E.Element.rest; next = 0 } }
    {
        Record {
            value: E::at_rest(),
            next: 0,
        }
    }
}
