ghost use Rattle.std.specs.Prelude.{[], ◌∷◌};
ghost use Rattle.elements.specs.Element.{span_made, span_rest, span_updated};
ghost use Rattle.std.proofs.Common.{rules};

use crate::element::Element;

// The span from a first to a last moment; at rest it spans nothing, so that the first update sets both ends.
#[derive(Clone, Copy, PartialEq, Eq, Debug)]
pub struct Span {
    pub first: u64,
    pub last: u64,
}

impl Element for Span {
    const WIDTH: usize = 2;

    ghost rest = { span_rest };

    ghost WIDTH = { 2 };

    ghost numbers = { λ v. v.first ∷ v.last ∷ [] };

    ghost made = { span_made };

    ghost updated = { span_updated };

    ghost commutes = { Prim.search rules };

    ghost regained = { Prim.search rules };

    ghost faithful = { Prim.search rules };

    ghost sized = { Prim.search rules };

    fn at_rest() -> Span {
        Span {
            first: u64::MAX,
            last: 0,
        }
    }

    fn number(self, i: usize) -> u64 {
        match i {
            0 => self.first,
            1 => self.last,
            _ => 0,
        }
    }

    fn from_numbers(ns: &[u64]) -> Option<Span> {
        match ns {
            [first, last] => Some(Span {
                first: *first,
                last: *last,
            }),
            _ => None,
        }
    }

    fn update(self, amount: Span) -> Span {
        Span {
            first: self.first.min(amount.first),
            last: self.last.max(amount.last),
        }
    }
}
