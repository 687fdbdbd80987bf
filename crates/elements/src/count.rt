ghost use Rattle.std.specs.Prelude.{[], ◌∷◌};
ghost use Rattle.elements.specs.Element.{count_of, count_made, count_updated};
ghost use Rattle.std.proofs.Common.{rules};

use crate::element::Element;

// A count that wraps at 2^64.
#[derive(Clone, Copy, PartialEq, Eq, Debug)]
pub struct Count {
    pub value: u64,
}

impl Element for Count {
    const WIDTH: usize = 1;

    ghost rest = { count_of 0 };

    ghost WIDTH = { 1 };

    ghost numbers = { λ v. v.value ∷ [] };

    ghost made = { count_made };

    ghost updated = { count_updated };

    ghost commutes = { Prim.search rules };

    ghost regained = { Prim.search rules };

    ghost faithful = { Prim.search rules };

    ghost sized = { Prim.search rules };

    fn at_rest() -> Count {
        Count { value: 0 }
    }

    fn number(self, i: usize) -> u64 {
        match i {
            0 => self.value,
            _ => 0,
        }
    }

    fn from_numbers(ns: &[u64]) -> Option<Count> {
        match ns {
            [value] => Some(Count { value: *value }),
            _ => None,
        }
    }

    fn update(self, amount: Count) -> Count {
        Count {
            value: self.value.wrapping_add(amount.value),
        }
    }
}
