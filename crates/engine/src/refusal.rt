ghost use Rattle.std.specs.Prelude.{◌≡◌};
ghost use Rattle.engine.specs.Numbers.{number_of};
ghost use Rattle.engine.specs.declared.refusal.Refusal.TheVariants.{Rule, Store};

use stores::fault::Fault;

// Why a call is refused: by an order rule, or by the store, whose fault comes whole.
#[derive(Clone, Copy)]
pub enum Refusal {
    Rule(order::refusal::Refusal),
    Store(Fault),
}

impl Refusal {
    // The number that a call answers where it is refused for this reason; a variant with a value has no number of its own to cast.
    pub fn number(self) -> u8
        ensures { result ≡ number_of self }
    {
        match self {
            Refusal::Rule(rule) => rule.number(),
            Refusal::Store(_) => 17,
        }
    }
}

impl From<order::refusal::Refusal> for Refusal {
    ghost from_gives = { λ why r. r ≡ Rule why };

    fn from(why: order::refusal::Refusal) -> Refusal {
        Refusal::Rule(why)
    }
}

impl From<Fault> for Refusal {
    ghost from_gives = { λ fault r. r ≡ Store fault };

    fn from(fault: Fault) -> Refusal {
        Refusal::Store(fault)
    }
}
