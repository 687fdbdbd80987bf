ghost use Rattle.std.specs.Prelude.{◌≡◌};
ghost use Rattle.order.specs.Refusals.{refusal_number};

// Why a call is refused, as far as no store decides it: each reason with its number. 17 is the store's own.
#[derive(Clone, Copy, Debug, PartialEq, Eq)]
pub enum Refusal {
    NoSuchTask = 1,
    WrongState = 2,
    TooManyTasks = 3,
    TooManyAccesses = 4,
    BadRegion = 5,
    UnknownKind = 6,
    CommutativeParent = 7,
    NotCovered = 8,
    EarlierConflict = 9,
    CommutativeBusy = 10,
    ChildrenOpen = 11,
    NotHeld = 12,
    TooManyRuns = 13,
    NoSuchCell = 14,
    NoFittingHolding = 15,
    DescendantConflict = 16,
    ShortList = 18,
}

impl Refusal {
    // The number that a call answers where it is refused for this reason.
    pub fn number(self) -> u8
        ensures { result ≡ refusal_number self }
    {
        self as u8
    }
}
