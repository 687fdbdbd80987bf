ghost use Rattle.std.specs.Prelude.{◌≡◌};
ghost use Rattle.stores.specs.Fault.{cause_number, own_fault, deeper, raised_result};

// Why a store refuses a write.
#[derive(Clone, Copy, PartialEq, Eq, Debug)]
pub enum Cause {
    RecordsUsedUp = 1,
    AllowanceSpent = 2,
    NoSuchCell = 3,
}

impl Cause {
    pub fn number(self) -> u8
        ensures { result ≡ cause_number self }
    {
        self as u8
    }
}

// A refused write: the cause, how many layers the fault came up through, and the cell that could not be written.
#[derive(Clone, Copy, PartialEq, Eq, Debug)]
pub struct Fault {
    pub cause: Cause,
    pub depth: u8,
    pub cell: u16,
}

impl Fault {
    // A fault of the store that was asked itself.
    pub fn own(cause: Cause, cell: u16) -> Fault
        ensures { result ≡ own_fault cause cell }
    {
        Fault {
            cause,
            depth: 0,
            cell,
        }
    }

    // The fault as one layer up gives it.
    fn deeper(self) -> Fault
        ensures { result ≡ deeper self }
    {
        Fault {
            depth: self.depth.saturating_add(1),
            ..self
        }
    }
}

// What a layer answers where the store below it answered `below`.
pub fn raised(below: Result<(), Fault>) -> Result<(), Fault>
    ensures { result ≡ raised_result below }
{
    below.map_err(Fault::deeper)
}
