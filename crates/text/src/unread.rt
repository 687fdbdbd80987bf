ghost use Rattle.std.specs.Prelude.{◌≡◌, alloc_error};
ghost use Rattle.text.specs.Unread.{unread_number};
ghost use Rattle.text.specs.declared.unread.Stop.TheVariants.{No, Memory};

use std::alloc::{AllocError, AllocFailed};

// Why a list of calls is not read further.
#[derive(Clone, Copy, PartialEq, Eq, Debug)]
pub enum Unread {
    TooLong = 19,
    NoLineEnd = 20,
    BadHeader = 21,
    UnknownLetter = 22,
    BadNumbers = 23,
    WrongCount = 24,
    OutOfRange = 25,
}

impl Unread {
    // The number of the question that has the answer no.
    pub fn number(self) -> u8
        ensures { result ≡ unread_number self }
    {
        self as u8
    }
}

// Why reading ends early: a question has the answer no, or memory is wanting.
#[derive(Clone, Copy, PartialEq, Eq, Debug)]
pub enum Stop {
    No(Unread),
    Memory(AllocError),
}

impl From<Unread> for Stop {
    ghost from_gives = { λ why r. r ≡ No why };

    fn from(why: Unread) -> Stop {
        Stop::No(why)
    }
}

impl From<AllocError> for Stop {
    ghost from_gives = { λ error r. r ≡ Memory error };

    fn from(error: AllocError) -> Stop {
        Stop::Memory(error)
    }
}

impl<T> From<AllocFailed<T>> for Stop
where
    T: Drop,
{
    ghost from_gives = { λ _ r. r ≡ Memory alloc_error };

    fn from(failed: AllocFailed<T>) -> Stop {
        Stop::Memory(failed.into())
    }
}
