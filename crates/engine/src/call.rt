ghost use Rattle.std.specs.Prelude.{◌≡◌, Ok};
ghost use Rattle.engine.specs.declared.call.Reply.TheVariants.{Done};

use crate::refusal::Refusal;
use kinds::access::Access;
use order::room::MOST_TASKS;

// A call with all that a caller can say in it.
#[derive(Clone, Copy)]
pub enum Call<'a, E> {
    Create {
        parent: u16,
        waits: bool,
        accesses: &'a [Access],
    },
    Start {
        task: u16,
    },
    Finish {
        task: u16,
    },
    Wait {
        task: u16,
    },
    Resume {
        task: u16,
    },
    Release {
        task: u16,
        lo: u16,
        hi: u16,
    },
    Read {
        task: u16,
        cell: u16,
    },
    Write {
        task: u16,
        cell: u16,
        value: E,
    },
    Update {
        task: u16,
        cell: u16,
        amount: E,
    },
    Look {
        cell: u16,
    },
    Ready {
        places: usize,
    },
}

// What an accepted call answers; of a list of ready tasks the first `count` places count.
// An array and a count, since a reply needs no memory of its own and a caller may make one with any count.
#[derive(Clone, Copy)]
pub enum Reply<E> {
    Done,
    Task(u16),
    Value(E),
    Ready {
        count: usize,
        list: [u16; MOST_TASKS],
    },
}

// A call, and the place for its answer. The place always has an answer, so that those of a run are read without asking whether they are there.
#[derive(Clone, Copy)]
pub struct Turn<'a, E> {
    pub call: Call<'a, E>,
    pub answer: Result<Reply<E>, Refusal>,
}

// A turn that is to be taken; until then its place for the answer has any answer.
impl<'a, E> From<Call<'a, E>> for Turn<'a, E> {
    ghost from_gives = { λ call turn. (turn.call ≡ call) × (turn.answer ≡ Ok Done) };

    fn from(call: Call<'a, E>) -> Turn<'a, E> {
        Turn {
            call,
            answer: Ok(Reply::Done),
        }
    }
}
