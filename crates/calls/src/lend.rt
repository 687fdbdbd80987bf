ghost use Rattle.calls.specs.Lent.{Lent};

use crate::written::Written;
use engine::call::Call;
use order::room::MOST_TASKS;

// The call for an engine, with the accesses lent to it.
impl<'a, E: Copy> From<&'a Written<E>> for Call<'a, E> {
    ghost from_gives = { λ written call. Lent written.now call };

    fn from(written: &'a Written<E>) -> Call<'a, E> {
        match *written {
            Written::Create {
                parent,
                waits,
                ref accesses,
            } => Call::Create {
                parent,
                waits,
                accesses,
            },
            Written::Start { task } => Call::Start { task },
            Written::Finish { task } => Call::Finish { task },
            Written::Wait { task } => Call::Wait { task },
            Written::Resume { task } => Call::Resume { task },
            Written::Release { task, lo, hi } => Call::Release { task, lo, hi },
            Written::Read { task, cell } => Call::Read { task, cell },
            Written::Write { task, cell, value } => Call::Write { task, cell, value },
            Written::Update { task, cell, amount } => Call::Update { task, cell, amount },
            Written::Look { cell } => Call::Look { cell },
            Written::Ready => Call::Ready { places: MOST_TASKS },
        }
    }
}
