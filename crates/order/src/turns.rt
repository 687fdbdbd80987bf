ghost use Rattle.std.specs.Prelude.{◌≡◌, ℕ, ◌<◌, ◌≤◌};
ghost use Rattle.order.specs.Holdings.{Reach};
ghost use Rattle.order.specs.Questions.{first_number};
ghost use Rattle.order.specs.Turns.{Released, Turned, resume_questions};
ghost use Rattle.order.specs.View.{answer_number};

use crate::refusal::Refusal;
use crate::state::State;
use crate::task::Task;

// A call that only turns its task to another state. A name and not a closure: the states and the calls are one table, below.
#[derive(Clone, Copy)]
pub enum Turn {
    Start,
    Finish,
    Wait,
    Resume,
}

impl Task {
    // Turns the task to the state that follows, where it stands where the call needs it.
    pub(crate) fn turn(&mut self, call: Turn) -> Result<(), Refusal>
        ensures { Turned self.old call result self.new }
    {
        self.state = match (self.state, call) {
            (State::Created, Turn::Start) => State::Running,
            (State::Waiting, Turn::Resume) => State::Running,
            (State::Running, Turn::Wait) => State::Waiting,
            (State::Running, Turn::Finish) => State::Finished,
            _ => return Err(Refusal::WrongState),
        };
        Ok(())
    }

    // Lets go of the region, all of which has to be held, where few enough runs remain.
    // `lo` and `hi` stay two numbers, as the call gives them.
    pub(crate) fn release(&mut self, lo: u16, hi: u16) -> Result<(), Refusal>
        requires { lo < hi }
        ensures { (n : ℕ) → hi ≤ n → Reach self.old.runs n → Released self.old lo hi n result self.new }
    {
        if !self.runs.holds_region(lo, hi) {
            return Err(Refusal::NotHeld);
        }
        self.runs = self.runs.without(lo, hi)?;
        Ok(())
    }

    // Whether a resume is open to it.
    pub(crate) fn may_resume(&self) -> Result<(), Refusal>
        ensures { answer_number result ≡ first_number (resume_questions self.now) }
    {
        match self.state {
            State::Waiting if self.open == 0 => Ok(()),
            State::Waiting => Err(Refusal::ChildrenOpen),
            _ => Err(Refusal::WrongState),
        }
    }
}
