ghost use Rattle.std.specs.Prelude.{◌≡◌, length};
ghost use Rattle.order.specs.Pairs.{keeps_order, takes_turns};
ghost use Rattle.order.specs.Questions.{commutative_free, first_no, no_earlier_conflict, start};
ghost use Rattle.order.specs.View.{Known, answer_number, view};

use crate::refusal::Refusal;
use crate::table::Table;

// The questions that a start is put about all other tasks. Known numbers are parameters, for the reason that tree.rt gives.
impl Table {
    pub(crate) fn len(&self) -> u16
        ensures { result ≡ length self.now.tasks.items }
    {
        self.tasks.len() as u16
    }

    // Whether t does not have to wait for u to keep program order. What they hold is looked at first, since most tasks do not meet.
    fn keeps_order(&self, t: u16, u: u16) -> bool
        requires { Known self.now t × Known self.now u }
        ensures { result ≡ keeps_order (view self.now) t u }
    {
        !self.tasks[u as usize].bars(&self.tasks[t as usize]) || !self.is_earlier(u, t)
    }

    // Whether u does not keep t from being the one that uses a commutative cell.
    fn takes_turns(&self, t: u16, u: u16) -> bool
        requires { Known self.now t × Known self.now u }
        ensures { result ≡ takes_turns (view self.now) t u }
    {
        let other = &self.tasks[u as usize];
        u == t || other.is_created() || !other.shares_commutative(&self.tasks[t as usize])
    }

    pub(crate) fn no_earlier_conflict(&self, t: u16) -> bool
        requires { Known self.now t }
        ensures { result ≡ no_earlier_conflict (view self.now) t }
    {
        (0..self.len()).all(|u| self.keeps_order(t, u))
    }

    pub(crate) fn commutative_free(&self, t: u16) -> bool
        requires { Known self.now t }
        ensures { result ≡ commutative_free (view self.now) t }
    {
        (0..self.len()).all(|u| self.takes_turns(t, u))
    }

    // Whether task t may start now, else why not.
    pub(crate) fn may_start(&self, t: u16) -> Result<(), Refusal>
        ensures { answer_number result ≡ first_no (view self.now) (start t) }
    {
        if !self.known(t)?.is_created() {
            return Err(Refusal::WrongState);
        }
        if !self.no_earlier_conflict(t) {
            return Err(Refusal::EarlierConflict);
        }
        if !self.commutative_free(t) {
            return Err(Refusal::CommutativeBusy);
        }
        Ok(())
    }
}
