ghost use Rattle.std.specs.Prelude.{◌≡◌};
ghost use Rattle.order.specs.Pairs.{stands_aside};
ghost use Rattle.order.specs.Questions.{first_no, look, no_descendant_conflict, step};
ghost use Rattle.order.specs.View.{Known, answer_number, view};

use crate::refusal::Refusal;
use crate::table::Table;
use kinds::deed::Deed;

// The questions that a read, write or update of a cell is put. Known numbers are parameters, for the reason that tree.rt gives.
// `deed`, `t` and `cell` stay three: the public `admit` is given them so, and each question takes what it needs.
impl Table {
    // Whether u, if it is a descendant of t, does not hinder the step.
    fn stands_aside(&self, deed: Deed, t: u16, cell: u16, u: u16) -> bool
        requires { Known self.now t × Known self.now u }
        ensures { result ≡ stands_aside (view self.now) deed t cell u }
    {
        !self.tasks[u as usize].clashes(deed, cell) || !self.is_ancestor(t, u)
    }

    pub(crate) fn no_descendant_conflict(&self, deed: Deed, t: u16, cell: u16) -> bool
        requires { Known self.now t }
        ensures { result ≡ no_descendant_conflict (view self.now) deed t cell }
    {
        (0..self.len()).all(|u| self.stands_aside(deed, t, cell, u))
    }

    // Whether task t may take the step on the cell now, else why not.
    pub fn admit(&self, deed: Deed, t: u16, cell: u16) -> Result<(), Refusal>
        ensures { answer_number result ≡ first_no (view self.now) (step deed t cell) }
    {
        let task = self.running(t)?;
        if cell >= self.cells {
            return Err(Refusal::NoSuchCell);
        }
        if !task.allows(deed, cell) {
            return Err(Refusal::NoFittingHolding);
        }
        if !self.no_descendant_conflict(deed, t, cell) {
            return Err(Refusal::DescendantConflict);
        }
        Ok(())
    }

    // Whether there is such a cell to look at.
    pub fn look(&self, cell: u16) -> Result<(), Refusal>
        ensures { answer_number result ≡ first_no (view self.now) (look cell) }
    {
        if cell < self.cells {
            Ok(())
        } else {
            Err(Refusal::NoSuchCell)
        }
    }
}
