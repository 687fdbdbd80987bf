ghost use Rattle.std.specs.Prelude.{◌≡◌, ℕ, ◌<◌, ◌≤◌, true, length, None};
ghost use Rattle.order.specs.Holdings.{held, in_use, Reach};
ghost use Rattle.kinds.specs.Kinds.{asked};
ghost use Rattle.order.specs.Questions.{regions_lie};
ghost use Rattle.order.specs.Stretches.{end_by};
ghost use Rattle.order.specs.Sweeping.{appended, asked_by, better, goes_on, nearest};
ghost use Rattle.order.specs.Tasks.{World};

use crate::run::Run;
use crate::runs::Runs;
use kinds::access::Access;
use kinds::holding::Holding;

// What an access asks of the cell.
fn asks(access: &Access, cell: u16) -> Option<Holding>
    ensures { result ≡ asked_by access.now cell }
{
    if (access.lo..access.hi).contains(&cell) {
        Holding::try_from(access.code).ok()
    } else {
        None
    }
}

// What the accesses together ask of the cell.
fn asked_at(accesses: &[Access], cell: u16) -> Option<Holding>
    ensures { result ≡ asked accesses.now cell }
{
    accesses
        .iter()
        .filter_map(|access| asks(access, cell))
        .reduce(|a, b| a.combine(b))
}

// The better of a bound and the best one so far, among those above pos. A step of a fold: by `chain`, `filter` and `min` over all bounds a
// task's life takes twice as long.
fn better_bound(pos: u16, bound: u16, best: Option<u16>) -> Option<u16>
    ensures { result ≡ better pos bound best }
{
    if pos < bound && best.is_none_or(|other| bound < other) {
        Some(bound)
    } else {
        best
    }
}

// The least bound of an access above pos.
fn next_bound(accesses: &[Access], pos: u16) -> Option<u16>
    ensures { result ≡ nearest pos accesses.now None }
{
    accesses.iter().fold(None, |best, access| {
        better_bound(pos, access.hi, better_bound(pos, access.lo, best))
    })
}

impl Run {
    // Whether the next run begins where this one ends and is held alike.
    fn goes_on(&self, next: &Run) -> bool
        ensures { result ≡ goes_on self.now next.now }
    {
        self.hi == next.lo && self.holding == next.holding
    }
}

impl Runs {
    // Adds a run behind all others, as a part of the last where it goes on with that.
    fn append(&mut self, run: Run)
        requires some { run.lo < run.hi }
        requires behind { end_by run.lo (in_use self.old) ≡ true }
        requires room { length (in_use self.old) < 16 }
        ensures { in_use self.new ≡ appended (in_use self.old) run }
    {
        // Named apart, since a proof knows what a list is after a loan only where it is lent under a name of its own.
        let list = &mut self.list;
        match list.as_mut_slice().last_mut() {
            Some(last) if last.goes_on(&run) => last.hi = run.hi,
            _ => list.push(run),
        }
    }

    // What the accesses ask, cell by cell. Every stretch begins and ends at a bound, and eight accesses have sixteen.
    pub(crate) fn of_accesses(accesses: &[Access]) -> Runs
        requires { length accesses.now ≤ 8 }
        ensures held { (c : ℕ) → held result c ≡ asked accesses.now c }
        ensures reach { (w : World) → regions_lie w accesses.now ≡ true → Reach result w.cells }
    {
        let mut out = Runs::none();
        let mut pos = 0;
        while let Some(next) = next_bound(accesses, pos) {
            if let Some(holding) = asked_at(accesses, pos) {
                out.append(Run {
                    lo: pos,
                    hi: next,
                    holding,
                });
            }
            pos = next;
        }
        out
    }
}
