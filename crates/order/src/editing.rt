ghost use Rattle.std.specs.Prelude.{◌≡◌, ℕ, ◌<◌, true, false, [], ◌++◌, length, if◌then◌else◌, None, MatchResult, OnOk, IfErr, is_ok, nat_le, nat_lt};
ghost use Rattle.order.specs.declared.refusal.Refusal.TheVariants.{TooManyRuns};
ghost use Rattle.kinds.specs.declared.kind.Kind.TheVariants.{Inout};
ghost use Rattle.order.specs.Cutting.{if_any, left};
ghost use Rattle.order.specs.Holdings.{held, in_use, Reach};
ghost use Rattle.kinds.specs.Kinds.{strongly};
ghost use Rattle.order.specs.Questions.{most_runs, run_count, without};
ghost use Rattle.order.specs.Stretches.{longest};

use crate::refusal::Refusal;
use crate::run::Run;
use crate::runs::Runs;
use arrayvec::ArrayVec;
use kinds::holding::Holding;
use kinds::kind::Kind;

impl Runs {
    pub(crate) fn none() -> Runs
        ensures { in_use result ≡ [] }
    {
        Runs {
            list: ArrayVec::new(),
        }
    }

    // All cells, held strongly as inout.
    pub(crate) fn whole(cells: u16) -> Runs
        ensures held { (c : ℕ) → held result c ≡ (if nat_lt c cells then strongly Inout else None) }
        ensures reach { Reach result cells }
    {
        let mut list = ArrayVec::new();
        if cells > 0 {
            list.push(Run {
                lo: 0,
                hi: cells,
                holding: Holding {
                    kind: Kind::Inout,
                    strong: true,
                },
            });
        }
        Runs { list }
    }

    // Adds the run at the end if it has a cell, and refuses where there is no room for it.
    fn push(&mut self, run: Run) -> Result<(), Refusal>
        requires { longest (in_use self.old ++ if_any run) ≡ true }
        ensures room { is_ok result ≡ nat_le (length (in_use self.old ++ if_any run)) most_runs }
        ensures runs { OnOk result (in_use self.new ≡ in_use self.old ++ if_any run) }
        ensures full { IfErr result (λ e. e ≡ TooManyRuns) }
    {
        if run.lo < run.hi {
            self.list.try_push(run).map_err(|_| Refusal::TooManyRuns)?;
        }
        Ok(())
    }

    // Adds what is left of the run without the region.
    fn push_left(&mut self, run: &Run, lo: u16, hi: u16) -> Result<(), Refusal>
        requires { longest (in_use self.old ++ left lo hi run.now) ≡ true }
        ensures room { is_ok result ≡ nat_le (length (in_use self.old ++ left lo hi run.now)) most_runs }
        ensures runs { OnOk result (in_use self.new ≡ in_use self.old ++ left lo hi run.now) }
        ensures full { IfErr result (λ e. e ≡ TooManyRuns) }
    {
        self.push(Run {
            hi: run.hi.min(lo),
            ..*run
        })?;
        self.push(Run {
            lo: run.lo.max(hi),
            ..*run
        })
    }

    // The holdings without the region, refused where more than sixteen runs would remain.
    pub(crate) fn without(&self, lo: u16, hi: u16) -> Result<Runs, Refusal>
        requires { lo < hi }
        ensures { (n : ℕ) → Reach self.now n → MatchResult result (λ s. (nat_le (run_count (without lo hi (held self.now)) n) most_runs ≡ true) × ((c : ℕ) → held s c ≡ without lo hi (held self.now) c) × Reach s n) (λ e. (e ≡ TooManyRuns) × (nat_le (run_count (without lo hi (held self.now)) n) most_runs ≡ false)) }
    {
        let mut out = Runs::none();
        for run in self.as_slice() {
            out.push_left(run, lo, hi)?;
        }
        Ok(out)
    }
}
