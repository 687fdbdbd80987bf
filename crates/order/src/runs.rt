ghost use Rattle.std.specs.Prelude.{◌≡◌, ◌≤◌, true, length};
ghost use Rattle.order.specs.Stretches.{longest};

use crate::run::Run;
use arrayvec::ArrayVec;

// The runs that a record has room for.
const MOST_RUNS: usize = 16;

// A task's holdings: at most sixteen runs, the longest stretches in ascending order.
#[derive(Drop)]
pub struct Runs {
    pub(crate) list: ArrayVec<Run, MOST_RUNS>,
    ghost few: { length list.items ≤ 16 },
    ghost sorted: { longest list.items ≡ true },
}
