ghost use Rattle.std.specs.Prelude.{◌≤◌, vec_capacity};
ghost use Rattle.order.specs.Records.{Sound};

use crate::task::Task;

// All tasks of a job, by their numbers, in memory that is reserved at the start.
// An arena, since callers name a task by its number and no call may need memory.
// No model: one as the tasks of the rules would hide the records, and the contract of a release says that the others stay.
#[derive(Drop)]
pub struct Table {
    pub(crate) cells: u16,
    pub(crate) tasks: Vec<Task>,
    ghost room: { 64 ≤ vec_capacity tasks },
    ghost sound: { Sound cells tasks.items },
}
