ghost use Rattle.std.specs.Prelude.{◌≡◌, ◌≤◌, [], IfOk, vec_len, vec_capacity};

use crate::task::Task;
use std::alloc::{AllocError, Global};

// The tasks that a table has room for, and the places that a list of ready tasks needs.
pub const MOST_TASKS: usize = 64;

// The memory of one table, all that it will ever need.
#[derive(Drop)]
pub struct Room {
    pub(crate) tasks: Vec<Task>,
    ghost empty: { tasks.items ≡ [] },
    ghost unused: { vec_len tasks ≡ 0 },
    ghost reserved: { 64 ≤ vec_capacity tasks },
}

impl Room {
    pub fn reserve(heap: Global) -> Result<Room, AllocError>
        ensures { IfOk result (λ m. (m.tasks.items ≡ []) × (64 ≤ vec_capacity m.tasks)) }
    {
        let tasks = Vec::with_capacity(heap, MOST_TASKS)?;
        Ok(Room { tasks })
    }
}
