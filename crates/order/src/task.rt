use crate::runs::Runs;
use crate::state::State;

// One task as the table keeps it; open counts its children that are not deeply complete.
// Task 0 has no parent; its parent's number is 0 and no `None`: each climb stops at a number that it has, and never asks for a parent that is none.
#[derive(Drop)]
pub struct Task {
    pub(crate) parent: u16,
    pub(crate) waits: bool,
    pub(crate) state: State,
    pub(crate) open: u16,
    pub(crate) runs: Runs,
}
