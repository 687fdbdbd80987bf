// Elements: what a cell can hold.
#![tactic(auto)]

pub mod count;
pub mod element;
pub mod span;
