// Whole lists of calls: read, run and answered as text.
#![tactic(auto)]

pub mod list;
mod listing;
mod piled;
mod reading;
mod turns;
