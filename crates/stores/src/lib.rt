// Stores: cells that can be read and written.
#![tactic(auto)]

pub mod chain;
pub mod fault;
pub mod flat;
mod reach;
pub mod record;
pub mod store;
pub mod update;
