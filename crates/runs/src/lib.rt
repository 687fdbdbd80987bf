// Runs of calls on an engine, with all that they promise.
#![tactic(auto)]

pub mod run;
pub mod settled;
pub mod worked;
