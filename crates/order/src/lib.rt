// The order rules of nested tasks over cells. They know of no store.
#![tactic(auto)]

mod calls;
mod counters;
mod creation;
mod editing;
mod held_now;
mod lookup;
mod overlap;
mod ready;
pub mod refusal;
pub mod room;
mod run;
mod runs;
mod startable;
pub mod state;
mod steps;
mod sweep;
pub mod table;
mod task;
mod tree;
mod turns;
