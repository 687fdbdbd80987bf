// The engine: the tasks of a job over any store, and its calls.
#![tactic(auto)]

mod admit;
pub mod call;
pub mod calls;
pub mod engine;
pub mod refusal;
