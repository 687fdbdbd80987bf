// The answers of an engine, written as lines of text.
#![tactic(auto)]

pub mod line;
