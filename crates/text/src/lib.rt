// The lines of a text, the numbers that they write, and why a text is not read further.
#![tactic(auto)]

mod find;
pub mod numbers;
pub mod reader;
pub mod unread;
