// Calls as lines of text: the header, and the call that a line writes.
#![tactic(auto)]

pub mod header;
pub mod lend;
pub mod letter;
pub mod line;
mod ranges;
pub mod written;
