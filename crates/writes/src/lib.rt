// Lists of writes on a store, and what they make of it.
#![tactic(auto)]

pub mod each;
pub mod lender;
pub mod pile;
pub mod turn;
