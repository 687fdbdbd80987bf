// Layers that stand on any store and are stores again.
#![tactic(auto)]

pub mod allowance;
pub mod behind;
pub mod held;
pub mod lent;
