// Kinds of access: their codes, how they combine, conflict and cover, and which steps they allow.
#![tactic(auto)]

pub mod access;
pub mod deed;
pub mod holding;
pub mod kind;
