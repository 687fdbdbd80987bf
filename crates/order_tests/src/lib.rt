// Tests of the order rules, by examples worked out from them.
#![tactic(auto)]

#[cfg(test)]
mod tests;
