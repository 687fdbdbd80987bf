// Tests of how answers are written, by examples worked out from the rules.
#![tactic(auto)]

#[cfg(test)]
mod tests;
