// Tests of the elements, the stores and their layers, by examples worked out from the rules.
#![tactic(auto)]

#[cfg(test)]
mod deep;
#[cfg(test)]
mod tests;
