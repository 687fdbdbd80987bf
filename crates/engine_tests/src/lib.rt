// Tests of the engine over the stores and layers and both elements, by examples worked out from the rules.
#![tactic(auto)]

#[cfg(test)]
mod tests;
