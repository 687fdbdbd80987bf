// Tests of call lists, at the bounds of their form.
#![tactic(auto)]

#[cfg(test)]
mod tests;
