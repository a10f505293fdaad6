// Tests of the crate `table`: small dumps with their numerals.
#![tactic(auto)]

#[cfg(test)]
mod tests;
