// Tests of the crate `numeral`: texts by their bytes.
#![tactic(auto)]

#[cfg(test)]
mod tests;
