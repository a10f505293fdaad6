// Tests of the crate `speller`: doubles by their bits.
#![tactic(auto)]

#[cfg(test)]
mod tests;
