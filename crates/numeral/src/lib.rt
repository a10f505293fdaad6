// Texts in a dump: which are numbers, which are a given word, and their order.
#![tactic(auto)]

pub mod digits;
pub mod numerals;
pub mod texts;
