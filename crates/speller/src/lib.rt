// Spellers: what gives doubles their numerals.
#![tactic(auto)]

mod decimal;
pub mod fault;
pub mod spelling;
pub mod whole;
