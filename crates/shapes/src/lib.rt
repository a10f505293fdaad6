// What must hold of the words of a value and of an object row, each by itself.
#![tactic(auto)]

pub mod cell;
pub mod object;
