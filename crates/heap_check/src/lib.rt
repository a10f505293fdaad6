// The call `check`: a heap that a sound dump fills, and reading what it holds.
#![tactic(auto)]

pub mod checked;
pub mod heap;
