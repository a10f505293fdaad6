// The rules of a dump's rows, in the order of the walk.
#![tactic(auto)]

pub mod cells;
mod each;
pub mod marks;
pub mod objects;
mod part;
pub mod parts;
pub mod role;
pub mod rows;
pub mod texts;
