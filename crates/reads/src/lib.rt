// The rows of a sound dump with types: values, keys, kinds and parts, whose texts stay in the dump.
#![tactic(auto)]

pub mod cells;
pub mod kinds;
pub mod object;
pub mod parts;
pub mod value;
