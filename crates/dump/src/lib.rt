// The format of a dump: words, sections and rows, read in place.
#![tactic(auto)]

pub mod bytes;
pub mod kinds;
pub mod layout;
pub mod raw;
pub mod refusal;
pub mod row;
pub mod text;
pub mod walk;
