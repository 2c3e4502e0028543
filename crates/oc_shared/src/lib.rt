//! Lists and tables that share what they have in common with those that they came from.
#![tactic(auto)]

mod sequence;
mod table;

pub use sequence::{Parts, Sequence};
pub use table::Table;
