//! The reference table: which live object has which number in the store, and whether it is active.
#![tactic(auto)]

mod steps;
mod table;

pub use steps::Steps;
pub use table::{Ref, RefTable};

#[cfg(test)]
mod tests;
