//! The machine of the store: what a line reads as, what each command does, and the text of a run.
//!
//! The definitions stand in `specs/`; the tokens that they speak of stand here.
#![tactic(auto)]

pub mod laws;
pub mod token;
