//! The objects of a run over a file as a graph: those in memory, and the session's in the file.
//!
//! A node names what its values in memory name where they are there, else what its record in the session names.
#![tactic(auto)]

pub mod laws;
mod memory;
mod naming;
mod nodes;
mod objects;
mod records;

pub use objects::Objects;
