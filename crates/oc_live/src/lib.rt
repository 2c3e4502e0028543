//! The live part of a container: the objects in memory with their numbers, the names bound to them, the settings, and the count of commits.
#![tactic(auto)]

mod finding;
pub mod laws;
mod live;
mod names;

pub use live::LiveObjects;
pub use oc_heap::{Entries, Entry, Live};
pub use oc_model::command::RunDepth;
pub use oc_reach::{ClassSettings, Settings};

#[cfg(test)]
mod tests;
