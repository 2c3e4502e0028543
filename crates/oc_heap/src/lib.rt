//! The live objects of a run: what is under each handle.
#![tactic(auto)]

mod entries;
mod heap;

pub use heap::{Heap, Live};
pub use oc_model::value::{Entries, Entry};

#[cfg(test)]
mod tests;
