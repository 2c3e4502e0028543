//! The free parts of a file, in blocks: the best fit for a need, and the parts that are given back.
#![tactic(auto)]

mod free_space;
mod laws;
mod part;
#[cfg(test)]
mod tests;

pub use free_space::FreeSpace;
pub use laws::laws_of_free_parts;
