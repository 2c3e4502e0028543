//! What activation, deactivation, refreshing, peeking and showing reach.
#![tactic(auto)]

mod planning;
mod walking;

pub use planning::{Walk, plan};

#[cfg(test)]
mod tests;
