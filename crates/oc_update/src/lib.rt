//! What a store and a delete reach.
#![tactic(auto)]

mod deleting;
mod planning;
mod storing;

pub use planning::{plan_delete, plan_store};

#[cfg(test)]
mod tests;
