//! What a walk over a graph reaches.
#![tactic(auto)]

mod graph;
mod key;
pub mod laws;
mod progress;
mod reaching;
mod settings;
mod spread;

pub use graph::Graph;
pub use oc_model::reach::{ClassSettings, Node};
pub use reaching::reached;
pub use settings::Settings;
pub use spread::Spread;

#[cfg(test)]
mod tests;
