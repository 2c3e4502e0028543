//! A container in a file: the state between two lines of a script, and the lines.
#![tactic(auto)]

mod attaching;
mod checking;
mod committing;
mod container;
mod copying;
mod creating;
mod declaring;
mod enlisting;
mod entering;
mod executing;
mod fault;
mod making;
mod numbers;
mod planning;
mod querying;
mod resolving;
mod rolling_back;
mod schemas;
mod showing;
mod values;
mod waking;

pub use container::Container;
pub use fault::Fault;
pub use oc_store::{Making, Space, StartFault};
