//! The store of objects over the slots: two stores of records, of which the committed one stands in the file whole after every stop.
//!
//! A store is attached and read, its session is changed, committed and given up.
#![tactic(auto)]

mod attaching;
mod changing;
mod checking;
mod committing;
mod fault;
mod fetching;
mod last;
mod laws;
mod lists;
mod numbering;
mod olds;
mod outline;
mod reindexing;
mod rolling_back;
mod segments;
mod spelling;
mod store;
mod writing;

pub use fault::{ChangeFault, ReadFault, StartFault};
pub use oc_slots::{Header, Making, Side, Space};
pub use store::Store;
