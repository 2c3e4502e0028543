//! The bytes of a record, written and read.
#![tactic(auto)]

mod places;
mod reading;
mod writing;

pub use oc_value::{Entries, Entry, Rec};
pub use reading::{DecodeFault, decode};
pub use writing::encode;
