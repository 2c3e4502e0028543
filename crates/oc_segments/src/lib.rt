//! The bytes of a segment, written and read: entries of the list of all objects, or of a field's list.
#![tactic(auto)]

mod atoms;
mod items;
mod reading;
mod writing;

pub use items::Item;
pub use oc_index::{ExtentItem, IndexItem};
pub use reading::{SegmentFault, read_segment};
pub use writing::write_segment;
