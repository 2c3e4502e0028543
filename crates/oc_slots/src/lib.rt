//! Slots of bytes in a file: two maps, the committed one and the session's, and commits that no stop can tear.
#![tactic(auto)]

mod attach_fault;
mod attaching;
mod bytes;
mod cache;
mod changing;
mod commit;
mod commit_plan;
mod commit_writing;
mod fault;
mod fetching;
mod forgetting;
mod front;
mod ground;
mod installing;
mod judging;
mod laws;
mod listing;
mod making;
mod new_pages;
mod noting;
mod overlay;
mod page_writing;
mod placed;
mod preparing;
mod rolling_back;
mod run;
mod settling;
mod slot;
mod store;
mod turnover;
mod writing;

pub use attach_fault::AttachFault;
pub use bytes::Bytes;
pub use fault::SpaceFault;
pub use oc_layout::{Cell, Header, Space};
pub use slot::{Making, Side, SlotChange, SlotId};
pub use store::SlotStore;
