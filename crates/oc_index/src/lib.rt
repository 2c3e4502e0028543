//! The lists of a store: which objects there are, and where each value of an indexed field stands.
#![tactic(auto)]

mod committing;
mod extents;
mod field_index;
mod indexes;
mod items;
mod ordering;
mod place;
mod ranges;

pub use extents::Extents;
pub use field_index::FieldIndex;
pub use indexes::Indexes;
pub use items::{ExtentItem, IndexItem, key_copy};
pub use ranges::End;
