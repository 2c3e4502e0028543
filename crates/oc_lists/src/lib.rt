//! The lists of a store, kept in step with its records: that of all objects, and the index of each indexed field.
#![tactic(auto)]

mod bases;
mod indexed;
mod indexing;
mod keys;
mod record;
mod rekeying;
mod relisting;
mod storable;

pub use bases::bases_of;
pub use indexing::{classes_with, enter_record, newly_indexed, start_indexes};
pub use keys::key_of;
pub use record::RecChange;
pub use relisting::relist;
pub use storable::storable_of;

#[cfg(test)]
mod tests;
