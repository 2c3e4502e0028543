//! The bytes of a catalog, written and read.
#![tactic(auto)]

mod catalog;
mod classes;
mod lists;
mod parts;
pub mod places;
mod reading;
mod rules;
mod writing;

pub use catalog::{Catalog, ListEntry, Lists, Numbers};
pub use reading::{CatalogFault, read_catalog};
pub use writing::{write_catalog, write_catalog_of};
