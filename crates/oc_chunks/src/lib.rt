//! A list in ascending order, kept in chunks.
#![tactic(auto)]

mod adding;
mod between;
mod cutting;
mod editing;
mod entry;
mod joining;
mod list;
mod opening;
mod piece;
mod putting;
mod reading;
mod removing;
mod search;
mod settling;
mod widths;
mod writing;

pub use entry::{At, Cut, Entry};
pub use list::ChunkList;
pub use opening::Written;
pub use reading::ChunkView;
