//! The pointer pages of a file: which number of which space has which cell.
//!
//! A page is 1,024 bytes, 128 cells of eight bytes. The first cell is the link: it is empty, or it
//! names the next page. The second holds the space and the page's index `p`, and the others the
//! pointers of the numbers `126p + 1` to `126p + 126`.
#![tactic(auto)]

mod fault;
mod laying;
mod listing;
mod loading;
mod order;
mod page;
mod pages;
mod places;
mod table;
mod targets;

pub use fault::PagesFault;
pub use order::ascending;
pub use pages::Pages;
