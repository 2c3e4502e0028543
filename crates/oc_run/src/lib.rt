//! A run: from the words of a command line and a script to all that is said.
#![tactic(auto)]

mod answering;
mod lines;
mod list_store;
mod running;
mod script;
mod status;
mod words;

pub use running::run;
pub use status::Status;
pub use words::{FileWords, file_words};
