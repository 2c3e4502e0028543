// The outside as the store sees it: one file, what is said, and the text that commands come from.
#![tactic(auto)]

mod fault;
mod file;
mod host;
mod images;
mod memory;
mod memory_source;
mod plan;
mod source;
mod standard_input;

pub use fault::IoFault;
pub use file::FileHost;
pub use host::{Failed, Host};
pub use images::Fill;
pub use memory::MemHost;
pub use memory_source::MemSource;
pub use source::Source;
pub use standard_input::StdSource;
