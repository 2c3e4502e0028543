//! The bytes of a container's header, of a cell and of a redo log, each read and written.
//!
//! Numbers have their high byte first. A container has one of two forms: in format 1 an address
//! counts bytes, and in block form it counts blocks. One header and one log serve both.
#![tactic(auto)]

mod cells;
mod header;
mod log;

pub use cells::{Cell, CellWrite, Header, Space, read_cell, write_cell};
pub use header::{read_header, write_header};
pub use log::{read_log, write_log};

#[cfg(test)]
mod tests;
