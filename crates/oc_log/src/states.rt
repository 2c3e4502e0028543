// What is known between the calls on a log. Each holds the header and the cells, and not the host.
use crate::Cells;
use oc_layout::Header;

/// The log is written and synced, and the gate is closed.
#[derive(Drop)]
pub struct Prepared {
    pub header: Header,
    pub cells: Cells,
}

/// The gate is open.
#[derive(Drop)]
pub struct Opened {
    pub header: Header,
    pub cells: Cells,
}

/// The cells are put in, and the gate is still open.
#[derive(Drop)]
pub struct Applied {
    pub header: Header,
    pub cells: Cells,
}
