// The cells of a log, ready to be written.
ghost use Rattle.std.specs.Prelude.{◌≡◌, IfOk};
ghost use Rattle.oc_log.specs.Runs.{cells_bytes};

use oc_layout::{CellWrite, write_cell};
use std::alloc::{AllocError, Global};

/// Cells with their targets, and the bytes of all cells one after another, so that cells that touch are written at
/// once and no memory is taken then.
#[derive(Drop)]
pub struct Cells {
    pub writes: Vec<CellWrite>,
    pub(crate) bytes: Vec<u8>,
    ghost bytes_are: { bytes.items ≡ cells_bytes writes.items },
}

impl Cells {
    pub(crate) fn of(alloc: Global, writes: Vec<CellWrite>) -> Result<Cells, AllocError>
        ensures { IfOk result (λ cells. cells.writes.items ≡ writes.items) }
    {
        let bytes = spelled(alloc, &writes)?;
        Ok(Cells { writes, bytes })
    }
}

fn spelled(alloc: Global, writes: &[CellWrite]) -> Result<Vec<u8>, AllocError>
    ensures { IfOk result (λ v. v.items ≡ cells_bytes writes.now) }
{
    let mut bytes = Vec::new(alloc);
    for write in writes {
        bytes.extend_from_slice(&write_cell(write.cell))?;
    }
    Ok(bytes)
}
