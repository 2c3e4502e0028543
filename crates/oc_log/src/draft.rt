// The cells of a commit with all the memory that a log of them takes.
ghost use Rattle.std.specs.Prelude.{◌≡◌, ◌++◌, ◌-◌, replicate, IfOk};
ghost use Rattle.oc_layout.specs.Layout.{IsLog, is_wide, unit_of, log_bytes};

use crate::Cells;
use oc_layout::{CellWrite, Header, write_log};
use std::alloc::{AllocError, Global};
use std::marker::Model;

/// The cells of a commit, with the memory for all calls on a log of them: none of these takes any.
///
/// A draft is for files of one form and size of block.
#[derive(Drop)]
pub struct Draft {
    pub(crate) cells: Cells,
    pub(crate) log: Vec<u8>,
    wide: bool,
    unit: u32,
}

impl Model for Draft {
    ghost use Rattle.std.specs.Prelude.{◌≡◌, ◌++◌, ◌-◌, replicate};
    ghost use Rattle.oc_layout.specs.Layout.{IsLog, log_bytes};
    ghost use Rattle.oc_log.specs.Drafts.{Plan};

    ghost Value = { Plan };

    ghost view = { λ d. record { writes = d.cells.writes.items; wide = d.wide; unit = d.unit } };

    // The log has before it as many zeros as may lie between the end of a file and the next block.
    ghost invariant = { λ d. record {
      is_log : IsLog d.wide d.cells.writes.items;
      log : d.log.items ≡ replicate (d.unit - 1) 0 ++ log_bytes d.wide d.cells.writes.items;
    } };
}

impl Draft {
    /// The draft of a log of these cells, for files with the form and the block of this header.
    pub fn of(alloc: Global, header: &Header, cells: Vec<CellWrite>) -> Result<Draft, AllocError>
        requires { IsLog (is_wide header.now) cells.items }
        ensures writes { IfOk result (λ draft. draft.writes ≡ cells.items) }
        ensures wide { IfOk result (λ draft. draft.wide ≡ is_wide header.now) }
        ensures unit { IfOk result (λ draft. draft.unit ≡ unit_of header.now) }
    {
        let (unit, wide) = (header.unit(), header.is_wide());
        let log = padded_log(alloc, unit, &cells, wide)?;
        Ok(Draft {
            cells: Cells::of(alloc, cells)?,
            log,
            wide,
            unit,
        })
    }
}

// The log's bytes, with the most zeros before them that may lie between the end of a file and the next block.
fn padded_log(
    alloc: Global,
    unit: u32,
    cells: &[CellWrite],
    wide: bool,
) -> Result<Vec<u8>, AllocError>
    requires { IsLog wide cells.now }
    ensures { IfOk result (λ v. v.items ≡ replicate (unit - 1) 0 ++ log_bytes wide cells.now) }
{
    let mut bytes = vec![in alloc; 0; unit.saturating_sub(1) as usize]?;
    let log = write_log(alloc, cells, wide)?;
    bytes.extend_from_slice(&log)?;
    Ok(bytes)
}
