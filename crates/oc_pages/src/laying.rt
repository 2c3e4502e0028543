// Cells are laid over a part of a file.
ghost use Rattle.std.specs.Prelude.{◌≡◌, ◌<◌, ◌≤◌, ◌^◌, ◌+◌, List, ℕ, length};
ghost use Rattle.oc_host.specs.Disk.{over};
ghost use Rattle.oc_layout.specs.Layout.{cell_bytes};
ghost use Rattle.oc_log.specs.Log.{slice, put_cells, AllWithin};

use oc_layout::{CellWrite, write_cell};

const CELL: u64 = 8;

/// Makes bytes of a file, from the byte `at` on, those of the file with these cells put in, one after another. A cell
/// that stands only partly among them is laid so far.
pub fn lay(bytes: &mut [u8], at: u64, cells: &[CellWrite])
    requires { at + length bytes.old < 2 ^ 64 }
    ensures { (image : List ℕ) → AllWithin (length image) cells.now →
        at + length bytes.old ≤ length image →
        bytes.old ≡ slice at (length bytes.old) image →
        bytes.new ≡ slice at (length bytes.old) (put_cells cells.now image) }
{
    for cell in cells {
        lay_one(bytes, at, *cell);
    }
}

// One cell.
fn lay_one(bytes: &mut [u8], at: u64, cell: CellWrite)
    requires { at + length bytes.old < 2 ^ 64 }
    ensures { (image : List ℕ) → cell.target + 8 ≤ length image →
        at + length bytes.old ≤ length image →
        bytes.old ≡ slice at (length bytes.old) image →
        bytes.new ≡ slice at (length bytes.old) (over cell.target (cell_bytes cell.cell) image) }
{
    let start = cell.target.max(at);
    let end = cell
        .target
        .saturating_add(CELL)
        .min(at + bytes.len() as u64);
    if start < end {
        let from = (start - cell.target) as usize;
        let to = (end - cell.target) as usize;
        put(
            bytes,
            (start - at) as usize,
            &write_cell(cell.cell)[from..to],
        );
    }
}

// Puts these bytes in.
fn put(bytes: &mut [u8], place: usize, piece: &[u8])
    requires { place + length piece.now ≤ length bytes.old }
    ensures { bytes.new ≡ over place piece.now bytes.old }
{
    bytes[place..place + piece.len()].copy_from_slice(piece);
}
