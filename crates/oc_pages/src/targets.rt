// Which bytes of a file a pointer's cell begins at.
ghost use Rattle.std.specs.Prelude.{◌≡◌, ◌*◌, false, length, map, IsTrue, IfOk, All, AllPairs, Any};
ghost use Rattle.std.specs.List.Sorted.{IsNonDecreasing, IsPermutation};
ghost use Rattle.oc_pages.specs.Pages.{IsOther};
ghost use Rattle.oc_pages.specs.Targets.{IsCellOf, IsCellAmong};

use crate::page::PAGE;
use crate::table::PageTable;
use oc_layout::CellWrite;
use std::alloc::{AllocError, Global};

/// The first cell of a number, in a page's bytes.
pub const FIRST_CELL: u64 = 16;

/// The bytes of a cell.
pub const CELL: u64 = 8;

/// The first bytes of these pages, in order.
pub fn starts_of(alloc: Global, table: &PageTable, unit: u32) -> Result<Vec<u64>, AllocError>
    ensures starts { IfOk result (λ v. IsPermutation (map (λ p. p.at * unit) table.now.pages) v.items) }
    ensures ordered { IfOk result (λ v. IsNonDecreasing v.items) }
    ensures distinct { IfOk result (λ v. AllPairs IsOther table.now.pages) }
{
    let mut starts = Vec::new(alloc);
    for place in 0..table.len() {
        starts.push(table.page(place).at as u64 * unit as u64)?;
    }
    starts.sort_unstable();
    Ok(starts)
}

/// Whether each cell is to stand where a pointer's cell does, in one of the pages that begin at these bytes.
pub fn are_cells(starts: &[u64], writes: &[CellWrite]) -> bool
    requires { IsNonDecreasing starts.now }
    ensures yes { IsTrue result → All (λ w. IsCellAmong starts.now w.target) writes.now }
    ensures no { result ≡ false → Any (λ w. ¬ IsCellAmong starts.now w.target) writes.now }
{
    for write in writes {
        if !is_cell(starts, write.target) {
            return false;
        }
    }
    true
}

// Only the pages that begin less than a page's length before the target are looked at.
fn is_cell(starts: &[u64], target: u64) -> bool
    requires { IsNonDecreasing starts.now }
    ensures yes { IsTrue result → IsCellAmong starts.now target }
    ensures no { result ≡ false → ¬ IsCellAmong starts.now target }
{
    let first = starts.partition_point(|start| target.saturating_sub(*start) >= PAGE as u64);
    let (_, near) = starts.split_at(first);
    for start in near {
        if *start > target {
            return false;
        }
        if is_cell_of(*start, target) {
            return true;
        }
    }
    false
}

// Whether a page that begins at this byte has a pointer's cell at the target.
fn is_cell_of(start: u64, target: u64) -> bool
    ensures yes { IsTrue result → IsCellOf start target }
    ensures no { result ≡ false → ¬ IsCellOf start target }
{
    let place = target.saturating_sub(start);
    place >= FIRST_CELL && place < PAGE as u64 && place % CELL == 0
}
