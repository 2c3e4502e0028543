ghost use Rattle.std.specs.Prelude.{◌≡◌, ◌<◌, ◌≤◌, ◌^◌, ◌+◌, ◌*◌, ◌++◌, false, List, length, drop, All, IfOk, OnOk, IfSome, IfNone, MatchOption};
ghost use Rattle.std.specs.Int.{w64, to_be_bytes, from_be_bytes};
ghost use Rattle.oc_layout.specs.declared.cells.CellWrite.{CellWrite};
ghost use Rattle.oc_layout.specs.Layout.{log_bytes, writes_bytes, write_bytes, write_len, read_writes, first_writes, first_write, is_ascending, FitsWrite, IsLog, SpellsLog};

use crate::cells::{CellWrite, cell_from, number_from, write_cell};
use std::alloc::{AllocError, Global};

/// The bytes of a log of these writes. `wide` is true for block form, whose targets have eight
/// bytes; else they have four.
pub fn write_log(alloc: Global, cells: &[CellWrite], wide: bool) -> Result<Vec<u8>, AllocError>
    requires { IsLog wide cells.now }
    ensures { IfOk result (λ v. v.items ≡ log_bytes wide cells.now) }
{
    let mut out = Vec::new(alloc);
    let count = cells.len() as u32;
    out.extend_from_slice(&count.to_be_bytes())?;
    for write in cells {
        put_write(&mut out, *write, wide)?;
    }
    Ok(out)
}

fn put_write(out: &mut Vec<u8>, write: CellWrite, wide: bool) -> Result<(), AllocError>
    requires { wide ≡ false → write.target < 2 ^ 32 }
    ensures { OnOk result (out.new.items ≡ out.old.items ++ write_bytes wide write) }
{
    if wide {
        out.extend_from_slice(&write.target.to_be_bytes())?;
    } else {
        out.extend_from_slice(&(write.target as u32).to_be_bytes())?;
    }
    out.extend_from_slice(&write_cell(write.cell))?;
    Ok(())
}

/// The writes of the log that these bytes spell, or `None` where they spell none.
pub fn read_log(
    alloc: Global,
    bytes: &[u8],
    wide: bool,
) -> Result<Option<Vec<CellWrite>>, AllocError>
    ensures read { IfOk result (λ found. MatchOption found
        (read_writes wide bytes.now ≡ None)
        (λ v. read_writes wide bytes.now ≡ Some v.items)) }
    ensures spelled { IfOk result (λ found. IfSome found (λ v. SpellsLog wide v.items bytes.now)) }
    ensures only { IfOk result (λ found. IfSome found (λ v.
        (other : List CellWrite) → SpellsLog wide other bytes.now → other ≡ v.items)) }
    ensures none { IfOk result (λ found. IfNone found (
        (cells : List CellWrite) → ¬ SpellsLog wide cells bytes.now)) }
{
    if bytes.len() < 4 {
        return Ok(None);
    }
    let count = number_from(bytes);
    if count == 0 {
        return Ok(None);
    }
    let each = len_of(wide) as u64;
    if bytes.len() as u64 != 4 + each * count as u64 {
        return Ok(None);
    }
    let (_, after) = bytes.split_at(4);
    let cells = writes_from(alloc, count, after, wide)?;
    if ascends(&cells) {
        Ok(Some(cells))
    } else {
        Ok(None)
    }
}

fn writes_from(
    alloc: Global,
    count: u32,
    bytes: &[u8],
    wide: bool,
) -> Result<Vec<CellWrite>, AllocError>
    requires { length bytes.now ≡ write_len wide * count }
    ensures read { IfOk result (λ v. v.items ≡ first_writes wide count bytes.now) }
    ensures fits { IfOk result (λ v. All (FitsWrite wide) v.items) }
    ensures spelled { IfOk result (λ v. bytes.now ≡ writes_bytes wide v.items) }
{
    let mut cells = Vec::new(alloc);
    let mut rest = bytes;
    for _ in 0..count {
        cells.push(write_from(rest, wide))?;
        let (_, after) = rest.split_at(len_of(wide));
        rest = after;
    }
    Ok(cells)
}

fn len_of(wide: bool) -> usize
    ensures { result ≡ write_len wide }
{
    if wide { 16 } else { 12 }
}

fn write_from(bytes: &[u8], wide: bool) -> CellWrite
    requires { write_len wide ≤ length bytes.now }
    ensures read { result ≡ first_write wide bytes.now }
    ensures fits { FitsWrite wide result }
    ensures spelled { bytes.now ≡ write_bytes wide result ++ drop (write_len wide) bytes.now }
{
    if wide {
        CellWrite {
            target: wide_number_from(bytes),
            cell: cell_from(&bytes[8..]),
        }
    } else {
        CellWrite {
            target: number_from(bytes) as u64,
            cell: cell_from(&bytes[4..]),
        }
    }
}

fn wide_number_from(bytes: &[u8]) -> u64
    requires { 8 ≤ length bytes.now }
    ensures read { result ≡ from_be_bytes w64 bytes.now }
    ensures spelled { bytes.now ≡ to_be_bytes w64 result ++ drop 8 bytes.now }
{
    u64::from_be_bytes([
        bytes[0], bytes[1], bytes[2], bytes[3], bytes[4], bytes[5], bytes[6], bytes[7],
    ])
}

fn ascends(cells: &[CellWrite]) -> bool
    ensures { result ≡ is_ascending cells.now }
{
    let mut rest = cells;
    while let [first, after @ ..] = rest {
        if let [second, ..] = after {
            if first.target >= second.target {
                return false;
            }
        }
        rest = after;
    }
    true
}
