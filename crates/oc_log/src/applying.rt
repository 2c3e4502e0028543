// The cells are put in.
ghost use Rattle.std.specs.Prelude.{◌≡◌, ◌<◌, ◌≤◌, length, take, IsTrue, IfOk, OnOk};
ghost use Rattle.oc_host.specs.Counts.{HasCause};
ghost use Rattle.oc_host.specs.Disk.{IsSynced, LeavesOnly};
ghost use Rattle.oc_log.specs.Log.{put_cells, AllWithin};
ghost use Rattle.oc_log.specs.Runs.{cells_bytes, first_target, Touch, Touched, IsPut};
ghost use Rattle.oc_log.specs.States.{IsOpened, IsApplied};
ghost use Rattle.oc_log.specs.Stops.{HasAll};

use crate::{Applied, Opened};
use oc_host::{Failed, Host};
use oc_layout::CellWrite;

const CELL: usize = 8;

/// Puts the cells in, those that touch by one write, and syncs. At every stop all cells are put in, since the log is open.
///
/// After `Failed` the file is to be recovered.
pub fn apply<H: Host>(host: &mut H, from: Opened) -> Result<Applied, Failed>
    requires { IsTrue H.tells → IsOpened from.header from.cells.writes.items (H.disk host.old) }
    ensures same { IfOk result (λ applied.
        (applied.header ≡ from.header) × (applied.cells.writes.items ≡ from.cells.writes.items)) }
    ensures ok { OnOk result (IsTrue H.tells →
        IsApplied from.header from.cells.writes.items (H.disk host.new)) }
    ensures bytes { OnOk result (IsTrue H.tells →
        (H.disk host.new).bytes ≡ put_cells from.cells.writes.items (H.disk host.old).bytes) }
    ensures any_moment { IsTrue H.tells →
        LeavesOnly (H.disk host.old) (H.disk host.new)
        (HasAll from.header from.cells.writes.items (H.disk host.old)) }
    ensures cause { HasCause result (H.faults host.old) (H.faults host.new) }
    ensures taken { H.taken host.new ≡ H.taken host.old }
{
    put_all(host, &from.cells.writes, &from.cells.bytes)?;
    host.sync()?;
    Ok(Applied {
        header: from.header,
        cells: from.cells,
    })
}

// Writes each cell at its target, without a sync. The bytes are those of all cells.
fn put_all<H: Host>(host: &mut H, writes: &[CellWrite], bytes: &[u8]) -> Result<(), Failed>
    requires bytes { bytes.now ≡ cells_bytes writes.now }
    requires synced { IsTrue H.tells → IsSynced (H.disk host.old) }
    requires within { IsTrue H.tells → AllWithin (length (H.disk host.old).bytes) writes.now }
    ensures ok { OnOk result (IsTrue H.tells → IsPut writes.now (H.disk host.old) (H.disk host.new)) }
    ensures any_moment { IsTrue H.tells →
        LeavesOnly (H.disk host.old) (H.disk host.new) (Touched writes.now (H.disk host.old)) }
    ensures cause { HasCause result (H.faults host.old) (H.faults host.new) }
    ensures taken { H.taken host.new ≡ H.taken host.old }
{
    let mut rest = writes;
    let mut to_come = bytes;
    while let [first, ..] = rest {
        let count = touching(first.target, rest);
        let (_, after) = rest.split_at(count);
        let (run, later) = to_come.split_at(CELL * count);
        host.write_at(first.target, run)?;
        rest = after;
        to_come = later;
    }
    Ok(())
}

// How many cells from the front stand one behind another, where the first stands at this byte.
fn touching(at: u64, writes: &[CellWrite]) -> usize
    requires some { 0 < length writes.now }
    requires first { first_target writes.now ≡ at }
    ensures some { 0 < result }
    ensures inside { result ≤ length writes.now }
    ensures touch { Touch at (take result writes.now) }
{
    let mut count = 1;
    while count < writes.len()
        && writes[count]
            .target
            .saturating_sub(writes[count - 1].target)
            == 8
    {
        count += 1;
    }
    count
}
