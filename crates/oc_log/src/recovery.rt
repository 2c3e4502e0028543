// An open log that a stop left is put in.
ghost use Rattle.std.specs.Prelude.{◌≡◌, ◌≢◌, ◌≤◌, ◌+◌, [], ◌∷◌, List, length, Some, None, Ok, IsTrue, IfOk, OnOk, IsOk, IsErrOf, false};
ghost use Rattle.oc_host.specs.Counts.{Rose};
ghost use Rattle.oc_host.specs.Disk.{IsSynced, LeavesOnly, Looks, over};
ghost use Rattle.oc_layout.specs.declared.cells.CellWrite.{CellWrite};
ghost use Rattle.oc_log.specs.Log.{slice, open_writes, settled};
ghost use Rattle.oc_log.specs.States.{MayRecover, IsOpened};
ghost use Rattle.oc_log.specs.Stops.{Recovers};

use crate::{Cells, LogFault, Opened, apply, close_gate};
use oc_host::Host;
use oc_layout::{Header, read_log};
use std::alloc::Global;

const OPEN: u8 = 1;

/// Puts in the cells of an open log and closes the gate, and answers whether there was one. However it ends, at
/// every stop all of its cells are put in.
///
/// Where the gate is closed nothing is called. `NotALog` comes exactly where the gate is open and the log's place
/// isn't in the file or its bytes are no log; then nothing is written.
pub fn recover<H: Host>(alloc: Global, host: &mut H, header: &Header) -> Result<bool, LogFault>
    requires { IsTrue H.tells → MayRecover header.now (H.disk host.old) }
    ensures closed { header.now.gate ≢ 1 → (result ≡ Ok false) × (host.new ≡ host.old) }
    ensures was_open { IfOk result (λ found. header.now.gate ≡ 1 → IsTrue found) }
    ensures synced { OnOk result (IsTrue H.tells → IsSynced (H.disk host.new)) }
    ensures bytes { IfOk result (λ found. IsTrue found → IsTrue H.tells →
        (H.disk host.new).bytes ≡ over 64 (0 ∷ []) (settled header.now (H.disk host.old).bytes)) }
    ensures a_log { IfOk result (λ found. IsTrue found → IsTrue H.tells →
        (ws : List CellWrite) × (open_writes header.now (H.disk host.old).bytes ≡ Some ws)) }
    ensures no_log { IsErrOf result LogFault.NotALog → IsTrue H.tells →
        open_writes header.now (H.disk host.old).bytes ≡ None }
    ensures no_log_gate { IsErrOf result LogFault.NotALog → header.now.gate ≡ 1 }
    ensures no_log_looks { IsErrOf result LogFault.NotALog → IsTrue H.tells →
        Looks (H.disk host.old) (H.disk host.new) }
    ensures any_moment { IsTrue H.tells →
        LeavesOnly (H.disk host.old) (H.disk host.new) (Recovers header.now (H.disk host.old)) }
    ensures later { H.faults host.old ≤ H.faults host.new }
    ensures cause { IsErrOf result LogFault.Host → Rose (H.faults host.old) (H.faults host.new) }
    ensures taken { H.taken host.new ≤ H.taken host.old + header.now.log.len }
{
    if header.gate != OPEN {
        return Ok(false);
    }
    let opened = open_log(alloc, host, header)?;
    let applied = apply(host, opened)?;
    close_gate(host, applied)?;
    Ok(true)
}

// Reads the log of an open gate.
fn open_log<H: Host>(alloc: Global, host: &mut H, header: &Header) -> Result<Opened, LogFault>
    requires gate { header.now.gate ≡ 1 }
    requires may { IsTrue H.tells → MayRecover header.now (H.disk host.old) }
    ensures same { IfOk result (λ opened. opened.header ≡ header.now) }
    ensures ok { IfOk result (λ opened. IsTrue H.tells →
        IsOpened header.now opened.cells.writes.items (H.disk host.new)) }
    ensures is_open { IfOk result (λ opened. IsTrue H.tells →
        open_writes header.now (H.disk host.old).bytes ≡ Some opened.cells.writes.items) }
    ensures no_log { IsErrOf result LogFault.NotALog → IsTrue H.tells →
        open_writes header.now (H.disk host.old).bytes ≡ None }
    ensures looks { IsTrue H.tells → Looks (H.disk host.old) (H.disk host.new) }
    ensures later { H.faults host.old ≤ H.faults host.new }
    ensures cause { IsErrOf result LogFault.Host → Rose (H.faults host.old) (H.faults host.new) }
    ensures taken { H.taken host.new ≤ H.taken host.old + header.now.log.len }
{
    let len = host.len()?;
    let at = header.log.at as u64 * header.unit() as u64;
    if at + header.log.len as u64 > len {
        return Err(LogFault::NotALog);
    }
    let log = read_bytes(alloc, host, at, header.log.len)?;
    let Some(writes) = read_log(alloc, &log, header.is_wide())? else {
        return Err(LogFault::NotALog);
    };
    Ok(Opened {
        header: *header,
        cells: Cells::of(alloc, writes)?,
    })
}

fn read_bytes<H: Host>(alloc: Global, host: &mut H, at: u64, len: u32) -> Result<Vec<u8>, LogFault>
    requires { IsTrue H.tells → at + len ≤ length (H.disk host.old).bytes }
    ensures ok { IfOk result (λ v. IsTrue H.tells → v.items ≡ slice at len (H.disk host.old).bytes) }
    ensures looks { IsTrue H.tells → Looks (H.disk host.old) (H.disk host.new) }
    ensures no_log { IsErrOf result LogFault.NotALog → ⊥ }
    ensures later { H.faults host.old ≤ H.faults host.new }
    ensures cause { IsErrOf result LogFault.Host → Rose (H.faults host.old) (H.faults host.new) }
    ensures taken { H.taken host.new ≤ H.taken host.old + len }
{
    let mut bytes = vec![in alloc; 0; len as usize]?;
    host.read(at, &mut bytes)?;
    Ok(bytes)
}
