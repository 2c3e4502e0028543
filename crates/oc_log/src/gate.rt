// The gate: the one byte that says whether the log counts.
ghost use Rattle.std.specs.Prelude.{◌≡◌, [], ◌∷◌, IsTrue, IfOk, OnOk};
ghost use Rattle.oc_host.specs.Counts.{HasCause};
ghost use Rattle.oc_host.specs.Disk.{IsSynced, LeavesOnly, over};
ghost use Rattle.oc_log.specs.States.{IsPrepared, IsOpened, IsApplied};
ghost use Rattle.oc_log.specs.Stops.{HasAll, NoneOrAll};

use crate::{Applied, Opened, Prepared};
use oc_host::{Failed, Host};

const GATE: u64 = 64;

/// Opens the gate and syncs. From its write on a stop may leave all cells put in, and from `Ok` on it always does.
///
/// After `Failed` the file is to be recovered.
pub fn open_gate<H: Host>(host: &mut H, from: Prepared) -> Result<Opened, Failed>
    requires { IsTrue H.tells → IsPrepared from.header from.cells.writes.items (H.disk host.old) }
    ensures same { IfOk result (λ opened.
        (opened.header ≡ from.header) × (opened.cells.writes.items ≡ from.cells.writes.items)) }
    ensures ok { OnOk result (IsTrue H.tells →
        IsOpened from.header from.cells.writes.items (H.disk host.new)) }
    ensures bytes { OnOk result (IsTrue H.tells →
        (H.disk host.new).bytes ≡ over 64 (1 ∷ []) (H.disk host.old).bytes) }
    ensures any_moment { IsTrue H.tells →
        LeavesOnly (H.disk host.old) (H.disk host.new)
        (NoneOrAll from.header from.cells.writes.items (H.disk host.old)) }
    ensures cause { HasCause result (H.faults host.old) (H.faults host.new) }
    ensures taken { H.taken host.new ≡ H.taken host.old }
{
    host.write_at(GATE, &[1])?;
    host.sync()?;
    Ok(Opened {
        header: from.header,
        cells: from.cells,
    })
}

/// Closes the gate and syncs. At every stop all cells are put in.
///
/// After `Failed` the file is to be recovered.
pub fn close_gate<H: Host>(host: &mut H, from: Applied) -> Result<(), Failed>
    requires { IsTrue H.tells → IsApplied from.header from.cells.writes.items (H.disk host.old) }
    ensures ok { OnOk result (IsTrue H.tells → IsSynced (H.disk host.new)) }
    ensures bytes { OnOk result (IsTrue H.tells →
        (H.disk host.new).bytes ≡ over 64 (0 ∷ []) (H.disk host.old).bytes) }
    ensures any_moment { IsTrue H.tells →
        LeavesOnly (H.disk host.old) (H.disk host.new)
        (HasAll from.header from.cells.writes.items (H.disk host.old)) }
    ensures cause { HasCause result (H.faults host.old) (H.faults host.new) }
    ensures taken { H.taken host.new ≡ H.taken host.old }
{
    host.write_at(GATE, &[0])?;
    host.sync()?;
    Ok(())
}
