// The calls on a log in a row.
ghost use Rattle.std.specs.Prelude.{◌≡◌, ◌+◌, ◌*◌, [], ◌∷◌, length, IsTrue, OnOk};
ghost use Rattle.oc_host.specs.Counts.{HasCause};
ghost use Rattle.oc_host.specs.Disk.{IsSynced, LeavesOnly, over};
ghost use Rattle.oc_layout.specs.Layout.{is_wide, unit_of, write_len};
ghost use Rattle.oc_log.specs.Log.{with_log, put_cells, staged};
ghost use Rattle.oc_log.specs.States.{MayPrepare};
ghost use Rattle.oc_log.specs.Stops.{NoneOrAll};

use crate::{Draft, apply, close_gate, open_gate, prepare};
use oc_host::{Failed, Host};
use oc_layout::{Cell, Header};

/// Puts the draft's cells in by way of a log at this place. However it ends, at every stop all of them are put in or
/// none, and after `Ok` all are. It takes no memory.
///
/// After `Failed` the file is to be recovered.
pub fn put_in<H: Host>(
    host: &mut H,
    header: &Header,
    place: Cell,
    draft: Draft,
) -> Result<(), Failed>
    requires form { draft.wide ≡ is_wide header.now }
    requires unit { draft.unit ≡ unit_of header.now }
    requires len { place.len ≡ 4 + write_len (is_wide header.now) * length draft.writes }
    requires may { IsTrue H.tells → MayPrepare (with_log header.now place) draft.writes (H.disk host.old) }
    ensures synced { OnOk result (IsTrue H.tells → IsSynced (H.disk host.new)) }
    ensures bytes { OnOk result (IsTrue H.tells →
        (H.disk host.new).bytes
        ≡ over 64 (0 ∷ []) (put_cells draft.writes (over 64 (1 ∷ [])
        (staged (with_log header.now place) draft.writes (H.disk host.old).bytes)))) }
    ensures any_moment { IsTrue H.tells →
        LeavesOnly (H.disk host.old) (H.disk host.new)
        (NoneOrAll (with_log header.now place) draft.writes (H.disk host.old)) }
    ensures cause { HasCause result (H.faults host.old) (H.faults host.new) }
    ensures taken { H.taken host.new ≡ H.taken host.old }
{
    let prepared = prepare(host, header, place, draft)?;
    let opened = open_gate(host, prepared)?;
    let applied = apply(host, opened)?;
    close_gate(host, applied)?;
    Ok(())
}
