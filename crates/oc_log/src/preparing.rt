// The log is written behind a closed gate.
ghost use Rattle.std.specs.Prelude.{◌≡◌, ◌≤◌, ◌+◌, ◌-◌, ◌*◌, ◌++◌, length, replicate, IsTrue, IfOk, OnOk};
ghost use Rattle.oc_host.specs.Counts.{HasCause};
ghost use Rattle.oc_host.specs.Disk.{LeavesOnly};
ghost use Rattle.oc_layout.specs.Layout.{FitsCell, IsLog, is_wide, unit_of, write_len, log_bytes};
ghost use Rattle.oc_log.specs.Log.{with_log, staged};
ghost use Rattle.oc_log.specs.States.{MayPrepare, IsPrepared};
ghost use Rattle.oc_log.specs.Stops.{HasNone};

use crate::{Draft, Prepared};
use oc_host::{Failed, Host};
use oc_layout::{Cell, Header, write_cell};

const LOG_CELL: u64 = 32;

/// Writes a log of the draft's cells at this place and the place into the log cell, and syncs. At every stop none of
/// the cells is put in.
///
/// The place counts blocks. Where it is the block behind the file's end, which may end within a block, the log's
/// write begins at the end, with zeros up to the place. It takes no memory. After `Failed` the file is to be
/// recovered.
pub fn prepare<H: Host>(
    host: &mut H,
    header: &Header,
    place: Cell,
    draft: Draft,
) -> Result<Prepared, Failed>
    requires form { draft.wide ≡ is_wide header.now }
    requires unit { draft.unit ≡ unit_of header.now }
    requires len { place.len ≡ 4 + write_len (is_wide header.now) * length draft.writes }
    requires may { IsTrue H.tells → MayPrepare (with_log header.now place) draft.writes (H.disk host.old) }
    ensures same { IfOk result (λ prepared.
        (prepared.header ≡ with_log header.now place) × (prepared.cells.writes.items ≡ draft.writes)) }
    ensures ok { OnOk result (IsTrue H.tells →
        IsPrepared (with_log header.now place) draft.writes (H.disk host.new)) }
    ensures bytes { OnOk result (IsTrue H.tells →
        (H.disk host.new).bytes ≡ staged (with_log header.now place) draft.writes (H.disk host.old).bytes) }
    ensures any_moment { IsTrue H.tells →
        LeavesOnly (H.disk host.old) (H.disk host.new) (HasNone (with_log header.now place) (H.disk host.old)) }
    ensures cause { HasCause result (H.faults host.old) (H.faults host.new) }
    ensures taken { H.taken host.new ≡ H.taken host.old }
{
    let prepared = Prepared {
        header: Header {
            log: place,
            ..*header
        },
        cells: draft.cells,
    };
    stage(host, &prepared, &draft.log)?;
    Ok(prepared)
}

// The most bytes that lie between the end of a file and the next block.
fn padding_of(header: &Header) -> u64
    ensures { result ≡ unit_of header.now - 1 }
{
    (header.unit() as u64).saturating_sub(1)
}

// Writes the log, which has the most zeros before it that it may need, and its place, and syncs.
fn stage<H: Host>(host: &mut H, prepared: &Prepared, log: &[u8]) -> Result<(), Failed>
    requires fits { FitsCell prepared.now.header.log }
    requires is_log { IsLog (is_wide prepared.now.header) prepared.now.cells.writes.items }
    requires log { log.now ≡ replicate (unit_of prepared.now.header - 1) 0
        ++ log_bytes (is_wide prepared.now.header) prepared.now.cells.writes.items }
    requires len { prepared.now.header.log.len
        ≡ 4 + write_len (is_wide prepared.now.header) * length prepared.now.cells.writes.items }
    requires may { IsTrue H.tells →
        MayPrepare prepared.now.header prepared.now.cells.writes.items (H.disk host.old) }
    ensures ok { OnOk result (IsTrue H.tells →
        IsPrepared prepared.now.header prepared.now.cells.writes.items (H.disk host.new)) }
    ensures bytes { OnOk result (IsTrue H.tells →
        (H.disk host.new).bytes
        ≡ staged prepared.now.header prepared.now.cells.writes.items (H.disk host.old).bytes) }
    ensures any_moment { IsTrue H.tells →
        LeavesOnly (H.disk host.old) (H.disk host.new) (HasNone prepared.now.header (H.disk host.old)) }
    ensures cause { HasCause result (H.faults host.old) (H.faults host.new) }
    ensures taken { H.taken host.new ≡ H.taken host.old }
{
    let header = &prepared.header;
    let at = header.log.at as u64 * header.unit() as u64;
    let most = padding_of(header);
    let len = host.len()?;
    let padding = at.saturating_sub(len).min(most);
    let (_, padded) = log.split_at((most - padding) as usize);
    host.write_at(at - padding, padded)?;
    host.write_at(LOG_CELL, &write_cell(header.log))?;
    host.sync()?;
    Ok(())
}
