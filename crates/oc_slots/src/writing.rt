// Runs are written beside what the file holds of its committed side.
ghost use Rattle.std.specs.Prelude.{◌≡◌, ◌≤◌, ◌∷◌, ℕ, List, length, IsTrue, OnOk};
ghost use Rattle.oc_host.specs.Counts.{HasCause};
ghost use Rattle.oc_host.specs.Disk.{LeavesOnly};
ghost use Rattle.oc_layout.specs.declared.cells.Header.{Header};
ghost use Rattle.oc_layout.specs.Layout.{unit_of};
ghost use Rattle.oc_pages.specs.declared.page.Page.{Page};
ghost use Rattle.oc_slots.specs.Held.{Holds};
ghost use Rattle.oc_slots.specs.Pieces.{as_pieces, over_all, Fit};
ghost use Rattle.oc_slots.specs.Writing.{AreFree, Keeps, Before};

use crate::run::Run;
use oc_host::{Failed, Host};

/// Writes each of the runs, without a sync.
pub fn write_runs<H: Host>(host: &mut H, runs: &[Run]) -> Result<(), Failed>
    requires { IsTrue H.tells → Fit (as_pieces runs.now) (H.disk host.old).bytes }
    ensures bytes { OnOk result (IsTrue H.tells →
        (H.disk host.new).bytes ≡ over_all (as_pieces runs.now) (H.disk host.old).bytes) }
    ensures keeps { OnOk result (IsTrue H.tells → (header : Header) (pages : List Page) →
        AreFree header pages (as_pieces runs.now) → Keeps header pages (H.disk host.old) (H.disk host.new)) }
    ensures any_moment { IsTrue H.tells → (header : Header) (pages : List Page) →
        AreFree header pages (as_pieces runs.now) → Holds header pages (H.disk host.old) →
        LeavesOnly (H.disk host.old) (H.disk host.new) (Before header pages (H.disk host.old)) }
    ensures cause { HasCause result (H.faults host.old) (H.faults host.new) }
    ensures taken { H.taken host.new ≡ H.taken host.old }
{
    for run in runs {
        host.write_at(run.at, &run.bytes)?;
    }
    Ok(())
}
