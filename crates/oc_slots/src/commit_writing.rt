// A commit's plan is written.
ghost use Rattle.std.specs.Prelude.{◌≡◌, ◌+◌, max, List, length, IsTrue, OnOk};
ghost use Rattle.oc_host.specs.Counts.{HasCause};
ghost use Rattle.oc_host.specs.Disk.{LeavesOnly};
ghost use Rattle.oc_layout.specs.Layout.{unit_of};
ghost use Rattle.oc_log.specs.Log.{with_log, log_at, put_cells};
ghost use Rattle.oc_pages.specs.declared.page.Page.{Page};
ghost use Rattle.oc_slots.specs.Held.{Holds, map_of};
ghost use Rattle.oc_slots.specs.Maps.{Same};
ghost use Rattle.oc_slots.specs.Planning.{IsReady, IsWritable, OldOrNew, written};

use crate::commit_plan::CommitPlan;
use crate::page_writing::write_pages;
use crate::writing::write_runs;
use oc_host::{Failed, Host};
use oc_layout::Header;
use oc_log::put_in;
use oc_pages::Pages;

/// Writes the slots, the added pages as they are among these pages, and the log, and puts the log in. At every stop the
/// file gives the map of the old pages or that of the new ones, and after `Ok` it holds the new.
///
/// The header is that of before. After `Failed` the file is to be recovered.
pub fn write_commit<H: Host>(
    host: &mut H,
    header: &Header,
    pages: &Pages,
    plan: CommitPlan,
) -> Result<(), Failed>
    requires ready { IsReady header.now pages.now.pages plan }
    requires writable { IsTrue H.tells → (old : List Page) × IsWritable header.now old pages.now.pages plan (H.disk host.old) }
    ensures holds { OnOk result (IsTrue H.tells → (old : List Page) → IsWritable header.now old pages.now.pages plan (H.disk host.old) →
        Holds plan.header pages.now.pages (H.disk host.new)) }
    ensures map { OnOk result (IsTrue H.tells → (old : List Page) → IsWritable header.now old pages.now.pages plan (H.disk host.old) →
        Same (map_of plan.header pages.now.pages (H.disk host.new).bytes)
        (map_of header.now pages.now.pages (put_cells plan.draft.writes (written (unit_of header.now) plan pages.now.pages (H.disk host.old).bytes)))) }
    ensures size { OnOk result (IsTrue H.tells → (old : List Page) → IsWritable header.now old pages.now.pages plan (H.disk host.old) →
        length (H.disk host.new).bytes
        ≡ max (length (written (unit_of header.now) plan pages.now.pages (H.disk host.old).bytes)) (log_at (with_log header.now plan.place) + plan.place.len)) }
    ensures any_moment { IsTrue H.tells → (old : List Page) → IsWritable header.now old pages.now.pages plan (H.disk host.old) →
        LeavesOnly (H.disk host.old) (H.disk host.new) (OldOrNew header.now old pages.now.pages plan (H.disk host.old)) }
    ensures cause { HasCause result (H.faults host.old) (H.faults host.new) }
    ensures taken { H.taken host.new ≡ H.taken host.old }
{
    let unit = header.unit();
    let planned = &plan.planned;
    write_runs(host, &planned.runs)?;
    write_pages(host, pages, &plan.added, unit, planned.end, planned.before)?;
    put_in(host, header, plan.place, plan.draft)?;
    Ok(())
}
