// The open log of a file that was judged is put in.
ghost use Rattle.std.specs.Prelude.{◌≡◌, ◌≤◌, ◌+◌, List, [], IsTrue, IfOk, OnOk, IsErrOf};
ghost use Rattle.oc_host.specs.Counts.{Rose};
ghost use Rattle.oc_host.specs.Disk.{IsSynced, LeavesOnly};
ghost use Rattle.oc_layout.specs.declared.cells.CellWrite.{CellWrite};
ghost use Rattle.oc_layout.specs.declared.cells.Header.{Header};
ghost use Rattle.oc_pages.specs.declared.page.Page.{Page};
ghost use Rattle.oc_slots.specs.declared.attach_fault.AttachFault.TheVariants as attach_fault;
ghost use Rattle.oc_slots.specs.Attaching.{IsFound, IsJudged, StillGives, open_len};
ghost use Rattle.oc_slots.specs.Forms.{HasForm, Gives};
ghost use Rattle.oc_slots.specs.Maps.{SlotMap, Same};
ghost use Rattle.oc_slots.specs.Stores.{Agrees, committed};

use crate::front::OPEN;
use crate::judging::Judged;
use crate::{AttachFault, SlotStore};
use oc_host::Host;
use oc_layout::Header;
use oc_log::{LogFault, recover};
use std::alloc::Global;

/// Puts in the open log of a file that was judged, if it has one, and answers with its store.
pub fn settle<H: Host>(
    alloc: Global,
    host: &mut H,
    judged: Judged,
) -> Result<SlotStore, AttachFault>
    requires synced { IsTrue H.tells → IsSynced (H.disk host.old) }
    requires objects { judged.store.objects ≡ [] }
    requires system { judged.store.system ≡ [] }
    requires kept { judged.store.cached ≡ [] }
    requires judged { IsTrue H.tells → (ws : List CellWrite) × IsJudged judged.header ws judged.store (H.disk host.old).bytes }
    ensures agrees { IfOk result (λ store. IsTrue H.tells → Agrees store (H.disk host.new)) }
    ensures objects { IfOk result (λ store. store.objects ≡ []) }
    ensures system { IfOk result (λ store. store.system ≡ []) }
    ensures kept { IfOk result (λ store. store.cached ≡ []) }
    ensures gives { IfOk result (λ store. IsTrue H.tells → (m : SlotMap) →
        Gives (H.disk host.old).bytes m → Same (committed store (H.disk host.new)) m) }
    ensures form { IfOk result (λ store. IsTrue H.tells → (h : Header) (ws : List CellWrite) (pages : List Page) →
        HasForm h ws pages (H.disk host.old).bytes → IsFound h ws pages store (H.disk host.old).bytes (H.disk host.new).bytes) }
    ensures not_container { IsErrOf result attach_fault.NotAContainer → IsTrue H.tells → ⊥ }
    ensures any_moment { IsTrue H.tells → LeavesOnly (H.disk host.old) (H.disk host.new) (StillGives (H.disk host.old)) }
    ensures later { H.faults host.old ≤ H.faults host.new }
    ensures cause { IsErrOf result attach_fault.Host → Rose (H.faults host.old) (H.faults host.new) }
    ensures taken { H.taken host.new ≤ H.taken host.old + open_len judged.header }
{
    if judged.header.gate != OPEN {
        return Ok(judged.store);
    }
    match recover(alloc, host, &judged.header) {
        Ok(_) => Ok(judged.store),
        Err(LogFault::Host) => Err(AttachFault::Host),
        Err(LogFault::Memory) => Err(AttachFault::Memory),
        Err(LogFault::NotALog) => Err(AttachFault::NotAContainer),
    }
}
