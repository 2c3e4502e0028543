// A file is attached.
ghost use Rattle.std.specs.Prelude.{◌≡◌, ◌⊎◌, ◌≤◌, ◌+◌, ◌*◌, ℕ, List, [], length, IsTrue, IfOk, OnOk, IsErrOf};
ghost use Rattle.oc_host.specs.Counts.{Rose};
ghost use Rattle.oc_host.specs.Disk.{IsSynced, LeavesOnly};
ghost use Rattle.oc_layout.specs.declared.cells.CellWrite.{CellWrite};
ghost use Rattle.oc_layout.specs.declared.cells.Header.{Header};
ghost use Rattle.oc_pages.specs.declared.page.Page.{Page};
ghost use Rattle.oc_slots.specs.declared.attach_fault.AttachFault.TheVariants as attach_fault;
ghost use Rattle.oc_slots.specs.Attaching.{IsFound, IsMaking, IsMade, MayBeMade, MayLeave, open_len};
ghost use Rattle.oc_slots.specs.Forms.{HasForm, Gives, GivesFrom};
ghost use Rattle.oc_slots.specs.Maps.{SlotMap, Same};
ghost use Rattle.oc_slots.specs.Stores.{Agrees, committed, kept};

use crate::front::HEADER;
use crate::judging::judge;
use crate::making::make;
use crate::settling::settle;
use crate::{AttachFault, Making, SlotStore};
use oc_host::Host;
use std::alloc::Global;

impl SlotStore {
    /// Attaches the file, or makes a container of it where it is empty, and where it is to be made anew, has at most
    /// 128 bytes and is none. A log that a stop left open is put in.
    ///
    /// `NotAContainer` comes exactly where the file neither gives slots nor may be made; then nothing is written. However it
    /// ends, a stop since its first sync leaves a file that gives the slots that it gave, with the first number of its header.
    pub fn attach<H: Host>(
        alloc: Global,
        host: &mut H,
        making: &Making,
    ) -> Result<SlotStore, AttachFault>
        requires making { IsMaking making.now }
        ensures agrees { IfOk result (λ store. IsTrue H.tells → Agrees store (H.disk host.new)) }
        ensures objects { IfOk result (λ store. store.objects ≡ []) }
        ensures system { IfOk result (λ store. store.system ≡ []) }
        ensures kept { IfOk result (λ store. kept store ≡ []) }
        ensures gives { IfOk result (λ store. IsTrue H.tells → (m : SlotMap) →
            Gives (H.disk host.old).bytes m → Same (committed store (H.disk host.new)) m) }
        ensures first { IfOk result (λ store. IsTrue H.tells → (first : ℕ) (m : SlotMap) →
            GivesFrom first (H.disk host.old).bytes m → (store.header).first ≡ first) }
        ensures form { IfOk result (λ store. IsTrue H.tells → (h : Header) (ws : List CellWrite) (pages : List Page) →
            HasForm h ws pages (H.disk host.old).bytes → IsFound h ws pages store (H.disk host.old).bytes (H.disk host.new).bytes) }
        ensures made { IfOk result (λ store. IsTrue H.tells → MayBeMade making.now.anew (H.disk host.old).bytes →
            IsMade making.now store (H.disk host.new)) }
        ensures found { OnOk result (IsTrue H.tells →
            ((m : SlotMap) × Gives (H.disk host.old).bytes m) ⊎ MayBeMade making.now.anew (H.disk host.old).bytes) }
        ensures no_map { IsErrOf result attach_fault.NotAContainer → IsTrue H.tells →
            (m : SlotMap) → Gives (H.disk host.old).bytes m → ⊥ }
        ensures not_made { IsErrOf result attach_fault.NotAContainer → IsTrue H.tells →
            MayBeMade making.now.anew (H.disk host.old).bytes → ⊥ }
        ensures unwritten { IsErrOf result attach_fault.NotAContainer → IsTrue H.tells →
            (H.disk host.new).bytes ≡ (H.disk host.old).bytes }
        ensures any_moment { IsTrue H.tells →
            LeavesOnly (H.disk host.old) (H.disk host.new) (MayLeave making.now.anew (H.disk host.old)) }
        ensures said { IsTrue H.tells → (H.disk host.new).said ≡ (H.disk host.old).said }
        ensures later { H.faults host.old ≤ H.faults host.new }
        ensures cause { IsErrOf result attach_fault.Host → Rose (H.faults host.old) (H.faults host.new) }
        ensures taken { IsTrue H.tells → (h : Header) (ws : List CellWrite) (pages : List Page) →
            HasForm h ws pages (H.disk host.old).bytes →
            H.taken host.new ≤ H.taken host.old + 128 + 1024 * length pages + 2 * open_len h }
        ensures taken_made { IsTrue H.tells → MayBeMade making.now.anew (H.disk host.old).bytes →
            H.taken host.new ≤ H.taken host.old + 128 }
    {
        host.sync()?;
        let len = host.len()?;
        attach_synced(alloc, host, making, len)
    }
}

// Attaches a synced file of so many bytes.
fn attach_synced<H: Host>(
    alloc: Global,
    host: &mut H,
    making: &Making,
    len: u64,
) -> Result<SlotStore, AttachFault>
    requires making { IsMaking making.now }
    requires synced { IsTrue H.tells → IsSynced (H.disk host.old) }
    requires len { IsTrue H.tells → len ≡ length (H.disk host.old).bytes }
    ensures agrees { IfOk result (λ store. IsTrue H.tells → Agrees store (H.disk host.new)) }
    ensures objects { IfOk result (λ store. store.objects ≡ []) }
    ensures system { IfOk result (λ store. store.system ≡ []) }
    ensures kept { IfOk result (λ store. store.cached ≡ []) }
    ensures gives { IfOk result (λ store. IsTrue H.tells → (m : SlotMap) →
        Gives (H.disk host.old).bytes m → Same (committed store (H.disk host.new)) m) }
    ensures form { IfOk result (λ store. IsTrue H.tells → (h : Header) (ws : List CellWrite) (pages : List Page) →
        HasForm h ws pages (H.disk host.old).bytes → IsFound h ws pages store (H.disk host.old).bytes (H.disk host.new).bytes) }
    ensures made { IfOk result (λ store. IsTrue H.tells → MayBeMade making.now.anew (H.disk host.old).bytes →
        IsMade making.now store (H.disk host.new)) }
    ensures found { OnOk result (IsTrue H.tells →
        ((m : SlotMap) × Gives (H.disk host.old).bytes m) ⊎ MayBeMade making.now.anew (H.disk host.old).bytes) }
    ensures no_map { IsErrOf result attach_fault.NotAContainer → IsTrue H.tells →
        (m : SlotMap) → Gives (H.disk host.old).bytes m → ⊥ }
    ensures not_made { IsErrOf result attach_fault.NotAContainer → IsTrue H.tells →
        MayBeMade making.now.anew (H.disk host.old).bytes → ⊥ }
    ensures unwritten { IsErrOf result attach_fault.NotAContainer → IsTrue H.tells →
        (H.disk host.new).bytes ≡ (H.disk host.old).bytes }
    ensures any_moment { IsTrue H.tells →
        LeavesOnly (H.disk host.old) (H.disk host.new) (MayLeave making.now.anew (H.disk host.old)) }
    ensures later { H.faults host.old ≤ H.faults host.new }
    ensures cause { IsErrOf result attach_fault.Host → Rose (H.faults host.old) (H.faults host.new) }
    ensures taken { IsTrue H.tells → (h : Header) (ws : List CellWrite) (pages : List Page) →
        HasForm h ws pages (H.disk host.old).bytes →
        H.taken host.new ≤ H.taken host.old + 128 + 1024 * length pages + 2 * open_len h }
    ensures taken_made { IsTrue H.tells → MayBeMade making.now.anew (H.disk host.old).bytes →
        H.taken host.new ≤ H.taken host.old + 128 }
{
    if len == 0 {
        return make(alloc, host, making);
    }
    match judge(alloc, host, len) {
        Ok(judged) => settle(alloc, host, judged),
        Err(AttachFault::NotAContainer) if making.anew && len <= HEADER as u64 => make(
            alloc, host, making,
        ),
        Err(fault) => Err(fault),
    }
}
