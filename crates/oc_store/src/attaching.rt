//! A store is attached.

ghost use Rattle.std.specs.Prelude.{◌≡◌, ◌⊎◌, ◌≤◌, ◌+◌, ◌*◌, ℕ, false, [], length, IsSomeAnd, IsTrue, IsErrOf, IfOk, OnOk};
ghost use Rattle.oc_host.specs.Counts.{Rose};
ghost use Rattle.oc_host.specs.Disk.{LeavesOnly};
ghost use Rattle.oc_layout.specs.declared.cells.Space.{Space as SpaceOf};
ghost use Rattle.oc_layout.specs.declared.cells.Space.TheVariants.{System};
ghost use Rattle.oc_model.specs.Stores.{Store as StoreOf, empty_store};
ghost use Rattle.oc_catalog.specs.declared.catalog.Catalog.{Catalog as CatalogOf};
ghost use Rattle.oc_catalog.specs.Catalogs.{SpellsCatalog};
ghost use Rattle.oc_slots.specs.Attaching.{made_header, open_len, IsMaking, MayBeMade, MayLeave};
ghost use Rattle.oc_slots.specs.Forms.{Gives};
ghost use Rattle.oc_slots.specs.Maps.{SlotMap};
ghost use Rattle.oc_store.specs.declared.fault.StartFault.TheVariants as start_fault;
ghost use Rattle.oc_store.specs.Filed.{segments_in, slot_len, Agrees, IsFiled, IsFresh, Shows};
ghost use Rattle.oc_store.specs.Lists.{system_slot};
ghost use Rattle.oc_store.specs.Outlines.{IsDamaged};
ghost use Rattle.oc_store.specs.Stands.{Stands};
ghost use Rattle.oc_store.specs.Stops.{StillStands};

use crate::fault::StartFault;
use crate::outline::{Outline, read_outline};
use crate::store::{SessionState, Store};
use oc_host::Host;
use oc_model::laws_stores::empty_store_keeps_rules;
use oc_slots::{Making, SlotStore};
use std::alloc::Global;

impl Store {
    /// Attaches the store that the file stands for, or makes a container of the file where it is empty, and where it is to
    /// be made anew, has at most 128 bytes and is none. It reads the header, the pages, the catalog and the segments, and
    /// no object.
    ///
    /// `NotAContainer` comes as for the slots. `Damaged` tells the system's slot that is damaged first: the catalog's bytes
    /// are judged, then the segments, and then whether the extents have just the objects that have slots. It doesn't come for
    /// a file that stands for a store. However it ends, a stop since its first sync leaves a file that stands for the store
    /// that it stood for.
    pub fn attach<H: Host>(
        alloc: Global,
        host: &mut H,
        making: &Making,
    ) -> Result<Store, StartFault>
        requires making { IsMaking making.now }
        ensures agrees { IfOk result (λ store. IsTrue H.tells → Agrees store (H.disk host.new)) }
        ensures fresh { IfOk result IsFresh }
        ensures stands { IfOk result (λ store. IsTrue H.tells → (s : StoreOf) →
            Stands (H.disk host.old).bytes s → Shows store (H.disk host.new) s s) }
        ensures made { IfOk result (λ store. IsTrue H.tells → MayBeMade making.now.anew (H.disk host.old).bytes →
            ((store.slots).header ≡ made_header making.now) × Shows store (H.disk host.new) (empty_store making.now.first) (empty_store making.now.first)) }
        ensures found { OnOk result (IsTrue H.tells →
            ((m : SlotMap) × Gives (H.disk host.old).bytes m) ⊎ MayBeMade making.now.anew (H.disk host.old).bytes) }
        ensures damaged { (space : SpaceOf) (n : ℕ) → IsErrOf result (start_fault.Damaged space n) → (space ≡ System) × (IsTrue H.tells →
            (m : SlotMap) → Gives (H.disk host.old).bytes m → IsDamaged m n) }
        ensures sound { (space : SpaceOf) (n : ℕ) → IsErrOf result (start_fault.Damaged space n) → IsTrue H.tells →
            (s : StoreOf) → Stands (H.disk host.old).bytes s → ⊥ }
        ensures no_map { IsErrOf result start_fault.NotAContainer → IsTrue H.tells →
            (m : SlotMap) → Gives (H.disk host.old).bytes m → ⊥ }
        ensures not_made { IsErrOf result start_fault.NotAContainer → IsTrue H.tells →
            MayBeMade making.now.anew (H.disk host.old).bytes → ⊥ }
        ensures unwritten { IsErrOf result start_fault.NotAContainer → IsTrue H.tells →
            (H.disk host.new).bytes ≡ (H.disk host.old).bytes }
        ensures any_moment { IsTrue H.tells →
            LeavesOnly (H.disk host.old) (H.disk host.new) (MayLeave making.now.anew (H.disk host.old)) }
        ensures still { IsTrue H.tells → (s : StoreOf) → Stands (H.disk host.old).bytes s →
            LeavesOnly (H.disk host.old) (H.disk host.new) (StillStands s (H.disk host.old)) }
        ensures later { H.faults host.old ≤ H.faults host.new }
        ensures cause { IsErrOf result start_fault.Host → Rose (H.faults host.old) (H.faults host.new) }
        ensures taken { IsTrue H.tells → (m : SlotMap) (gives : Gives (H.disk host.old).bytes m) (c : CatalogOf) → IsSomeAnd (m (system_slot 1)) (SpellsCatalog c) →
            H.taken host.new ≤ H.taken host.old + (128 + 1024 * length gives.pages + 2 * open_len gives.header) + (slot_len m (system_slot 1) + segments_in m c.lists) }
        ensures taken_alone { IsTrue H.tells → (m : SlotMap) (gives : Gives (H.disk host.old).bytes m) → ((c : CatalogOf) → IsSomeAnd (m (system_slot 1)) (SpellsCatalog c) → ⊥) →
            H.taken host.new ≤ H.taken host.old + (128 + 1024 * length gives.pages + 2 * open_len gives.header) + slot_len m (system_slot 1) }
        ensures taken_made { IsTrue H.tells → MayBeMade making.now.anew (H.disk host.old).bytes → H.taken host.new ≤ H.taken host.old + 128 }
    {
        empty_store_keeps_rules();
        let slots = SlotStore::attach(alloc, host, making)?;
        let outline = read_outline(alloc, &slots, host)?;
        Ok(opened(alloc, slots, outline))
    }
}

// The store of these slots and this outline, of which both sides are one.
fn opened(alloc: Global, slots: SlotStore, outline: Outline) -> Store
    requires filed { IsFiled slots (record { next = outline.next; schema = outline.schema }) (record { next = outline.next; schema = outline.schema }) outline.indexes [] }
    requires fresh { IsFresh (record { slots = slots; committed = record { next = outline.next; schema = outline.schema }; session = record { next = outline.next; schema = outline.schema }; lists = outline.indexes; touched = false }) }
    ensures slots { result.slots ≡ slots }
    ensures committed { result.committed ≡ record { next = outline.next; schema = outline.schema } }
    ensures session { result.session ≡ record { next = outline.next; schema = outline.schema } }
    ensures lists { result.lists ≡ outline.indexes }
    ensures touched { result.touched ≡ false }
{
    let Outline {
        next,
        schema,
        indexes,
    } = outline;
    Store {
        alloc,
        slots,
        schema,
        next,
        indexes,
        session: SessionState::unchanged(alloc, next),
    }
}
