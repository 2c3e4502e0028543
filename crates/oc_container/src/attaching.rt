//! A container is attached.

ghost use Rattle.std.specs.Prelude.{◌≡◌, ◌⊎◌, ◌≤◌, ◌+◌, ◌*◌, ℕ, length, IsSomeAnd, IsTrue, IsErrOf, IfOk, OnOk};
ghost use Rattle.oc_host.specs.Counts.{Rose};
ghost use Rattle.oc_host.specs.Disk.{Disk, LeavesOnly};
ghost use Rattle.oc_layout.specs.declared.cells.Space.{Space as SpaceOf};
ghost use Rattle.oc_layout.specs.declared.cells.Space.TheVariants.{System};
ghost use Rattle.oc_model.specs.States.{start};
ghost use Rattle.oc_model.specs.Stores.{Store as StoreOf, empty_store};
ghost use Rattle.oc_catalog.specs.declared.catalog.Catalog.{Catalog as CatalogOf};
ghost use Rattle.oc_catalog.specs.Catalogs.{SpellsCatalog};
ghost use Rattle.oc_slots.specs.Attaching.{made_header, open_len, IsMaking, MayBeMade, MayLeave};
ghost use Rattle.oc_slots.specs.Forms.{Gives};
ghost use Rattle.oc_slots.specs.Maps.{SlotMap};
ghost use Rattle.oc_store.specs.declared.fault.StartFault.TheVariants as start_fault;
ghost use Rattle.oc_store.specs.Filed.{segments_in, slot_len, Agrees, IsFresh, Shows};
ghost use Rattle.oc_store.specs.Lists.{system_slot};
ghost use Rattle.oc_store.specs.Outlines.{IsDamaged};
ghost use Rattle.oc_store.specs.Stands.{Stands};
ghost use Rattle.oc_store.specs.Stops.{StillStands};
ghost use Rattle.oc_container.specs.Contained.{Holds};

use crate::container::Container;
use oc_host::Host;
use oc_live::LiveObjects;
use oc_live::laws::memory_is_a_part;
use oc_store::{Making, StartFault, Store};
use std::alloc::Global;

impl Container {
    /// Attaches the container that the file stands for, or makes one of the file where it is empty, and where it is to be
    /// made anew, has at most 128 bytes and is none. A run begins so: both stores are one, nothing is live and nothing is set.
    ///
    /// It gives up as the store does, and what a stop leaves, and how much is read, is as there.
    pub fn attach<H: Host>(
        alloc: Global,
        host: &mut H,
        making: &Making,
    ) -> Result<Container, StartFault>
        requires making { IsMaking making.now }
        ensures agrees { IfOk result (λ container. IsTrue H.tells → Agrees container.store (H.disk host.new)) }
        ensures fresh { IfOk result (λ container. IsFresh container.store) }
        ensures stands { IfOk result (λ container. IsTrue H.tells → (s : StoreOf) →
            Stands (H.disk host.old).bytes s → Holds container (H.disk host.new) (start s)) }
        ensures made { IfOk result (λ container. IsTrue H.tells → MayBeMade making.now.anew (H.disk host.old).bytes →
            (((container.store).slots).header ≡ made_header making.now) × Holds container (H.disk host.new) (start (empty_store making.now.first))) }
        ensures found { OnOk result (IsTrue H.tells →
            ((m : SlotMap) × Gives (H.disk host.old).bytes m) ⊎ MayBeMade making.now.anew (H.disk host.old).bytes) }
        ensures damaged { (space : SpaceOf) (n : ℕ) → IsErrOf result (start_fault.Damaged space n) → (space ≡ System) × (IsTrue H.tells →
            (m : SlotMap) → Gives (H.disk host.old).bytes m → IsDamaged m n) }
        ensures no_map { IsErrOf result start_fault.NotAContainer → IsTrue H.tells →
            (m : SlotMap) → Gives (H.disk host.old).bytes m → ⊥ }
        ensures not_made { IsErrOf result start_fault.NotAContainer → IsTrue H.tells →
            MayBeMade making.now.anew (H.disk host.old).bytes → ⊥ }
        ensures unwritten { IsErrOf result start_fault.NotAContainer → IsTrue H.tells →
            (H.disk host.new).bytes ≡ (H.disk host.old).bytes }
        ensures any_moment { IsTrue H.tells →
            LeavesOnly (H.disk host.old) (H.disk host.new) (MayLeave making.now.anew (H.disk host.old)) }
        ensures still { IsTrue H.tells → (s : StoreOf) → Stands (H.disk host.old).bytes s →
            LeavesOnly (H.disk host.old) (H.disk host.new) (StillStands s (H.disk host.old)) }
        ensures later { H.faults host.old ≤ H.faults host.new }
        ensures cause { IsErrOf result start_fault.Host → Rose (H.faults host.old) (H.faults host.new) }
        ensures taken { IsTrue H.tells → (m : SlotMap) (gives : Gives (H.disk host.old).bytes m) (c : CatalogOf) → IsSomeAnd (m (system_slot 1)) (SpellsCatalog c) →
            H.taken host.new ≤ H.taken host.old + (128 + 1024 * length gives.pages + 2 * open_len gives.header) + (slot_len m (system_slot 1) + segments_in m c.lists) }
        ensures taken_alone { IsTrue H.tells → (m : SlotMap) (gives : Gives (H.disk host.old).bytes m) → ((c : CatalogOf) → IsSomeAnd (m (system_slot 1)) (SpellsCatalog c) → ⊥) →
            H.taken host.new ≤ H.taken host.old + (128 + 1024 * length gives.pages + 2 * open_len gives.header) + slot_len m (system_slot 1) }
        ensures taken_made { IsTrue H.tells → MayBeMade making.now.anew (H.disk host.old).bytes → H.taken host.new ≤ H.taken host.old + 128 }
    {
        let store = Store::attach(alloc, host, making)?;
        Ok(begun(alloc, store))
    }
}

// A run over the store begins.
fn begun(alloc: Global, store: Store) -> Container
    ensures store { result.store ≡ store }
    ensures begins { (disk : Disk) (s : StoreOf) → Shows store disk s s → Holds result disk (start s) }
{
    memory_is_a_part();
    Container {
        alloc,
        store,
        live: LiveObjects::new(alloc),
    }
}
