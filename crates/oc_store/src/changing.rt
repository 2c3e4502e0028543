//! The session is changed.

ghost use Rattle.std.specs.Prelude.{◌≡◌, ◌⊎◌, ◌≤◌, ◌+◌, ℕ, true, Option, Some, None, map, IsTrue, IsErrOf, OnErr, OnOk};
ghost use Rattle.oc_host.specs.Counts.{Rose};
ghost use Rattle.oc_host.specs.Disk.{LeavesOnly, Looks};
ghost use Rattle.oc_layout.specs.declared.cells.Space.{Space as SpaceOf};
ghost use Rattle.oc_layout.specs.declared.cells.Space.TheVariants.{Objects};
ghost use Rattle.oc_model.specs.declared.value.Rec.{Rec as RecOf};
ghost use Rattle.oc_model.specs.Lists.{IsOneOf};
ghost use Rattle.oc_model.specs.Stores.{Store as StoreOf};
ghost use Rattle.oc_room.specs.Rooms.{lacking, placed, unplaced};
ghost use Rattle.oc_slots.specs.declared.slot.Side.TheVariants.{Session};
ghost use Rattle.oc_slots.specs.Stores.{session};
ghost use Rattle.oc_lists.specs.Changing.{store_changed, AreRecChanges};
ghost use Rattle.oc_store.specs.declared.fault.ChangeFault.TheVariants as change_fault;
ghost use Rattle.oc_store.specs.Changed.{old_len, record_lens, IsSameStore};
ghost use Rattle.oc_store.specs.Filed.{class_on, Agrees, IsFresh, IsRead, Shows};
ghost use Rattle.oc_store.specs.Stands.{object_slot};
ghost use Rattle.oc_store.specs.Stops.{StillStands};

use crate::fault::ChangeFault;
use crate::olds::fetch_olds;
use crate::rolling_back::give_up;
use crate::spelling::slot_changes;
use crate::store::{Store, schema_on};
use oc_host::Host;
use oc_lists::{RecChange, relist};
use oc_slots::{Side, SpaceFault};

impl Store {
    /// Changes the session: each of these objects has this record from now on, or is gone, and the next object gets the
    /// number `next`. The records are written through; the file keeps what the last commit left.
    ///
    /// `Full` comes exactly where one of the new records finds no room, and tells the first. `Damaged` tells the first of the
    /// objects whose record in the session is damaged. After these two nothing has changed. After `Memory` nothing has
    /// changed, or the session was given up and is the committed side again, as the store tells by whether it was touched.
    /// After `Host` the store is spent.
    pub fn change<H: Host>(
        &mut self,
        host: &mut H,
        next: u32,
        changes: Vec<RecChange>,
    ) -> Result<(), ChangeFault>
        requires agrees { IsTrue H.tells → Agrees self.old (H.disk host.old) }
        requires changes { AreRecChanges (self.old.session).schema (class_on Session self.old) (self.old.session).next next changes.items }
        ensures shows { OnOk result (IsTrue H.tells → (c s : StoreOf) → Shows self.old (H.disk host.old) c s →
            Shows self.new (H.disk host.new) c (store_changed next changes.items s)) }
        ensures agrees { IsTrue H.tells → IsErrOf result change_fault.Host ⊎ Agrees self.new (H.disk host.new) }
        ensures committed { self.new.committed ≡ self.old.committed }
        ensures session { OnOk result (self.new.session ≡ record { next = next; schema = (self.old.session).schema }) }
        ensures touched { OnOk result (self.new.touched ≡ true) }
        ensures header { (self.new.slots).header ≡ (self.old.slots).header }
        ensures room { OnOk result (lacking ((self.old.slots).room).unit ((self.old.slots).room).limit (unplaced (self.old.slots).room) (record_lens changes.items) ≡ None) }
        ensures end { OnOk result (((self.new.slots).room).end ≡ (placed ((self.old.slots).room).unit (unplaced (self.old.slots).room) (record_lens changes.items)).end) }
        ensures full { (need len limit : ℕ) → IsErrOf result (change_fault.Full need len limit) →
            (limit ≡ ((self.old.slots).room).limit)
            × (lacking ((self.old.slots).room).unit ((self.old.slots).room).limit (unplaced (self.old.slots).room) (record_lens changes.items) ≡ Some (record { need = need; length = len })) }
        ensures damaged { (space : SpaceOf) (n : ℕ) → IsErrOf result (change_fault.Damaged space n) → (space ≡ Objects) × IsOneOf n (map (λ c. c.number) changes.items) × (IsTrue H.tells → (found : Option RecOf) →
            IsRead (self.old.session).schema (class_on Session self.old n) (session (self.old.slots) (H.disk host.old) (object_slot n)) found → ⊥) }
        ensures unchanged { OnErr result ((IsErrOf result change_fault.Host ⊎ IsErrOf result change_fault.Memory) ⊎ IsSameStore self.old self.new) }
        ensures still { OnErr result (IsTrue H.tells → (IsErrOf result change_fault.Host ⊎ IsErrOf result change_fault.Memory) ⊎ ((c s : StoreOf) → Shows self.old (H.disk host.old) c s → Shows self.new (H.disk host.new) c s)) }
        ensures given_up { OnErr result (IsSameStore self.old self.new ⊎ IsFresh self.new) }
        ensures still_memory { IsErrOf result change_fault.Memory → IsTrue H.tells → (c s : StoreOf) → Shows self.old (H.disk host.old) c s →
            Shows self.new (H.disk host.new) c s ⊎ Shows self.new (H.disk host.new) c c }
        ensures any_moment { IsTrue H.tells → (c s : StoreOf) → Shows self.old (H.disk host.old) c s →
            LeavesOnly (H.disk host.old) (H.disk host.new) (StillStands c (H.disk host.old)) }
        ensures later { H.faults host.old ≤ H.faults host.new }
        ensures cause { IsErrOf result change_fault.Host → Rose (H.faults host.old) (H.faults host.new) }
        ensures taken { H.taken host.new ≤ H.taken host.old + old_len (self.old.slots) changes.items }
    {
        let alloc = self.alloc;
        let schema = schema_on(Side::Session, &self.schema, &self.session.schema);
        let extents = self.indexes.extents();
        let olds = fetch_olds(alloc, &mut self.slots, host, schema, extents, &changes)?;
        let spelled = slot_changes(alloc, schema, &changes)?;
        match self.slots.change(host, spelled) {
            Ok(()) => {}
            Err(SpaceFault::Full { need, len, limit }) => {
                return Err(ChangeFault::Full { need, len, limit });
            }
            Err(SpaceFault::Memory) => return Err(ChangeFault::Memory),
            Err(SpaceFault::Host) => {
                give_up(
                    alloc,
                    &mut self.slots,
                    &mut self.indexes,
                    &mut self.session,
                    self.next,
                );
                return Err(ChangeFault::Host);
            }
        }
        match relist(
            alloc,
            &mut self.indexes,
            &mut self.session.classes,
            schema,
            &olds,
            &changes,
        ) {
            Ok(()) => {
                self.session.next = next;
                self.session.touched = true;
                Ok(())
            }
            Err(_) => {
                give_up(
                    alloc,
                    &mut self.slots,
                    &mut self.indexes,
                    &mut self.session,
                    self.next,
                );
                Err(ChangeFault::Memory)
            }
        }
    }
}
