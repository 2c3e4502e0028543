// The session is changed.
use crate::forgetting::forget_changed;
use crate::noting::note_all;
use crate::preparing::{Ready, place_changes};
use crate::writing::write_runs;
use crate::{SlotChange, SlotStore, SpaceFault};
use oc_host::Host;

impl SlotStore {
    ghost use Rattle.std.specs.Prelude.{◌≡◌, ◌≢◌, ◌⊎◌, ◌≤◌, ℕ, Some, None, is_some, All, IsTrue, OnOk, OnErr, IsErrOf};
    ghost use Rattle.oc_host.specs.Counts.{Rose};
    ghost use Rattle.oc_host.specs.Disk.{LeavesOnly};
    ghost use Rattle.oc_layout.specs.declared.cells.Space.{Space};
    ghost use Rattle.oc_room.specs.Rooms.{unplaced, placed, lacking};
    ghost use Rattle.oc_slots.specs.declared.fault.SpaceFault.TheVariants as SpaceFault;
    ghost use Rattle.oc_slots.specs.declared.slot.SlotId.{SlotId};
    ghost use Rattle.oc_slots.specs.Cached.{AreThose};
    ghost use Rattle.oc_slots.specs.Maps.{Same, changed, has_after};
    ghost use Rattle.oc_slots.specs.Slots.{lengths_of};
    ghost use Rattle.oc_slots.specs.Stores.{Agrees, AreChanges, IsUnchanged, IsPlace, changes_in, committed, session, session_place, kept};
    ghost use Rattle.oc_slots.specs.Writing.{Before};

    /// Changes the session: each of these slots has these bytes from now on, or is gone. The bytes are written through,
    /// each slot in the place that fits it best, without a sync. What is kept of places that come free is forgotten.
    ///
    /// What is noted of a space of which no slot is named stays.
    ///
    /// `Full` comes exactly where one of the slots finds no room, and tells the first. After it and after `Memory`
    /// nothing has changed. After `Host` the store is spent.
    pub fn change<H: Host>(
        &mut self,
        host: &mut H,
        changes: Vec<SlotChange>,
    ) -> Result<(), SpaceFault>
        requires agrees { IsTrue H.tells → Agrees self.old (H.disk host.old) }
        requires changes { AreChanges changes.items }
        ensures agrees { OnOk result (IsTrue H.tells → Agrees self.new (H.disk host.new)) }
        ensures session { OnOk result (IsTrue H.tells →
            Same (session self.new (H.disk host.new)) (changed changes.items (session self.old (H.disk host.old)))) }
        ensures there { OnOk result ((id : SlotId) →
            is_some (session_place self.new id) ≡ has_after changes.items id (is_some (session_place self.old id))) }
        ensures untouched { OnOk result ((space : Space) →
            All (λ c. c.id.space ≢ space) changes.items → changes_in self.new space ≡ changes_in self.old space) }
        ensures committed { OnOk result (IsTrue H.tells →
            Same (committed self.new (H.disk host.new)) (committed self.old (H.disk host.old))) }
        ensures header { self.new.header ≡ self.old.header }
        ensures pages { self.new.pages ≡ self.old.pages }
        ensures kept { OnOk result (AreThose (IsPlace self.new) (kept self.old) (kept self.new)) }
        ensures end { OnOk result (self.new.room.end
            ≡ (placed self.old.room.unit (unplaced self.old.room) (lengths_of changes.items)).end) }
        ensures room { OnOk result (lacking self.old.room.unit self.old.room.limit (unplaced self.old.room) (lengths_of changes.items) ≡ None) }
        ensures full { (need len limit : ℕ) → IsErrOf result (SpaceFault.Full need len limit) →
            (limit ≡ self.old.room.limit)
            × (lacking self.old.room.unit self.old.room.limit (unplaced self.old.room) (lengths_of changes.items) ≡ Some (record { need = need; length = len })) }
        ensures unchanged { OnErr result (IsErrOf result SpaceFault.Host ⊎ (IsUnchanged self.old self.new × (host.new ≡ host.old))) }
        ensures any_moment { IsTrue H.tells →
            LeavesOnly (H.disk host.old) (H.disk host.new) (Before self.old.header self.old.pages (H.disk host.old)) }
        ensures said { IsTrue H.tells → (H.disk host.new).said ≡ (H.disk host.old).said }
        ensures later { H.faults host.old ≤ H.faults host.new }
        ensures cause { IsErrOf result SpaceFault.Host → Rose (H.faults host.old) (H.faults host.new) }
        ensures taken { H.taken host.new ≡ H.taken host.old }
    {
        let unit = self.header.unit();
        let Ready {
            placed,
            planned,
            ..
        } = place_changes(
            self.alloc,
            &mut self.room,
            &mut self.overlay,
            unit,
            self.fresh,
            self.len,
            changes,
        )?;
        forget_changed(&mut self.cache, &self.overlay, &placed);
        note_all(&mut self.overlay, &mut self.room, &mut self.fresh, &placed);
        self.len = planned.end;
        write_runs(host, &planned.runs)?;
        Ok(())
    }
}
