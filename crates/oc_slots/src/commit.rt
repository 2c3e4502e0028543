// The session is committed.
use crate::commit_plan::plan_commit;
use crate::commit_writing::write_commit;
use crate::installing::install;
use crate::overlay::Overlay;
use crate::{SlotChange, SlotStore, SpaceFault};
use oc_host::Host;

impl SlotStore {
    ghost use Rattle.std.specs.Prelude.{◌≡◌, ◌≢◌, ◌⊎◌, ◌≤◌, ℕ, List, true, Some, None, IsTrue, OnOk, OnErr, IsErrOf};
    ghost use Rattle.oc_host.specs.Counts.{Rose};
    ghost use Rattle.oc_host.specs.Disk.{LeavesOnly};
    ghost use Rattle.oc_layout.specs.Layout.{is_wide};
    ghost use Rattle.oc_room.specs.Rooms.{unplaced, placed, lacking};
    ghost use Rattle.oc_slots.specs.declared.fault.SpaceFault.TheVariants as SpaceFault;
    ghost use Rattle.oc_slots.specs.declared.slot.SlotId.{SlotId};
    ghost use Rattle.oc_slots.specs.Cached.{AreThose};
    ghost use Rattle.oc_slots.specs.Commits.{BeforeOrAfter};
    ghost use Rattle.oc_slots.specs.Maps.{Same, changed};
    ghost use Rattle.oc_slots.specs.Planning.{AreLengths, moves_in};
    ghost use Rattle.oc_slots.specs.Stores.{Agrees, AreChanges, IsSettled, IsUnchanged, IsPlace, committed, session, kept};

    /// Commits the session with these changes as the last ones: both sides are that then. At every stop the file gives
    /// the slots of the last commit or those of the session, and after `Ok` those of the session.
    ///
    /// The slots of the last changes are placed first, in their order, then the pages that are missing and the log. `Full` comes
    /// exactly where one of these finds no room, and tells the first. After it and after `Memory` nothing has changed. After
    /// `Host` the store is spent, and both its sides are that session in memory. Where no slot moved nothing is placed and
    /// written, and `Full` doesn't come. What is kept of places that come free is forgotten.
    pub fn commit<H: Host>(&mut self, host: &mut H, last: Vec<SlotChange>) -> Result<(), SpaceFault>
        requires agrees { IsTrue H.tells → Agrees self.old (H.disk host.old) }
        requires changes { AreChanges last.items }
        ensures agrees { OnOk result (IsTrue H.tells → Agrees self.new (H.disk host.new)) }
        ensures committed { OnOk result (IsTrue H.tells →
            Same (committed self.new (H.disk host.new)) (changed last.items (session self.old (H.disk host.old)))) }
        ensures session { OnOk result (IsTrue H.tells →
            Same (session self.new (H.disk host.new)) (changed last.items (session self.old (H.disk host.old)))) }
        ensures settled { OnOk result (IsSettled last.items self.old self.new) }
        ensures spent { IsErrOf result SpaceFault.Host → IsSettled last.items self.old self.new }
        ensures kept { OnOk result (AreThose (IsPlace self.new) (kept self.old) (kept self.new)) }
        ensures header { self.new.header ≡ record self.old.header {
          root = self.new.header.root;
          log = self.new.header.log;
          gate = self.new.header.gate;
          block_root = self.new.header.block_root;
        } }
        ensures idle { ((id : SlotId) → moves_in self.old last.items id ≢ true) →
            (host.new ≡ host.old) × (self.new.room.end ≡ self.old.room.end) × (self.new.header ≡ self.old.header) × (self.new.pages ≡ self.old.pages) }
        ensures room { OnOk result (((id : SlotId) → moves_in self.old last.items id ≢ true) ⊎ ((lens : List ℕ)
            × AreLengths (is_wide self.old.header) self.old.pages (moves_in self.old last.items) last.items lens
            × (lacking self.old.room.unit self.old.room.limit (unplaced self.old.room) lens ≡ None)
            × (self.new.room.end ≡ (placed self.old.room.unit (unplaced self.old.room) lens).end))) }
        ensures full { (need len limit : ℕ) → IsErrOf result (SpaceFault.Full need len limit) →
            (limit ≡ self.old.room.limit)
            × ((lens : List ℕ)
            × AreLengths (is_wide self.old.header) self.old.pages (moves_in self.old last.items) last.items lens
            × (lacking self.old.room.unit self.old.room.limit (unplaced self.old.room) lens ≡ Some (record { need = need; length = len }))) }
        ensures some_moved { (need len limit : ℕ) → IsErrOf result (SpaceFault.Full need len limit) →
            (id : SlotId) × (moves_in self.old last.items id ≡ true) }
        ensures unchanged { OnErr result (IsErrOf result SpaceFault.Host ⊎ (IsUnchanged self.old self.new × (host.new ≡ host.old))) }
        ensures any_moment { IsTrue H.tells →
            LeavesOnly (H.disk host.old) (H.disk host.new) (BeforeOrAfter self.old last.items (H.disk host.old)) }
        ensures said { IsTrue H.tells → (H.disk host.new).said ≡ (H.disk host.old).said }
        ensures later { H.faults host.old ≤ H.faults host.new }
        ensures cause { IsErrOf result SpaceFault.Host → Rose (H.faults host.old) (H.faults host.new) }
        ensures taken { H.taken host.new ≡ H.taken host.old }
    {
        let header = self.header;
        let planned = match plan_commit(
            self.alloc,
            &header,
            &mut self.pages,
            &mut self.room,
            &mut self.overlay,
            self.fresh,
            self.len,
            last,
        ) {
            Ok(planned) => planned,
            Err(fault) => return Err(fault),
        };
        let plan = match planned {
            Some(plan) => plan,
            None => {
                self.rollback();
                return Ok(());
            }
        };
        install(&mut self.pages, &mut self.room, &plan);
        self.cache.forget_all(&plan.freed);
        self.overlay = Overlay::new(self.alloc);
        self.fresh = 0;
        self.len = plan.end;
        self.header = plan.header;
        write_commit(host, &header, &self.pages, plan)?;
        Ok(())
    }
}
