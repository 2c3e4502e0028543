//! The session is committed.

ghost use Rattle.std.specs.Prelude.{◌≡◌, ◌≢◌, ◌⊎◌, ◌≤◌, ℕ, true, false, List, [], Some, None, unwrap_or, IsTrue, IsErrOf, IfOk, OnErr, OnOk};
ghost use Rattle.std.specs.Bool.{OnTrue};
ghost use Rattle.oc_host.specs.Counts.{Rose};
ghost use Rattle.oc_host.specs.Disk.{LeavesOnly};
ghost use Rattle.oc_layout.specs.Layout.{is_wide};
ghost use Rattle.oc_model.specs.Stores.{Store as StoreOf};
ghost use Rattle.oc_room.specs.Rooms.{lacking, placed, unplaced};
ghost use Rattle.oc_slots.specs.declared.slot.SlotChange.{SlotChange as SlotChangeOf};
ghost use Rattle.oc_slots.specs.declared.slot.SlotId.{SlotId};
ghost use Rattle.oc_slots.specs.Planning.{moves_in, AreLengths};
ghost use Rattle.oc_lists.specs.Lists.{IsMarked};
ghost use Rattle.oc_store.specs.declared.fault.ChangeFault.TheVariants as change_fault;
ghost use Rattle.oc_store.specs.Changed.{IsSameStore};
ghost use Rattle.oc_store.specs.Committing.{IsLast};
ghost use Rattle.oc_store.specs.Filed.{Agrees, IsFresh, Shows};
ghost use Rattle.oc_store.specs.Last.{lists_written};
ghost use Rattle.oc_store.specs.Stops.{StandsForEither};

use crate::fault::ChangeFault;
use crate::last::{Last, last_of};
use crate::store::{SessionState, Store, schema_on};
use oc_host::Host;
use oc_index::Indexes;
use oc_schema::Schema;
use oc_slots::{Side, SpaceFault};
use std::alloc::{AllocError, Global};

impl Store {
    /// Commits the session: both sides are that then. Whatever a stop leaves stands for the store of the last commit or for
    /// that of the session.
    ///
    /// Of the lists, the segments whose chunks changed are written, those that no chunk has any more are gone, and the
    /// catalog is written. Where no call changed the session since it began the host isn't called, and `Full` doesn't come;
    /// where one change undid another something may be written. `Full` comes exactly where something finds no room; after it
    /// and after `Memory` nothing has changed. After `Host` the store is spent, and both its sides are the session in memory.
    pub fn commit<H: Host>(&mut self, host: &mut H) -> Result<(), ChangeFault>
        requires agrees { IsTrue H.tells → Agrees self.old (H.disk host.old) }
        ensures shows { OnOk result (IsTrue H.tells → (c s : StoreOf) → Shows self.old (H.disk host.old) c s →
            Shows self.new (H.disk host.new) s s) }
        ensures agrees { IsTrue H.tells → IsErrOf result change_fault.Host ⊎ Agrees self.new (H.disk host.new) }
        ensures fresh { OnOk result (IsFresh self.new) }
        ensures committed { OnOk result (self.new.committed ≡ self.old.session) }
        ensures lists { OnOk result ((last : List SlotChangeOf) × (numbers : List ℕ)
            × IsLast self.old last numbers
            × (self.new.lists ≡ lists_written numbers self.old.lists)) }
        ensures room { OnOk result ((last : List SlotChangeOf) × (numbers : List ℕ)
            × IsLast self.old last numbers
            × ((((id : SlotId) → moves_in (self.old.slots) last id ≢ true) × (host.new ≡ host.old) × (((self.new.slots).room).end ≡ ((self.old.slots).room).end))
            ⊎ ((lens : List ℕ)
            × AreLengths (is_wide (self.old.slots).header) (self.old.slots).pages (moves_in (self.old.slots) last) last lens
            × (lacking ((self.old.slots).room).unit ((self.old.slots).room).limit (unplaced (self.old.slots).room) lens ≡ None)
            × (((self.new.slots).room).end ≡ (placed ((self.old.slots).room).unit (unplaced (self.old.slots).room) lens).end)))) }
        ensures untouched { self.old.touched ≡ false → (host.new ≡ host.old) × (((self.new.slots).room).end ≡ ((self.old.slots).room).end) }
        ensures header { (self.new.slots).header ≡ record (self.old.slots).header {
          root = ((self.new.slots).header).root;
          log = ((self.new.slots).header).log;
          gate = ((self.new.slots).header).gate;
          block_root = ((self.new.slots).header).block_root;
        } }
        ensures full { (need len limit : ℕ) → IsErrOf result (change_fault.Full need len limit) →
            (limit ≡ ((self.old.slots).room).limit)
            × ((last : List SlotChangeOf) × (numbers : List ℕ) × (lens : List ℕ)
            × IsLast self.old last numbers
            × AreLengths (is_wide (self.old.slots).header) (self.old.slots).pages (moves_in (self.old.slots) last) last lens
            × (lacking ((self.old.slots).room).unit ((self.old.slots).room).limit (unplaced (self.old.slots).room) lens ≡ Some (record { need = need; length = len }))) }
        ensures full_touched { (need len limit : ℕ) → IsErrOf result (change_fault.Full need len limit) → self.old.touched ≡ true }
        ensures unchanged { OnErr result (IsErrOf result change_fault.Host ⊎ ((host.new ≡ host.old) × IsSameStore self.old self.new)) }
        ensures any_moment { IsTrue H.tells → (c s : StoreOf) → Shows self.old (H.disk host.old) c s →
            LeavesOnly (H.disk host.old) (H.disk host.new) (StandsForEither c s (H.disk host.old)) }
        ensures said { IsTrue H.tells → (H.disk host.new).said ≡ (H.disk host.old).said }
        ensures later { H.faults host.old ≤ H.faults host.new }
        ensures cause { IsErrOf result change_fault.Host → Rose (H.faults host.old) (H.faults host.new) }
        ensures taken { H.taken host.new ≡ H.taken host.old }
    {
        let alloc = self.alloc;
        let Last { changes, numbers } = self.last()?;
        match self.slots.commit(host, changes) {
            Ok(()) => {
                settle(
                    alloc,
                    &numbers,
                    &mut self.indexes,
                    &mut self.schema,
                    &mut self.next,
                    &mut self.session,
                );
                Ok(())
            }
            Err(SpaceFault::Host) => {
                settle(
                    alloc,
                    &numbers,
                    &mut self.indexes,
                    &mut self.schema,
                    &mut self.next,
                    &mut self.session,
                );
                Err(ChangeFault::Host)
            }
            Err(SpaceFault::Memory) => Err(ChangeFault::Memory),
            Err(SpaceFault::Full { need, len, limit }) => {
                Err(ChangeFault::Full { need, len, limit })
            }
        }
    }

    // What the commit changes last, which is nothing where nothing has changed.
    fn last(&self) -> Result<Last, AllocError>
        ensures is { IfOk result (λ last. IsLast self.now last.changes.items last.numbers.items) }
        ensures untouched { self.now.touched ≡ false → IfOk result (λ last. last.changes.items ≡ []) }
    {
        if self.is_idle() {
            return Ok(no_last(self.alloc));
        }
        let schema = schema_on(Side::Session, &self.schema, &self.session.schema);
        let last = last_of(
            self.alloc,
            &self.slots,
            &self.indexes,
            self.session.next,
            schema,
        )?;
        Ok(last)
    }

    // Whether neither the schema, nor the next number, nor the lists have changed, which is so where no call changed the
    // session.
    fn is_idle(&self) -> bool
        ensures untouched { self.now.touched ≡ false → result ≡ true }
        ensures heading { OnTrue result (self.now.session ≡ self.now.committed) }
        ensures lists { OnTrue result (IsMarked self.now.lists) }
    {
        if !self.session.touched {
            return true;
        }
        self.session.schema.is_none() && self.session.next == self.next && self.indexes.is_marked()
    }
}

// No changes and no numbers.
fn no_last(alloc: Global) -> Last
    ensures changes { result.changes.items ≡ [] }
    ensures numbers { result.numbers.items ≡ [] }
{
    Last {
        changes: Vec::new(alloc),
        numbers: Vec::new(alloc),
    }
}

// Both sides are the session: all its chunks are written, and those without a number have got these. It takes no memory.
fn settle(
    alloc: Global,
    numbers: &[u32],
    indexes: &mut Indexes,
    schema: &mut Schema,
    next: &mut u32,
    session: &mut SessionState,
)
    ensures lists { indexes.new ≡ lists_written numbers.now indexes.old }
    ensures schema { schema.new ≡ unwrap_or session.old.schema schema.old }
    ensures next { next.new ≡ session.old.next }
    ensures session_schema { session.new.schema ≡ None }
    ensures session_next { session.new.next ≡ session.old.next }
    ensures classes { session.new.classes.entries ≡ [] }
    ensures touched { session.new.touched ≡ false }
{
    indexes.set_written(numbers);
    take_own(schema, session.schema.take());
    *next = session.next;
    *session = SessionState::unchanged(alloc, session.next);
}

// The schema becomes the session's own, if it has one.
fn take_own(schema: &mut Schema, own: Option<Schema>)
    ensures { schema.new ≡ unwrap_or own schema.old }
{
    if let Some(given) = own {
        *schema = given;
    }
}
