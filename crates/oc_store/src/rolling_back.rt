//! The session is given up.

ghost use Rattle.std.specs.Prelude.{◌≡◌, [], None, false};
ghost use Rattle.oc_host.specs.Disk.{Disk};
ghost use Rattle.oc_lists.specs.Lists.{lists_then};
ghost use Rattle.oc_slots.specs.Stores.{Agrees as AgreeSlots};

use crate::store::{SessionState, Store};
use oc_index::Indexes;
use oc_slots::SlotStore;
use std::alloc::Global;

impl Store {
    ghost use Rattle.oc_model.specs.Stores.{Store as StoreOf};
    ghost use Rattle.oc_store.specs.Filed.{Agrees, IsFresh, Shows};

    /// Gives the session up: it is the committed side again, with its schema, its next number and its lists. It reads
    /// nothing and takes no memory, and the file is as before.
    pub fn rollback(&mut self)
        ensures agrees { (disk : Disk) → Agrees self.old disk → Agrees self.new disk }
        ensures shows { (disk : Disk) (c s : StoreOf) → Shows self.old disk c s → Shows self.new disk c c }
        ensures fresh { IsFresh self.new }
        ensures committed { self.new.committed ≡ self.old.committed }
        ensures lists { self.new.lists ≡ lists_then self.old.lists }
        ensures header { (self.new.slots).header ≡ (self.old.slots).header }
        ensures pages { (self.new.slots).pages ≡ (self.old.slots).pages }
        ensures end { ((self.new.slots).room).end ≡ ((self.old.slots).room).end }
    {
        give_up(
            self.alloc,
            &mut self.slots,
            &mut self.indexes,
            &mut self.session,
            self.next,
        );
    }
}

/// Gives up what the session has of slots, of lists and of its own; its next number is this one again. It takes no memory.
pub(crate) fn give_up(
    alloc: Global,
    slots: &mut SlotStore,
    indexes: &mut Indexes,
    session: &mut SessionState,
    next: u32,
)
    ensures agrees { (disk : Disk) → AgreeSlots slots.old disk → AgreeSlots slots.new disk }
    ensures header { slots.new.header ≡ slots.old.header }
    ensures pages { slots.new.pages ≡ slots.old.pages }
    ensures objects { slots.new.objects ≡ [] }
    ensures system { slots.new.system ≡ [] }
    ensures end { (slots.new.room).end ≡ (slots.old.room).end }
    ensures lists { indexes.new ≡ lists_then indexes.old }
    ensures schema { session.new.schema ≡ None }
    ensures next { session.new.next ≡ next }
    ensures classes { session.new.classes.entries ≡ [] }
    ensures touched { session.new.touched ≡ false }
{
    slots.rollback();
    indexes.undo();
    *session = SessionState::unchanged(alloc, next);
}
