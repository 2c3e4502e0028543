// The session is given up.
ghost use Rattle.std.specs.Prelude.{◌≡◌, ◌≤◌, ◌<◌, ◌+◌, ℕ, [], List, length, All, Option, slice_index_or, None};
ghost use Rattle.oc_layout.specs.declared.cells.Cell.{Cell};
ghost use Rattle.oc_layout.specs.Layout.{blocks};
ghost use Rattle.oc_free.specs.FreeParts.{free_at};
ghost use Rattle.oc_room.specs.Rooms.{IsRoom, owners};
ghost use Rattle.oc_slots.specs.Slots.{cell_list, places_in};
ghost use Rattle.oc_slots.specs.Noting.{GoFree};

use crate::SlotStore;
use crate::forgetting::forget_places;
use crate::overlay::Overlay;
use indexmap::IndexMap;
use oc_layout::Cell;
use oc_room::Room;

impl SlotStore {
    ghost use Rattle.oc_host.specs.Disk.{Disk};
    ghost use Rattle.oc_slots.specs.Maps.{Same};
    ghost use Rattle.oc_slots.specs.Cached.{AreThose};
    ghost use Rattle.oc_slots.specs.Stores.{Agrees, committed, session, kept, IsPlace};

    /// Gives the session up: it is the committed side again, and the places that it alone had are free and no longer
    /// kept. It takes no memory, and the file is as before.
    pub fn rollback(&mut self)
        ensures agrees { (disk : Disk) → Agrees self.old disk → Agrees self.new disk }
        ensures committed { (disk : Disk) → Same (committed self.new disk) (committed self.old disk) }
        ensures session { (disk : Disk) → Same (session self.new disk) (committed self.old disk) }
        ensures header { self.new.header ≡ self.old.header }
        ensures pages { self.new.pages ≡ self.old.pages }
        ensures objects { self.new.objects ≡ [] }
        ensures system { self.new.system ≡ [] }
        ensures end { self.new.room.end ≡ self.old.room.end }
        ensures len { self.new.len ≡ self.old.len }
        ensures kept { AreThose (IsPlace self.new) (kept self.old) (kept self.new) }
    {
        forget_places(&mut self.cache, &self.overlay.objects);
        forget_places(&mut self.cache, &self.overlay.system);
        release_all(&mut self.room, &self.overlay.objects);
        release_all(&mut self.room, &self.overlay.system);
        self.overlay = Overlay::new(self.alloc);
        self.fresh = 0;
    }
}

// Gives the places of these changes back.
fn release_all(room: &mut Room, changes: &IndexMap<u32, Option<Cell>>)
    requires { GoFree room.old (places_in changes.now.entries) }
    ensures parts { (k : ℕ) → free_at room.new.parts k ≡ free_at room.old.parts k + owners room.old.unit (places_in changes.now.entries) k }
    ensures spare { room.old.spare ≤ room.new.spare + length (places_in changes.now.entries) }
    ensures is_room { IsRoom room.new }
    ensures unit { room.new.unit ≡ room.old.unit }
    ensures end { room.new.end ≡ room.old.end }
    ensures limit { room.new.limit ≡ room.old.limit }
{
    for index in 0..changes.len() {
        release(room, place_at(changes, index));
    }
}

fn release(room: &mut Room, cell: Option<Cell>)
    requires { GoFree room.old (cell_list cell) }
    ensures parts { (k : ℕ) → free_at room.new.parts k ≡ free_at room.old.parts k + owners room.old.unit (cell_list cell) k }
    ensures spare { room.old.spare ≤ room.new.spare + length (cell_list cell) }
    ensures is_room { IsRoom room.new }
    ensures unit { room.new.unit ≡ room.old.unit }
    ensures end { room.new.end ≡ room.old.end }
    ensures limit { room.new.limit ≡ room.old.limit }
{
    if let Some(cell) = cell {
        room.release(cell);
    }
}

/// The place of the change at this index, if it has one.
pub fn place_at(changes: &IndexMap<u32, Option<Cell>>, index: usize) -> Option<Cell>
    requires { index < length changes.now.entries }
    ensures { result ≡ (slice_index_or changes.now.entries index (0, None)).1 }
{
    match changes.get_index(index) {
        Some((_, cell)) => *cell,
        None => None,
    }
}
