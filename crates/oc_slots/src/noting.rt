// What became of slots is noted, and what a session gives up is free.
ghost use Rattle.std.specs.Prelude.{◌≡◌, ◌≤◌, ◌<◌, ◌+◌, ℕ, List, [], ◌∷◌, ◌++◌, length, Contains};
ghost use Rattle.oc_layout.specs.declared.cells.Cell.{Cell};
ghost use Rattle.oc_layout.specs.declared.cells.Space.{Space};
ghost use Rattle.oc_free.specs.FreeParts.{free_at};
ghost use Rattle.oc_room.specs.Rooms.{IsRoom, owners};
ghost use Rattle.oc_slots.specs.Slots.{changes_of, spare_of, put_change, cell_list, cells_of};
ghost use Rattle.oc_slots.specs.Stores.{fresh_of};
ghost use Rattle.oc_slots.specs.Noting.{noted, IsSession};

use crate::SlotId;
use crate::overlay::Overlay;
use crate::placed::PlacedChange;
use oc_layout::Cell;
use oc_room::Room;

/// Notes each of these changes, and gives back what the session had in their places. It takes no memory.
pub fn note_all(overlay: &mut Overlay, room: &mut Room, fresh: &mut u32, placed: &[PlacedChange])
    requires session { IsSession overlay.old room.old fresh.old (cells_of placed.now) }
    requires room { length placed.now ≤ spare_of overlay.old }
    ensures session { IsSession overlay.new room.new fresh.new [] }
    ensures changes { (space : Space) → changes_of overlay.new space ≡ noted placed.now space (changes_of overlay.old space) }
    ensures moved { (k : ℕ) → free_at room.new.parts k + owners room.old.unit (fresh_of overlay.new) k
        ≡ free_at room.old.parts k + owners room.old.unit (fresh_of overlay.old) k + owners room.old.unit (cells_of placed.now) k }
    ensures members { (c : Cell) → Contains (fresh_of overlay.new) c → Contains (fresh_of overlay.old ++ cells_of placed.now) c }
    ensures unit { room.new.unit ≡ room.old.unit }
    ensures end { room.new.end ≡ room.old.end }
    ensures limit { room.new.limit ≡ room.old.limit }
{
    for change in placed {
        note(overlay, room, fresh, change.id, change.place());
    }
}

// Notes where a slot is now, and gives back where it was in the session alone.
fn note(overlay: &mut Overlay, room: &mut Room, fresh: &mut u32, id: SlotId, cell: Option<Cell>)
    requires session { IsSession overlay.old room.old fresh.old (cell_list cell) }
    requires room { 1 ≤ spare_of overlay.old }
    ensures changes { (space : Space) → changes_of overlay.new space ≡ put_change id cell space (changes_of overlay.old space) }
    ensures moved { (k : ℕ) → free_at room.new.parts k + owners room.old.unit (fresh_of overlay.new) k
        ≡ free_at room.old.parts k + owners room.old.unit (fresh_of overlay.old) k + owners room.old.unit (cell_list cell) k }
    ensures members { (c : Cell) → Contains (fresh_of overlay.new) c → Contains (fresh_of overlay.old ++ cell_list cell) c }
    ensures count { fresh.new ≡ length (fresh_of overlay.new) }
    ensures spare { room.old.spare + fresh.new ≤ room.new.spare + fresh.old + length (cell_list cell) }
    ensures room { spare_of overlay.old ≤ spare_of overlay.new + 1 }
    ensures is_room { IsRoom room.new }
    ensures unit { room.new.unit ≡ room.old.unit }
    ensures end { room.new.end ≡ room.old.end }
    ensures limit { room.new.limit ≡ room.old.limit }
{
    let before = overlay.put(id, cell).flatten();
    *fresh = *fresh + count_of(cell) - count_of(before);
    if let Some(old) = before {
        room.release(old);
    }
}

// How many cells these are: one or none.
fn count_of(cell: Option<Cell>) -> u32
    ensures { result ≡ length (cell_list cell) }
{
    match cell {
        Some(_) => 1,
        None => 0,
    }
}
