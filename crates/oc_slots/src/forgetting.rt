// What is kept of slots that are given up is forgotten.
ghost use Rattle.std.specs.Prelude.{◌≡◌};
ghost use Rattle.oc_slots.specs.Cached.{without};
ghost use Rattle.oc_slots.specs.Noting.{noted_cells, left_by};
ghost use Rattle.oc_slots.specs.Slots.{cell_list, places_in};

use crate::SlotId;
use crate::cache::SlotCache;
use crate::overlay::Overlay;
use crate::placed::PlacedChange;
use crate::rolling_back::place_at;
use indexmap::IndexMap;
use oc_layout::Cell;

/// Forgets where the session had the slots of these changes. It takes no memory.
pub fn forget_changed(cache: &mut SlotCache, overlay: &Overlay, placed: &[PlacedChange])
    ensures { cache.new ≡ without (left_by overlay.now placed.now) cache.old }
{
    for change in placed {
        forget_noted(cache, overlay, change.id);
    }
}

// Forgets where a slot is by the overlay.
fn forget_noted(cache: &mut SlotCache, overlay: &Overlay, id: SlotId)
    ensures { cache.new ≡ without (noted_cells overlay.now id) cache.old }
{
    forget_place(cache, overlay.get(id).flatten());
}

/// Forgets the places of these changes. It takes no memory.
pub fn forget_places(cache: &mut SlotCache, changes: &IndexMap<u32, Option<Cell>>)
    ensures { cache.new ≡ without (places_in changes.now.entries) cache.old }
{
    for index in 0..changes.len() {
        forget_place(cache, place_at(changes, index));
    }
}

fn forget_place(cache: &mut SlotCache, place: Option<Cell>)
    ensures { cache.new ≡ without (cell_list place) cache.old }
{
    if let Some(cell) = place {
        cache.forget(cell);
    }
}
