// A commit's plan is carried out in memory.
ghost use Rattle.std.specs.Prelude.{◌≡◌, ◌≤◌, ◌+◌, ℕ, List, [], true, length, All};
ghost use Rattle.oc_layout.specs.declared.cells.Cell.{Cell};
ghost use Rattle.oc_layout.specs.declared.cells.Header.{Header};
ghost use Rattle.oc_layout.specs.declared.cells.Space.{Space};
ghost use Rattle.oc_layout.specs.Layout.{blocks};
ghost use Rattle.oc_free.specs.FreeParts.{free_at};
ghost use Rattle.oc_pages.specs.Pages.{Paged};
ghost use Rattle.oc_room.specs.Rooms as rooms;
ghost use Rattle.oc_room.specs.Rooms.{IsRoom, owners};
ghost use Rattle.oc_slots.specs.declared.overlay.Overlay.{Overlay};
ghost use Rattle.oc_slots.specs.declared.slot.SlotChange.{SlotChange};
ghost use Rattle.oc_slots.specs.Slots.{changes_of};
ghost use Rattle.oc_slots.specs.Stores.{AreChanges, IsWhole};
ghost use Rattle.oc_slots.specs.Noting.{GoFree};
ghost use Rattle.oc_slots.specs.Planning.{IsPlan, pages_after};

use crate::commit_plan::CommitPlan;
use crate::new_pages::point;
use oc_layout::Cell;
use oc_pages::Pages;
use oc_room::Room;

/// Gives the pages the plan's pointers, and makes what comes free by it free. The parts belong together then, with no
/// changes. It takes no memory.
pub fn install(pages: &mut Pages, room: &mut Room, plan: &CommitPlan)
    requires plan { (header : Header) × (before : Paged) × (overlay : Overlay) × (at : rooms.Space) × (fresh len : ℕ) × (last : List SlotChange)
        × IsWhole header before overlay at fresh len × AreChanges last × IsPlan header before overlay at len last plan.now pages.old room.old }
    requires full { All (λ page. length page.cells ≡ 126) pages.old.pages }
    ensures whole { (none : Overlay) → ((space : Space) → changes_of none space ≡ []) →
        IsWhole plan.now.header pages.new none room.new 0 plan.now.end }
    ensures pages { pages.new.pages ≡ pages_after plan.now pages.old.pages }
    ensures end { room.new.end ≡ room.old.end }
{
    point(pages, &plan.added, &plan.pointings);
    release_all(room, &plan.freed);
    room.release(plan.place);
}

// Gives these places back.
fn release_all(room: &mut Room, cells: &[Cell])
    requires { GoFree room.old cells.now }
    ensures parts { (k : ℕ) → free_at room.new.parts k ≡ free_at room.old.parts k + owners room.old.unit cells.now k }
    ensures spare { room.old.spare ≤ room.new.spare + length cells.now }
    ensures is_room { IsRoom room.new }
    ensures unit { room.new.unit ≡ room.old.unit }
    ensures end { room.new.end ≡ room.old.end }
    ensures limit { room.new.limit ≡ room.old.limit }
{
    for cell in cells {
        room.release(*cell);
    }
}
