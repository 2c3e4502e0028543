// Changes are placed, and all memory that they need is taken.
ghost use Rattle.std.specs.Prelude.{◌≡◌, ◌≤◌, ◌<◌, ◌+◌, ◌++◌, ℕ, length, map, All, Some, None, IfOk, OnOk, OnErr, IsErrOf};
ghost use Rattle.oc_layout.specs.declared.cells.Space.{Space};
ghost use Rattle.oc_room.specs.Rooms.{AreInOrder, GoesBack, IsRoom, IsSame, open_at, owners, unplaced, placed, lacking};
ghost use Rattle.oc_slots.specs.declared.fault.SpaceFault.TheVariants as SpaceFault;
ghost use Rattle.oc_slots.specs.Slots.{AreSome, space_fault, changes_of, spare_of, change_of, slots_of, cells_of, length_list, lengths_of};
ghost use Rattle.oc_slots.specs.Pieces.{IsPlanned};

use crate::overlay::Overlay;
use crate::placed::{PlacedChange, placed};
use crate::run::{Planned, plan};
use crate::{SlotChange, SpaceFault};
use oc_layout::Cell;
use oc_room::{Room, RoomFault};
use std::alloc::{AllocError, Global};

/// Changes with their places, these places, and the runs in which their slots are written.
#[derive(Debug, Drop)]
pub struct Ready {
    pub placed: Vec<PlacedChange>,
    pub cells: Vec<Cell>,
    pub planned: Planned,
}

/// Places the slots of these changes one after another in a file of `len` bytes, where so many slots of the session are
/// to be given back without memory before and after.
///
/// After a fault the room is as it was.
pub fn place_changes(
    alloc: Global,
    room: &mut Room,
    overlay: &mut Overlay,
    unit: u32,
    fresh: u32,
    len: u64,
    changes: Vec<SlotChange>,
) -> Result<Ready, SpaceFault>
    requires some { AreSome changes.items }
    requires unit { room.old.unit ≡ unit }
    requires block { unit ≤ 127 }
    requires spare { fresh ≤ room.old.spare }
    requires few { fresh ≤ room.old.limit }
    ensures changes { IfOk result (λ ready. map change_of ready.placed.items ≡ changes.items) }
    ensures sizes { IfOk result (λ ready. All (λ s. s.cell.len ≡ length s.bytes) (slots_of ready.placed.items)) }
    ensures placed { IfOk result (λ ready. placed room.old.unit (unplaced room.old) (lengths_of changes.items)
        ≡ record { cells = cells_of ready.placed.items; parts = room.new.parts; end = room.new.end }) }
    ensures open { IfOk result (λ ready. (k : ℕ) →
        open_at room.old k ≡ open_at room.new k + owners room.old.unit (cells_of ready.placed.items) k) }
    ensures back { IfOk result (λ ready. GoesBack room.new (cells_of ready.placed.items) room.old.end) }
    ensures cells { IfOk result (λ ready. ready.cells.items ≡ cells_of ready.placed.items) }
    ensures order { IfOk result (λ ready. AreInOrder room.old.unit room.old.end (cells_of ready.placed.items) room.new.end) }
    ensures planned { IfOk result (λ ready. IsPlanned unit len (slots_of ready.placed.items) ready.planned) }
    ensures overlay_room { IfOk result (λ ready. length ready.placed.items ≤ spare_of overlay.new) }
    ensures room_spare { IfOk result (λ ready. fresh + length (cells_of ready.placed.items) ≤ room.new.spare) }
    ensures room { OnOk result (lacking room.old.unit room.old.limit (unplaced room.old) (lengths_of changes.items) ≡ None) }
    ensures full { (need len limit : ℕ) → IsErrOf result (SpaceFault.Full need len limit) →
        (limit ≡ room.old.limit)
        × (lacking room.old.unit room.old.limit (unplaced room.old) (lengths_of changes.items) ≡ Some (record { need = need; length = len })) }
    ensures fault { OnErr result (IsSame room.old room.new) }
    ensures spare { fresh ≤ room.new.spare }
    ensures same { (space : Space) → changes_of overlay.new space ≡ changes_of overlay.old space }
    ensures unit { room.new.unit ≡ room.old.unit }
    ensures limit { room.new.limit ≡ room.old.limit }
    ensures was_room { IsRoom room.old }
    ensures is_room { IsRoom room.new }
    ensures host { IsErrOf result SpaceFault.Host → ⊥ }
{
    let end = room.end();
    let lengths = lengths_of(alloc, &changes)?;
    overlay.reserve(changes.len())?;
    let cells = match room.place(alloc, &lengths, fresh) {
        Ok(cells) => cells,
        Err(fault) => return Err(fault_of(fault)),
    };
    match plan_changes(alloc, changes, &cells, unit, len) {
        Ok((placed, planned)) => Ok(Ready {
            placed,
            cells,
            planned,
        }),
        Err(_) => {
            room.take_back(&cells, end);
            Err(SpaceFault::Memory)
        }
    }
}

// The changes with these places, and the runs of their slots.
fn plan_changes(
    alloc: Global,
    changes: Vec<SlotChange>,
    cells: &[Cell],
    unit: u32,
    len: u64,
) -> Result<(Vec<PlacedChange>, Planned), AllocError>
    requires unit { 0 < unit }
    requires block { unit ≤ 127 }
    requires lengths { map (λ c. c.len) cells.now ≡ lengths_of changes.items }
    ensures changes { IfOk result (λ ready. map change_of ready.0.items ≡ changes.items) }
    ensures cells { IfOk result (λ ready. cells_of ready.0.items ≡ cells.now) }
    ensures planned { IfOk result (λ ready. IsPlanned unit len (slots_of ready.0.items) ready.1) }
{
    let placed = placed(alloc, changes, cells)?;
    let planned = plan(alloc, &placed, unit, len)?;
    Ok((placed, planned))
}

/// A fault of a room as one of slots.
pub fn fault_of(fault: RoomFault) -> SpaceFault
    ensures { result ≡ space_fault fault }
{
    match fault {
        RoomFault::Memory => SpaceFault::Memory,
        RoomFault::Full { need, len, limit } => SpaceFault::Full { need, len, limit },
    }
}

// The lengths of the slots that these changes bring.
fn lengths_of(alloc: Global, changes: &[SlotChange]) -> Result<Vec<u64>, AllocError>
    ensures { IfOk result (λ v. v.items ≡ lengths_of changes.now) }
{
    let mut lengths = Vec::with_capacity(alloc, changes.len())?;
    for change in changes {
        push_length(&mut lengths, change)?;
    }
    Ok(lengths)
}

fn push_length(lengths: &mut Vec<u64>, change: &SlotChange) -> Result<(), AllocError>
    ensures { OnOk result (lengths.new.items ≡ lengths.old.items ++ length_list change.now.bytes) }
{
    if let Some(bytes) = &change.bytes {
        lengths.push(bytes.as_slice().len() as u64)?;
    }
    Ok(())
}
