// Slots with the places that they were given.
ghost use Rattle.std.specs.Prelude.{◌≡◌, ◌≤◌, length, map, option_map, ◌++◌, take, IfOk};
ghost use Rattle.oc_slots.specs.Slots.{cells_of, lengths_of, length_list, slot_list, change_of};
ghost use Rattle.oc_slots.specs.Noting.{place_of};

use crate::{Bytes, SlotChange, SlotId};
use oc_layout::Cell;
use std::alloc::{AllocError, Global};

/// A slot: its place and its bytes.
#[derive(Debug, Drop)]
pub struct Slot {
    pub cell: Cell,
    pub bytes: Bytes,
}

/// What becomes of a slot: its new place and bytes, or that it is gone.
#[derive(Debug, Drop)]
pub struct PlacedChange {
    pub id: SlotId,
    pub slot: Option<Slot>,
}

impl PlacedChange {
    /// Where the slot is, if it isn't gone.
    pub fn place(&self) -> Option<Cell>
        ensures { result ≡ place_of self.now }
    {
        match &self.slot {
            Some(slot) => Some(slot.cell),
            None => None,
        }
    }
}

/// These changes, with the cells as the places of those that have bytes, in their order.
pub fn placed(
    alloc: Global,
    changes: Vec<SlotChange>,
    cells: &[Cell],
) -> Result<Vec<PlacedChange>, AllocError>
    requires { length (lengths_of changes.items) ≤ length cells.now }
    ensures changes { IfOk result (λ v. map change_of v.items ≡ changes.items) }
    ensures cells { IfOk result (λ v. cells_of v.items ≡ take (length (cells_of v.items)) cells.now) }
{
    let mut placed = Vec::with_capacity(alloc, changes.len())?;
    let mut rest = cells;
    for change in changes {
        let SlotChange { id, bytes } = change;
        let (slot, others) = with_place(bytes, rest);
        placed.push(PlacedChange { id, slot })?;
        rest = others;
    }
    Ok(placed)
}

// The bytes, if there are any, with the first of the cells, and the cells that are left.
fn with_place(bytes: Option<Bytes>, cells: &[Cell]) -> (Option<Slot>, &[Cell])
    requires { length (length_list bytes) ≤ length cells.now }
    ensures bytes { option_map (λ s. s.bytes) result.0 ≡ bytes }
    ensures cells { map (λ s. s.cell) (slot_list result.0) ++ result.1.now ≡ cells.now }
{
    match bytes {
        Some(bytes) => {
            let (first, rest) = cells.split_at(1);
            let cell = first[0];
            (Some(Slot { cell, bytes }), rest)
        }
        None => (None, cells),
    }
}
