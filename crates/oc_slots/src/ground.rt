// The things that a file names are judged: its pages, their slots, and where an open log puts its cells.
ghost use Rattle.std.specs.Prelude.{◌≡◌, ◌≢◌, ◌≤◌, ◌+◌, ◌*◌, ℕ, true, false, List, [], ◌∷◌, ◌++◌, length, IsTrue, IfOk, IsErrOf, All, Any};
ghost use Rattle.oc_layout.specs.declared.cells.CellWrite.{CellWrite};
ghost use Rattle.oc_layout.specs.Headers.{is_in_range};
ghost use Rattle.oc_layout.specs.Layout.{unit_of, room_of, is_ascending, blocks};
ghost use Rattle.oc_pages.specs.Pages.{things_of};
ghost use Rattle.oc_room.specs.Rooms.{Tiles, IsRoom, owners};
ghost use Rattle.oc_slots.specs.declared.attach_fault.AttachFault.TheVariants as attach_fault;
ghost use Rattle.oc_slots.specs.Attaching.{SuitsTarget, HasThings, IsBehindRoot};
ghost use Rattle.oc_slots.specs.Forms.{LiesIn, IsTarget, header_cell, log_things, root_place};

use crate::AttachFault;
use crate::front::{Front, HEADER, root_place};
use oc_layout::{Cell, CellWrite, Header};
use oc_pages::Pages;
use oc_room::Room;
use std::alloc::{AllocError, Global};

const HEADER_CELL: Cell = Cell { at: 0, len: HEADER };

/// The room around the header, the pages and their slots in a file of so many bytes. A block of an open log is free in
/// it.
pub fn judge_things(
    alloc: Global,
    front: &Front,
    pages: &Pages,
    len: u64,
) -> Result<Room, AttachFault>
    requires in_range { is_in_range front.now.header ≡ true }
    requires room { blocks (unit_of front.now.header) len ≤ room_of front.now.header }
    requires long { 128 ≤ len }
    requires log { All (LiesIn (unit_of front.now.header) len) (log_things front.now.header front.now.writes.items) }
    requires suit { All (SuitsTarget front.now.header len) front.now.writes.items }
    requires ascends { IsTrue (is_ascending front.now.writes.items) }
    requires unit { pages.now.unit ≡ unit_of front.now.header }
    ensures ok { IfOk result (λ room. HasThings front.now.header front.now.writes.items pages.now.pages len) }
    ensures tiles { IfOk result (λ room. Tiles room (header_cell ∷ things_of pages.now.pages)) }
    ensures is_room { IfOk result (λ room. IsRoom room) }
    ensures unit { IfOk result (λ room. room.unit ≡ unit_of front.now.header) }
    ensures end { IfOk result (λ room. room.end ≡ blocks (unit_of front.now.header) len) }
    ensures limit { IfOk result (λ room. room.limit ≡ room_of front.now.header) }
    ensures not_container { IsErrOf result attach_fault.NotAContainer →
        HasThings front.now.header front.now.writes.items pages.now.pages len → ⊥ }
    ensures host { IsErrOf result attach_fault.Host → ⊥ }
{
    let things = things_inside(alloc, pages, front.header.unit(), len)?;
    if !are_targets(alloc, &front.header, pages, &front.writes)? {
        return Err(AttachFault::NotAContainer);
    }
    room_beside(alloc, &front.header, &front.writes, things, len)
}

// The places of the pages and their slots, where each has bytes that lie in a file of so many.
fn things_inside(
    alloc: Global,
    pages: &Pages,
    unit: u32,
    len: u64,
) -> Result<Vec<Cell>, AttachFault>
    ensures ok { IfOk result (λ things. All (LiesIn unit len) things.items) }
    ensures same { IfOk result (λ things. things.items ≡ things_of pages.now.pages) }
    ensures not_container { IsErrOf result attach_fault.NotAContainer → All (LiesIn unit len) (things_of pages.now.pages) → ⊥ }
    ensures host { IsErrOf result attach_fault.Host → ⊥ }
{
    let things = pages.used(alloc)?;
    if lie_in(&things, unit, len) {
        Ok(things)
    } else {
        Err(AttachFault::NotAContainer)
    }
}

fn lie_in(things: &[Cell], unit: u32, len: u64) -> bool
    ensures yes { IsTrue result → All (LiesIn unit len) things.now }
    ensures no { result ≡ false → Any (λ c. ¬ LiesIn unit len c) things.now }
{
    for thing in things {
        if !lies_in(*thing, unit, len) {
            return false;
        }
    }
    true
}

fn lies_in(thing: Cell, unit: u32, len: u64) -> bool
    ensures yes { IsTrue result → LiesIn unit len thing }
    ensures no { result ≡ false → ¬ LiesIn unit len thing }
{
    thing.len >= 1 && thing.at as u64 * unit as u64 + thing.len as u64 <= len
}

// Whether each write is put at the root cell or at a pointer's.
fn are_targets(
    alloc: Global,
    header: &Header,
    pages: &Pages,
    writes: &[CellWrite],
) -> Result<bool, AllocError>
    requires unit { pages.now.unit ≡ unit_of header.now }
    ensures yes { IfOk result (λ are. IsTrue are → All (λ w. IsTarget header.now pages.now.pages w.target) writes.now) }
    ensures no { IfOk result (λ are. are ≡ false → (len : ℕ) → All (SuitsTarget header.now len) writes.now →
        IsTrue (is_ascending writes.now) → All (λ w. IsTarget header.now pages.now.pages w.target) writes.now → ⊥) }
{
    let are = pages.are_targets(alloc, behind_root(header, writes))?;
    Ok(are)
}

// The writes without the first one, if that is put at the root cell.
fn behind_root<'a>(header: &Header, writes: &'a [CellWrite]) -> &'a [CellWrite]
    ensures { IsBehindRoot header.now writes.now result.now }
{
    match writes {
        [first, rest @ ..] if first.target == root_place(header) => rest,
        _ => writes,
    }
}

// The room around the header and these things, if none of their blocks and those of an open log is in two of them.
fn room_beside(
    alloc: Global,
    header: &Header,
    writes: &[CellWrite],
    mut things: Vec<Cell>,
    len: u64,
) -> Result<Room, AttachFault>
    requires in_range { is_in_range header.now ≡ true }
    requires room { blocks (unit_of header.now) len ≤ room_of header.now }
    requires long { 128 ≤ len }
    requires log { All (LiesIn (unit_of header.now) len) (log_things header.now writes.now) }
    requires lie { All (LiesIn (unit_of header.now) len) things.items }
    ensures apart { IfOk result (λ room. (k : ℕ) →
        owners (unit_of header.now) (header_cell ∷ log_things header.now writes.now ++ things.items) k ≤ 1) }
    ensures tiles { IfOk result (λ room. Tiles room (header_cell ∷ things.items)) }
    ensures is_room { IfOk result (λ room. IsRoom room) }
    ensures unit { IfOk result (λ room. room.unit ≡ unit_of header.now) }
    ensures end { IfOk result (λ room. room.end ≡ blocks (unit_of header.now) len) }
    ensures limit { IfOk result (λ room. room.limit ≡ room_of header.now) }
    ensures not_container { IsErrOf result attach_fault.NotAContainer → ((k : ℕ) →
        owners (unit_of header.now) (header_cell ∷ log_things header.now writes.now ++ things.items) k ≤ 1) → ⊥ }
    ensures host { IsErrOf result attach_fault.Host → ⊥ }
{
    things.push(HEADER_CELL)?;
    if writes.is_empty() {
        return room_around(alloc, header, things, len);
    }
    things.push(header.log)?;
    let mut room = room_around(alloc, header, things, len)?;
    room.reserve(1)?;
    room.release(header.log);
    Ok(room)
}

// The room around these things, if no block is in two of them.
fn room_around(
    alloc: Global,
    header: &Header,
    things: Vec<Cell>,
    len: u64,
) -> Result<Room, AttachFault>
    requires in_range { is_in_range header.now ≡ true }
    requires room { blocks (unit_of header.now) len ≤ room_of header.now }
    requires some { All (λ thing. 1 ≤ thing.len) things.items }
    ensures tiles { IfOk result (λ room. Tiles room things.items) }
    ensures is_room { IfOk result (λ room. IsRoom room) }
    ensures unit { IfOk result (λ room. room.unit ≡ unit_of header.now) }
    ensures end { IfOk result (λ room. room.end ≡ blocks (unit_of header.now) len) }
    ensures limit { IfOk result (λ room. room.limit ≡ room_of header.now) }
    ensures not_container { IsErrOf result attach_fault.NotAContainer → All (LiesIn (unit_of header.now) len) things.items →
        ((k : ℕ) → owners (unit_of header.now) things.items k ≤ 1) → ⊥ }
    ensures host { IsErrOf result attach_fault.Host → ⊥ }
{
    let end = len.div_ceil(header.unit() as u64) as u32;
    match Room::around(alloc, header.unit(), end, header.room(), things)? {
        Some(room) => Ok(room),
        None => Err(AttachFault::NotAContainer),
    }
}
