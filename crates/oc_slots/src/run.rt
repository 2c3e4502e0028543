// The bytes of slots, those that touch in one run.
ghost use Rattle.std.specs.Prelude.{◌≡◌, ◌≤◌, ◌<◌, ◌^◌, ◌+◌, ◌-◌, ◌*◌, ℕ, max, [], ◌∷◌, ◌++◌, ◌==◌, List, length, replicate, None, Option, OnOk, IfOk, All};
ghost use Rattle.oc_layout.specs.Layout.{blocks};
ghost use Rattle.oc_layout.specs.declared.cells.Cell.{Cell};
ghost use Rattle.oc_slots.specs.declared.placed.Slot.{Slot};
ghost use Rattle.oc_slots.specs.Slots.{slot_list, slots_of};
ghost use Rattle.oc_slots.specs.Pieces.{Piece, as_pieces, pieces_of, piece_of, end_of, from, AreJoined, EndsAt, IsPlanned};

use crate::placed::{PlacedChange, Slot};
use oc_layout::Cell;
use std::alloc::{AllocError, Global};

/// Bytes to be written from `at` on.
#[derive(Debug, Drop)]
pub struct Run {
    pub at: u64,
    pub bytes: Vec<u8>,
}

/// The runs in which these slots are written to a file of `len` bytes, those that touch in one. Zeros fill the rest of
/// the block before a slot where the run goes on from there, and what lies between the end of the file and the slot.
pub fn plan(
    alloc: Global,
    placed: &[PlacedChange],
    unit: u32,
    len: u64,
) -> Result<Planned, AllocError>
    requires unit { 0 < unit }
    requires block { unit ≤ 127 }
    ensures { IfOk result (IsPlanned unit len (slots_of placed.now)) }
{
    let mut planned = Planned {
        runs: Vec::new(alloc),
        end: len,
        before: None,
    };
    for change in placed {
        planned.add_change(alloc, unit, change)?;
    }
    Ok(planned)
}

/// The runs of slots so far, the length of the file with them, and the cell of the last slot.
#[derive(Debug, Drop)]
pub struct Planned {
    pub runs: Vec<Run>,
    pub end: u64,
    pub before: Option<Cell>,
}

impl Planned {
    fn add_change(
        &mut self,
        alloc: Global,
        unit: u32,
        change: &PlacedChange,
    ) -> Result<(), AllocError>
        requires unit { 0 < unit }
        requires block { unit ≤ 127 }
        ensures { OnOk result ((len : ℕ) (done : List Slot) →
            IsPlanned unit len done self.old → IsPlanned unit len (done ++ slot_list change.now.slot) self.new) }
    {
        match &change.slot {
            Some(slot) => self.add(alloc, unit, slot),
            None => Ok(()),
        }
    }

    fn add(&mut self, alloc: Global, unit: u32, slot: &Slot) -> Result<(), AllocError>
        requires unit { 0 < unit }
        requires block { unit ≤ 127 }
        ensures { OnOk result ((len : ℕ) (done : List Slot) →
            IsPlanned unit len done self.old → IsPlanned unit len (done ++ slot.now ∷ []) self.new) }
    {
        let start = slot.cell.at as u64 * unit as u64;
        let bytes = slot.bytes.as_slice();
        let at = from(unit, self.end, self.before, slot.cell);
        append(alloc, &mut self.runs, at, start - at, bytes)?;
        self.end = self.end.max(start + bytes.len() as u64);
        self.before = Some(slot.cell);
        Ok(())
    }
}

/// The first byte that is written for a slot at this cell.
pub fn from(unit: u32, end: u64, before: Option<Cell>, cell: Cell) -> u64
    requires unit { 0 < unit }
    requires block { unit ≤ 127 }
    ensures is { result ≡ from unit end before cell }
    ensures begins { result ≤ cell.at * unit }
{
    let start = cell.at as u64 * unit as u64;
    if end < start {
        return end;
    }
    match before {
        Some(before) if touch(unit, before, cell) => {
            before.at as u64 * unit as u64 + before.len as u64
        }
        _ => start,
    }
}

// Adds bytes with zeros before them: to the last run where they go on from there, and else as a run of their own.
fn append(
    alloc: Global,
    runs: &mut Vec<Run>,
    at: u64,
    zeros: u64,
    bytes: &[u8],
) -> Result<(), AllocError>
    requires { zeros < 2 ^ 62 }
    ensures { OnOk result ((pieces : List Piece) → AreJoined pieces (as_pieces runs.old.items) →
        AreJoined (pieces ++ record { at = at; bytes = replicate zeros 0 ++ bytes.now } ∷ []) (as_pieces runs.new.items)) }
{
    let mut run = run_to(alloc, runs, at);
    extend(&mut run.bytes, zeros, bytes)?;
    runs.push(run)?;
    Ok(())
}

// The last run, taken out, where it ends at this byte, and else a new one that begins there.
fn run_to(alloc: Global, runs: &mut Vec<Run>, at: u64) -> Run
    ensures { EndsAt at result runs.old.items runs.new.items }
{
    if let Some(run) = runs.pop() {
        if at.checked_sub(run.at) == Some(run.bytes.len() as u64) {
            return run;
        }
        let _room = runs.push(run);
    }
    Run {
        at,
        bytes: Vec::new(alloc),
    }
}

fn extend(run: &mut Vec<u8>, zeros: u64, bytes: &[u8]) -> Result<(), AllocError>
    requires { zeros < 2 ^ 62 }
    ensures { OnOk result (run.new.items ≡ run.old.items ++ (replicate zeros 0 ++ bytes.now)) }
{
    run.resize(run.len() + zeros as usize, 0)?;
    run.extend_from_slice(bytes)?;
    Ok(())
}

// Whether a slot at the second cell begins in the block behind the first.
fn touch(unit: u32, before: Cell, cell: Cell) -> bool
    requires { 0 < unit }
    ensures { result ≡ (before.at + blocks unit before.len == cell.at) }
{
    let unit = unit as u64;
    before.at as u64 + (before.len as u64 + (unit - 1)) / unit == cell.at as u64
}
