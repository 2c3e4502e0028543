ghost use Rattle.std.specs.Prelude.{◌≡◌, ◌<◌, ◌≤◌, ◌+◌, ℕ, max, List, [], ◌∷◌, ◌++◌, is_some, length, map, true, Some, None, All, IfSome, IfNone, IfOk, OnOk, OnErr, IsErrOf, if◌then◌else◌, ◌&&◌, nat_le, nat_lt};
ghost use Rattle.oc_layout.specs.Layout.{blocks};
ghost use Rattle.oc_free.specs.FreeParts.{all_blocks, free_at};
ghost use Rattle.oc_room.specs.Rooms.{owns, owners, open_at, Space, unplaced, place_next, placed, finds_room, lacking, IsRoom, IsSame, LiesIn, LiesApart, GoesBack, AreInOrder};
ghost use Rattle.oc_room.specs.declared.fault.RoomFault.TheVariants as RoomFault;

use crate::RoomFault;
use oc_free::FreeSpace;
use oc_layout::Cell;
use std::alloc::{AllocError, Global};
use std::marker::Model;

// The most bytes that a cell can name.
const MOST_BYTES: u64 = 4_294_967_295;

/// The room of a file: its free parts, its end and its limit.
///
/// Addresses and the room's numbers count blocks, the lengths of things bytes.
#[derive(Debug, Drop)]
pub struct Room {
    free: FreeSpace,
    unit: u32,
    end: u32,
    limit: u32,
}

impl Model for Room {
    ghost use Rattle.oc_room.specs.Rooms.{Space, IsRoom};

    ghost Value = { Space };

    ghost view = { λ r. record { unit = r.unit; parts = r.free.parts; end = r.end; limit = r.limit; spare = r.free.spare } };

    ghost invariant = { λ r. IsRoom (record { unit = r.unit; parts = r.free.parts; end = r.end; limit = r.limit; spare = r.free.spare }) };
}

impl Room {
    /// The room of a file of so many blocks, all of which are taken.
    pub fn new(alloc: Global, unit: u32, end: u32, limit: u32) -> Room
        requires unit { 0 < unit }
        requires end { end ≤ limit }
        requires limit { limit ≤ 2147483647 }
        ensures unit { result.unit ≡ unit }
        ensures parts { result.parts ≡ [] }
        ensures end { result.end ≡ end }
        ensures limit { result.limit ≡ limit }
        ensures is_room { IsRoom result }
    {
        Room {
            free: FreeSpace::new(alloc),
            unit,
            end,
            limit,
        }
    }

    /// The blocks of the file.
    pub fn end(&self) -> u32
        ensures value { result ≡ self.now.end }
        ensures is_room { IsRoom self.now }
    {
        self.end
    }

    /// The most blocks that the file may have.
    pub fn limit(&self) -> u32
        ensures value { result ≡ self.now.limit }
        ensures is_room { IsRoom self.now }
    {
        self.limit
    }

    /// The blocks of all free parts.
    pub fn total(&self) -> u64
        ensures { result ≡ all_blocks self.now.parts }
    {
        self.free.total()
    }

    /// Makes room for so many things to be given back.
    pub fn reserve(&mut self, n: u32) -> Result<(), AllocError>
        ensures room { OnOk result (n ≤ self.new.spare) }
        ensures same { IsSame self.old self.new }
        ensures spare { self.old.spare ≤ self.new.spare }
        ensures is_room { IsRoom self.new }
    {
        self.free.reserve(n)?;
        Ok(())
    }

    /// Makes the blocks of a thing free. It takes no memory.
    pub fn release(&mut self, thing: Cell)
        requires spare { 1 ≤ self.old.spare }
        requires some { 1 ≤ thing.len }
        requires within { thing.at + blocks self.old.unit thing.len ≤ self.old.end }
        requires taken { (k : ℕ) → owns self.old.unit k thing ≡ true → free_at self.old.parts k ≡ 0 }
        ensures parts { (k : ℕ) → free_at self.new.parts k ≡ free_at self.old.parts k + (if owns self.old.unit k thing then 1 else 0) }
        ensures unit { self.new.unit ≡ self.old.unit }
        ensures end { self.new.end ≡ self.old.end }
        ensures limit { self.new.limit ≡ self.old.limit }
        ensures spare { self.old.spare ≤ self.new.spare + 1 }
        ensures is_room { IsRoom self.new }
    {
        let blocks = self.blocks_of(thing.len);
        self.free.release(thing.at, blocks);
    }

    /// The blocks that so many bytes own.
    pub fn blocks_of(&self, len: u32) -> u32
        ensures { result ≡ blocks self.now.unit len }
    {
        let unit = self.unit as u64;
        ((len as u64 + (unit - 1)) / unit) as u32
    }

    /// Places things of these lengths one after another: each in the front of the part that fits it best, and where
    /// no part holds it at the end of the file.
    ///
    /// `Full` comes exactly where one of them finds no room, and tells the first. After a fault everything is as
    /// before, and nothing is placed. So many others can be given back without memory before and after, and
    /// after `Ok` all that was placed as well.
    pub fn place(
        &mut self,
        alloc: Global,
        lengths: &[u64],
        others: u32,
    ) -> Result<Vec<Cell>, RoomFault>
        requires some { All (λ len. 1 ≤ len) lengths.now }
        requires others { others ≤ self.old.spare }
        requires few { others ≤ self.old.limit }
        ensures placed { IfOk result (λ cells. placed self.old.unit (unplaced self.old) lengths.now
            ≡ record { cells = cells.items; parts = self.new.parts; end = self.new.end }) }
        ensures open { IfOk result (λ cells. (k : ℕ) →
            open_at self.old k ≡ open_at self.new k + owners self.old.unit cells.items k) }
        ensures room { OnOk result (lacking self.old.unit self.old.limit (unplaced self.old) lengths.now ≡ None) }
        ensures full { (need len limit : ℕ) → IsErrOf result (RoomFault.Full need len limit) →
            (limit ≡ self.old.limit)
            × (lacking self.old.unit self.old.limit (unplaced self.old) lengths.now ≡ Some (record { need = need; length = len })) }
        ensures fault { OnErr result (IsSame self.old self.new) }
        ensures unit { self.new.unit ≡ self.old.unit }
        ensures limit { self.new.limit ≡ self.old.limit }
        ensures others { others ≤ self.new.spare }
        ensures spare { IfOk result (λ cells. others + length cells.items ≤ self.new.spare) }
        ensures lengths { IfOk result (λ cells. map (λ cell. cell.len) cells.items ≡ lengths.now) }
        ensures back { IfOk result (λ cells. GoesBack self.new cells.items self.old.end) }
        ensures order { IfOk result (λ cells. AreInOrder self.old.unit self.old.end cells.items self.new.end) }
        ensures was_room { IsRoom self.old }
        ensures is_room { IsRoom self.new }
    {
        let most = lengths.len().min(self.limit as usize) as u32;
        self.reserve(others + most)?;
        let mut cells = Vec::with_capacity(alloc, lengths.len())?;
        let end = self.end;
        for len in lengths {
            let Some(cell) = self.place_one(*len) else {
                let full = self.full(*len);
                self.take_back(&cells, end);
                return Err(full);
            };
            let _room = cells.push(cell);
        }
        Ok(cells)
    }

    /// Makes the blocks of these things free, and ends the file here again. It takes no memory.
    ///
    /// What `place` has given can be taken back: then the room is as it was before.
    pub fn take_back(&mut self, cells: &[Cell], end: u32)
        requires { GoesBack self.old cells.now end }
        ensures below { (k : ℕ) → k < end → free_at self.new.parts k ≡ free_at self.old.parts k + owners self.old.unit cells.now k }
        ensures behind { (k : ℕ) → end ≤ k → free_at self.new.parts k ≡ 0 }
        ensures end { self.new.end ≡ end }
        ensures unit { self.new.unit ≡ self.old.unit }
        ensures limit { self.new.limit ≡ self.old.limit }
        ensures spare { self.old.spare ≤ self.new.spare + length cells.now }
        ensures is_room { IsRoom self.new }
        ensures same { (before : Space) → IsRoom before → before.unit ≡ self.old.unit → before.limit ≡ self.old.limit → before.end ≡ end →
            ((k : ℕ) → open_at before k ≡ open_at self.old k + owners before.unit cells.now k) → IsSame before self.new }
    {
        for cell in cells {
            if cell.at < end {
                self.release(*cell);
            }
        }
        self.end = end;
    }

    // Makes the blocks from the end of the file up to this one free, and ends there.
    pub(crate) fn free_to(&mut self, at: u32) -> Result<(), AllocError>
        requires begins { self.old.end ≤ at }
        requires limit { at ≤ self.old.limit }
        ensures parts { OnOk result ((k : ℕ) →
            free_at self.new.parts k ≡ free_at self.old.parts k + (if nat_le self.old.end k && nat_lt k at then 1 else 0)) }
        ensures end { OnOk result (self.new.end ≡ at) }
        ensures unit { self.new.unit ≡ self.old.unit }
        ensures limit { self.new.limit ≡ self.old.limit }
    {
        self.free.reserve(1)?;
        if self.end < at {
            self.free.release(self.end, at - self.end);
        }
        self.end = at;
        Ok(())
    }

    // Takes the blocks from the end of the file up to this one, and ends there.
    pub(crate) fn grow_to(&mut self, at: u32)
        requires begins { self.old.end ≤ at }
        requires limit { at ≤ self.old.limit }
        ensures parts { self.new.parts ≡ self.old.parts }
        ensures end { self.new.end ≡ at }
        ensures unit { self.new.unit ≡ self.old.unit }
        ensures limit { self.new.limit ≡ self.old.limit }
    {
        self.end = at;
    }

    // The fault that so many bytes find no room.
    fn full(&self, len: u64) -> RoomFault
        ensures { result ≡ RoomFault.Full (blocks self.now.unit len) self.now.end self.now.limit }
    {
        RoomFault::Full {
            need: len.div_ceil(self.unit as u64),
            len: self.end,
            limit: self.limit,
        }
    }

    // Places so many bytes, if they find room.
    fn place_one(&mut self, len: u64) -> Option<Cell>
        requires { 1 ≤ len }
        ensures room { (cells : List Cell) → finds_room self.old.unit self.old.limit (record { cells = cells; parts = self.old.parts; end = self.old.end }) len ≡ is_some result }
        ensures len { IfSome result (λ cell. cell.len ≡ len) }
        ensures next { IfSome result (λ cell. (cells : List Cell) →
            place_next self.old.unit (record { cells = cells; parts = self.old.parts; end = self.old.end }) len
            ≡ record { cells = cells ++ cell ∷ []; parts = self.new.parts; end = self.new.end }) }
        ensures open { IfSome result (λ cell. (k : ℕ) →
            open_at self.old k ≡ open_at self.new k + (if owns self.old.unit k cell then 1 else 0)) }
        ensures lies { IfSome result (λ cell. LiesIn self.old cell) }
        ensures begins { IfSome result (λ cell. cell.at ≤ self.old.end) }
        ensures grows { IfSome result (λ cell. self.new.end ≡ max self.old.end (cell.at + blocks self.old.unit cell.len)) }
        ensures fewer { (k : ℕ) → free_at self.new.parts k ≤ free_at self.old.parts k }
        ensures end { self.old.end ≤ self.new.end }
        ensures within { IfSome result (λ _. self.new.end ≤ self.new.limit) }
        ensures same { IfNone result (self.new ≡ self.old) }
        ensures unit { self.new.unit ≡ self.old.unit }
        ensures limit { self.new.limit ≡ self.old.limit }
        ensures spare { self.old.spare ≤ self.new.spare }
        ensures is_room { IfSome result (λ _. IsRoom self.new) }
    {
        if len > MOST_BYTES {
            return None;
        }
        let len = len as u32;
        let need = self.blocks_of(len);
        if let Some(at) = self.free.take(need) {
            return Some(Cell { at, len });
        }
        self.append(len, need)
    }

    // Places so many bytes at the end of the file, if it may grow by their blocks.
    fn append(&mut self, len: u32, need: u32) -> Option<Cell>
        requires need { need ≡ blocks self.old.unit len }
        ensures cell { IfSome result (λ cell. cell ≡ record { at = self.old.end; len = len }) }
        ensures room { is_some result ≡ nat_le (self.old.end + need) self.old.limit }
        ensures parts { self.new.parts ≡ self.old.parts }
        ensures end { IfSome result (λ _. self.new.end ≡ self.old.end + need) }
        ensures unit { self.new.unit ≡ self.old.unit }
        ensures limit { self.new.limit ≡ self.old.limit }
        ensures spare { self.old.spare ≡ self.new.spare }
        ensures same { IfNone result (self.new ≡ self.old) }
        ensures is_room { IfSome result (λ _. IsRoom self.new) }
    {
        if need > self.limit - self.end {
            return None;
        }
        let at = self.end;
        self.end += need;
        Some(Cell { at, len })
    }
}
