// The bytes of a slot.
ghost use Rattle.std.specs.Prelude.{◌≡◌, ◌≤◌, ◌+◌, length, take, drop, IsTrue, IsSome, IfOk, OnErr, IsErrOf, unwrap_or};
ghost use Rattle.std.specs.Map.{lookup};
ghost use Rattle.oc_host.specs.Counts.{Rose};
ghost use Rattle.oc_host.specs.Disk.{Looks};
ghost use Rattle.oc_slots.specs.Cached.{is_cell, with_first};

use crate::cache::{SlotCache, copy_of};
use crate::{Bytes, Side, SlotId, SlotStore};
use oc_host::{Host, IoFault};
use oc_layout::Cell;
use std::alloc::Global;

impl SlotStore {
    ghost use Rattle.std.specs.Prelude.{is_some, option_map, Contains, IfSome, OnOk, None};
    ghost use Rattle.oc_slots.specs.Cached.{first_of};
    ghost use Rattle.oc_slots.specs.Stores.{Agrees, place_on, map_on, length_on, kept};

    /// The bytes of a slot of this side, or `None` exactly where the side has no such slot.
    ///
    /// The bytes of the 256 slots that were fetched last are kept, and such a slot is not read again. After a fault the
    /// store is as before.
    pub fn fetch<H: Host>(
        &mut self,
        host: &mut H,
        side: Side,
        id: SlotId,
    ) -> Result<Option<Vec<u8>>, IoFault>
        requires agrees { IsTrue H.tells → Agrees self.old (H.disk host.old) }
        ensures value { IfOk result (λ found. IsTrue H.tells →
            option_map (λ v. v.items) found ≡ map_on side self.old (H.disk host.old) id) }
        ensures none { IfOk result (λ found. is_some found ≡ is_some (place_on side self.old id)) }
        ensures agrees { IsTrue H.tells → Agrees self.new (H.disk host.new) }
        ensures same { self.new ≡ record self.old { cached = self.new.cached } }

        // What is kept: the slot comes first, and without an answer all is as it was.
        ensures first { OnOk result (IfSome (place_on side self.old id) (λ c. kept self.new ≡ first_of c (kept self.old))) }
        ensures absent { place_on side self.old id ≡ None → (self.new ≡ self.old) × (host.new ≡ host.old) }
        ensures fault { OnErr result (self.new ≡ self.old) }
        ensures unread { IfSome (place_on side self.old id) (λ c. Contains (kept self.old) c → host.new ≡ host.old) }

        ensures looks { IsTrue H.tells → Looks (H.disk host.old) (H.disk host.new) }
        ensures later { H.faults host.old ≤ H.faults host.new }
        ensures cause { IsErrOf result IoFault.Host → Rose (H.faults host.old) (H.faults host.new) }
        ensures taken { H.taken host.new ≤ H.taken host.old + length_on side self.old id }
    {
        match self.place(side, id) {
            Some(cell) => {
                let at = cell.at as u64 * self.header.unit() as u64;
                let bytes = bytes_at(self.alloc, &mut self.cache, host, at, cell)?;
                Ok(Some(bytes))
            }
            None => Ok(None),
        }
    }

    /// The bytes of a slot of this side, or `None` exactly where the side has no such slot. They are read from the file
    /// and not kept: for slots that are read once.
    pub fn read<H: Host>(
        &self,
        host: &mut H,
        side: Side,
        id: SlotId,
    ) -> Result<Option<Vec<u8>>, IoFault>
        requires agrees { IsTrue H.tells → Agrees self.now (H.disk host.old) }
        ensures value { IfOk result (λ found. IsTrue H.tells →
            option_map (λ v. v.items) found ≡ map_on side self.now (H.disk host.old) id) }
        ensures none { IfOk result (λ found. is_some found ≡ is_some (place_on side self.now id)) }
        ensures agrees { IsTrue H.tells → Agrees self.now (H.disk host.new) }
        ensures absent { place_on side self.now id ≡ None → host.new ≡ host.old }
        ensures looks { IsTrue H.tells → Looks (H.disk host.old) (H.disk host.new) }
        ensures later { H.faults host.old ≤ H.faults host.new }
        ensures cause { IsErrOf result IoFault.Host → Rose (H.faults host.old) (H.faults host.new) }
        ensures taken { H.taken host.new ≤ H.taken host.old + length_on side self.now id }
    {
        match self.place(side, id) {
            Some(cell) => {
                let start = cell.at as u64 * self.header.unit() as u64;
                let bytes = read_bytes(self.alloc, host, start, cell.len)?;
                Ok(Some(bytes))
            }
            None => Ok(None),
        }
    }

    // Where this side has a slot.
    fn place(&self, side: Side, id: SlotId) -> Option<Cell>
        ensures { result ≡ place_on side self.now id }
    {
        match side {
            Side::Committed => self.pages.pointer(id.space, id.number),
            Side::Session => self.session_place(id),
        }
    }
}

// The bytes of the slot at this cell, which begins at byte `at`: those that are kept, and else those of the file, which
// are kept then.
fn bytes_at<H: Host>(
    alloc: Global,
    cache: &mut SlotCache,
    host: &mut H,
    at: u64,
    cell: Cell,
) -> Result<Vec<u8>, IoFault>
    requires { IsTrue H.tells → at + cell.len ≤ length (H.disk host.old).bytes }
    ensures value { IfOk result (λ v. IsTrue H.tells →
        v.items ≡ unwrap_or (lookup (is_cell cell) cache.old) (take cell.len (drop at (H.disk host.old).bytes))) }
    ensures first { IfOk result (λ v. cache.new ≡ with_first cell v.items cache.old) }
    ensures fault { OnErr result (cache.new ≡ cache.old) }
    ensures unread { IsSome (lookup (is_cell cell) cache.old) → host.new ≡ host.old }
    ensures looks { IsTrue H.tells → Looks (H.disk host.old) (H.disk host.new) }
    ensures later { H.faults host.old ≤ H.faults host.new }
    ensures cause { IsErrOf result IoFault.Host → Rose (H.faults host.old) (H.faults host.new) }
    ensures taken { H.taken host.new ≤ H.taken host.old + cell.len }
{
    match cache.get(alloc, cell)? {
        Some(bytes) => Ok(bytes),
        None => read_and_keep(alloc, cache, host, at, cell),
    }
}

fn read_and_keep<H: Host>(
    alloc: Global,
    cache: &mut SlotCache,
    host: &mut H,
    at: u64,
    cell: Cell,
) -> Result<Vec<u8>, IoFault>
    requires { IsTrue H.tells → at + cell.len ≤ length (H.disk host.old).bytes }
    ensures ok { IfOk result (λ v. IsTrue H.tells → v.items ≡ take cell.len (drop at (H.disk host.old).bytes)) }
    ensures first { IfOk result (λ v. cache.new ≡ with_first cell v.items cache.old) }
    ensures fault { OnErr result (cache.new ≡ cache.old) }
    ensures looks { IsTrue H.tells → Looks (H.disk host.old) (H.disk host.new) }
    ensures later { H.faults host.old ≤ H.faults host.new }
    ensures cause { IsErrOf result IoFault.Host → Rose (H.faults host.old) (H.faults host.new) }
    ensures taken { H.taken host.new ≤ H.taken host.old + cell.len }
{
    let bytes = read_bytes(alloc, host, at, cell.len)?;
    let copy = copy_of(alloc, &bytes)?;
    cache.keep(cell, Bytes::of(copy))?;
    Ok(bytes)
}

fn read_bytes<H: Host>(alloc: Global, host: &mut H, at: u64, len: u32) -> Result<Vec<u8>, IoFault>
    requires { IsTrue H.tells → at + len ≤ length (H.disk host.old).bytes }
    ensures ok { IfOk result (λ v. IsTrue H.tells → v.items ≡ take len (drop at (H.disk host.old).bytes)) }
    ensures looks { IsTrue H.tells → Looks (H.disk host.old) (H.disk host.new) }
    ensures later { H.faults host.old ≤ H.faults host.new }
    ensures cause { IsErrOf result IoFault.Host → Rose (H.faults host.old) (H.faults host.new) }
    ensures taken { H.taken host.new ≤ H.taken host.old + len }
{
    let mut bytes = vec![in alloc; 0; len as usize]?;
    host.read(at, &mut bytes)?;
    Ok(bytes)
}
