// The slots that were fetched last.
ghost use Rattle.std.specs.Prelude.{◌≡◌, [], ◌∷◌, take, option_map, IfOk, OnErr, IfSome};
ghost use Rattle.std.specs.Map.{lookup};
ghost use Rattle.oc_slots.specs.Cached.{is_cell, without, with_first};

use crate::Bytes;
use lru::LruCache;
use oc_layout::Cell;
use std::alloc::{AllocError, Global};
use std::marker::Model;
use std::num::NonZeroUsize;

const MOST: usize = 256;

/// The bytes of at most 256 slots by their places, seen as pairs of both, the most recently fetched first.
#[derive(Drop)]
pub struct SlotCache {
    slots: LruCache<Cell, Bytes>,
}

impl Model for SlotCache {
    ghost use Rattle.oc_slots.specs.Cached.{Cached, IsCache};

    ghost Value = { Cached };

    ghost view = { λ c. c.slots.entries };

    ghost invariant = { λ c. IsCache c.slots };
}

impl SlotCache {
    ghost use Rattle.std.specs.Prelude.{OnOk};

    /// A cache that keeps nothing yet.
    pub fn new(alloc: Global) -> Result<SlotCache, AllocError>
        ensures { IfOk result (λ cache. cache ≡ []) }
    {
        let Some(most) = NonZeroUsize::new(MOST) else {
            unreachable!();
        };
        let slots = LruCache::sparse(alloc, most)?;
        Ok(SlotCache { slots })
    }

    /// A copy of the bytes of a slot, if it is kept. It comes first then.
    pub fn get(&mut self, alloc: Global, cell: Cell) -> Result<Option<Vec<u8>>, AllocError>
        ensures value { IfOk result (λ found. option_map (λ v. v.items) found ≡ lookup (is_cell cell) self.old) }
        ensures first { IfOk result (λ found. IfSome found (λ v. self.new ≡ with_first cell v.items self.old)) }
        ensures none { IfOk result (λ found. found ≡ None → self.new ≡ self.old) }
        ensures memory { OnErr result (self.new ≡ self.old) }
    {
        let Some(kept) = self.slots.peek(&cell) else {
            return Ok(None);
        };
        let bytes = copy_of(alloc, kept.as_slice())?;
        self.slots.promote(&cell);
        Ok(Some(bytes))
    }

    /// Keeps the bytes of a slot, which comes first then.
    pub fn keep(&mut self, cell: Cell, bytes: Bytes) -> Result<(), AllocError>
        ensures first { OnOk result (self.new ≡ with_first cell bytes self.old) }
        ensures memory { OnErr result (self.new ≡ self.old) }
    {
        self.slots.put(cell, bytes)?;
        Ok(())
    }

    /// Forgets the slot at this place, if it is kept. It takes no memory.
    pub fn forget(&mut self, cell: Cell)
        ensures { self.new ≡ without (cell ∷ []) self.old }
    {
        self.slots.pop(&cell);
    }

    /// Forgets the slots at these places. It takes no memory.
    pub fn forget_all(&mut self, cells: &[Cell])
        ensures { self.new ≡ without cells.now self.old }
    {
        for cell in cells {
            self.forget(*cell);
        }
    }
}

/// These bytes once more.
pub fn copy_of(alloc: Global, bytes: &[u8]) -> Result<Vec<u8>, AllocError>
    ensures { IfOk result (λ v. v.items ≡ bytes.now) }
{
    let mut copy = Vec::with_capacity(alloc, bytes.len())?;
    copy.extend_from_slice(bytes)?;
    Ok(copy)
}
