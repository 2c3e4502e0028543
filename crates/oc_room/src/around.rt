// The room that things leave in a file.
ghost use Rattle.std.specs.Prelude.{◌≡◌, ◌⊎◌, ◌≤◌, ◌<◌, ◌+◌, ◌&&◌, ℕ, All, IfOk, IfSome, OnOk, Ok, None, true, false, nat_le, nat_lt, if◌then◌else◌};
ghost use Rattle.std.specs.List.Sorted.{IsPermutation, IsNonDecreasingBy};
ghost use Rattle.oc_layout.specs.Layout.{blocks};
ghost use Rattle.oc_free.specs.FreeParts.{free_at};
ghost use Rattle.oc_room.specs.Rooms.{IsRoom, Tiles, AreApart};

use crate::Room;
use oc_layout::Cell;
use std::alloc::{AllocError, Global};

impl Room {
    /// The room around these things in a file of so many blocks, or `None` where a block is in two of them or one
    /// lies behind the end.
    ///
    /// Each block of the file is then in just one of the things, or is free.
    pub fn around(
        alloc: Global,
        unit: u32,
        end: u32,
        limit: u32,
        mut things: Vec<Cell>,
    ) -> Result<Option<Room>, AllocError>
        requires unit { 0 < unit }
        requires end { end ≤ limit }
        requires limit { limit ≤ 2147483647 }
        requires some { All (λ thing. 1 ≤ thing.len) things.items }
        ensures tiles { IfOk result (λ found. IfSome found (λ room. Tiles room things.items)) }
        ensures unit { IfOk result (λ found. IfSome found (λ room. room.unit ≡ unit)) }
        ensures end { IfOk result (λ found. IfSome found (λ room. room.end ≡ end)) }
        ensures limit { IfOk result (λ found. IfSome found (λ room. room.limit ≡ limit)) }
        ensures is_room { IfOk result (λ found. IfSome found (λ room. IsRoom room)) }
        ensures none { result ≡ Ok None → ¬ AreApart unit end things.items }
    {
        sort_by_address(&mut things);
        let mut room = Room::new(alloc, unit, 0, limit);
        for thing in &things {
            if !room.goes_on(*thing, end)? {
                return Ok(None);
            }
        }
        room.free_to(end)?;
        Ok(Some(room))
    }

    // Makes the blocks up to the thing free and ends behind it, unless it begins before the end or ends behind this
    // one.
    fn goes_on(&mut self, thing: Cell, end: u32) -> Result<bool, AllocError>
        requires limit { end ≤ self.old.limit }
        ensures parts { IfOk result (λ took. took ≡ true → (k : ℕ) →
            free_at self.new.parts k ≡ free_at self.old.parts k + (if nat_le self.old.end k && nat_lt k thing.at then 1 else 0)) }
        ensures begins { IfOk result (λ took. took ≡ true → self.old.end ≤ thing.at) }
        ensures ends { IfOk result (λ took. took ≡ true → self.new.end ≡ thing.at + blocks self.old.unit thing.len) }
        ensures within { IfOk result (λ took. took ≡ true → self.new.end ≤ end) }
        ensures not { IfOk result (λ took. took ≡ false →
            (thing.at < self.old.end) ⊎ (end < thing.at + blocks self.old.unit thing.len)) }
        ensures unit { self.new.unit ≡ self.old.unit }
        ensures limit { self.new.limit ≡ self.old.limit }
    {
        let blocks = self.blocks_of(thing.len);
        if thing.at < self.end() || thing.at > end || blocks > end - thing.at {
            return Ok(false);
        }
        self.free_to(thing.at)?;
        self.grow_to(thing.at + blocks);
        Ok(true)
    }
}

fn sort_by_address(things: &mut Vec<Cell>)
    ensures same { IsPermutation things.old.items things.new.items }
    ensures ascending { IsNonDecreasingBy (λ thing. thing.at) things.new.items }
{
    things.sort_unstable_by_key(|thing| thing.at);
}
