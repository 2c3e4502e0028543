use crate::part::{Part, first_fit, place_of, rank_of};
use std::alloc::{AllocError, Global};
use std::marker::Model;

/// The free parts of a file. An address and a length count blocks.
///
/// Contracts see the parts in the order of their addresses, no two of which share a block or touch, and `spare`: how
/// many more can be released before memory has to be reserved again.
#[derive(Debug, Drop)]
pub struct FreeSpace {
    by_address: Vec<Part>,
    by_size: Vec<Part>,
}

impl Model for FreeSpace {
    ghost use Rattle.oc_free.specs.FreeParts.{Free};

    ghost Value = { Free };

    ghost use Rattle.std.specs.Prelude.{◌-◌, min, vec_len, vec_capacity};
    ghost use Rattle.oc_free.specs.Orders.{AreOrdered};

    ghost view = { λ s. record {
      parts = s.by_address.items;
      spare = min (vec_capacity s.by_address - vec_len s.by_address) (vec_capacity s.by_size - vec_len s.by_size);
    } };

    ghost invariant = { λ s. AreOrdered s.by_address.items s.by_size.items };
}

impl FreeSpace {
    ghost use Rattle.std.specs.Prelude.{◌≡◌, ◌<◌, ◌≤◌, ℕ, ◌+◌, [], length, insert, remove, All, Any, IfSome, IfNone, OnOk, MatchOption, option_map, if◌then◌else◌};
    ghost use Rattle.oc_model.specs.Space.{best_fit, without};
    ghost use Rattle.oc_free.specs.FreeParts.{AreFree, IsInRange, free_at, all_blocks, end_of, has_block};
    ghost use Rattle.oc_free.specs.Orders.{part_at, IsGapFor, IsApartBefore, IsApartAfter};

    /// No free part.
    pub fn new(alloc: Global) -> FreeSpace
        ensures { result.parts ≡ [] }
    {
        FreeSpace {
            by_address: Vec::new(alloc),
            by_size: Vec::new(alloc),
        }
    }

    /// Takes as many blocks as the need from the front of the least part that holds it, and among those of one size
    /// from the first. The answer is the address of the part.
    ///
    /// `None` comes exactly where no part holds the need; then nothing changes. It takes no memory.
    pub fn take(&mut self, need: u32) -> Option<u32>
        requires { 1 ≤ need }
        ensures best { result ≡ option_map (λ p. p.address) (best_fit self.old.parts need) }
        ensures left { IfSome result (λ address. self.new.parts ≡ without self.old.parts address need) }
        ensures blocks { IfSome result (λ address. (k : ℕ) →
            free_at self.old.parts k ≡ free_at self.new.parts k + (if has_block k (record { address = address; blocks = need }) then 1 else 0)) }
        ensures none { IfNone result (All (λ p. p.blocks < need) self.old.parts) }
        ensures unchanged { IfNone result (self.new ≡ self.old) }
        ensures free { AreFree self.new.parts }
        ensures spare { self.old.spare ≤ self.new.spare }
    {
        let place = self.best_place(need)?;
        Some(self.cut(place, need))
    }

    /// Makes these blocks free. The part that ends where they begin and the one that begins where they end become
    /// one part with them. It takes no memory.
    pub fn release(&mut self, address: u32, blocks: u32)
        requires spare { 1 ≤ self.old.spare }
        requires some { 1 ≤ blocks }
        requires ends { address + blocks ≤ 2147483647 }
        requires taken { (k : ℕ) → address ≤ k → k < address + blocks → free_at self.old.parts k ≡ 0 }
        ensures blocks { (k : ℕ) →
            free_at self.new.parts k ≡ free_at self.old.parts k + (if has_block k (record { address = address; blocks = blocks }) then 1 else 0) }
        ensures free { AreFree self.new.parts }
        ensures spare { self.old.spare ≤ self.new.spare + 1 }
    {
        let place = place_of(&self.by_address, address);
        let (place, part) = self.join_before(place, Part::new(address, blocks));
        let part = self.join_after(place, part);
        self.insert(place, part);
    }

    /// Makes room for so many releases.
    pub fn reserve(&mut self, n: u32) -> Result<(), AllocError>
        ensures room { OnOk result (n ≤ self.new.spare) }
        ensures parts { self.new.parts ≡ self.old.parts }
        ensures free { AreFree self.new.parts }
        ensures spare { self.old.spare ≤ self.new.spare }
    {
        self.by_address.reserve(n as usize)?;
        self.by_size.reserve(n as usize)?;
        Ok(())
    }

    /// The blocks of the largest part, 0 where there is none.
    pub fn largest(&self) -> u32
        ensures greatest { All (λ p. p.blocks ≤ result) self.now.parts }
        ensures one { 0 < length self.now.parts → Any (λ p. p.blocks ≡ result) self.now.parts }
        ensures none { self.now.parts ≡ [] → result ≡ 0 }
        ensures free { AreFree self.now.parts }
    {
        match self.by_size.last() {
            Some(part) => part.blocks(),
            None => 0,
        }
    }

    /// The blocks of all parts.
    pub fn total(&self) -> u64
        ensures sum { result ≡ all_blocks self.now.parts }
        ensures free { AreFree self.now.parts }
    {
        let mut total: u64 = 0;
        for part in &self.by_address {
            total += part.blocks() as u64;
        }
        total
    }

    // Where the best fit stands in the order of addresses.
    fn best_place(&self, need: u32) -> Option<usize>
        ensures best { MatchOption result
            (best_fit self.now.parts need ≡ None)
            (λ place. best_fit self.now.parts need ≡ Some (part_at self.now.parts place)) }
        ensures within { IfSome result (λ place. place < length self.now.parts) }
        ensures holds { IfSome result (λ place. need ≤ (part_at self.now.parts place).blocks) }
        ensures none { IfNone result (All (λ p. p.blocks < need) self.now.parts) }
        ensures free { AreFree self.now.parts }
    {
        let rank = first_fit(&self.by_size, need);
        if rank == self.by_size.len() {
            return None;
        }
        let best = self.by_size[rank];
        Some(place_of(&self.by_address, best.address()))
    }

    // Takes the front of the part at this place.
    fn cut(&mut self, place: usize, need: u32) -> u32
        requires within { place < length self.old.parts }
        requires some { 1 ≤ need }
        requires holds { need ≤ (part_at self.old.parts place).blocks }
        ensures address { result ≡ (part_at self.old.parts place).address }
        ensures left { self.new.parts ≡ without self.old.parts result need }
        ensures blocks { (k : ℕ) → free_at self.old.parts k ≡ free_at self.new.parts k
            + (if has_block k (record { address = result; blocks = need }) then 1 else 0) }
        ensures free { AreFree self.new.parts }
        ensures spare { self.old.spare ≤ self.new.spare }
    {
        let part = self.remove(place);
        if need < part.blocks() {
            let rest = Part::new(part.address() + need, part.blocks() - need);
            self.insert(place, rest);
        }
        part.address()
    }

    // Takes the part at this place out.
    fn remove(&mut self, place: usize) -> Part
        requires { place < length self.old.parts }
        ensures part { result ≡ part_at self.old.parts place }
        ensures parts { self.new.parts ≡ remove self.old.parts place }
        ensures free { AreFree self.old.parts }
        ensures left { AreFree self.new.parts }
        ensures spare { self.old.spare + 1 ≤ self.new.spare }
    {
        let part = self.by_address.remove(place);
        let rank = rank_of(&self.by_size, part);
        self.by_size.remove(rank);
        part
    }

    // Puts a part between others, which it doesn't touch.
    fn insert(&mut self, place: usize, part: Part)
        requires spare { 1 ≤ self.old.spare }
        requires in_range { IsInRange part }
        requires gap { IsGapFor part self.old.parts place }
        requires before { IsApartBefore part self.old.parts place }
        requires after { IsApartAfter part self.old.parts place }
        ensures parts { self.new.parts ≡ insert self.old.parts place part }
        ensures free { AreFree self.new.parts }
        ensures spare { self.old.spare ≤ self.new.spare + 1 }
    {
        let rank = rank_of(&self.by_size, part);
        let _room = self.by_size.insert(rank, part);
        let _room = self.by_address.insert(place, part);
    }

    // The blocks with the part that ends where they begin, if there is one, and the place behind it once it is out.
    fn join_before(&mut self, place: usize, part: Part) -> (usize, Part)
        requires in_range { IsInRange part }
        requires gap { IsGapFor part self.old.parts place }
        ensures in_range { IsInRange result.1 }
        ensures gap { IsGapFor result.1 self.new.parts result.0 }
        ensures before { IsApartBefore result.1 self.new.parts result.0 }
        ensures blocks { (k : ℕ) → free_at self.new.parts k + (if has_block k result.1 then 1 else 0) ≡ free_at self.old.parts k + (if has_block k part then 1 else 0) }
        ensures spare { self.old.spare ≤ self.new.spare }
    {
        if place == 0 || self.by_address[place - 1].end() != part.address() {
            return (place, part);
        }
        let before = self.remove(place - 1);
        (
            place - 1,
            Part::new(before.address(), before.blocks() + part.blocks()),
        )
    }

    // The blocks with the part that begins where they end, if there is one, which is taken out.
    fn join_after(&mut self, place: usize, part: Part) -> Part
        requires in_range { IsInRange part }
        requires gap { IsGapFor part self.old.parts place }
        requires before { IsApartBefore part self.old.parts place }
        ensures in_range { IsInRange result }
        ensures gap { IsGapFor result self.new.parts place }
        ensures before { IsApartBefore result self.new.parts place }
        ensures after { IsApartAfter result self.new.parts place }
        ensures blocks { (k : ℕ) → free_at self.new.parts k + (if has_block k result then 1 else 0) ≡ free_at self.old.parts k + (if has_block k part then 1 else 0) }
        ensures spare { self.old.spare ≤ self.new.spare }
    {
        if place == self.by_address.len() || self.by_address[place].address() != part.end() {
            return part;
        }
        let after = self.remove(place);
        Part::new(part.address(), part.blocks() + after.blocks())
    }
}
