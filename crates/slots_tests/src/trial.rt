//! A slot store over a host in memory, and what the tests do with it.

ghost use Rattle.std.specs.Prelude.{◌≡◌, ◌≤◌, length, IfOk, IfSome};
ghost use Rattle.oc_slots.specs.Attaching.{IsMaking};
ghost use Rattle.oc_slots.specs.Stores.{AreChanges};

use oc_host::MemHost;
use oc_layout::Space;
use oc_slots::{Bytes, Making, Side, SlotChange, SlotId, SlotStore, SpaceFault};
use quiet_host::Quiet;
use std::alloc::{AllocError, Global};

/// A slot store and its host.
#[derive(Drop)]
pub struct Trial {
    pub host: Quiet,
    pub store: SlotStore,
}

/// What a container is made as: so many bytes or blocks at most, and blocks of so many bytes.
pub fn making(limit: u32, block: Option<u32>) -> Making
    requires limit { (128 ≤ limit) × (limit ≤ 2147483647) }
    requires block { IfSome block (λ b. (1 ≤ b) × (b ≤ 127)) }
    ensures { IsMaking result }
{
    Making {
        limit,
        first: 1,
        anew: false,
        block,
    }
}

/// The store of a file with these bytes, or one that is made of an empty file.
pub fn opened(alloc: Global, bytes: &[u8], making: &Making) -> Result<Option<Trial>, AllocError>
    requires { IsMaking making.now }
{
    let mut start = Vec::new(alloc);
    start.extend_from_slice(bytes)?;
    let memory = MemHost::new(alloc, start, Vec::new(alloc))?;
    Ok(attached(alloc, Quiet::of(memory), making))
}

/// The store of this host.
pub fn attached(alloc: Global, mut host: Quiet, making: &Making) -> Option<Trial>
    requires { IsMaking making.now }
{
    match SlotStore::attach(alloc, &mut host, making) {
        Ok(store) => Some(Trial { host, store }),
        Err(_) => None,
    }
}

/// A change of one slot of a space: these many bytes of this value, or none.
pub fn one_of(
    alloc: Global,
    space: Space,
    number: u32,
    value: u8,
    len: usize,
) -> Result<Vec<SlotChange>, AllocError>
    requires { (1 ≤ number) × (number ≤ 2147483646) }
    ensures { IfOk result (λ v. AreChanges v.items) }
{
    let mut changes = Vec::new(alloc);
    let id = SlotId { space, number };
    changes.push(SlotChange {
        id,
        bytes: bytes_of(alloc, value, len)?,
    })?;
    Ok(changes)
}

// These many bytes of this value, or none where they are no bytes.
fn bytes_of(alloc: Global, value: u8, len: usize) -> Result<Option<Bytes>, AllocError>
    ensures { IfOk result (λ o. IfSome o (λ b. 1 ≤ length b)) }
{
    if len == 0 {
        return Ok(None);
    }
    Ok(Some(Bytes::of(vec![in alloc; value; len]?)))
}

// No change at all.
fn nothing(alloc: Global) -> Vec<SlotChange>
    ensures { AreChanges result.items }
{
    Vec::new(alloc)
}

/// The slot of an object.
pub fn object(number: u32) -> SlotId {
    SlotId {
        space: Space::Objects,
        number,
    }
}

impl Trial {
    /// Gives an object these many bytes of this value, or none, and tells whether that was done.
    pub fn change(
        &mut self,
        alloc: Global,
        number: u32,
        value: u8,
        len: usize,
    ) -> Result<bool, AllocError>
        requires { (1 ≤ number) × (number ≤ 2147483646) }
    {
        let changes = one_of(alloc, Space::Objects, number, value, len)?;
        let Trial { host, store } = self;
        Ok(store.change(host, changes).is_ok())
    }

    /// Commits, with no change more.
    pub fn commit(&mut self, alloc: Global) -> Result<(), SpaceFault> {
        let Trial { host, store } = self;
        store.commit(host, nothing(alloc))
    }

    /// Commits with this change as the last one.
    pub fn commit_with(
        &mut self,
        alloc: Global,
        number: u32,
        value: u8,
        len: usize,
    ) -> Result<Result<(), SpaceFault>, AllocError>
        requires { (1 ≤ number) × (number ≤ 2147483646) }
    {
        let last = one_of(alloc, Space::Objects, number, value, len)?;
        let Trial { host, store } = self;
        Ok(store.commit(host, last))
    }

    /// How long the file is.
    pub fn len(&self) -> usize {
        self.host.memory.bytes().len()
    }

    /// Whether the file has these bytes from this place on.
    pub fn stands(&self, at: usize, bytes: &[u8]) -> bool {
        match self.host.memory.bytes().get(at..) {
            Some(behind) => behind.starts_with(bytes),
            None => false,
        }
    }

    /// Whether the file has nothing but this value from this place on.
    pub fn ends_with(&self, at: usize, value: u8) -> bool {
        match self.host.memory.bytes().get(at..) {
            Some(behind) => behind.iter().all(|byte| *byte == value),
            None => false,
        }
    }

    /// Whether the object has these many bytes of this value on this side, or isn't there where they are no bytes.
    pub fn has(&mut self, side: Side, number: u32, value: u8, len: usize) -> bool {
        let Trial { host, store } = self;
        match store.fetch(host, side, object(number)) {
            Ok(found) => is_there(&found, value, len),
            Err(_) => false,
        }
    }

    /// The same on both sides.
    pub fn has_both(&mut self, number: u32, value: u8, len: usize) -> bool {
        self.has(Side::Committed, number, value, len) && self.has(Side::Session, number, value, len)
    }

    /// Whether the side has slots of just these numbers.
    pub fn has_numbers(
        &self,
        side: Side,
        space: Space,
        numbers: &[u32],
    ) -> Result<bool, AllocError> {
        let found = self.store.numbers(side, space)?;
        Ok(found.as_slice() == numbers)
    }

    /// How many bytes a fetch takes from the host, if it gives this slot.
    pub fn taken_for(&mut self, side: Side, number: u32, value: u8, len: usize) -> Option<u64> {
        let before = self.host.taken;
        if self.has(side, number, value, len) {
            Some(self.host.taken.saturating_sub(before))
        } else {
            None
        }
    }
}

fn is_there(found: &Option<Vec<u8>>, value: u8, len: usize) -> bool {
    match found {
        Some(bytes) => bytes.len() == len && bytes.iter().all(|byte| *byte == value),
        None => len == 0,
    }
}
