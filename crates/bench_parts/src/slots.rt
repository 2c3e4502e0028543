//! Slots written to a file, and fetched in an order without a pattern.
ghost use Rattle.std.specs.Prelude.{◌≤◌, length, IfOk};
ghost use Rattle.oc_slots.specs.Stores.{AreChanges};

use crate::counting::Counting;
use crate::fault::Fault;
use oc_layout::Space;
use oc_slots::{Bytes, Making, Side, SlotChange, SlotId, SlotStore};
use std::alloc::{AllocError, Global};
use std::rt::Files;

const BYTES: usize = 40;

const A_COMMIT: u32 = 300;

/// The most slots that are written.
pub const MOST: u32 = 2_000_000;

/// 40 bytes of this value.
fn bytes_of(alloc: Global, value: u8) -> Result<Bytes, AllocError>
    ensures { IfOk result (λ b. 1 ≤ length b) }
{
    Ok(Bytes::of(vec![in alloc; value; BYTES]?))
}

/// A change that gives a slot 40 bytes.
fn change_of(alloc: Global, number: u32) -> Result<Vec<SlotChange>, AllocError>
    requires { (1 ≤ number) × (number ≤ 2147483646) }
    ensures { IfOk result (λ v. AreChanges v.items) }
{
    let bytes = bytes_of(alloc, (number % 256) as u8)?;
    let mut changes = Vec::new(alloc);
    let id = SlotId {
        space: Space::Objects,
        number,
    };
    changes.push(SlotChange {
        id,
        bytes: Some(bytes),
    })?;
    Ok(changes)
}

/// Writes so many slots, with a commit after each 300 and one at the end.
fn write_all<R: Files + Print>(
    alloc: Global,
    store: &mut SlotStore,
    host: &mut Counting<'_, R>,
    count: u32,
) -> Result<(), Fault>
    requires { count ≤ 2000000 }
{
    for number in 1..=count {
        store.change(host, change_of(alloc, number)?)?;
        if number % A_COMMIT == 0 || number == count {
            store.commit(host, Vec::new(alloc))?;
        }
    }
    Ok(())
}

/// Fetches each slot once.
fn fetch_all<R: Files + Print>(
    store: &mut SlotStore,
    host: &mut Counting<'_, R>,
    count: u32,
) -> Result<(), Fault> {
    for step in 0..count {
        let id = SlotId {
            space: Space::Objects,
            number: (step as u64 * 2_654_435_761 % count as u64) as u32 + 1,
        };
        if store.fetch(host, Side::Committed, id)?.is_none() {
            return Err(Fault::Lost);
        }
    }
    Ok(())
}

/// Writes so many slots to a file, and fetches each of them.
pub fn write_and_fetch<R: Files + Print>(
    alloc: Global,
    host: &mut Counting<'_, R>,
    count: u32,
) -> Result<(), Fault>
    requires { count ≤ 2000000 }
{
    let making = Making {
        limit: 2_147_483_647,
        first: 1,
        anew: false,
        block: None,
    };
    let mut store = SlotStore::attach(alloc, host, &making)?;
    write_all(alloc, &mut store, host, count)?;
    fetch_all(&mut store, host, count)
}
