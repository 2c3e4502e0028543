// A file whose indexes stand in segments of 512 entries. A reader takes these, and no change makes them: the file is written slot by slot.
ghost use Rattle.std.specs.Prelude.{◌≤◌, length, IfOk, IfSome};
ghost use Rattle.oc_slots.specs.Stores.{AreChanges};

use crate::plain::{Sides, Step, are_like, empty_sides, note, started};
use crate::shapes::{Shape, bytes_of};
use crate::trial::{Trial, making, opened};
use crate::unwritten::{commits_nothing, is_written, size_chunks};
use oc_host::MemHost;
use oc_slots::{Bytes, Side, SlotChange, SlotId, SlotStore, Space};
use quiet_host::Quiet;
use std::alloc::{AllocError, Global};
use std::test::Fail;

const OBJECTS: u32 = 512;

const NEXT: u32 = 513;

// The slots of the system.
const CATALOG: u32 = 1;

const EXTENTS: u32 = 2;

const SIZES: u32 = 3;

const NAMES: u32 = 4;

// The lists of a catalog: of all objects and of the two indexed fields, each without a segment, or in one.
const NO_LISTS: usize = 28;

const LISTS: &[u8] =
    b"\0\0\0\x03\0\0\0\0\0\0\0\x01\0\0\0\x02\0\0\0\x01\0\0\0\x01\0\0\0\x03\0\0\0\x02\0\0\0\x01\0\0\0\x04";

// The objects are shapes without a name, whose sizes ascend.
fn key_of(number: u32) -> u8 {
    (number / 86 % 6 * 5 + 4) as u8
}

// The steps that make the objects in lists.
fn wide_sides(alloc: Global) -> Result<Sides, AllocError> {
    let mut sides = empty_sides(alloc, NEXT as usize)?;
    for number in 1..=OBJECTS {
        note(alloc, &mut sides, Step::Put(number, 1, key_of(number)))?;
    }
    note(alloc, &mut sides, Step::Commit)?;
    Ok(sides)
}

fn push_entry(bytes: &mut Vec<u8>, segment: u32, number: u32) -> Result<(), AllocError> {
    match segment {
        EXTENTS => {
            bytes.extend_from_slice(&number.to_be_bytes())?;
            bytes.extend_from_slice(&1_u32.to_be_bytes())
        }
        SIZES => {
            bytes.extend_from_slice(&(key_of(number) as u32).to_be_bytes())?;
            bytes.extend_from_slice(&number.to_be_bytes())
        }
        _ => {
            bytes.push(0)?;
            bytes.extend_from_slice(&number.to_be_bytes())
        }
    }
}

// The segment of all entries of a list.
fn segment_of(alloc: Global, segment: u32) -> Result<Vec<u8>, AllocError> {
    let mut bytes = Vec::new(alloc);
    bytes.extend_from_slice(&(OBJECTS as u16).to_be_bytes())?;
    for number in 1..=OBJECTS {
        push_entry(&mut bytes, segment, number)?;
    }
    Ok(bytes)
}

// The catalog with the next number and the lists, made of the one of a store without objects.
fn catalog_of(alloc: Global, empty: &[u8]) -> Result<Vec<u8>, AllocError> {
    let (front, _) = empty.split_at(empty.len().saturating_sub(NO_LISTS));
    let (_, classes) = front.split_at(front.len().min(5));
    let mut bytes = Vec::new(alloc);
    bytes.push(1)?;
    bytes.extend_from_slice(&NEXT.to_be_bytes())?;
    bytes.extend_from_slice(classes)?;
    bytes.extend_from_slice(LISTS)?;
    Ok(bytes)
}

// ---- the file

fn some_bytes(bytes: Vec<u8>) -> Option<Bytes>
    ensures { IfSome result (λ b. 1 ≤ length b) }
{
    if bytes.is_empty() {
        return None;
    }
    Some(Bytes::of(bytes))
}

// A change of one slot.
fn one(
    alloc: Global,
    space: Space,
    number: u32,
    bytes: Vec<u8>,
) -> Result<Vec<SlotChange>, AllocError>
    requires { (1 ≤ number) × (number ≤ 2147483646) }
    ensures { IfOk result (λ v. AreChanges v.items) }
{
    let mut changes = Vec::new(alloc);
    let id = SlotId { space, number };
    changes.push(SlotChange {
        id,
        bytes: some_bytes(bytes),
    })?;
    Ok(changes)
}

fn put_objects(alloc: Global, slots: &mut SlotStore, host: &mut Quiet) -> Result<bool, AllocError> {
    for number in 1..=OBJECTS {
        let shape = Shape {
            class: 1,
            key: key_of(number),
        };
        let changes = one(alloc, Space::Objects, number, bytes_of(alloc, shape)?)?;
        if slots.change(host, changes).is_err() {
            return Ok(false);
        }
    }
    Ok(true)
}

fn put_segments(
    alloc: Global,
    slots: &mut SlotStore,
    host: &mut Quiet,
) -> Result<bool, AllocError> {
    for segment in EXTENTS..=NAMES {
        let changes = one(alloc, Space::System, segment, segment_of(alloc, segment)?)?;
        if slots.change(host, changes).is_err() {
            return Ok(false);
        }
    }
    Ok(true)
}

// The bytes of the catalog.
fn catalog_in(slots: &mut SlotStore, host: &mut Quiet) -> Option<Vec<u8>> {
    let id = SlotId {
        space: Space::System,
        number: CATALOG,
    };
    slots.fetch(host, Side::Committed, id).ok()?
}

// Writes all slots, and tells whether that was done.
fn write_slots(alloc: Global, slots: &mut SlotStore, host: &mut Quiet) -> Result<bool, AllocError> {
    let Some(empty) = catalog_in(slots, host) else {
        return Ok(false);
    };
    if !put_objects(alloc, slots, host)? || !put_segments(alloc, slots, host)? {
        return Ok(false);
    }
    let last = one(alloc, Space::System, CATALOG, catalog_of(alloc, &empty)?)?;
    Ok(slots.commit(host, last).is_ok())
}

// The store of the file of these slots, which is made of one without objects.
fn wide_of(alloc: Global, empty: &[u8]) -> Result<Option<Trial>, AllocError> {
    let mut host = Quiet::of(MemHost::new(alloc, empty.to_vec(alloc)?, Vec::new(alloc))?);
    let Ok(mut slots) = SlotStore::attach(alloc, &mut host, &making(100_000_000)) else {
        return Ok(None);
    };
    if !write_slots(alloc, &mut slots, &mut host)? {
        return Ok(None);
    }
    opened(alloc, host.memory.bytes())
}

fn wide(alloc: Global) -> Result<Option<Trial>, AllocError> {
    match started(alloc)? {
        Some(empty) => wide_of(alloc, empty.host.memory.bytes()),
        None => Ok(None),
    }
}

// ---- the store

// Whether the store is as the lists, is not written where nothing changed, and is written and read again where it did.
fn is_kept(alloc: Global, trial: &mut Trial) -> Result<bool, AllocError> {
    let mut sides = wide_sides(alloc)?;
    if size_chunks(alloc, trial)? != 1 || !are_like(alloc, trial, &sides)? {
        return Ok(false);
    }
    let steps = [Step::Put(7, 1, 26), Step::Take(300), Step::Put(513, 2, 9)];
    Ok(
        commits_nothing(alloc, trial)?
            && is_written(alloc, trial, &mut sides, &steps)?
            && size_chunks(alloc, trial)? >= 4,
    )
}

#[test]
fn a_segment_may_have_more_entries_than_a_change_makes(rt: HostRuntime) -> Result<(), Fail> {
    let mut trial = wide(rt.alloc())?.expect(&rt, "a store");
    assert!(rt; is_kept(rt.alloc(), &mut trial)?);
    Ok(())
}
