// Stores of many objects, and a record that is as long as it may be.

use crate::plain::{Sides, Step, are_like, empty_sides, go, started};
use crate::shapes::{is_of_bytes, note_of};
use crate::trial::{Trial, commit, put, reopened};
use oc_store::Side;
use std::alloc::{AllocError, Global};
use std::test::Fail;

// One more than a segment has at most.
const OBJECTS: u32 = 513;

// Puts so many objects, of each class in turn.
fn fill(
    alloc: Global,
    trial: &mut Trial,
    sides: &mut Sides,
    count: u32,
) -> Result<bool, AllocError> {
    for place in 0..count {
        let step = Step::Put(place.saturating_add(1), 1 + place % 5, (place % 32) as u8);
        if !go(alloc, trial, sides, step)? {
            return Ok(false);
        }
    }
    Ok(true)
}

// In how many segments the list of all objects stands.
fn extent_segments(alloc: Global, trial: &Trial) -> Result<usize, AllocError> {
    let chunks = trial.store.indexes().extents().chunks(alloc)?;
    Ok(chunks.len())
}

// Whether the store of the file is like the lists, and has its extents in two segments.
fn is_read_again(alloc: Global, trial: &Trial, sides: &Sides) -> Result<bool, AllocError> {
    match reopened(alloc, trial)? {
        Some(mut again) => {
            Ok(extent_segments(alloc, &again)? == 2 && are_like(alloc, &mut again, sides)?)
        }
        None => Ok(false),
    }
}

fn many_are_committed(alloc: Global, trial: &mut Trial) -> Result<bool, AllocError> {
    let mut sides = empty_sides(alloc, OBJECTS as usize)?;
    if !fill(alloc, trial, &mut sides, OBJECTS)? || !go(alloc, trial, &mut sides, Step::Commit)? {
        return Ok(false);
    }
    is_read_again(alloc, trial, &sides)
}

#[test]
fn more_objects_than_a_segment_has_are_read_again(rt: HostRuntime) -> Result<(), Fail> {
    let mut trial = started(rt.alloc())?.expect(&rt, "a store");
    assert!(rt; many_are_committed(rt.alloc(), &mut trial)?);
    Ok(())
}

// The texts of a note of 262,144 bytes: six of them are its head, and each text has ten before its letters.
const LONGEST: [usize; 5] = [65_535, 65_535, 65_535, 65_483, 0];

// Whether the object has the record of these bytes.
fn is_note(alloc: Global, trial: &mut Trial, bytes: &[u8]) -> bool {
    let Trial { host, store } = trial;
    match store.fetch(host, Side::Committed, 1) {
        Ok(Some(rec)) => is_of_bytes(alloc, &rec, bytes),
        _ => false,
    }
}

fn is_kept(alloc: Global, trial: &mut Trial, bytes: &[u8]) -> Result<bool, AllocError> {
    let answer = put(alloc, trial, 1, bytes)?;
    if answer != Some(Ok(())) || !commit(trial) || !is_note(alloc, trial, bytes) {
        return Ok(false);
    }
    match reopened(alloc, trial)? {
        Some(mut again) => Ok(is_note(alloc, &mut again, bytes)),
        None => Ok(false),
    }
}

#[test]
fn a_record_may_have_so_many_bytes(rt: HostRuntime) -> Result<(), Fail> {
    let mut trial = started(rt.alloc())?.expect(&rt, "a store");
    let note = note_of(rt.alloc(), LONGEST)?;
    assert_eq!(rt; note.len(), 262_144);
    assert!(rt; is_kept(rt.alloc(), &mut trial, &note)?);
    Ok(())
}

#[test]
fn a_record_has_no_more_bytes(rt: HostRuntime) -> Result<(), Fail> {
    let mut trial = started(rt.alloc())?.expect(&rt, "a store");
    let note = note_of(rt.alloc(), [65_535, 65_535, 65_535, 65_483, 1])?;
    assert_eq!(rt; note.len(), 262_145);
    assert!(rt; put(rt.alloc(), &mut trial, 1, &note)?.is_none());
    Ok(())
}
