// Commits of sessions in which nothing has changed.

use crate::plain::{Sides, Step, are_like, empty_sides, go, started};
use crate::shapes::SIZE;
use crate::trial::{Trial, commit, reopened};
use std::alloc::{AllocError, Global};
use std::test::Fail;

// As many entries as a change leaves in a chunk of an index.
const OBJECTS: u32 = 128;

// Takes these steps, and tells whether the file took them.
fn go_all(
    alloc: Global,
    trial: &mut Trial,
    sides: &mut Sides,
    steps: &[Step],
) -> Result<bool, AllocError> {
    for step in steps {
        if !go(alloc, trial, sides, *step)? {
            return Ok(false);
        }
    }
    Ok(true)
}

/// In how many chunks the index of the sizes stands.
pub fn size_chunks(alloc: Global, trial: &Trial) -> Result<usize, AllocError> {
    match trial.store.indexes().field(SIZE) {
        Some(index) => Ok(index.chunks(alloc)?.len()),
        None => Ok(0),
    }
}

// Puts so many shapes whose sizes ascend.
fn fill(alloc: Global, trial: &mut Trial, sides: &mut Sides) -> Result<bool, AllocError> {
    for place in 0..OBJECTS {
        let step = Step::Put(place.saturating_add(1), 1, (place / 4) as u8);
        if !go(alloc, trial, sides, step)? {
            return Ok(false);
        }
    }
    go(alloc, trial, sides, Step::Commit)
}

// Whether one more shape splits the chunk of the sizes, and a rollback brings it back.
fn is_split_and_back(
    alloc: Global,
    trial: &mut Trial,
    sides: &mut Sides,
) -> Result<bool, AllocError> {
    let before = size_chunks(alloc, trial)?;
    if !go(alloc, trial, sides, Step::Put(129, 1, 16))? {
        return Ok(false);
    }
    let split = size_chunks(alloc, trial)?;
    if !go(alloc, trial, sides, Step::Rollback)? {
        return Ok(false);
    }
    Ok(before == 1 && split == 2 && size_chunks(alloc, trial)? == 1)
}

/// Whether a commit doesn't call the host.
pub fn commits_nothing(alloc: Global, trial: &mut Trial) -> Result<bool, AllocError> {
    let bytes = trial.host.memory.bytes().to_vec(alloc)?;
    let calls = trial.host.memory.calls();
    if !commit(trial) {
        return Ok(false);
    }
    Ok(trial.host.memory.calls() == calls && trial.host.memory.bytes() == bytes.as_slice())
}

/// Takes these steps and commits, and tells whether the store that is read from the file then is like the lists.
pub fn is_written(
    alloc: Global,
    trial: &mut Trial,
    sides: &mut Sides,
    steps: &[Step],
) -> Result<bool, AllocError> {
    if !go_all(alloc, trial, sides, steps)? || !go(alloc, trial, sides, Step::Commit)? {
        return Ok(false);
    }
    match reopened(alloc, trial)? {
        Some(mut again) => are_like(alloc, &mut again, sides),
        None => Ok(false),
    }
}

fn undoes_a_split(alloc: Global, trial: &mut Trial) -> Result<bool, AllocError> {
    let mut sides = empty_sides(alloc, 129)?;
    if !fill(alloc, trial, &mut sides)? || !is_split_and_back(alloc, trial, &mut sides)? {
        return Ok(false);
    }
    Ok(
        commits_nothing(alloc, trial)?
            && is_written(alloc, trial, &mut sides, &[Step::Put(129, 1, 16)])?,
    )
}

#[test]
fn a_chunk_that_was_split_and_undone_is_not_written(rt: HostRuntime) -> Result<(), Fail> {
    let mut trial = started(rt.alloc())?.expect(&rt, "a store");
    assert!(rt; undoes_a_split(rt.alloc(), &mut trial)?);
    Ok(())
}
