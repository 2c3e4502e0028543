// Stores are changed and committed, and opened again from their files.

use crate::plain::{Step, are_like, empty_sides, go, started};
use crate::trial::{Trial, reopened};
use std::alloc::{AllocError, Global};
use std::test::Fail;

// Puts two objects and commits them, and tells whether the store and the one that is read from its file are like the lists.
fn is_read_again(alloc: Global, trial: &mut Trial) -> Result<bool, AllocError> {
    let mut sides = empty_sides(alloc, 4)?;
    for step in [Step::Put(1, 1, 5), Step::Put(2, 2, 9), Step::Commit] {
        if !go(alloc, trial, &mut sides, step)? {
            return Ok(false);
        }
    }
    match reopened(alloc, trial)? {
        Some(mut again) => are_like(alloc, &mut again, &sides),
        None => Ok(false),
    }
}

#[test]
fn a_commit_is_read_again(rt: HostRuntime) -> Result<(), Fail> {
    let mut trial = started(rt.alloc())?.expect(&rt, "a store");
    assert!(rt; is_read_again(rt.alloc(), &mut trial)?);
    Ok(())
}
