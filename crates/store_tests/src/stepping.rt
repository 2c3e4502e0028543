// Many steps without a pattern are taken by a store and by two plain lists.

use crate::plain::{Plain, Sides, Step, are_like, empty_sides, go, has, started};
use crate::trial::{Trial, reopened};
use oc_store::Side;
use std::alloc::{AllocError, Global};
use std::test::Fail;

const OBJECTS: usize = 200;

const STEPS: u32 = 3000;

// A number that looks drawn at random, made of the one before.
fn drawn(seed: u64) -> u64 {
    seed.wrapping_mul(6_364_136_223_846_793_005)
        .wrapping_add(1_442_695_040_888_963_407)
}

// A class: mostly a shape, a circle or a square.
fn class_of(draw: u64) -> u32 {
    match (draw >> 50) % 8 {
        0 => 4,
        1 => 5,
        other => 1 + (other % 3) as u32,
    }
}

// A step that may be taken: an object that the session has stays in its class.
fn step_of(session: &Plain, draw: u64) -> Step {
    let number = 1 + ((draw >> 33) % OBJECTS as u64) as u32;
    let key = ((draw >> 20) % 32) as u8;
    match ((draw >> 55) % 64, session.at(number)) {
        (0, _) => Step::Commit,
        (1, _) => Step::Rollback,
        (2..=20, Some(_)) => Step::Take(number),
        (_, Some(shape)) => Step::Put(number, shape.class, key),
        (_, None) => Step::Put(number, class_of(draw), key),
    }
}

// Whether both sides have this object as the lists do.
fn have(alloc: Global, trial: &mut Trial, sides: &Sides, number: u32) -> Result<bool, AllocError> {
    if trial.store.next() != sides.session.next {
        return Ok(false);
    }
    Ok(
        has(
            alloc,
            trial,
            Side::Session,
            number,
            sides.session.at(number),
        )? && has(
            alloc,
            trial,
            Side::Committed,
            number,
            sides.committed.at(number),
        )?,
    )
}

// Whether the store, and the one that its file gives, are like the lists.
fn is_committed(alloc: Global, trial: &mut Trial, sides: &Sides) -> Result<bool, AllocError> {
    match reopened(alloc, trial)? {
        Some(mut again) => {
            Ok(are_like(alloc, &mut again, sides)? && are_like(alloc, trial, sides)?)
        }
        None => Ok(false),
    }
}

// Takes the step on both, and tells whether they are alike then: of a change in its object, of a commit in all.
fn step_is_alike(
    alloc: Global,
    trial: &mut Trial,
    sides: &mut Sides,
    step: Step,
) -> Result<bool, AllocError> {
    if !go(alloc, trial, sides, step)? {
        return Ok(false);
    }
    match step {
        Step::Put(number, _, _) | Step::Take(number) => have(alloc, trial, sides, number),
        Step::Commit => is_committed(alloc, trial, sides),
        Step::Rollback => are_like(alloc, trial, sides),
    }
}

fn steps_are_alike(alloc: Global, trial: &mut Trial) -> Result<bool, AllocError> {
    let mut sides = empty_sides(alloc, OBJECTS)?;
    let mut draw = 7;
    for _ in 0..STEPS {
        draw = drawn(draw);
        let step = step_of(&sides.session, draw);
        if !step_is_alike(alloc, trial, &mut sides, step)? {
            return Ok(false);
        }
    }
    Ok(true)
}

#[test]
fn many_steps_are_those_of_two_lists(rt: HostRuntime) -> Result<(), Fail> {
    let mut trial = started(rt.alloc())?.expect(&rt, "a store");
    assert!(rt; steps_are_alike(rt.alloc(), &mut trial)?);
    Ok(())
}
