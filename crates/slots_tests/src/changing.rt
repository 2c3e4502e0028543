// Slots that are changed, read and given up.
use crate::trial::{Trial, making, opened};
use oc_layout::Space;
use oc_slots::Side;
use std::alloc::{AllocError, Global};
use std::test::Fail;

// Whether a slot stands in the file, and in the session alone.
fn is_in_the_session(alloc: Global, trial: &mut Trial) -> Result<bool, AllocError> {
    Ok(
        trial.change(alloc, 1, 7, 20)?
            && trial.len() == 148
            && trial.ends_with(128, 7)
            && trial.has(Side::Session, 1, 7, 20)
            && trial.has(Side::Committed, 1, 0, 0),
    )
}

fn is_listed(trial: &Trial) -> Result<bool, AllocError> {
    Ok(
        trial.has_numbers(Side::Session, Space::Objects, &[1])?
            && trial.has_numbers(Side::Committed, Space::Objects, &[])?
            && trial.has_numbers(Side::Session, Space::System, &[])?,
    )
}

#[test]
fn a_slot_stands_in_the_file_at_once(rt: HostRuntime) -> Result<(), Fail> {
    let alloc = rt.alloc();
    let mut trial = opened(alloc, &[], &making(1300, None))?.expect(&rt, "a container");
    assert!(rt; is_in_the_session(alloc, &mut trial)?);
    assert!(rt; is_listed(&trial)?);
    assert_eq!(rt; trial.store.header().limit, 1300);
    Ok(())
}

// Two slots are given up, and a third takes their places.
fn is_given_up(alloc: Global, trial: &mut Trial) -> Result<bool, AllocError> {
    let are_there = trial.change(alloc, 1, 7, 20)? && trial.change(alloc, 2, 8, 30)?;
    trial.store.rollback();
    Ok(
        are_there
            && trial.has_numbers(Side::Session, Space::Objects, &[])?
            && trial.change(alloc, 3, 9, 50)?
            && trial.len() == 178
            && trial.ends_with(128, 9),
    )
}

#[test]
fn a_rollback_gives_the_places_back(rt: HostRuntime) -> Result<(), Fail> {
    let alloc = rt.alloc();
    let mut trial = opened(alloc, &[], &making(4096, None))?.expect(&rt, "a container");
    assert!(rt; is_given_up(alloc, &mut trial)?);
    Ok(())
}
