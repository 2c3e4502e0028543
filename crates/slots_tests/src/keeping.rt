// Which slots are read again, seen by the bytes that are taken from the host.
use crate::attaching::file;
use crate::trial::{Trial, making, object, opened};
use oc_layout::Space;
use oc_slots::Side;
use std::alloc::{AllocError, Global};
use std::test::Fail;

const SLOTS: u32 = 300;

const LEN: usize = 4;

// A side, an object, the value of its bytes, their count, and how many bytes its fetch is to take from the host.
type Row = (Side, u32, u8, usize, u64);

// Whether each fetch gives its slot and takes so many bytes.
fn take(trial: &mut Trial, rows: &[Row]) -> bool {
    for row in rows {
        let (side, number, value, len, taken) = *row;
        if trial.taken_for(side, number, value, len) != Some(taken) {
            return false;
        }
    }
    true
}

// How many bytes ten fetches of a committed slot take, if each gives it.
fn taken_for_ten(trial: &mut Trial, number: u32) -> Option<u64> {
    let before = trial.host.taken;
    for _ in 0..10 {
        let Trial { host, store } = &mut *trial;
        match store.fetch(host, Side::Committed, object(number)) {
            Ok(Some(bytes)) if bytes.as_slice() == b"Pilot".as_slice() => {}
            _ => return None,
        }
    }
    Some(trial.host.taken.saturating_sub(before))
}

#[test]
fn a_committed_slot_is_read_once(rt: HostRuntime) -> Result<(), Fail> {
    let alloc = rt.alloc();
    let bytes = file(alloc)?;
    let mut trial = opened(alloc, &bytes, &making(4096, None))?.expect(&rt, "a container");
    let numbers = trial.store.numbers(Side::Committed, Space::Objects)?;
    assert_eq!(rt; numbers.len(), 1);
    assert_eq!(rt; taken_for_ten(&mut trial, numbers[0]), Some(5));
    Ok(())
}

fn value_of(number: u32) -> u8 {
    (number % 251) as u8
}

// Gives the session 300 slots, each with four bytes of its number's value, and tells whether that was done.
fn fill(alloc: Global, trial: &mut Trial) -> Result<bool, AllocError> {
    for number in 1..SLOTS + 1 {
        if !trial.change(alloc, number, value_of(number), LEN)? {
            return Ok(false);
        }
    }
    Ok(true)
}

fn filled(alloc: Global) -> Result<Option<Trial>, AllocError> {
    match opened(alloc, &[], &making(1 << 20, None))? {
        Some(mut trial) => {
            let is_filled = fill(alloc, &mut trial)?;
            Ok(is_filled.then_some(trial))
        }
        None => Ok(None),
    }
}

// Whether the fetch of each slot in turn reads it.
fn read_all(trial: &mut Trial) -> bool {
    for number in 1..SLOTS + 1 {
        if trial.taken_for(Side::Session, number, value_of(number), LEN) != Some(4) {
            return false;
        }
    }
    true
}

// The oldest that is kept is 45. Once 44 is read, 45 is before it and 46 has gone.
const LAST: &[Row] = &[
    (Side::Session, 300, 49, LEN, 0),
    (Side::Session, 45, 45, LEN, 0),
    (Side::Session, 44, 44, LEN, 4),
    (Side::Session, 45, 45, LEN, 0),
    (Side::Session, 47, 47, LEN, 0),
    (Side::Session, 46, 46, LEN, 4),
    (Side::Session, 48, 48, LEN, 4),
    (Side::Session, 47, 47, LEN, 0),
];

#[test]
fn the_last_256_slots_are_kept(rt: HostRuntime) -> Result<(), Fail> {
    let mut trial = filled(rt.alloc())?.expect(&rt, "300 slots");
    assert!(rt; read_all(&mut trial));
    assert!(rt; take(&mut trial, LAST));
    Ok(())
}

const READ: &[Row] = &[
    (Side::Session, 7, 7, LEN, 4),
    (Side::Session, 8, 8, LEN, 4),
    (Side::Session, 9, 9, LEN, 4),
];

const CHANGED: &[Row] = &[
    (Side::Session, 1, 1, LEN, 4),
    (Side::Session, 9, 9, LEN, 0),
    (Side::Session, 8, 0, 0, 0),
    (Side::Session, 7, 200, LEN, 4),
    (Side::Session, 10, 201, LEN, 4),
    (Side::Session, 7, 200, LEN, 0),
];

// 7 gets other bytes, 8 goes, and 10 takes the place of 7, which was free again.
fn change_three(alloc: Global, trial: &mut Trial) -> Result<bool, AllocError> {
    Ok(
        trial.change(alloc, 7, 200, LEN)?
            && trial.change(alloc, 8, 0, 0)?
            && trial.change(alloc, 10, 201, LEN)?,
    )
}

// All is given up, and 9 takes the place of 1.
fn begin_again(alloc: Global, trial: &mut Trial) -> Result<bool, AllocError> {
    trial.store.rollback();
    Ok(
        trial.taken_for(Side::Session, 7, 0, 0) == Some(0)
            && trial.change(alloc, 9, 202, LEN)?
            && trial.taken_for(Side::Session, 9, 202, LEN) == Some(4)
            && trial.taken_for(Side::Session, 9, 202, LEN) == Some(0),
    )
}

#[test]
fn a_slot_that_is_given_up_is_not_kept(rt: HostRuntime) -> Result<(), Fail> {
    let alloc = rt.alloc();
    let mut trial = filled(alloc)?.expect(&rt, "300 slots");
    assert!(rt; take(&mut trial, READ));
    assert!(rt; change_three(alloc, &mut trial)?);
    assert!(rt; take(&mut trial, CHANGED));
    assert!(rt; begin_again(alloc, &mut trial)?);
    Ok(())
}

const TWO: &[Row] = &[
    (Side::Committed, 1, 1, LEN, 4),
    (Side::Committed, 2, 2, LEN, 4),
];

const THREE: &[Row] = &[
    (Side::Committed, 2, 2, LEN, 0),
    (Side::Session, 3, 201, LEN, 4),
    (Side::Committed, 1, 200, LEN, 4),
    (Side::Session, 1, 200, LEN, 0),
    (Side::Session, 2, 2, LEN, 0),
];

fn commit_two(alloc: Global, trial: &mut Trial) -> Result<bool, AllocError> {
    Ok(
        trial.change(alloc, 1, 1, LEN)?
            && trial.change(alloc, 2, 2, LEN)?
            && trial.commit(alloc).is_ok(),
    )
}

// 1 gets other bytes, and 3 takes the place of the old ones.
fn commit_one(alloc: Global, trial: &mut Trial) -> Result<bool, AllocError> {
    Ok(trial.commit_with(alloc, 1, 200, LEN)?.is_ok() && trial.change(alloc, 3, 201, LEN)?)
}

#[test]
fn a_commit_forgets_the_places_that_come_free(rt: HostRuntime) -> Result<(), Fail> {
    let alloc = rt.alloc();
    let mut trial = opened(alloc, &[], &making(4096, None))?.expect(&rt, "a container");
    assert!(rt; commit_two(alloc, &mut trial)?);
    assert!(rt; take(&mut trial, TWO));
    assert!(rt; commit_one(alloc, &mut trial)?);
    assert!(rt; take(&mut trial, THREE));
    Ok(())
}
