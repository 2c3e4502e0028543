// A script of three commits is stopped in each call on the host, and each of these calls fails in turn. The file that is left stands for
// the store of the last commit, or in a commit for that of the one under way.

use crate::plain::{
    Plain, Sides, Step, answer_of, are_like, copy_of, empty_sides, go, note, sides_of, started,
};
use crate::trial::{Trial, making, opened};
use oc_host::{Fill, MemHost};
use oc_store::{ChangeFault, StartFault, Store};
use quiet_host::Quiet;
use std::alloc::{AllocError, Global};
use std::test::Fail;

const OBJECTS: usize = 6;

// Behind the last commit two objects change without one.
const SCRIPT: [Step; 16] = [
    Step::Put(1, 1, 5),
    Step::Put(2, 2, 9),
    Step::Put(3, 4, 3),
    Step::Commit,
    Step::Put(2, 2, 11),
    Step::Take(1),
    Step::Rollback,
    Step::Put(4, 3, 7),
    Step::Take(3),
    Step::Commit,
    Step::Put(1, 1, 6),
    Step::Put(5, 5, 0),
    Step::Take(2),
    Step::Commit,
    Step::Put(1, 1, 8),
    Step::Put(6, 3, 2),
];

const FILLS: [Fill; 6] = [
    Fill::Kept,
    Fill::Lost,
    Fill::Byte(0),
    Fill::Byte(1),
    Fill::Byte(2),
    Fill::Byte(255),
];

// Whether both sides of the store are this list.
fn is_plain(alloc: Global, trial: &mut Trial, plain: &Plain) -> Result<bool, AllocError> {
    are_like(alloc, trial, &sides_of(alloc, plain)?)
}

// Whether the file opens as a store that is like one of the two lists.
fn stands_for_either(
    alloc: Global,
    file: &[u8],
    last: &Plain,
    now: &Plain,
) -> Result<bool, AllocError> {
    match opened(alloc, file)? {
        Some(mut trial) => {
            Ok(is_plain(alloc, &mut trial, last)? || is_plain(alloc, &mut trial, now)?)
        }
        None => Ok(false),
    }
}

// Whether each stop in the calls behind these leaves one of the two.
fn stops_leave_either(
    alloc: Global,
    memory: &MemHost,
    judged: u64,
    last: &Plain,
    now: &Plain,
) -> Result<bool, AllocError> {
    for call in judged.saturating_add(1)..=memory.calls() {
        for fill in FILLS {
            let image = memory.image(alloc, call, fill)?;
            if !stands_for_either(alloc, &image, last, now)? {
                return Ok(false);
            }
        }
    }
    Ok(true)
}

// Takes the step, and tells whether each stop in the calls behind these leaves the commit before or the one under way.
fn step_is_safe(
    alloc: Global,
    trial: &mut Trial,
    sides: &mut Sides,
    judged: u64,
    step: Step,
) -> Result<bool, AllocError> {
    let last = copy_of(alloc, &sides.committed)?;
    if !go(alloc, trial, sides, step)? {
        return Ok(false);
    }
    stops_leave_either(alloc, &trial.host.memory, judged, &last, &sides.committed)
}

// How many calls the script makes on the host, if each stop in them leaves what it may.
fn calls_that_are_safe(alloc: Global, start: &[u8]) -> Result<Option<u64>, AllocError> {
    let Some(mut trial) = opened(alloc, start)? else {
        return Ok(None);
    };
    let mut sides = empty_sides(alloc, OBJECTS)?;
    let mut judged = 0;
    for step in SCRIPT {
        if !step_is_safe(alloc, &mut trial, &mut sides, judged, step)? {
            return Ok(None);
        }
        judged = trial.host.memory.calls();
    }
    Ok(Some(judged))
}

#[test]
fn a_stop_leaves_the_last_commit_or_the_one_under_way(rt: HostRuntime) -> Result<(), Fail> {
    let start = started(rt.alloc())?.expect(&rt, "a store");
    let calls = calls_that_are_safe(rt.alloc(), start.host.memory.bytes())?;
    assert!(rt; calls.unwrap_or(0) > 40);
    Ok(())
}

// ---- calls that fail

// A host over this file, of which this call fails.
fn failing(alloc: Global, start: &[u8], call: u64) -> Result<Quiet, AllocError> {
    let mut fails = Vec::new(alloc);
    fails.push(call)?;
    let memory = MemHost::new(alloc, start.to_vec(alloc)?, fails)?;
    Ok(Quiet::of(memory))
}

// Whether some step of the script answers the fault of the host, and the file is that of the last commit or of the one under way
// then.
fn script_fails(alloc: Global, trial: &mut Trial) -> Result<bool, AllocError> {
    let mut sides = empty_sides(alloc, OBJECTS)?;
    for step in SCRIPT {
        let last = copy_of(alloc, &sides.committed)?;
        note(alloc, &mut sides, step)?;
        let answer = answer_of(alloc, trial, step)?;
        if answer == Some(Err(ChangeFault::Host)) {
            return stands_for_either(alloc, trial.host.memory.bytes(), &last, &sides.committed);
        }
        if answer != Some(Ok(())) {
            return Ok(false);
        }
    }
    Ok(false)
}

// Whether the failing call is answered by its fault, where the store is attached or later, and leaves what it may.
fn call_fails(alloc: Global, start: &[u8], call: u64) -> Result<bool, AllocError> {
    let mut host = failing(alloc, start, call)?;
    match Store::attach(alloc, &mut host, &making(100_000_000)) {
        Ok(store) => script_fails(alloc, &mut Trial { host, store }),
        Err(StartFault::Host) => Ok(host.memory.bytes() == start),
        Err(_) => Ok(false),
    }
}

// How many calls the script makes on a host that doesn't fail.
fn calls_of(alloc: Global, start: &[u8]) -> Result<u64, AllocError> {
    let Some(mut trial) = opened(alloc, start)? else {
        return Ok(0);
    };
    for step in SCRIPT {
        answer_of(alloc, &mut trial, step)?;
    }
    Ok(trial.host.memory.calls())
}

fn each_call_fails(alloc: Global, start: &[u8], calls: u64) -> Result<bool, AllocError> {
    for call in 1..=calls {
        if !call_fails(alloc, start, call)? {
            return Ok(false);
        }
    }
    Ok(true)
}

#[test]
fn a_call_that_fails_is_told_and_leaves_a_commit(rt: HostRuntime) -> Result<(), Fail> {
    let start = started(rt.alloc())?.expect(&rt, "a store");
    let calls = calls_of(rt.alloc(), start.host.memory.bytes())?;
    assert!(rt; calls > 40);
    assert!(rt; each_call_fails(rt.alloc(), start.host.memory.bytes(), calls)?);
    Ok(())
}
