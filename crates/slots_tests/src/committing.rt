// Sessions are committed, and read again from the file.
ghost use Rattle.std.specs.Prelude.{◌≤◌};

use crate::trial::{Trial, attached, making, one_of, opened};
use oc_host::{Fill, MemHost};
use oc_layout::Space;
use oc_slots::{Side, SpaceFault};
use quiet_host::Quiet;
use std::alloc::{AllocError, Global};
use std::test::Fail;

// The store of the file as it is now.
fn reopened(alloc: Global, bytes: &[u8]) -> Result<Option<Trial>, AllocError> {
    opened(alloc, bytes, &making(1300, None))
}

// Whether each object has its bytes on both sides: so many of its value, or none.
fn have(trial: &mut Trial, rows: &[(u32, u8, usize)]) -> bool {
    for row in rows {
        let (number, value, len) = *row;
        if !trial.has_both(number, value, len) {
            return false;
        }
    }
    true
}

fn first_commit(alloc: Global, trial: &mut Trial) -> Result<bool, AllocError> {
    Ok(
        trial.change(alloc, 1, 7, 20)?
            && trial.commit(alloc).is_ok()
            && trial.len() == 1188
            && trial.stands(16, &[0, 0, 0, 148, 0, 0, 4, 0])
            && trial.stands(32, &[0, 0, 4, 148, 0, 0, 0, 16]),
    )
}

// The place of the first log is used again.
fn second_commit(alloc: Global, trial: &mut Trial) -> Result<bool, AllocError> {
    let log = [0, 0, 0, 1, 0, 0, 0, 172, 0, 0, 4, 164, 0, 0, 0, 20];
    Ok(
        trial.change(alloc, 2, 8, 20)?
            && trial.commit(alloc).is_ok()
            && trial.len() == 1208
            && trial.stands(1172, &log),
    )
}

#[test]
fn a_commit_places_pages_and_a_log(rt: HostRuntime) -> Result<(), Fail> {
    let alloc = rt.alloc();
    let mut trial = opened(alloc, &[], &making(1300, None))?.expect(&rt, "a container");
    assert!(rt; first_commit(alloc, &mut trial)?);
    assert!(rt; second_commit(alloc, &mut trial)?);
    assert!(rt; have(&mut trial, &[(1, 7, 20), (2, 8, 20)]));
    let mut again = reopened(alloc, trial.host.memory.bytes())?.expect(&rt, "a container");
    assert!(rt; have(&mut again, &[(1, 7, 20), (2, 8, 20)]));
    Ok(())
}

fn full(answer: Result<(), SpaceFault>) -> Option<(u64, u32, u32)> {
    match answer {
        Err(SpaceFault::Full { need, len, limit }) => Some((need, len, limit)),
        _ => None,
    }
}

fn is_full(alloc: Global, trial: &mut Trial) -> Result<bool, AllocError> {
    Ok(
        trial.change(alloc, 1, 7, 20)?
            && full(trial.commit(alloc)) == Some((16, 1172, 1187))
            && trial.has(Side::Session, 1, 7, 20)
            && trial.has(Side::Committed, 1, 0, 0),
    )
}

fn is_as_before(alloc: Global, trial: &mut Trial) -> bool {
    trial.store.rollback();
    trial.has_both(1, 0, 0) && trial.commit(alloc).is_ok() && trial.len() == 148
}

#[test]
fn a_commit_without_room_changes_nothing(rt: HostRuntime) -> Result<(), Fail> {
    let alloc = rt.alloc();
    let mut trial = opened(alloc, &[], &making(1187, None))?.expect(&rt, "a container");
    assert!(rt; is_full(alloc, &mut trial)?);
    assert!(rt; is_as_before(alloc, &mut trial));
    Ok(())
}

// The lengths of the file after a change of this slot, and after its commit.
fn lengths_of_a_commit(
    alloc: Global,
    trial: &mut Trial,
    number: u32,
    len: usize,
) -> Result<Option<(usize, usize)>, AllocError>
    requires { (1 ≤ number) × (number ≤ 2147483646) }
{
    let is_there = trial.change(alloc, number, 7, len)?;
    let changed = trial.len();
    if is_there && trial.commit(alloc).is_ok() {
        Ok(Some((changed, trial.len())))
    } else {
        Ok(None)
    }
}

// The lengths of the file after a change, its commit, and another change and commit.
fn lengths_of_two(alloc: Global, trial: &mut Trial) -> Result<Option<[usize; 4]>, AllocError> {
    let Some((first, second)) = lengths_of_a_commit(alloc, trial, 1, 20)? else {
        return Ok(None);
    };
    let Some((third, fourth)) = lengths_of_a_commit(alloc, trial, 2, 30)? else {
        return Ok(None);
    };
    Ok(Some([first, second, third, fourth]))
}

// The same in blocks of so many bytes.
fn lengths_in_blocks(alloc: Global, block: u32) -> Result<Option<[usize; 4]>, AllocError>
    requires { (1 ≤ block) × (block ≤ 127) }
{
    match opened(alloc, &[], &making(128, Some(block)))? {
        Some(mut trial) => lengths_of_two(alloc, &mut trial),
        None => Ok(None),
    }
}

#[test]
fn things_stand_at_blocks(rt: HostRuntime) -> Result<(), Fail> {
    let alloc = rt.alloc();
    assert_eq!(rt;
        lengths_in_blocks(alloc, 16)?,
        Some([148, 1204, 1214, 1236])
    );
    assert_eq!(rt;
        lengths_in_blocks(alloc, 64)?,
        Some([148, 1236, 1246, 1300])
    );
    Ok(())
}

// What a commit of one slot of so many bytes answers in 128 blocks.
fn full_in_blocks(
    alloc: Global,
    block: u32,
    len: usize,
) -> Result<Option<(u64, u32, u32)>, AllocError>
    requires { (1 ≤ block) × (block ≤ 127) }
{
    match opened(alloc, &[], &making(128, Some(block)))? {
        Some(mut trial) => Ok(full(trial.commit_with(alloc, 1, 7, len)?)),
        None => Ok(None),
    }
}

#[test]
fn a_commit_is_full_by_blocks(rt: HostRuntime) -> Result<(), Fail> {
    let alloc = rt.alloc();
    assert_eq!(rt; full_in_blocks(alloc, 16, 900)?, Some((64, 65, 128)));
    assert_eq!(rt; full_in_blocks(alloc, 64, 7200)?, Some((16, 115, 128)));
    assert_eq!(rt; full_in_blocks(alloc, 16, 870)?, Some((2, 127, 128)));
    assert_eq!(rt; full_in_blocks(alloc, 16, 860)?, None);
    Ok(())
}

// ---- stops and faults

// Commits object 1 by a change, then object 2 as the last change in place of object 1. The calls on the host when each was done.
fn two_commits(alloc: Global, trial: &mut Trial) -> Result<Option<[u64; 2]>, AllocError> {
    if !trial.change(alloc, 1, 7, 20)? || trial.commit(alloc).is_err() {
        return Ok(None);
    }
    let first = trial.host.memory.calls();
    if !trial.change(alloc, 1, 9, 33)? || trial.commit_with(alloc, 2, 8, 40)?.is_err() {
        return Ok(None);
    }
    Ok(Some([first, trial.host.memory.calls()]))
}

// A store after two commits.
fn committed_twice(alloc: Global) -> Result<Option<(Trial, [u64; 2])>, AllocError> {
    match opened(alloc, &[], &making(4096, None))? {
        Some(mut trial) => {
            let calls = two_commits(alloc, &mut trial)?;
            Ok(calls.map(|calls| (trial, calls)))
        }
        None => Ok(None),
    }
}

// What the two objects have after no commit, one and two.
const SHOWN: &[(u32, &[(u32, u8, usize)])] = &[
    (0, &[(1, 0, 0), (2, 0, 0)]),
    (1, &[(1, 7, 20), (2, 0, 0)]),
    (2, &[(1, 9, 33), (2, 8, 40)]),
];

// How many commits a file with these bytes shows, if it opens and shows just those of some commit.
fn commits_in(alloc: Global, bytes: &[u8]) -> Result<Option<u32>, AllocError> {
    let Some(mut trial) = reopened(alloc, bytes)? else {
        return Ok(None);
    };
    for (count, rows) in SHOWN {
        if have(&mut trial, rows) {
            return Ok(Some(*count));
        }
    }
    Ok(None)
}

// Whether the file is one that is being made, or shows the commits that were done, and perhaps the one under way.
fn is_whole(alloc: Global, bytes: &[u8], done: u32) -> Result<bool, AllocError> {
    let shown = commits_in(alloc, bytes)?;
    Ok(bytes.len() <= 128 || shown == Some(done) || shown == Some(done.saturating_add(1)))
}

const FILLS: &[Fill] = &[
    Fill::Kept,
    Fill::Lost,
    Fill::Byte(0),
    Fill::Byte(1),
    Fill::Byte(2),
    Fill::Byte(255),
];

// The file that is left where the host stops in this call, if there was such a call.
fn left_at(
    alloc: Global,
    host: &Quiet,
    call: u64,
    fill: Fill,
) -> Result<Option<Vec<u8>>, AllocError> {
    if call == 0 || call > host.memory.calls() {
        return Ok(None);
    }
    Ok(Some(host.memory.image(alloc, call, fill)?))
}

// Whether the file is whole where the host stops in this call, whatever becomes of what wasn't synced.
fn stops_whole(alloc: Global, host: &Quiet, call: u64, done: u32) -> Result<bool, AllocError> {
    for fill in FILLS {
        let Some(image) = left_at(alloc, host, call, *fill)? else {
            return Ok(false);
        };
        if !is_whole(alloc, &image, done)? {
            return Ok(false);
        }
    }
    Ok(true)
}

#[test]
fn a_stop_leaves_the_last_commit_or_the_one_under_way(rt: HostRuntime) -> Result<(), Fail> {
    let alloc = rt.alloc();
    let (trial, [first, last]) = committed_twice(alloc)?.expect(&rt, "two commits");
    for call in 1..=last {
        let done = if call <= first { 0 } else { 1 };
        assert!(rt; stops_whole(alloc, &trial.host, call, done)?);
    }
    Ok(())
}

// A host in memory of which this call fails.
fn failing(alloc: Global, call: u64) -> Result<Quiet, AllocError> {
    let mut fails = Vec::new(alloc);
    fails.push(call)?;
    Ok(Quiet::of(MemHost::new(alloc, Vec::new(alloc), fails)?))
}

// The file after the two commits, if one of them is told to have failed.
fn left_by(alloc: Global, trial: &mut Trial) -> Result<Option<Vec<u8>>, AllocError> {
    match two_commits(alloc, trial)? {
        Some(_) => Ok(None),
        None => Ok(Some(trial.host.memory.bytes().to_vec(alloc)?)),
    }
}

// The file of a run with two commits in which this call fails, if the run is told of it.
fn failed(alloc: Global, call: u64) -> Result<Option<Vec<u8>>, AllocError> {
    let host = failing(alloc, call)?;
    match attached(alloc, host, &making(4096, None)) {
        Some(mut trial) => left_by(alloc, &mut trial),
        None => Ok(Some(Vec::new(alloc))),
    }
}

#[test]
fn a_call_that_fails_leaves_a_commit(rt: HostRuntime) -> Result<(), Fail> {
    let alloc = rt.alloc();
    let (_, [first, last]) = committed_twice(alloc)?.expect(&rt, "two commits");
    for call in 1..=last {
        let bytes = failed(alloc, call)?.expect(&rt, "a fault");
        let done = if call <= first { 0 } else { 1 };
        assert!(rt; is_whole(alloc, &bytes, done)?);
    }
    Ok(())
}

// ---- a run without a pattern

// A number that looks drawn at random, and the next one.
fn next(seed: u64) -> u64 {
    seed.wrapping_mul(6_364_136_223_846_793_005)
        .wrapping_add(1_442_695_040_888_963_407)
}

const SLOTS: usize = 40;

// What each of the slots has: so many bytes of this value.
type Shadow = [(u8, usize); SLOTS];

// Both sides, and the number that the next step is drawn from.
#[derive(Drop)]
struct Sides {
    committed: Shadow,
    session: Shadow,
    seed: u64,
}

fn is_like(trial: &mut Trial, side: Side, shadow: &Shadow) -> bool {
    for slot in 0..SLOTS {
        let (value, len) = shadow[slot];
        if !trial.has(side, slot as u32 + 1, value, len) {
            return false;
        }
    }
    true
}

fn is_read_again(alloc: Global, trial: &Trial, shadow: &Shadow) -> Result<bool, AllocError> {
    match reopened(alloc, trial.host.memory.bytes())? {
        Some(mut again) => Ok(is_like(&mut again, Side::Session, shadow)),
        None => Ok(false),
    }
}

// Changes a slot, commits one, or gives up the session, in the file and in the shadows alike, and tells whether the file took it.
fn go(alloc: Global, trial: &mut Trial, sides: &mut Sides, value: u8) -> Result<bool, AllocError> {
    sides.seed = next(sides.seed);
    let slot = (sides.seed >> 33) as usize % SLOTS;
    let len = (sides.seed >> 20) as usize % 60;
    let number = slot as u32 + 1;
    match (sides.seed >> 40) % 4 {
        0 | 1 => {
            sides.session[slot] = (value, len);
            trial.change(alloc, number, value, len)
        }
        2 => {
            sides.session[slot] = (value, len);
            sides.committed = sides.session;
            let is_done = trial.commit_with(alloc, number, value, len)?.is_ok();
            Ok(is_done && is_read_again(alloc, trial, &sides.committed)?)
        }
        _ => {
            sides.session = sides.committed;
            trial.store.rollback();
            Ok(true)
        }
    }
}

#[test]
fn many_steps_are_those_of_two_maps(rt: HostRuntime) -> Result<(), Fail> {
    let alloc = rt.alloc();
    let mut trial = opened(alloc, &[], &making(100_000, None))?.expect(&rt, "a container");
    let mut sides = Sides {
        committed: [(0, 0); SLOTS],
        session: [(0, 0); SLOTS],
        seed: 7,
    };
    for value in 1..=30_u8 {
        assert!(rt; go(alloc, &mut trial, &mut sides, value)?);
        assert!(rt; is_like(&mut trial, Side::Session, &sides.session));
        assert!(rt; is_like(&mut trial, Side::Committed, &sides.committed));
    }
    Ok(())
}

// ---- cut files

// Commits slots of 32, 10 and 63 bytes, of which the last is that of the commit, and tells whether that was done.
fn commit_three(alloc: Global, trial: &mut Trial) -> Result<bool, AllocError> {
    let are_there = trial.change(alloc, 1, 7, 32)? && trial.change(alloc, 2, 7, 10)?;
    let last = one_of(alloc, Space::System, 1, 8, 63)?;
    let Trial { host, store } = trial;
    Ok(are_there && store.commit(host, last).is_ok())
}

// Whether the file is refused where it is cut within its slots or pages, and else opens with the first object, which an empty one hasn't.
fn is_cut_right(alloc: Global, bytes: &[u8]) -> Result<bool, AllocError> {
    let is_file = bytes.is_empty() || bytes.len() >= 2281;
    match reopened(alloc, bytes)? {
        Some(mut trial) => {
            let expected = if bytes.is_empty() { 0 } else { 32 };
            Ok(is_file && trial.has_both(1, 7, expected))
        }
        None => Ok(!is_file),
    }
}

#[test]
fn a_file_that_is_cut_is_refused(rt: HostRuntime) -> Result<(), Fail> {
    let alloc = rt.alloc();
    let mut whole = opened(alloc, &[], &making(100_000, None))?.expect(&rt, "a container");
    assert!(rt; commit_three(alloc, &mut whole)?);
    let bytes = whole.host.memory.bytes();
    assert_eq!(rt; bytes.len(), 2297);
    for len in 0..=bytes.len() {
        let (cut, _) = bytes.split_at(len);
        assert!(rt; is_cut_right(alloc, cut)?);
    }
    Ok(())
}
