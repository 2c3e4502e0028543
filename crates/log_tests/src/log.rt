// Three cells are put into a file of 200 bytes, each of them 7. Two of the cells touch.
ghost use Rattle.std.specs.Prelude.{◌≡◌, ◌+◌, ◌*◌};
ghost use Rattle.oc_layout.specs.Layout.{is_wide, write_len};

use oc_host::{Failed, Fill, MemHost};
use oc_layout::{Cell, CellWrite, Header, read_cell};
use oc_log::{Draft, LogFault, put_in, recover};
use quiet_host::Quiet;
use std::alloc::{AllocError, Global};
use std::test::Fail;

const NO_CELL: Cell = Cell { at: 0, len: 0 };

const FORMAT_ONE: Header = Header {
    limit: 1000,
    first: 1,
    root: NO_CELL,
    log: NO_CELL,
    gate: 7,
    block: 0,
    block_limit: 0,
    block_root: NO_CELL,
    spare: NO_CELL,
    form: 0,
};

// Blocks of 64 bytes. The file ends within its fourth block.
const IN_BLOCKS: Header = Header {
    block: 64,
    block_limit: 1000,
    form: 2,
    ..FORMAT_ONE
};

// The first byte behind the file, and the first block.
const BEHIND: u32 = 200;

const BEHIND_IN_BLOCKS: u32 = 4;

const WRITES: [CellWrite; 3] = [
    CellWrite {
        target: 136,
        cell: Cell { at: 1, len: 2 },
    },
    CellWrite {
        target: 144,
        cell: Cell { at: 3, len: 4 },
    },
    CellWrite {
        target: 190,
        cell: Cell { at: 5, len: 6 },
    },
];

const FILLS: [Fill; 6] = [
    Fill::Kept,
    Fill::Lost,
    Fill::Byte(0),
    Fill::Byte(1),
    Fill::Byte(2),
    Fill::Byte(255),
];

// A run over the file, in which the call with this number fails. A number past the last fails none.
fn run(
    alloc: Global,
    header: &Header,
    place: u32,
    fail: u64,
) -> Result<(Result<(), Failed>, Quiet), AllocError> {
    let file = vec![in alloc; 7; 200]?;
    let mut host = Quiet::of(MemHost::new(alloc, file, vec![in alloc; fail]?)?);
    let draft = Draft::of(alloc, header, WRITES.to_vec(alloc)?)?;
    let answer = put_in(&mut host, header, log_place(header, place), draft);
    Ok((answer, host))
}

// The place of a log of three cells.
fn log_place(header: &Header, at: u32) -> Cell
    ensures { result.len ≡ 4 + write_len (is_wide header.now) * 3 }
{
    let len = if header.is_wide() { 52 } else { 40 };
    Cell { at, len }
}

// A recovery of this file, in which the call with this number fails.
fn recovered(
    alloc: Global,
    form: &Header,
    file: Vec<u8>,
    fail: u64,
) -> Result<(Result<bool, LogFault>, Quiet), AllocError> {
    let header = header_of(form, &file);
    let mut host = Quiet::of(MemHost::new(alloc, file, vec![in alloc; fail]?)?);
    let answer = recover(alloc, &mut host, &header);
    Ok((answer, host))
}

// The header with the log cell and the gate of the file.
fn header_of(form: &Header, file: &[u8]) -> Header {
    if file.len() < 128 {
        return *form;
    }
    let log = [
        file[32], file[33], file[34], file[35], file[36], file[37], file[38], file[39],
    ];
    Header {
        log: read_cell(&log),
        gate: file[64],
        ..*form
    }
}

// What stands behind the header, up to the old end.
fn body(file: &[u8]) -> &[u8] {
    if file.len() < 200 {
        return &file[..0];
    }
    &file[128..200]
}

#[test]
fn cells_are_put_in_behind_the_end(rt: HostRuntime) -> Result<(), Fail> {
    let (answer, host) = run(rt.alloc(), &FORMAT_ONE, BEHIND, 0)?;
    assert_eq!(rt; answer, Ok(()));
    assert_eq!(rt; host.memory.calls(), 11);
    let file = host.memory.bytes();
    assert_eq!(rt; file.len(), 240);
    assert!(rt; file.len() == 240 && file[64] == 0);
    let cells = [0, 0, 0, 1, 0, 0, 0, 2, 0, 0, 0, 3, 0, 0, 0, 4];
    assert_eq!(rt; &file[136..152], cells.as_slice());
    assert_eq!(rt; &file[152..160], [7; 8].as_slice());
    assert_eq!(rt; &file[190..198], [0, 0, 0, 5, 0, 0, 0, 6].as_slice());
    assert_eq!(rt; &file[32..40], [0, 0, 0, 200, 0, 0, 0, 40].as_slice());
    Ok(())
}

#[test]
fn a_log_begins_at_the_next_block(rt: HostRuntime) -> Result<(), Fail> {
    let (answer, host) = run(rt.alloc(), &IN_BLOCKS, BEHIND_IN_BLOCKS, 0)?;
    assert_eq!(rt; answer, Ok(()));
    assert_eq!(rt; host.memory.calls(), 11);
    let file = host.memory.bytes();
    assert!(rt; file.len() == 308);
    assert_eq!(rt; &file[200..256], [0; 56].as_slice());
    assert_eq!(rt;
        &file[256..268],
        [0, 0, 0, 3, 0, 0, 0, 0, 0, 0, 0, 136].as_slice()
    );
    Ok(())
}

// How many stops of a run were tried, and at how many of them the cells weren't as they should: none of them or all,
// before the gate's write none, and after its sync all.
fn stops(alloc: Global, header: &Header, place: u32, fail: u64) -> Result<(u64, u64), AllocError> {
    let (_, whole) = run(alloc, header, place, 0)?;
    let after = body(whole.memory.bytes());
    let (_, host) = run(alloc, header, place, fail)?;
    let mut tried: u64 = 0;
    let mut wrong: u64 = 0;
    for call in 1..=host.memory.calls() {
        for fill in FILLS {
            if call < 1 || call > host.memory.calls() {
                return Ok((tried, wrong));
            }
            let image = host.memory.image(alloc, call, fill)?;
            let (answer, left) = recovered(alloc, header, image, 0)?;
            let none = body(left.memory.bytes()) == [7; 72].as_slice();
            let all = body(left.memory.bytes()) == after;
            let right = answer.is_ok() && ((none && call <= 6) || (all && call >= 5));
            tried = tried.saturating_add(1);
            wrong = wrong.saturating_add(if right { 0 } else { 1 });
        }
    }
    Ok((tried, wrong))
}

#[test]
fn each_stop_leaves_none_or_all(rt: HostRuntime) -> Result<(), Fail> {
    for (header, place) in [(FORMAT_ONE, BEHIND), (IN_BLOCKS, BEHIND_IN_BLOCKS)] {
        let counts = stops(rt.alloc(), &header, place, 0)?;
        assert_eq!(rt; counts, (66, 0));
    }
    Ok(())
}

#[test]
fn so_does_each_stop_of_a_run_that_fails(rt: HostRuntime) -> Result<(), Fail> {
    for fail in 1..=11 {
        let (answer, host) = run(rt.alloc(), &FORMAT_ONE, BEHIND, fail)?;
        assert_eq!(rt; answer, Err(Failed), "{fail}");
        assert_eq!(rt; host.memory.calls(), fail);
        let (tried, wrong) = stops(rt.alloc(), &FORMAT_ONE, BEHIND, fail)?;
        assert!(rt; tried >= 6 && wrong == 0, "{fail}");
    }
    Ok(())
}

// The file after a stop in the first write of a cell.
fn with_open_log(alloc: Global) -> Result<Vec<u8>, AllocError> {
    let (_, host) = run(alloc, &FORMAT_ONE, BEHIND, 0)?;
    if host.memory.calls() < 7 {
        return Ok(Vec::new(alloc));
    }
    host.memory.image(alloc, 7, Fill::Byte(255))
}

#[test]
fn a_recovery_is_begun_again(rt: HostRuntime) -> Result<(), Fail> {
    let alloc = rt.alloc();
    let (_, whole) = run(alloc, &FORMAT_ONE, BEHIND, 0)?;
    let after = body(whole.memory.bytes());
    for fail in 0..=7 {
        let (answer, host) = recovered(alloc, &FORMAT_ONE, with_open_log(alloc)?, fail)?;
        let wanted = if fail == 0 {
            Ok(true)
        } else {
            Err(LogFault::Host)
        };
        assert_eq!(rt; answer, wanted, "{fail}");
        for call in 1..=host.memory.calls() {
            for fill in FILLS {
                assert!(rt; 1 <= call && call <= host.memory.calls());
                let image = host.memory.image(alloc, call, fill)?;
                let (answer, left) = recovered(alloc, &FORMAT_ONE, image, 0)?;
                assert!(rt; answer.is_ok(), "{fail} {call} {fill:?}");
                assert_eq!(rt; body(left.memory.bytes()), after, "{fail} {call} {fill:?}");
            }
        }
    }
    Ok(())
}

#[test]
fn an_open_gate_needs_a_log(rt: HostRuntime) -> Result<(), Fail> {
    let alloc = rt.alloc();
    // The byte that is changed: of the log's place, of its length, of its count, and of the gate.
    for (at, byte, wanted) in [
        (35, 201, Err(LogFault::NotALog)),
        (39, 39, Err(LogFault::NotALog)),
        (203, 2, Err(LogFault::NotALog)),
        (64, 2, Ok(false)),
        (152, 9, Ok(true)),
    ] {
        let mut file = with_open_log(alloc)?;
        assert!(rt; at < file.len());
        file[at] = byte;
        let (answer, host) = recovered(alloc, &FORMAT_ONE, file, 0)?;
        assert_eq!(rt; answer, wanted, "{at}");
        let calls = if wanted == Ok(true) { 7 } else { 2 };
        assert!(rt; host.memory.calls() <= calls, "{at}");
    }
    Ok(())
}
