// Stores are attached: the file of one class and one object, which lies at 128, with the extents at 160, the catalog at 170, the pages of the
// objects and of the system at 233 and 1,257, and a closed log behind them.
ghost use Rattle.oc_slots.specs.Attaching.{IsMaking};

use oc_host::MemHost;
use oc_layout::{Cell, Header, write_cell, write_header};
use oc_store::{Making, ReadFault, Side, Space, StartFault, Store};
use std::alloc::{AllocError, Global};
use std::test::Fail;

const NO_CELL: Cell = Cell { at: 0, len: 0 };

const HEADER: Header = Header {
    limit: 2_147_483_647,
    first: 1,
    root: Cell {
        at: 1257,
        len: 1024,
    },
    log: Cell { at: 2281, len: 16 },
    gate: 0,
    block: 0,
    block_limit: 0,
    block_root: NO_CELL,
    spare: NO_CELL,
    form: 0,
};

const PLAIN: Making = Making {
    limit: 2_147_483_647,
    first: 1,
    anew: false,
    block: None,
};

const RECORD: &[u8] =
    b"\0\0\0\x01\0\x02\0\0\0\x01\x06\x01\0\0\0\x07Michael\0\0\0\x02\x04\0\0\0\x64";

const EXTENTS: &[u8] = b"\0\x01\0\0\0\x01\0\0\0\x01";

const CATALOG: &[u8] =
    b"\x01\0\0\0\x02\0\0\0\x03\0\x01\0\0\0\0\x05Pilot\0\x02\0\0\0\x01\x01\x06\x04name\0\0\0\x02\x01\x04\x06points\0\0\0\x01\0\0\0\0\0\0\0\x01\0\0\0\x02";

fn put(bytes: &mut Vec<u8>, at: usize, piece: &[u8]) {
    let len = bytes.len();
    if at <= len && piece.len() <= len - at {
        bytes[at..at + piece.len()].copy_from_slice(piece);
    }
}

fn cell(at: u32, len: u32) -> [u8; 8] {
    write_cell(Cell { at, len })
}

// The file of 2,297 bytes.
fn file(alloc: Global) -> Result<Vec<u8>, AllocError> {
    let mut bytes = vec![in alloc; 0; 2297]?;
    put(&mut bytes, 0, &write_header(&HEADER));
    put(&mut bytes, 128, RECORD);
    put(&mut bytes, 160, EXTENTS);
    put(&mut bytes, 170, CATALOG);
    // the page of the objects, with number 1
    put(&mut bytes, 241, &[0, 0, 0, 1]);
    put(&mut bytes, 249, &cell(128, 32));
    // the page of the system, in front of it, with the catalog and the extents
    put(&mut bytes, 1257, &cell(233, 1024));
    put(&mut bytes, 1265, &[0, 0, 0, 2]);
    put(&mut bytes, 1273, &cell(170, 63));
    put(&mut bytes, 1281, &cell(160, 10));
    put(
        &mut bytes,
        2281,
        b"\0\0\0\x01\0\0\0\x10\0\0\x04\xe9\0\0\x04\0",
    );
    Ok(bytes)
}

fn host_of(alloc: Global, bytes: &[u8]) -> Result<MemHost, AllocError> {
    let mut start = Vec::new(alloc);
    start.extend_from_slice(bytes)?;
    MemHost::new(alloc, start, Vec::new(alloc))
}

// What a store tells of itself.
#[derive(Clone, Copy)]
struct Shown {
    next: u32,
    header: Header,
    classes: u32,
    next_field: u32,
    committed: Option<u32>,
    session: Option<u32>,
    absent: Option<u32>,
    listed: Option<u32>,
}

fn shown_of(store: &Store) -> Shown {
    Shown {
        next: store.next(),
        header: store.header(),
        classes: store.schema(Side::Committed).len(),
        next_field: store.schema(Side::Session).next_field(),
        committed: store.class_of(Side::Committed, 1),
        session: store.class_of(Side::Session, 1),
        absent: store.class_of(Side::Session, 2),
        listed: store.indexes().extents().class_of(1),
    }
}

// The store that the file stands for, or why there is none.
fn attached(
    alloc: Global,
    bytes: &[u8],
    making: &Making,
) -> Result<Result<Shown, StartFault>, AllocError>
    requires { IsMaking making.now }
{
    let mut host = host_of(alloc, bytes)?;
    Ok(match Store::attach(alloc, &mut host, making) {
        Ok(store) => Ok(shown_of(&store)),
        Err(fault) => Err(fault),
    })
}

// The next number of the store.
fn next_of(
    alloc: Global,
    bytes: &[u8],
    making: &Making,
) -> Result<Result<u32, StartFault>, AllocError>
    requires { IsMaking making.now }
{
    let answer = attached(alloc, bytes, making)?;
    Ok(match answer {
        Ok(shown) => Ok(shown.next),
        Err(fault) => Err(fault),
    })
}

// The class of an object's record, and how many entries it has.
fn fetched(
    alloc: Global,
    bytes: &[u8],
    side: Side,
    number: u32,
) -> Result<Result<Option<(u32, usize)>, ReadFault>, Fail> {
    let mut host = host_of(alloc, bytes)?;
    let mut store = Store::attach(alloc, &mut host, &PLAIN)?;
    Ok(match store.fetch(&mut host, side, number) {
        Ok(Some(rec)) => Ok(Some((rec.class, rec.entries.as_slice().len()))),
        Ok(None) => Ok(None),
        Err(fault) => Err(fault),
    })
}

fn is_damaged(answer: Result<u32, StartFault>, number: u32) -> bool {
    answer
        == Err(StartFault::Damaged {
            space: Space::System,
            number,
        })
}

#[test]
fn a_store_is_attached(rt: HostRuntime) -> Result<(), Fail> {
    let bytes = file(rt.alloc())?;
    let shown = attached(rt.alloc(), &bytes, &PLAIN)??;
    assert_eq!(rt; (shown.next, shown.classes, shown.next_field), (2, 1, 3));
    assert_eq!(rt; shown.header, HEADER);
    assert_eq!(rt;
        (shown.committed, shown.session, shown.listed),
        (Some(1), Some(1), Some(1))
    );
    assert_eq!(rt; shown.absent, None);
    Ok(())
}

#[test]
fn a_record_is_read(rt: HostRuntime) -> Result<(), Fail> {
    let bytes = file(rt.alloc())?;
    for side in [Side::Committed, Side::Session] {
        let found = fetched(rt.alloc(), &bytes, side, 1)?;
        assert_eq!(rt; found, Ok(Some((1, 2))));
        let none = fetched(rt.alloc(), &bytes, side, 2)?;
        assert_eq!(rt; none, Ok(None));
    }
    Ok(())
}

#[test]
fn a_damaged_record_is_told_when_it_is_read(rt: HostRuntime) -> Result<(), Fail> {
    let damage = ReadFault::Damaged {
        space: Space::Objects,
        number: 1,
    };
    for (at, piece) in [
        // the length of the text, the class, and the kind of a field
        (140, b"\xff\xff\xff\xff".as_slice()),
        (128, b"\0\0\0\x02"),
        (138, b"\x08"),
    ] {
        let mut bytes = file(rt.alloc())?;
        put(&mut bytes, at, piece);
        let found = fetched(rt.alloc(), &bytes, Side::Committed, 1)?;
        assert_eq!(rt; found, Err(damage));
    }
    Ok(())
}

#[test]
fn an_empty_file_is_an_empty_store(rt: HostRuntime) -> Result<(), Fail> {
    let making = Making { first: 7, ..PLAIN };
    assert_eq!(rt; next_of(rt.alloc(), &[], &making)?, Ok(7));
    assert_eq!(rt;
        next_of(rt.alloc(), &[0; 100], &making)?,
        Err(StartFault::NotAContainer)
    );
    Ok(())
}

#[test]
fn what_is_damaged_first_is_told(rt: HostRuntime) -> Result<(), Fail> {
    for (at, piece, number) in [
        // the catalog: its first byte, the next number 0 and 1, a list of a field that has no index
        (170, b"\x02".as_slice(), 1),
        (171, b"\0\0\0\0", 1),
        (171, b"\0\0\0\x01", 1),
        (221, b"\0\0\0\x01", 1),
        // the catalog names segment 3, which isn't there
        (229, b"\0\0\0\x03", 3),
        // the extents: no entry, a class that isn't there, another object
        (160, b"\0\0", 2),
        (166, b"\0\0\0\x02", 2),
        (162, b"\0\0\0\x02", 1),
    ] {
        let mut bytes = file(rt.alloc())?;
        put(&mut bytes, at, piece);
        let answer = next_of(rt.alloc(), &bytes, &PLAIN)?;
        assert!(rt; is_damaged(answer, number), "at {at}");
    }
    Ok(())
}

// Whether the bytes are refused as no container, and are as before.
fn is_refused(alloc: Global, bytes: &[u8]) -> Result<bool, AllocError> {
    let mut host = host_of(alloc, bytes)?;
    Ok(match Store::attach(alloc, &mut host, &PLAIN) {
        Err(StartFault::NotAContainer) => host.bytes() == bytes,
        _ => false,
    })
}

#[test]
fn what_is_no_container_is_refused(rt: HostRuntime) -> Result<(), Fail> {
    for (at, piece) in [
        // the header: its first word, the form's number, the limit, and bytes that are to be 0
        (0, b"\x58".as_slice()),
        (4, b"\x02"),
        (8, b"\xff"),
        (24, b"\x01"),
        (127, b"\x01"),
        // the first page's link names that page
        (1257, b"\0\0\x04\xe9\0\0\x04\0"),
    ] {
        let mut bytes = file(rt.alloc())?;
        put(&mut bytes, at, piece);
        assert!(rt; is_refused(rt.alloc(), &bytes)?, "at {at}");
    }
    Ok(())
}

#[test]
fn what_is_not_read_may_be_anything(rt: HostRuntime) -> Result<(), Fail> {
    for (at, piece) in [(32, b"\xff".as_slice()), (64, b"\x07")] {
        let mut bytes = file(rt.alloc())?;
        put(&mut bytes, at, piece);
        let shown = attached(rt.alloc(), &bytes, &PLAIN)??;
        assert_eq!(rt;
            (shown.next, shown.session, shown.listed),
            (2, Some(1), Some(1))
        );
    }
    Ok(())
}

#[test]
fn a_file_may_lack_its_closed_log(rt: HostRuntime) -> Result<(), Fail> {
    let bytes = file(rt.alloc())?;
    for len in [1, 127, 128, 1256, 2280] {
        let (cut, _) = bytes.split_at(len.min(bytes.len()));
        assert!(rt; is_refused(rt.alloc(), cut)?, "{len}");
    }
    for len in [2281, 2296, 2297] {
        let (cut, _) = bytes.split_at(len.min(bytes.len()));
        assert_eq!(rt; next_of(rt.alloc(), cut, &PLAIN)?, Ok(2), "{len}");
    }
    Ok(())
}
