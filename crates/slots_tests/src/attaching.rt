// Files are attached: empty ones, short ones, and one of 1,200 bytes with a page at 128 and a slot of five bytes at 1,152.
ghost use Rattle.oc_slots.specs.Attaching.{IsMaking};

use oc_host::MemHost;
use oc_layout::{Cell, CellWrite, Header, write_cell, write_header, write_log};
use oc_slots::{AttachFault, Making, SlotStore};
use std::alloc::{AllocError, Global};
use std::test::Fail;

const NO_CELL: Cell = Cell { at: 0, len: 0 };

const EMPTY: Header = Header {
    limit: 2_147_483_647,
    first: 1,
    root: NO_CELL,
    log: NO_CELL,
    gate: 0,
    block: 0,
    block_limit: 0,
    block_root: NO_CELL,
    spare: NO_CELL,
    form: 0,
};

const PAGE: Cell = Cell { at: 128, len: 1024 };

const SLOT: Cell = Cell { at: 1152, len: 5 };

const LOG: Cell = Cell { at: 1160, len: 16 };

const WITH_PAGE: Header = Header {
    root: PAGE,
    ..EMPTY
};

const PLAIN: Making = Making {
    limit: 2_147_483_647,
    first: 1,
    anew: false,
    block: None,
};

fn put(bytes: &mut Vec<u8>, at: usize, piece: &[u8]) {
    let len = bytes.len();
    if at <= len && piece.len() <= len - at {
        bytes[at..at + piece.len()].copy_from_slice(piece);
    }
}

// The file with this header.
fn file_with(alloc: Global, header: &[u8]) -> Result<Vec<u8>, AllocError> {
    let mut bytes = vec![in alloc; 0; 1200]?;
    put(&mut bytes, 0, header);
    put(&mut bytes, 139, &[1]);
    put(&mut bytes, 144, &write_cell(SLOT));
    put(&mut bytes, 1152, b"Pilot");
    Ok(bytes)
}

pub fn file(alloc: Global) -> Result<Vec<u8>, AllocError> {
    file_with(alloc, &write_header(&WITH_PAGE))
}

// What comes of attaching the file, and the file then.
fn outcome(
    alloc: Global,
    bytes: &[u8],
    making: &Making,
) -> Result<(Result<Header, AttachFault>, Vec<u8>), AllocError>
    requires { IsMaking making.now }
{
    let mut start = Vec::new(alloc);
    start.extend_from_slice(bytes)?;
    let mut host = MemHost::new(alloc, start, Vec::new(alloc))?;
    let answer = match SlotStore::attach(alloc, &mut host, making) {
        Ok(store) => Ok(store.header()),
        Err(fault) => Err(fault),
    };
    let mut after = Vec::new(alloc);
    after.extend_from_slice(host.bytes())?;
    Ok((answer, after))
}

// Whether the file is refused and stays as it is.
fn is_refused(alloc: Global, bytes: &[u8]) -> Result<bool, AllocError> {
    let (answer, after) = outcome(alloc, bytes, &PLAIN)?;
    Ok(answer == Err(AttachFault::NotAContainer) && after.as_slice() == bytes)
}

#[test]
fn an_empty_file_is_made(rt: HostRuntime) -> Result<(), Fail> {
    let (answer, after) = outcome(rt.alloc(), &[], &PLAIN)?;
    assert_eq!(rt; answer, Ok(EMPTY));
    assert!(rt; after.as_slice() == write_header(&EMPTY).as_slice());
    Ok(())
}

#[test]
fn an_empty_file_is_made_in_blocks(rt: HostRuntime) -> Result<(), Fail> {
    let making = Making {
        block: Some(16),
        ..PLAIN
    };
    let (_, after) = outcome(rt.alloc(), &[], &making)?;
    assert_eq!(rt; after.len(), 128);
    assert!(rt; after.get(40..48) == Some(&[0, 0, 0, 16, 0x7f, 0xff, 0xff, 0xff][..]));
    assert!(rt; after.get(64..67) == Some(&[0, 2, 0][..]));
    Ok(())
}

#[test]
fn a_short_file_is_made_anew_only(rt: HostRuntime) -> Result<(), Fail> {
    let zeros = [0; 100];
    assert!(rt; is_refused(rt.alloc(), &zeros)?);
    let anew = Making {
        anew: true,
        ..PLAIN
    };
    let (answer, after) = outcome(rt.alloc(), &zeros, &anew)?;
    assert_eq!(rt; answer, Ok(EMPTY));
    assert_eq!(rt; after.len(), 128);
    Ok(())
}

#[test]
fn a_page_and_a_slot_are_attached(rt: HostRuntime) -> Result<(), Fail> {
    let bytes = file(rt.alloc())?;
    let (answer, after) = outcome(rt.alloc(), &bytes, &PLAIN)?;
    assert_eq!(rt; answer, Ok(WITH_PAGE));
    assert!(rt; after == bytes);
    Ok(())
}

#[test]
fn a_page_that_links_itself_is_refused(rt: HostRuntime) -> Result<(), Fail> {
    let mut bytes = file(rt.alloc())?;
    put(&mut bytes, 128, &write_cell(PAGE));
    assert!(rt; is_refused(rt.alloc(), &bytes)?);
    Ok(())
}

#[test]
fn a_pointer_without_a_length_is_refused(rt: HostRuntime) -> Result<(), Fail> {
    let mut bytes = file(rt.alloc())?;
    put(&mut bytes, 152, &write_cell(Cell { at: 1190, len: 0 }));
    assert!(rt; is_refused(rt.alloc(), &bytes)?);
    Ok(())
}

#[test]
fn slots_that_overlap_are_refused(rt: HostRuntime) -> Result<(), Fail> {
    let mut bytes = file(rt.alloc())?;
    put(&mut bytes, 152, &write_cell(Cell { at: 1156, len: 2 }));
    assert!(rt; is_refused(rt.alloc(), &bytes)?);
    put(&mut bytes, 152, &write_cell(Cell { at: 1157, len: 2 }));
    assert!(rt; !is_refused(rt.alloc(), &bytes)?);
    Ok(())
}

#[test]
fn a_file_over_its_limit_is_refused(rt: HostRuntime) -> Result<(), Fail> {
    let header = Header {
        limit: 1199,
        ..WITH_PAGE
    };
    let bytes = file_with(rt.alloc(), &write_header(&header))?;
    assert!(rt; is_refused(rt.alloc(), &bytes)?);
    Ok(())
}

// The file with an open log of one write.
fn with_log(alloc: Global, target: u32, cell: Cell) -> Result<Vec<u8>, AllocError> {
    let header = Header {
        log: LOG,
        gate: 1,
        ..WITH_PAGE
    };
    let mut bytes = file_with(alloc, &write_header(&header))?;
    let log = write_log(
        alloc,
        &[CellWrite {
            target: target as u64,
            cell,
        }],
        false,
    )?;
    put(&mut bytes, 1160, &log);
    Ok(bytes)
}

#[test]
fn a_log_beside_the_cells_is_refused(rt: HostRuntime) -> Result<(), Fail> {
    let bytes = with_log(rt.alloc(), 140, SLOT)?;
    assert!(rt; is_refused(rt.alloc(), &bytes)?);
    let behind = with_log(rt.alloc(), 1152, SLOT)?;
    assert!(rt; is_refused(rt.alloc(), &behind)?);
    Ok(())
}

#[test]
fn an_open_log_is_put_in(rt: HostRuntime) -> Result<(), Fail> {
    let moved = Cell { at: 1152, len: 4 };
    let bytes = with_log(rt.alloc(), 144, moved)?;
    let (answer, after) = outcome(rt.alloc(), &bytes, &PLAIN)?;
    assert_eq!(rt;
        answer,
        Ok(Header {
            log: LOG,
            ..WITH_PAGE
        })
    );
    assert!(rt; after.get(144..152) == Some(write_cell(moved).as_slice()));
    assert!(rt; after.get(64) == Some(&0));
    Ok(())
}

#[test]
fn an_open_log_may_bring_the_first_page(rt: HostRuntime) -> Result<(), Fail> {
    let header = Header {
        log: LOG,
        gate: 1,
        ..EMPTY
    };
    let mut bytes = with_log(rt.alloc(), 16, PAGE)?;
    put(&mut bytes, 0, &write_header(&header));
    let (answer, _) = outcome(rt.alloc(), &bytes, &PLAIN)?;
    assert_eq!(rt;
        answer,
        Ok(Header {
            log: LOG,
            ..WITH_PAGE
        })
    );
    Ok(())
}
