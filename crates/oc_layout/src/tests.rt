use crate::{
    Cell, CellWrite, Header, read_cell, read_header, read_log, write_cell, write_header, write_log,
};
use std::alloc::{AllocError, Global};
use std::test::Fail;

const NO_CELL: Cell = Cell { at: 0, len: 0 };

// The header of an empty container of format 1.
const EMPTY: Header = Header {
    limit: 2_147_483_647,
    first: 1,
    root: NO_CELL,
    log: NO_CELL,
    gate: 0,
    block: 0,
    block_limit: 0,
    block_root: NO_CELL,
    spare: NO_CELL,
    form: 0,
};

// The bytes with the four from `at` on replaced by these.
fn replaced(bytes: [u8; 128], at: usize, four: u32) -> [u8; 128] {
    let mut changed = bytes;
    if at <= 124 {
        changed[at..at + 4].copy_from_slice(&four.to_be_bytes());
    }
    changed
}

fn format_one() -> [u8; 128] {
    let named = replaced([0; 128], 0, 0x4f43_4442);
    let numbered = replaced(named, 4, 0x0101_0000);
    let limited = replaced(numbered, 8, 0x7fff_ffff);
    replaced(limited, 12, 1)
}

fn in_blocks() -> [u8; 128] {
    let sized = replaced(format_one(), 40, 16);
    let limited = replaced(sized, 44, 0x7fff_ffff);
    replaced(limited, 64, 0x0002_0000)
}

#[test]
fn an_empty_container_has_its_bytes(rt: HostRuntime) {
    assert_eq!(rt; write_header(&EMPTY), format_one());
    assert_eq!(rt; read_header(&format_one()), Some(EMPTY));
    assert_eq!(rt; (EMPTY.unit(), EMPTY.room()), (1, 2_147_483_647));
}

#[test]
fn block_form_has_its_bytes(rt: HostRuntime) {
    let header = Header {
        block: 16,
        block_limit: 2_147_483_647,
        form: 2,
        ..EMPTY
    };
    assert_eq!(rt; write_header(&header), in_blocks());
    assert_eq!(rt; read_header(&in_blocks()), Some(header));
    assert_eq!(rt; (header.unit(), header.room()), (16, 2_147_483_647));
}

#[test]
fn the_first_page_is_that_of_the_form(rt: HostRuntime) {
    for (bytes, at, want) in [
        (format_one(), 16, true),
        (format_one(), 48, false),
        (in_blocks(), 16, false),
        (in_blocks(), 48, true),
    ] {
        let page = read_header(&replaced(bytes, at, 300)).map(|header| header.first_page().at
            == 300);
        assert_eq!(rt; page, Some(want), "at {at}");
    }
}

#[test]
fn what_the_form_leaves_open_is_read(rt: HostRuntime) {
    for (at, four) in [
        (8, 128),
        (12, 0x7fff_fffe),
        (16, 7),
        (20, 7),
        (32, 7),
        (36, 7),
        (64, 0xff01_0000),
    ] {
        assert!(rt;
            read_header(&replaced(format_one(), at, four)).is_some(),
            "at {at}"
        );
    }
    for (at, four) in [(40, 128), (44, 127), (48, 7), (56, 7), (60, 7)] {
        assert!(rt;
            read_header(&replaced(format_one(), at, four)).is_some(),
            "at {at}"
        );
        assert_eq!(rt;
            read_header(&replaced(in_blocks(), at, four)).is_some(),
            at == 48,
            "in blocks at {at}"
        );
    }
}

#[test]
fn each_rule_of_the_header_is_asked(rt: HostRuntime) {
    for (at, four) in [
        (0, 0x4f43_4443),
        (4, 0x0201_0000),
        (4, 0x0102_0000),
        (4, 0x0101_0001),
        (8, 127),
        (8, 0x8000_0000),
        (12, 0),
        (12, 0x7fff_ffff),
        (24, 1),
        (28, 1),
        (64, 0x0000_0100),
        (124, 1),
    ] {
        assert_eq!(rt;
            read_header(&replaced(format_one(), at, four)),
            None,
            "at {at}"
        );
    }
    for (at, four) in [
        (40, 0),
        (40, 128),
        (44, 127),
        (44, 0x8000_0000),
        (56, 1),
        (60, 1),
        (124, 1),
    ] {
        assert_eq!(rt;
            read_header(&replaced(in_blocks(), at, four)),
            None,
            "in blocks at {at}"
        );
    }
}

#[test]
fn a_cell_is_its_place_and_its_length(rt: HostRuntime) {
    let cell = Cell { at: 300, len: 1024 };
    assert_eq!(rt; write_cell(cell), [0, 0, 1, 0x2c, 0, 0, 4, 0]);
    assert_eq!(rt; read_cell(&[0, 0, 1, 0x2c, 0, 0, 4, 0]), cell);
}

fn bytes_of(alloc: Global, numbers: &[u32]) -> Result<Vec<u8>, AllocError> {
    let mut bytes = Vec::new(alloc);
    for number in numbers {
        bytes.extend_from_slice(&number.to_be_bytes())?;
    }
    Ok(bytes)
}

#[test]
fn a_log_that_sets_the_root_cell_has_its_bytes(rt: HostRuntime) -> Result<(), Fail> {
    let writes = [CellWrite {
        target: 16,
        cell: Cell { at: 300, len: 1024 },
    }];
    for (wide, numbers) in [
        (false, [1, 16, 300, 1024].as_slice()),
        (true, [1, 0, 16, 300, 1024].as_slice()),
    ] {
        let bytes = bytes_of(rt.alloc(), numbers)?;
        assert_eq!(rt; write_log(rt.alloc(), &writes, wide)?, bytes);
        let found = read_log(rt.alloc(), &bytes, wide)?;
        assert_eq!(rt;
            found.as_ref().map(|cells| cells.as_slice()),
            Some(writes.as_slice())
        );
    }
    Ok(())
}

#[test]
fn each_rule_of_a_log_is_asked(rt: HostRuntime) -> Result<(), Fail> {
    for (wide, numbers, want) in [
        (false, [2, 16, 300, 1024, 17, 0, 0].as_slice(), true),
        (false, [2, 16, 300, 1024, 16, 0, 0].as_slice(), false),
        (false, [2, 17, 300, 1024, 16, 0, 0].as_slice(), false),
        (true, [2, 0, 16, 0, 0, 1, 0, 0, 0].as_slice(), true),
        (true, [2, 1, 0, 0, 0, 0, 16, 0, 0].as_slice(), false),
        (false, [0].as_slice(), false),
        (false, [1, 16, 300].as_slice(), false),
        (false, [1, 16, 300, 1024, 0].as_slice(), false),
        (true, [1, 16, 300, 1024].as_slice(), false),
    ] {
        let bytes = bytes_of(rt.alloc(), numbers)?;
        let found = read_log(rt.alloc(), &bytes, wide)?;
        assert_eq!(rt; found.is_some(), want, "{numbers:?}");
    }
    let short = read_log(rt.alloc(), &[0, 0, 0], false)?;
    assert!(rt; short.is_none());
    Ok(())
}
