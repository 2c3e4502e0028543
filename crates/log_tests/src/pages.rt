// Files with pages in them, of blocks of 1, 16 and 64 bytes.
ghost use Rattle.std.specs.Prelude.{IsTrue};
ghost use Rattle.oc_log.specs.Log.{AllWithin};

use oc_host::MemHost;
use oc_layout::{Cell, CellWrite, Space};
use oc_pages::{Pages, PagesFault};
use std::alloc::{AllocError, Global};
use std::test::Fail;

const NO_CELL: Cell = Cell { at: 0, len: 0 };

// The blocks of a file, and in each of some of them the first byte of a page.
const FILE: usize = 6144;

// A page of a file, by its bytes: where it begins, its link, its space and index, and one pointer.
#[derive(Clone, Copy)]
struct Row {
    at: u16,
    link: Cell,
    space: u8,
    index: u32,
    slot: u8,
    cell: Cell,
}

const OBJECTS: Row = Row {
    at: 2048,
    link: NO_CELL,
    space: 1,
    index: 0,
    slot: 4,
    cell: Cell { at: 3, len: 9 },
};

const SYSTEM: Row = Row {
    at: 4096,
    link: NO_CELL,
    space: 2,
    index: 2,
    slot: 125,
    cell: Cell { at: 5, len: 0 },
};

fn put_number(file: &mut [u8], at: usize, number: u32) {
    let bytes = number.to_be_bytes();
    for k in 0..4 {
        if let Some(place) = file.get_mut(at.saturating_add(k)) {
            *place = bytes[k];
        }
    }
}

fn put_row(file: &mut [u8], row: &Row) {
    let at = row.at as usize;
    for k in 0..128 {
        put_number(file, at + 8 * k, 0);
        put_number(file, at + 8 * k + 4, 0);
    }
    put_number(file, at, row.link.at);
    put_number(file, at + 4, row.link.len);
    put_number(file, at + 8, row.space as u32);
    put_number(file, at + 12, row.index);
    let cell = at + 16 + 8 * row.slot as usize;
    put_number(file, cell, row.cell.at);
    put_number(file, cell + 4, row.cell.len);
}

fn host_of(alloc: Global, rows: &[Row], fail: u64) -> Result<MemHost, AllocError> {
    let mut file = vec![in alloc; 7; FILE]?;
    for row in rows {
        put_row(&mut file, row);
    }
    MemHost::new(alloc, file, vec![in alloc; fail]?)
}

// The pages of a file, or why there are none.
fn read(
    alloc: Global,
    rows: &[Row],
    root: Cell,
    unit: u32,
    fail: u64,
) -> Result<Result<Pages, PagesFault>, AllocError> {
    let mut host = host_of(alloc, rows, fail)?;
    Ok(Pages::load(alloc, &mut host, root, unit))
}

// The same, without the pages.
fn answer(
    alloc: Global,
    rows: &[Row],
    root: Cell,
    fail: u64,
) -> Result<Option<PagesFault>, AllocError> {
    match read(alloc, rows, root, 1, fail)? {
        Ok(_) => Ok(None),
        Err(fault) => Ok(Some(fault)),
    }
}

fn page_at(at: u32) -> Cell {
    Cell { at, len: 1024 }
}

// A page of objects that leads to one of the system, in blocks of so many bytes.
fn both(
    alloc: Global,
    unit: u32,
    first: u32,
    second: u32,
) -> Result<Result<Pages, PagesFault>, AllocError> {
    let front = Row {
        link: page_at(second),
        ..OBJECTS
    };
    read(alloc, &[front, SYSTEM], page_at(first), unit, 0)
}

#[test]
fn pointers_of_both_spaces_are_read(rt: HostRuntime) -> Result<(), Fail> {
    for (unit, first, second) in [(1, 2048, 4096), (16, 128, 256), (64, 32, 64)] {
        let pages = both(rt.alloc(), unit, first, second)?.expect(&rt, "two pages");
        assert_eq!(rt; pages.unit(), unit);
        assert_eq!(rt; pages.first(), page_at(first));
        for (space, number, pointer, target) in [
            (Space::Objects, 0, None, None),
            (Space::Objects, 1, None, Some(2064)),
            (Space::Objects, 5, Some(Cell { at: 3, len: 9 }), Some(2096)),
            (Space::Objects, 126, None, Some(3064)),
            (Space::Objects, 127, None, None),
            (Space::System, 5, None, None),
            (Space::System, 378, Some(Cell { at: 5, len: 0 }), Some(5112)),
        ] {
            assert_eq!(rt; pages.pointer(space, number), pointer, "of {number}");
            assert_eq!(rt; pages.target(space, number), target, "of {number}");
        }
    }
    Ok(())
}

#[test]
fn what_pages_name_is_listed(rt: HostRuntime) -> Result<(), Fail> {
    let pages = both(rt.alloc(), 1, 2048, 4096)?.expect(&rt, "two pages");
    let numbers = pages.numbers(rt.alloc(), Space::System)?;
    assert_eq!(rt; numbers.as_slice(), [378].as_slice());
    let used = pages.used(rt.alloc())?;
    let things = [
        page_at(2048),
        Cell { at: 3, len: 9 },
        page_at(4096),
        Cell { at: 5, len: 0 },
    ];
    assert_eq!(rt; used.as_slice(), things.as_slice());
    Ok(())
}

#[test]
fn missing_pages_are_found(rt: HostRuntime) -> Result<(), Fail> {
    let pages = both(rt.alloc(), 1, 2048, 4096)?.expect(&rt, "two pages");
    let missing = pages.missing(rt.alloc(), Space::Objects, &[400, 126, 253, 127, 378, 1])?;
    assert_eq!(rt; missing.as_slice(), [1, 2, 3].as_slice());
    Ok(())
}

#[test]
fn what_is_no_chain_is_refused(rt: HostRuntime) -> Result<(), Fail> {
    let refused = Some(PagesFault::NotAPage);
    for (link, space, index, cell, want) in [
        (NO_CELL, 1, 0, NO_CELL, None),
        (page_at(4096), 1, 0, NO_CELL, None),
        (page_at(2048), 1, 0, NO_CELL, refused),
        (page_at(5121), 1, 0, NO_CELL, refused),
        (
            Cell {
                at: 4096,
                len: 1023,
            },
            1,
            0,
            NO_CELL,
            refused,
        ),
        (Cell { at: 4096, len: 0 }, 1, 0, NO_CELL, refused),
        (NO_CELL, 0, 0, NO_CELL, refused),
        (NO_CELL, 3, 0, NO_CELL, refused),
        (page_at(4096), 2, 2, NO_CELL, refused),
        (NO_CELL, 1, 17_043_520, page_at(1), None),
        (NO_CELL, 1, 17_043_521, page_at(1), refused),
        (NO_CELL, 1, 4_294_967_295, NO_CELL, None),
    ] {
        let row = Row {
            link,
            space,
            index,
            cell,
            ..OBJECTS
        };
        let found = answer(rt.alloc(), &[row, SYSTEM], page_at(2048), 0)?;
        assert_eq!(rt; found, want, "of a page of space {space} and index {index}");
    }
    Ok(())
}

#[test]
fn what_is_no_root_cell_is_refused(rt: HostRuntime) -> Result<(), Fail> {
    let refused = Some(PagesFault::NotAPage);
    for (root, fail, want) in [
        (NO_CELL, 0, None),
        (page_at(4096), 0, None),
        (page_at(5121), 0, refused),
        (page_at(2_147_483_648), 0, refused),
        (Cell { at: 0, len: 1 }, 0, refused),
        (Cell { at: 4096, len: 0 }, 0, refused),
        (page_at(4096), 1, Some(PagesFault::Host)),
        (page_at(4096), 2, Some(PagesFault::Host)),
    ] {
        let found = answer(rt.alloc(), &[SYSTEM], root, fail)?;
        assert_eq!(rt; found, want, "from {}", root.at);
    }
    Ok(())
}

// Adds a page, if there is none of its space and index.
fn add(pages: &mut Pages, space: Space, index: u32, at: u16) -> Result<(), AllocError> {
    pages.reserve(1)?;
    if pages.page(space, index).is_none() {
        pages.add(space, index, at as u32);
    }
    Ok(())
}

// Gives a number another cell, if a page holds it.
fn set(pages: &mut Pages, space: Space, number: u32, cell: Cell) {
    if pages.target(space, number).is_some() {
        pages.set(space, number, cell);
    }
}

// A page of the system, and in front of it one of objects with pointers of 127 and 128.
fn added(alloc: Global) -> Result<Pages, AllocError> {
    let mut pages = Pages::new(alloc, 1);
    add(&mut pages, Space::System, 0, 300)?;
    add(&mut pages, Space::Objects, 1, 1324)?;
    for (number, cell) in [
        (128, Cell { at: 258, len: 772 }),
        (130, page_at(1)),
        (127, Cell { at: 2, len: 2 }),
        (130, NO_CELL),
    ] {
        set(&mut pages, Space::Objects, number, cell);
    }
    Ok(pages)
}

#[test]
fn pages_are_added_in_front(rt: HostRuntime) -> Result<(), Fail> {
    let pages = added(rt.alloc())?;
    assert_eq!(rt; pages.first(), page_at(1324));
    let used = pages.used(rt.alloc())?;
    let things = [
        page_at(1324),
        Cell { at: 2, len: 2 },
        Cell { at: 258, len: 772 },
        page_at(300),
    ];
    assert_eq!(rt; used.as_slice(), things.as_slice());
    Ok(())
}

#[test]
fn a_page_is_spelled(rt: HostRuntime) -> Result<(), Fail> {
    let pages = added(rt.alloc())?;
    let bytes = pages.page(Space::Objects, 1).expect(&rt, "a page");
    let front = [
        0, 0, 1, 44, 0, 0, 4, 0, 0, 0, 0, 1, 0, 0, 0, 1, 0, 0, 0, 2, 0, 0, 0, 2, 0, 0, 1, 2, 0, 0,
        3, 4, 0, 0, 0, 0,
    ];
    assert_eq!(rt; &bytes[..36], front.as_slice());
    assert!(rt; pages.page(Space::Objects, 0).is_none());
    Ok(())
}

fn write_at(target: u64, cell: Cell) -> CellWrite {
    CellWrite { target, cell }
}

fn are_within(len: u64, cells: &[CellWrite]) -> bool
    ensures { IsTrue result → AllWithin len cells.now }
{
    match cells {
        [] => true,
        [first, rest @ ..] => {
            first.target < len && len - first.target >= 8 && are_within(len, rest)
        }
    }
}

// A page of objects with these cells put in, and one of the system behind it. `None` stands for cells outside.
fn settled(
    alloc: Global,
    link: Cell,
    cells: &[CellWrite],
) -> Result<Option<Result<Pages, PagesFault>>, AllocError> {
    let front = Row { link, ..OBJECTS };
    let mut host = host_of(alloc, &[front, SYSTEM], 0)?;
    if !are_within(host.bytes().len() as u64, cells) {
        return Ok(None);
    }
    let pages = Pages::load_with(alloc, &mut host, page_at(2048), 1, cells);
    Ok(Some(pages))
}

// The pointers of the numbers 4, 5 and 126 of the objects, and of 378 of the system.
fn pointers_of(pages: &Pages) -> [Option<Cell>; 4] {
    [
        pages.pointer(Space::Objects, 4),
        pages.pointer(Space::Objects, 5),
        pages.pointer(Space::Objects, 126),
        pages.pointer(Space::System, 378),
    ]
}

#[test]
fn pages_are_read_with_a_log_put_in(rt: HostRuntime) -> Result<(), Fail> {
    let five = Some(Cell { at: 3, len: 9 });
    let last = Some(Cell { at: 5, len: 0 });
    let other = Cell { at: 8, len: 6 };
    for (link, cells, want) in [
        (
            NO_CELL,
            [write_at(0, other), write_at(3072, other)],
            [None, five, None, None],
        ),
        (
            NO_CELL,
            [write_at(2096, other), write_at(3072, other)],
            [None, Some(other), None, None],
        ),
        (
            NO_CELL,
            [write_at(2096, other), write_at(2096, page_at(1))],
            [None, Some(page_at(1)), None, None],
        ),
        (
            NO_CELL,
            [write_at(2092, other), write_at(3068, other)],
            [
                Some(Cell { at: 0, len: 8 }),
                Some(Cell { at: 6, len: 9 }),
                Some(Cell { at: 0, len: 8 }),
                None,
            ],
        ),
        (
            NO_CELL,
            [write_at(2048, page_at(4096)), write_at(5112, other)],
            [None, five, None, Some(other)],
        ),
        (
            page_at(1),
            [
                write_at(2044, Cell { at: 7, len: 4096 }),
                write_at(6136, other),
            ],
            [None, five, None, last],
        ),
    ] {
        let read = settled(rt.alloc(), link, &cells)?.expect(&rt, "cells inside");
        let pages = read.expect(&rt, "pages");
        assert_eq!(rt; pointers_of(&pages), want);
    }
    Ok(())
}

#[test]
fn what_is_no_chain_with_a_log_put_in_is_refused(rt: HostRuntime) -> Result<(), Fail> {
    for (target, cell) in [
        (2048, page_at(2048)),
        (2048, page_at(5121)),
        (2052, Cell { at: 1, len: 1 }),
        (2056, Cell { at: 3, len: 0 }),
        (
            2056,
            Cell {
                at: 2,
                len: 17_043_521,
            },
        ),
        (2052, Cell { at: 0, len: 0 }),
    ] {
        let read = settled(rt.alloc(), NO_CELL, &[write_at(target, cell)])?;
        let fault = match read.expect(&rt, "cells inside") {
            Ok(_) => None,
            Err(fault) => Some(fault),
        };
        assert_eq!(rt; fault, Some(PagesFault::NotAPage), "at {target}");
    }
    Ok(())
}

#[test]
fn cells_of_numbers_are_known(rt: HostRuntime) -> Result<(), Fail> {
    for (unit, first, second) in [(1, 2048, 4096), (16, 128, 256), (64, 32, 64)] {
        let pages = both(rt.alloc(), unit, first, second)?.expect(&rt, "two pages");
        assert!(rt; pages.are_targets(rt.alloc(), &[])?);
        for (target, want) in [
            (0, false),
            (2048, false),
            (2056, false),
            (2063, false),
            (2064, true),
            (2065, false),
            (2072, true),
            (3064, true),
            (3065, false),
            (3072, false),
            (4104, false),
            (4112, true),
            (5112, true),
            (5120, false),
            (18_446_744_073_709_551_608, false),
        ] {
            for cells in [
                [write_at(target, NO_CELL), write_at(5112, NO_CELL)],
                [write_at(2064, NO_CELL), write_at(target, NO_CELL)],
            ] {
                assert_eq!(rt; pages.are_targets(rt.alloc(), &cells)?, want, "at {target}");
            }
        }
    }
    Ok(())
}

#[test]
fn cells_of_pages_that_overlap_are_known(rt: HostRuntime) -> Result<(), Fail> {
    let mut pages = Pages::new(rt.alloc(), 1);
    add(&mut pages, Space::Objects, 0, 2056)?;
    add(&mut pages, Space::System, 0, 2052)?;
    add(&mut pages, Space::Objects, 1, 2049)?;
    for (target, want) in [
        (2064, false),
        (2065, true),
        (2068, true),
        (2072, true),
        (2074, false),
        (3065, true),
        (3068, true),
        (3072, true),
        (3073, false),
    ] {
        assert_eq!(rt;
            pages.are_targets(rt.alloc(), &[write_at(target, NO_CELL)])?,
            want,
            "at {target}"
        );
    }
    Ok(())
}
