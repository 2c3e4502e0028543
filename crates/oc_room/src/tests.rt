use crate::{Room, RoomFault};
use oc_layout::Cell;
use std::alloc::{AllocError, Global};
use std::test::Fail;

fn cell(at: u32, len: u32) -> Cell {
    Cell { at, len }
}

fn full(placed: Result<Vec<Cell>, RoomFault>) -> Option<(u64, u32, u32)> {
    match placed {
        Err(RoomFault::Full { need, len, limit }) => Some((need, len, limit)),
        _ => None,
    }
}

fn place_one(room: &mut Room, alloc: Global) -> Result<Cell, RoomFault> {
    let cells = room.place(alloc, &[1], 0)?;
    Ok(cells.first().copied().unwrap_or(Cell { at: 0, len: 0 }))
}

// The room around a header of 128 bytes, a slot of 20 and a page, with 16 blocks of an old log behind them.
fn after_a_commit(alloc: Global) -> Result<Option<Room>, AllocError> {
    let mut things = Vec::new(alloc);
    things.push(Cell { at: 148, len: 1024 })?;
    things.push(Cell { at: 0, len: 128 })?;
    things.push(Cell { at: 128, len: 20 })?;
    Room::around(alloc, 1, 1188, 1300, things)
}

#[test]
fn things_go_to_the_end_where_no_part_holds_them(rt: HostRuntime) -> Result<(), Fail> {
    let alloc = rt.alloc();
    let mut room = Room::new(alloc, 1, 128, 1300);
    let slot = room.place(alloc, &[20], 0)?;
    assert_eq!(rt; (slot[0], room.end()), (cell(128, 20), 148));
    let commit = room.place(alloc, &[1024, 16], 0)?;
    assert_eq!(rt; (commit[0], commit[1]), (cell(148, 1024), cell(1172, 16)));
    assert_eq!(rt; (room.end(), room.limit(), room.total()), (1188, 1300, 0));
    Ok(())
}

#[test]
fn an_old_log_is_used_again(rt: HostRuntime) -> Result<(), Fail> {
    let alloc = rt.alloc();
    let mut room = after_a_commit(alloc)?.expect(&rt, "things apart");
    assert_eq!(rt; (room.end(), room.total()), (1188, 16));
    let slot = room.place(alloc, &[20, 16], 0)?;
    assert_eq!(rt; (slot[0], slot[1]), (cell(1188, 20), cell(1172, 16)));
    assert_eq!(rt; (room.end(), room.total()), (1208, 0));
    Ok(())
}

// Places four things and takes them back.
fn place_for_a_while(room: &mut Room, alloc: Global) -> Result<[Cell; 4], RoomFault> {
    let end = room.end();
    let placed = room.place(alloc, &[20, 10, 6, 1], 0)?;
    let cells = [placed[0], placed[1], placed[2], placed[3]];
    room.take_back(&placed, end);
    Ok(cells)
}

#[test]
fn what_was_placed_is_taken_back(rt: HostRuntime) -> Result<(), Fail> {
    let alloc = rt.alloc();
    let mut room = after_a_commit(alloc)?.expect(&rt, "things apart");
    for _ in 0..3 {
        let placed = place_for_a_while(&mut room, alloc)?;
        let wanted = [cell(1188, 20), cell(1172, 10), cell(1182, 6), cell(1208, 1)];
        assert_eq!(rt; placed, wanted);
        assert_eq!(rt; (room.end(), room.total()), (1188, 16));
    }
    Ok(())
}

#[test]
fn the_last_placed_is_taken_back_first(rt: HostRuntime) -> Result<(), Fail> {
    let alloc = rt.alloc();
    let mut room = Room::new(alloc, 16, 8, 128);
    let slots = room.place(alloc, &[40, 1], 0)?;
    let end = room.end();
    let pages = room.place(alloc, &[1024], 2)?;
    assert_eq!(rt;
        (slots[0], slots[1], pages[0]),
        (cell(8, 40), cell(11, 1), cell(12, 1024))
    );
    room.take_back(&pages, end);
    room.take_back(&slots, 8);
    assert_eq!(rt; (room.end(), room.total()), (8, 0));
    assert_eq!(rt; place_one(&mut room, alloc)?, cell(8, 1));
    Ok(())
}

#[test]
fn what_finds_no_room_is_told_and_changes_nothing(rt: HostRuntime) -> Result<(), Fail> {
    let alloc = rt.alloc();
    for (unit, end, limit, lengths, need, len) in FULL {
        let mut room = Room::new(alloc, unit, end, limit);
        assert_eq!(rt;
            full(room.place(alloc, lengths, 0)),
            Some((need, len, limit))
        );
        assert_eq!(rt; (room.end(), room.total()), (end, 0));
        assert_eq!(rt; place_one(&mut room, alloc)?, cell(end, 1));
    }
    Ok(())
}

// The bytes in a block, the file's blocks and the most that it may have, what is placed, and what finds no room.
const FULL: [(u32, u32, u32, &[u64], u64, u32); 6] = [
    (1, 128, 4096, &[5000], 5000, 128),
    (1, 148, 1187, &[1024, 16], 16, 1172),
    (16, 8, 128, &[40, 1024, 1024], 64, 75),
    (64, 2, 128, &[8000, 100], 2, 127),
    (127, 2, 2147483647, &[4294967296], 33818641, 2),
    (16, 8, 128, &[1, 4294967296, 1], 268435456, 9),
];
