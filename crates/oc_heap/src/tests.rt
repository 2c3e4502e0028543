use crate::{Entries, Entry, Heap};
use oc_model::value::{Atom, Base, Kind, Value};
use std::alloc::{AllocError, Global};
use std::test::Fail;

const NUMBER: Kind = Kind::One(Base::I64);

fn entry(id: u32, number: u32) -> Entry {
    Entry {
        id,
        value: Value::One(Atom::Int(i128::from(number))),
        kind: NUMBER,
    }
}

/// A field's id and its number.
type Row = (u32, u32);

fn entries(alloc: Global, rows: &[Row]) -> Result<Entries, AllocError> {
    let mut entries = Entries::new(alloc);
    for (id, number) in rows {
        entries.push(entry(*id, *number))?;
    }
    Ok(entries)
}

fn is_row(entry: &Entry, row: Row) -> bool {
    match &entry.value {
        Value::One(Atom::Int(number)) => entry.id == row.0 && *number == i128::from(row.1),
        _ => false,
    }
}

/// Whether the object is live, with this class and these numbers.
fn has(heap: &Heap, handle: u64, class: u32, rows: &[Row]) -> bool {
    let Some(live) = heap.get(handle) else {
        return false;
    };
    let entries = live.entries.as_slice();
    if live.class != class || entries.len() != rows.len() {
        return false;
    }
    entries
        .iter()
        .zip(rows.iter())
        .all(|(entry, row)| is_row(entry, *row))
}

/// What a call does to the object of its handle.
#[derive(Clone, Copy)]
enum Change {
    Set(u32, u32),
    Fill(&'static [Row]),
    Empty,
    Keep(&'static [u32]),
}

/// Makes the change where the object is live.
fn do_change(
    alloc: Global,
    heap: &mut Heap,
    handle: u64,
    change: Change,
) -> Result<(), AllocError> {
    if heap.get(handle).is_none() {
        return Ok(());
    }
    match change {
        Change::Set(id, number) => heap.set_field(handle, entry(id, number))?,
        Change::Fill(rows) => {
            let all = entries(alloc, rows)?;
            heap.fill(handle, all);
        }
        Change::Empty => heap.empty(handle),
        Change::Keep(ids) => heap.keep_fields(handle, ids),
    }
    Ok(())
}

/// Each change, and what the object has after it.
const CHANGES: &[(Change, &[Row])] = &[
    (Change::Set(5, 1), &[(5, 1)]),
    (Change::Set(9, 2), &[(5, 1), (9, 2)]),
    (Change::Set(1, 3), &[(1, 3), (5, 1), (9, 2)]),
    (Change::Set(7, 4), &[(1, 3), (5, 1), (7, 4), (9, 2)]),
    (Change::Set(5, 6), &[(1, 3), (5, 6), (7, 4), (9, 2)]),
    (Change::Keep(&[9, 8, 1, 1]), &[(1, 3), (9, 2)]),
    (Change::Keep(&[1, 9]), &[(1, 3), (9, 2)]),
    (Change::Set(9, 0), &[(1, 3), (9, 0)]),
    (Change::Fill(&[(2, 2), (4, 4)]), &[(2, 2), (4, 4)]),
    (Change::Set(3, 3), &[(2, 2), (3, 3), (4, 4)]),
    (Change::Keep(&[]), &[]),
    (Change::Fill(&[(6, 1)]), &[(6, 1)]),
    (Change::Empty, &[]),
];

#[test]
fn a_change_changes_the_object_of_its_handle_alone(rt: HostRuntime) -> Result<(), Fail> {
    let alloc = rt.alloc();
    let mut heap = Heap::new(alloc);
    for class in [4_u32, 5, 6] {
        if heap.next() < u64::MAX {
            heap.make(class)?;
        }
    }
    do_change(alloc, &mut heap, 1, Change::Set(1, 10))?;
    do_change(alloc, &mut heap, 3, Change::Set(3, 30))?;
    for (step, rows) in CHANGES {
        do_change(alloc, &mut heap, 2, *step)?;
        assert!(rt; has(&heap, 2, 5, rows));
        assert!(rt; has(&heap, 1, 4, &[(1, 10)]));
        assert!(rt; has(&heap, 3, 6, &[(3, 30)]));
    }
    assert!(rt; heap.get(0).is_none());
    assert!(rt; heap.get(4).is_none());
    assert!(rt; heap.get(u64::MAX).is_none());
    Ok(())
}

fn undo(heap: &mut Heap, handle: u64) {
    if heap.first() <= handle && handle <= heap.next() {
        heap.undo_to(handle);
    }
}

#[test]
fn handles_go_on_unless_they_are_undone(rt: HostRuntime) -> Result<(), Fail> {
    let alloc = rt.alloc();
    let mut heap = Heap::new(alloc);
    assert_eq!(rt; (heap.first(), heap.next()), (1, 1));
    for class in 1_u32..6 {
        if heap.next() < u64::MAX {
            let handle = heap.make(class)?;
            assert_eq!(rt; handle, u64::from(class));
        }
    }
    assert_eq!(rt; (heap.first(), heap.next()), (1, 6));
    undo(&mut heap, 4);
    assert_eq!(rt; (heap.first(), heap.next()), (1, 4));
    assert!(rt; has(&heap, 3, 3, &[]));
    assert!(rt; heap.get(4).is_none());
    heap.clear();
    assert_eq!(rt; (heap.first(), heap.next()), (4, 4));
    assert!(rt; heap.get(3).is_none());
    undo(&mut heap, 3);
    undo(&mut heap, 4);
    assert_eq!(rt; (heap.first(), heap.next()), (4, 4));
    if heap.next() < u64::MAX {
        let handle = heap.make(9)?;
        assert_eq!(rt; handle, 4);
    }
    assert!(rt; has(&heap, 4, 9, &[]));
    Ok(())
}

/// An object as plain data: its handle, its class and its rows.
#[derive(Drop)]
struct Plain {
    handle: u64,
    class: u32,
    rows: Vec<Row>,
}

/// Numbers without a pattern.
#[derive(Drop)]
struct Dice {
    state: u64,
}

impl Dice {
    fn roll(&mut self) -> u32 {
        self.state = self
            .state
            .wrapping_mul(6_364_136_223_846_793_005)
            .wrapping_add(1_442_695_040_888_963_407);
        (self.state >> 40) as u32
    }
}

/// Sets, fills, empties or keeps, with rows that the dice choose.
fn change_both(
    alloc: Global,
    dice: &mut Dice,
    heap: &mut Heap,
    plain: &mut Plain,
) -> Result<(), AllocError> {
    let handle = plain.handle;
    let id = dice.roll() % 20 + 1;
    let number = dice.roll() % 1000;
    match dice.roll() % 12 {
        0 => {
            do_change(alloc, heap, handle, Change::Empty)?;
            plain.rows.clear();
        }
        1 => {
            do_change(alloc, heap, handle, Change::Fill(&[(3, 1), (8, 2)]))?;
            plain.rows.clear();
            plain.rows.push((3, 1))?;
            plain.rows.push((8, 2))?;
        }
        2 => {
            do_change(
                alloc,
                heap,
                handle,
                Change::Keep(&[2, 3, 5, 7, 11, 13, 17, 19]),
            )?;
            plain
                .rows
                .retain(|row| [2, 3, 5, 7, 11, 13, 17, 19].contains(&row.0));
        }
        _ => {
            do_change(alloc, heap, handle, Change::Set(id, number))?;
            plain.rows.retain(|row| row.0 != id);
            plain.rows.push((id, number))?;
            plain.rows.sort()?;
        }
    }
    Ok(())
}

/// Makes an object, takes away the latest ones or all, or changes one.
fn step(
    alloc: Global,
    dice: &mut Dice,
    heap: &mut Heap,
    plain: &mut Vec<Plain>,
) -> Result<(), AllocError> {
    match dice.roll() % 100 {
        0 => {
            heap.clear();
            plain.clear();
        }
        1..=3 => {
            let from = heap.next().saturating_sub(u64::from(dice.roll() % 4));
            if heap.first() <= from {
                undo(heap, from);
                plain.retain(|object| object.handle < from);
            }
        }
        4..=14 => {
            if heap.next() < u64::MAX {
                let class = dice.roll() % 50;
                let handle = heap.make(class)?;
                let rows = Vec::new(alloc);
                plain.push(Plain {
                    handle,
                    class,
                    rows,
                })?;
            }
        }
        _ => {
            let place = dice.roll() as usize;
            if let Some(object) = plain.get_mut(place % plain.len().max(1)) {
                change_both(alloc, dice, heap, object)?;
            }
        }
    }
    Ok(())
}

/// Whether both have the same objects.
fn are_alike(heap: &Heap, plain: &[Plain]) -> bool {
    let live = heap.next().wrapping_sub(heap.first());
    live == plain.len() as u64
        && plain.iter().all(|object| has(heap, object.handle, object.class, object.rows.as_slice()))
}

#[test]
fn ten_thousand_calls_do_what_plain_lists_do(rt: HostRuntime) -> Result<(), Fail> {
    let alloc = rt.alloc();
    let mut dice = Dice { state: 7 };
    let mut heap = Heap::new(alloc);
    let mut plain = Vec::new(alloc);
    let mut most = 0;
    for _ in 0..10_000 {
        step(alloc, &mut dice, &mut heap, &mut plain)?;
        assert!(rt; are_alike(&heap, plain.as_slice()));
        most = plain.len().max(most);
    }
    assert!(rt; most > 10);
    assert!(rt; heap.first() > 50);
    Ok(())
}
