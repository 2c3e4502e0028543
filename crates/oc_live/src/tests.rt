use crate::{ClassSettings, Entries, Entry, LiveObjects, RunDepth};
use oc_model::value::{Atom, Base, Kind, Txt, Value};
use std::alloc::{AllocError, Global};
use std::test::Fail;

const NUMBER: Kind = Kind::One(Base::I64);

/// A field's id and its number.
type Row = (u32, u32);

/// A live object as it should be: its handle, its class, its number, whether it is active, and its rows.
type Shape = (u64, u32, Option<u32>, bool, &'static [Row]);

fn entry(row: Row) -> Entry {
    Entry {
        id: row.0,
        value: Value::One(Atom::Int(i128::from(row.1))),
        kind: NUMBER,
    }
}

fn entries(alloc: Global, rows: &[Row]) -> Result<Entries, AllocError> {
    let mut entries = Entries::new(alloc);
    for row in rows {
        entries.push(entry(*row))?;
    }
    Ok(entries)
}

fn is_row(entry: &Entry, row: Row) -> bool {
    match &entry.value {
        Value::One(Atom::Int(number)) => entry.id == row.0 && *number == i128::from(row.1),
        _ => false,
    }
}

fn has_rows(memory: &LiveObjects, handle: u64, class: u32, rows: &[Row]) -> bool {
    let Some(live) = memory.get(handle) else {
        return false;
    };
    let entries = live.entries.as_slice();
    live.class == class
        && entries.len() == rows.len()
        && entries
            .iter()
            .zip(rows.iter())
            .all(|(entry, row)| is_row(entry, *row))
}

fn has(memory: &LiveObjects, shape: Shape) -> bool {
    let (handle, class, number, active, rows) = shape;
    if !memory.is_live(handle) {
        return false;
    }
    let found = match number {
        Some(number) => memory.handle_of(number) == Some(handle),
        None => true,
    };
    found
        && memory.number_of(handle) == number
        && memory.is_active(handle) == active
        && has_rows(memory, handle, class, rows)
}

/// A call on the object of a handle.
#[derive(Clone, Copy)]
enum Step {
    Set(Row),
    Fill(&'static [Row]),
    Empty,
    KeepFields(&'static [u32]),
    Enlist(u32, bool),
    SetActive(bool),
    Detach,
    KeepNumbers(&'static [u32]),
}

/// Makes the call where its condition holds.
fn take(
    alloc: Global,
    memory: &mut LiveObjects,
    handle: u64,
    step: Step,
) -> Result<(), AllocError> {
    if !memory.is_live(handle) {
        return Ok(());
    }
    match step {
        Step::Set(row) => memory.set_field(handle, entry(row))?,
        Step::Fill(rows) => {
            let all = entries(alloc, rows)?;
            memory.fill(handle, all);
        }
        Step::Empty => memory.empty(handle),
        Step::KeepFields(ids) => memory.keep_fields(handle, ids),
        Step::Enlist(number, active) => enlist(memory, handle, number, active)?,
        Step::SetActive(active) => set_active(memory, handle, active),
        Step::Detach => memory.detach(handle),
        Step::KeepNumbers(numbers) => memory.keep_numbers(|number| numbers.contains(&number)),
    }
    Ok(())
}

fn enlist(
    memory: &mut LiveObjects,
    handle: u64,
    number: u32,
    active: bool,
) -> Result<(), AllocError> {
    if memory.is_live(handle)
        && memory.number_of(handle).is_none()
        && memory.handle_of(number).is_none()
    {
        memory.enlist(handle, number, active)?;
    }
    Ok(())
}

fn set_active(memory: &mut LiveObjects, handle: u64, active: bool) {
    if memory.number_of(handle).is_some() {
        memory.set_active(handle, active);
    }
}

fn make(memory: &mut LiveObjects, class: u32) -> Result<Option<u64>, AllocError> {
    if memory.next_handle() == u64::MAX {
        return Ok(None);
    }
    Ok(Some(memory.make(class)?))
}

/// Each call, and what the object of handle 2 is after it.
const STEPS: &[(Step, Shape)] = &[
    (Step::Set((5, 1)), (2, 7, None, true, &[(5, 1)])),
    (Step::Enlist(40, true), (2, 7, Some(40), true, &[(5, 1)])),
    (Step::Set((3, 2)), (2, 7, Some(40), true, &[(3, 2), (5, 1)])),
    (Step::KeepFields(&[3]), (2, 7, Some(40), true, &[(3, 2)])),
    (Step::Empty, (2, 7, Some(40), true, &[])),
    (Step::SetActive(false), (2, 7, Some(40), false, &[])),
    (Step::KeepNumbers(&[39, 40]), (2, 7, Some(40), false, &[])),
    (Step::Fill(&[(4, 4)]), (2, 7, Some(40), false, &[(4, 4)])),
    (Step::KeepNumbers(&[39, 41]), (2, 7, None, true, &[(4, 4)])),
    (Step::Enlist(41, false), (2, 7, Some(41), false, &[(4, 4)])),
    (Step::Detach, (2, 7, None, true, &[(4, 4)])),
    (Step::Enlist(40, true), (2, 7, Some(40), true, &[(4, 4)])),
];

#[test]
fn a_call_changes_the_object_of_its_handle_alone(rt: HostRuntime) -> Result<(), Fail> {
    let alloc = rt.alloc();
    let mut memory = LiveObjects::new(alloc);
    for class in [6, 7, 8] {
        let handle = make(&mut memory, class)?;
        assert_eq!(rt; handle, Some(u64::from(class) - 5));
    }
    take(alloc, &mut memory, 1, Step::Enlist(39, true))?;
    for (step, shape) in STEPS {
        take(alloc, &mut memory, 2, *step)?;
        assert!(rt; has(&memory, *shape) && has_others(&memory, shape.2));
    }
    undo_to(&mut memory, 3);
    assert!(rt; memory.is_live(2) && !memory.is_live(3));
    undo_to(&mut memory, 2);
    assert!(rt; memory.refs().len() == 1);
    memory.clear();
    assert!(rt; is_cleared(&memory));
    Ok(())
}

/// Takes away the objects from a live handle on.
fn undo_to(memory: &mut LiveObjects, handle: u64) {
    let first = memory.first_handle();
    if first <= handle && handle <= memory.next_handle() {
        memory.undo_to(handle);
    }
}

/// Whether the objects of handles 1 and 3 are as they were, and 41 is found just where it is the number of the other.
fn has_others(memory: &LiveObjects, number: Option<u32>) -> bool {
    has(memory, (1, 6, Some(39), true, &[]))
        && has(memory, (3, 8, None, true, &[]))
        && memory.handle_of(41).is_some() == (number == Some(41))
}

fn is_cleared(memory: &LiveObjects) -> bool {
    let handles = (memory.first_handle(), memory.next_handle());
    !memory.is_live(1) && memory.refs().len() == 0 && handles == (2, 2)
}

/// A call on a name.
#[derive(Clone, Copy)]
enum Naming {
    Bind(&'static [u8], u64),
    Unbind(&'static [u8]),
}

fn name(alloc: Global, memory: &mut LiveObjects, naming: Naming) -> Result<(), AllocError> {
    match naming {
        Naming::Bind(name, handle) => memory.bind(&Txt::from_slice(alloc, name)?, handle)?,
        Naming::Unbind(name) => memory.unbind(&Txt::from_slice(alloc, name)?),
    }
    Ok(())
}

/// A name and its handle.
type Bound = (&'static [u8], u64);

/// Whether just these names are bound, in this order.
fn has_names(alloc: Global, memory: &LiveObjects, names: &[Bound]) -> Result<bool, AllocError> {
    for (place, bound) in names.iter().enumerate() {
        let text = Txt::from_slice(alloc, bound.0)?;
        if memory.handle_named(&text) != Some(bound.1) || memory.name_at(place) != Some(*bound) {
            return Ok(false);
        }
    }
    Ok(memory.name_at(names.len()).is_none())
}

/// Each call, and the names that are bound after it.
const NAMINGS: &[(Naming, &[Bound])] = &[
    (Naming::Bind(b"first", 1), &[(b"first", 1)]),
    (Naming::Bind(b"second", 2), &[(b"first", 1), (b"second", 2)]),
    (Naming::Bind(b"first", 3), &[(b"first", 3), (b"second", 2)]),
    (Naming::Unbind(b"third"), &[(b"first", 3), (b"second", 2)]),
    (Naming::Unbind(b"first"), &[(b"second", 2)]),
    (Naming::Bind(b"first", 4), &[(b"second", 2), (b"first", 4)]),
];

#[test]
fn names_keep_their_places(rt: HostRuntime) -> Result<(), Fail> {
    let alloc = rt.alloc();
    let mut memory = LiveObjects::new(alloc);
    for (naming, names) in NAMINGS {
        name(alloc, &mut memory, *naming)?;
        assert!(rt; has_names(alloc, &memory, names)?);
    }
    memory.clear();
    assert!(rt; has_names(alloc, &memory, &[])?);
    Ok(())
}

#[test]
fn settings_and_commits_are_kept(rt: HostRuntime) -> Result<(), Fail> {
    let mut memory = LiveObjects::new(rt.alloc());
    let flags = ClassSettings {
        minimum: 1,
        maximum: 2,
        update: Some(3),
        cascade_activate: true,
        cascade_update: false,
        cascade_delete: true,
    };
    memory.set_depth(RunDepth::Activation, 9);
    memory.set_depth(RunDepth::Update, 8);
    memory.set_class(4, flags)?;
    assert_eq!(rt; memory.settings().activation, 9);
    assert_eq!(rt; memory.settings().update, 8);
    assert_eq!(rt; memory.settings().of(4).maximum, 2);
    memory.drop_classes_above(3);
    assert_eq!(rt; memory.settings().of(4).maximum, 65_535);
    memory.clear();
    assert_eq!(rt; memory.settings().activation, 9);
    assert_eq!(rt; memory.commits(), 0);
    if memory.commits() < u64::MAX {
        memory.count_commit();
    }
    assert_eq!(rt; memory.commits(), 1);
    Ok(())
}
