use oc_shared::{Sequence, Table};
use sqlite_items::Items;
use std::alloc::{AllocError, Global};
use std::test::Fail;

/// The numbers from 0 on, so many.
fn counted(alloc: Global, count: u32) -> Result<Sequence<u32>, AllocError> {
    let mut items = Items::new(alloc);
    for number in 0..count {
        items.push(number)?;
    }
    Sequence::of(alloc, items)
}

fn numbers(alloc: Global, list: &Sequence<u32>) -> Result<Vec<u32>, AllocError> {
    let mut numbers = Vec::new(alloc);
    for place in 0..list.len() {
        if let Some(number) = list.get(place) {
            numbers.push(*number)?;
        }
    }
    Ok(numbers)
}

/// A step from one list to another.
#[derive(Clone, Copy)]
enum Step {
    With(usize),
    WithLast,
    WithAt(usize),
    Without(usize),
}

/// The list after the step, whose item is 9. Where its place isn't there, the list is empty.
fn stepped(alloc: Global, list: &Sequence<u32>, step: Step) -> Result<Sequence<u32>, AllocError> {
    match step {
        Step::With(place) if place <= list.len() => list.with(alloc, place, 9),
        Step::WithLast => list.with_last(alloc, 9),
        Step::WithAt(place) if place < list.len() => list.with_at(alloc, place, 9),
        Step::Without(place) if place < list.len() => list.without(alloc, place),
        _ => Ok(Sequence::new()),
    }
}

const STEPS: &[(Step, &[u32])] = &[
    (Step::With(0), &[9, 0, 1, 2, 3, 4]),
    (Step::With(2), &[0, 1, 9, 2, 3, 4]),
    (Step::With(5), &[0, 1, 2, 3, 4, 9]),
    (Step::WithLast, &[0, 1, 2, 3, 4, 9]),
    (Step::WithAt(0), &[9, 1, 2, 3, 4]),
    (Step::WithAt(3), &[0, 1, 2, 9, 4]),
    (Step::WithAt(4), &[0, 1, 2, 3, 9]),
    (Step::Without(0), &[1, 2, 3, 4]),
    (Step::Without(2), &[0, 1, 3, 4]),
    (Step::Without(4), &[0, 1, 2, 3]),
];

#[test]
fn a_step_leaves_the_list_as_it_was(rt: HostRuntime) -> Result<(), Fail> {
    let list = counted(rt.alloc(), 5)?;
    for (step, want) in STEPS {
        let next = stepped(rt.alloc(), &list, *step)?;
        assert_eq!(rt; numbers(rt.alloc(), &next)?.as_slice(), *want);
        assert_eq!(rt; next.len(), want.len());
    }
    let all: &[u32] = &[0, 1, 2, 3, 4];
    assert_eq!(rt; numbers(rt.alloc(), &list)?.as_slice(), all);
    assert_eq!(rt; numbers(rt.alloc(), &list.share()?)?.as_slice(), all);
    assert!(rt; list.get(5).is_none());
    Ok(())
}

/// How many nodes stand one below another.
fn depth(list: &Sequence<u32>) -> usize {
    match list.parts() {
        Some(parts) => depth(parts.before)
            .max(depth(parts.after))
            .saturating_add(1),
        None => 0,
    }
}

/// The list after so many equal steps.
fn stepped_often(
    alloc: Global,
    list: &Sequence<u32>,
    step: Step,
    count: u32,
) -> Result<Sequence<u32>, AllocError> {
    let mut list = list.share()?;
    for _ in 0..count {
        list = stepped(alloc, &list, step)?;
    }
    Ok(list)
}

/// A list of 1,000 items is at most 24 nodes deep, one of 100 at most 16: the logarithm to the base 4/3.
#[test]
fn lists_stay_low(rt: HostRuntime) -> Result<(), Fail> {
    let none = Sequence::new();
    let whole = counted(rt.alloc(), 1_000)?;
    for (from, step, count, len, most) in [
        (&none, Step::WithLast, 1_000, 1_000, 24),
        (&none, Step::With(0), 1_000, 1_000, 24),
        (&whole, Step::Without(0), 900, 100, 16),
        (&whole, Step::Without(99), 900, 100, 16),
    ] {
        let list = stepped_often(rt.alloc(), from, step, count)?;
        assert_eq!(rt; list.len(), len);
        assert!(rt; depth(&list) <= most);
    }
    Ok(())
}

const KEYS: &[&[u8]] = &[b"b", b"", b"ab", b"B", b"a"];

/// The table of the keys with their places.
fn placed(alloc: Global) -> Result<Table<usize>, AllocError> {
    let mut table = Table::new();
    for (place, key) in KEYS.iter().enumerate() {
        table = table.with(alloc, key, place)?;
    }
    Ok(table)
}

#[test]
fn a_table_tells_each_key_apart(rt: HostRuntime) -> Result<(), Fail> {
    let table = placed(rt.alloc())?;
    let again = table.with(rt.alloc(), b"ab", 7)?;
    let without = again.without(rt.alloc(), b"a")?.without(rt.alloc(), b"c")?;
    for (key, first, second, third) in [
        (b"b".as_slice(), Some(0), Some(0), Some(0)),
        (b"", Some(1), Some(1), Some(1)),
        (b"ab", Some(2), Some(7), Some(7)),
        (b"B", Some(3), Some(3), Some(3)),
        (b"a", Some(4), Some(4), None),
        (b"abc", None, None, None),
        (b"c", None, None, None),
    ] {
        assert_eq!(rt; table.get(key).copied(), first);
        assert_eq!(rt; again.share()?.get(key).copied(), second);
        assert_eq!(rt; without.get(key).copied(), third);
    }
    Ok(())
}
