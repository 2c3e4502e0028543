//! Random changes against a sorted list, and the bounds of chunks.

use oc_chunks::Written;
use oc_index::{End, ExtentItem, Extents, FieldIndex, IndexItem, Indexes};
use oc_value::{Atom, Base, Txt};
use std::alloc::{AllocError, Global};
use std::test::Fail;

// A number that looks random, made of the one before.
fn next(seed: u64) -> u64 {
    seed.wrapping_mul(6_364_136_223_846_793_005)
        .wrapping_add(1_442_695_040_888_963_407)
}

// A value below 64 and a number below 256, as one number in their order.
fn pair_of(seed: u64) -> u64 {
    (seed >> 33) % 16_384
}

fn key_of(pair: u64) -> Atom {
    Atom::Int((pair / 256) as i128)
}

fn number_of(pair: u64) -> u32 {
    (pair % 256) as u32
}

fn pair_in(item: &IndexItem) -> u64 {
    match &item.key {
        Atom::Int(key) => u64::try_from(*key)
            .unwrap_or(0)
            .wrapping_mul(256)
            .wrapping_add(item.number as u64),
        _ => 0,
    }
}

// Adds what isn't there, and takes out what is.
fn turn(
    alloc: Global,
    index: &mut FieldIndex,
    list: &mut Vec<u64>,
    pair: u64,
) -> Result<bool, AllocError> {
    let at = list.partition_point(|other| *other < pair);
    if at < list.len() && list[at] == pair {
        list.remove(at);
        return Ok(index.remove(&key_of(pair), number_of(pair)));
    }
    list.insert(at, pair)?;
    index.add(alloc, key_of(pair), number_of(pair))?;
    Ok(!index.remove(&key_of(pair), 256))
}

// Whether the index holds the list.
fn holds(alloc: Global, index: &FieldIndex, list: &[u64]) -> Result<bool, AllocError> {
    let mut rest = list.iter();
    for chunk in &index.chunks(alloc)? {
        for item in chunk.entries {
            if rest.next().copied() != Some(pair_in(item)) {
                return Ok(false);
            }
        }
    }
    Ok(rest.next().is_none())
}

// What is to be seen of the chunks.
fn shape(alloc: Global, index: &FieldIndex) -> Result<Vec<(usize, Option<u32>, bool)>, AllocError> {
    let mut shape = Vec::new(alloc);
    for chunk in &index.chunks(alloc)? {
        shape.push((chunk.entries.len(), chunk.number, chunk.changed))?;
    }
    Ok(shape)
}

// A hundred changes, and the next seed.
fn hundred(
    alloc: Global,
    index: &mut FieldIndex,
    list: &mut Vec<u64>,
    mut seed: u64,
) -> Result<Option<u64>, AllocError> {
    for _ in 0..100 {
        seed = next(seed);
        if !turn(alloc, index, list, pair_of(seed))? {
            return Ok(None);
        }
    }
    Ok(Some(seed))
}

#[test]
fn ten_thousand_changes_and_their_undoing(rt: HostRuntime) -> Result<(), Fail> {
    let alloc = rt.alloc();
    let mut index = FieldIndex::new(alloc, Base::I32);
    let mut list = Vec::new(alloc);
    let mut seed = 1;
    for round in 0..100 {
        if round == 50 {
            index.set_written(&[2, 3, 4, 5, 6, 7, 8, 9, 10, 11, 12, 13]);
        }
        index.mark();
        let before = shape(alloc, &index)?;
        let mut undone = Vec::from_slice(alloc, list.as_slice())?;
        assert!(rt; hundred(alloc, &mut index, &mut undone, seed)?.is_some());
        assert!(rt; holds(alloc, &index, undone.as_slice())?);
        index.undo();
        assert!(rt; shape(alloc, &index)? == before);
        assert!(rt; holds(alloc, &index, list.as_slice())?);
        match hundred(alloc, &mut index, &mut list, seed)? {
            Some(after) => seed = after,
            None => assert!(rt; false),
        }
        assert!(rt; holds(alloc, &index, list.as_slice())?);
    }
    Ok(())
}

fn end_of(kind: u32, key: i128) -> End {
    match kind {
        0 => End::Free,
        1 => End::At(Atom::Int(key)),
        _ => End::Past(Atom::Int(key)),
    }
}

// Whether the value lies behind the end, by its kind.
fn is_behind(kind: u32, end: i128, key: i128) -> bool {
    match kind {
        0 => true,
        1 => key >= end,
        _ => key > end,
    }
}

fn is_before(kind: u32, end: i128, key: i128) -> bool {
    match kind {
        0 => true,
        1 => key <= end,
        _ => key < end,
    }
}

#[test]
fn ranges_with_every_kind_of_end(rt: HostRuntime) -> Result<(), Fail> {
    let alloc = rt.alloc();
    let mut index = FieldIndex::new(alloc, Base::I32);
    // The numbers descend while the values ascend, three to a value.
    for at in 0..600_u32 {
        index.add(alloc, Atom::Int((at / 3) as i128), 600 - at)?;
    }
    for kinds in 0..9 {
        for (low, high) in [
            (0, 199),
            (50, 60),
            (60, 50),
            (199, 199),
            (-1, 0),
            (200, 300),
        ] {
            let (low_end, high_end) = (end_of(kinds / 3, low), end_of(kinds % 3, high));
            let mut numbers = Vec::new(alloc);
            for back in 0..600_u32 {
                let at = 599 - back;
                let key = (at / 3) as i128;
                if is_behind(kinds / 3, low, key) && is_before(kinds % 3, high, key) {
                    numbers.push(600 - at)?;
                }
            }
            assert!(rt; index.range(alloc, &low_end, &high_end)? == numbers);
            assert_eq!(rt; index.count(&low_end, &high_end), numbers.len() as u64);
        }
    }
    assert_eq!(rt;
        index.equal(alloc, &Atom::Int(7))?.as_slice(),
        [577, 578, 579].as_slice()
    );
    Ok(())
}

// The lengths of the chunks.
fn lengths(alloc: Global, index: &FieldIndex) -> Result<Vec<usize>, AllocError> {
    let mut lengths = Vec::new(alloc);
    for chunk in &index.chunks(alloc)? {
        lengths.push(chunk.entries.len())?;
    }
    Ok(lengths)
}

#[test]
fn a_segment_of_512_is_cut_at_its_first_insert(rt: HostRuntime) -> Result<(), Fail> {
    let alloc = rt.alloc();
    let mut entries = Vec::new(alloc);
    for number in 0..512_u32 {
        entries.push(IndexItem {
            key: Atom::Int(number as i128),
            number,
        })?;
    }
    let mut chunks = Vec::new(alloc);
    chunks.push(Written { entries, number: 9 })?;
    let read = FieldIndex::from_chunks(alloc, Base::I32, chunks)?;
    let mut index = read.unwrap_or(FieldIndex::new(alloc, Base::I32));
    assert_eq!(rt; lengths(alloc, &index)?.as_slice(), [512].as_slice());
    assert!(rt; !index.chunks(alloc)?.iter().any(|chunk| chunk.changed));
    index.add(alloc, Atom::Int(512), 512)?;
    assert_eq!(rt; lengths(alloc, &index)?.as_slice(), [512, 1].as_slice());
    index.add(alloc, Atom::Int(5), 600)?;
    assert_eq!(rt;
        lengths(alloc, &index)?.as_slice(),
        [128, 128, 128, 64, 65, 1].as_slice()
    );
    assert_eq!(rt; index.marked_numbers(alloc)?.as_slice(), [9].as_slice());
    Ok(())
}

fn text_of(alloc: Global, byte: u8, len: usize) -> Result<Atom, AllocError> {
    let mut bytes = Vec::new(alloc);
    for _ in 0..len {
        bytes.push(byte)?;
    }
    Ok(Atom::Text(Some(Txt::from_vec(bytes))))
}

#[test]
fn nulls_references_and_long_texts(rt: HostRuntime) -> Result<(), Fail> {
    let alloc = rt.alloc();
    let mut texts = FieldIndex::new(alloc, Base::Text);
    for number in [4, 2, 3] {
        texts.add(alloc, text_of(alloc, b'b', 60_000)?, number)?;
        texts.add(alloc, Atom::Text(None), number)?;
        texts.add(alloc, text_of(alloc, b'a', 1_000)?, number)?;
    }
    assert_eq!(rt;
        texts.equal(alloc, &Atom::Text(None))?.as_slice(),
        [2, 3, 4].as_slice()
    );
    assert_eq!(rt;
        texts
            .equal(alloc, &text_of(alloc, b'b', 60_000)?)?
            .as_slice(),
        [2, 3, 4].as_slice()
    );
    assert_eq!(rt; texts.count(&End::Past(Atom::Text(None)), &End::Free), 6);
    let mut refs = FieldIndex::new(alloc, Base::Ref);
    for (key, number) in [(7, 1), (0, 2), (7, 3), (1, 4)] {
        refs.add(alloc, Atom::Ref(key), number)?;
    }
    assert_eq!(rt;
        refs.equal(alloc, &Atom::Ref(7))?.as_slice(),
        [1, 3].as_slice()
    );
    assert_eq!(rt;
        refs.equal(alloc, &Atom::Ref(0))?.as_slice(),
        [2].as_slice()
    );
    Ok(())
}

#[test]
fn objects_and_their_classes(rt: HostRuntime) -> Result<(), Fail> {
    let alloc = rt.alloc();
    let mut extents = Extents::new(alloc);
    for (number, class) in [(3, 1), (1, 2), (2, 1), (3, 2)] {
        extents.put(alloc, number, class)?;
    }
    assert_eq!(rt; extents.class_of(3), Some(2));
    assert_eq!(rt; extents.of(alloc, &[2, 5])?.as_slice(), [1, 3].as_slice());
    extents.mark();
    assert_eq!(rt; extents.remove(1), Some(2));
    assert_eq!(rt; extents.remove(1), None);
    assert_eq!(rt; extents.class_of(1), None);
    extents.undo();
    assert_eq!(rt; extents.class_of(1), Some(2));
    Ok(())
}

#[test]
fn fields_that_start_and_end_are_undone(rt: HostRuntime) -> Result<(), Fail> {
    let alloc = rt.alloc();
    let mut indexes = Indexes::new(alloc);
    indexes.start_field(alloc, 7, Base::I32)?;
    indexes.put(alloc, 1, 2)?;
    indexes.mark();
    indexes.end_field(7);
    indexes.start_field(alloc, 8, Base::Text)?;
    assert_eq!(rt; indexes.take(1), Some(2));
    assert!(rt; indexes.field(7).is_none());
    assert!(rt; indexes.field(8).is_some());
    assert_eq!(rt; indexes.extents().class_of(1), None);
    indexes.undo();
    assert!(rt; indexes.field(7).is_some());
    assert!(rt; indexes.field(8).is_none());
    assert_eq!(rt; indexes.extents().class_of(1), Some(2));
    Ok(())
}

// Whether the field has an index; then the object is entered with its value.
fn enter(
    alloc: Global,
    indexes: &mut Indexes,
    id: u32,
    key: i128,
    number: u32,
) -> Result<bool, AllocError> {
    if indexes.field(id).is_none() {
        return Ok(false);
    }
    indexes.add(alloc, id, Atom::Int(key), number)?;
    Ok(true)
}

// Whether the field has an index, and the entry was there and is taken out.
fn leave(indexes: &mut Indexes, id: u32, key: i128, number: u32) -> bool {
    indexes.field(id).is_some() && indexes.remove(id, &Atom::Int(key), number)
}

// Whether these are the objects that have this value of the field.
fn have(
    alloc: Global,
    indexes: &Indexes,
    id: u32,
    key: i128,
    numbers: &[u32],
) -> Result<bool, AllocError> {
    match indexes.field(id) {
        Some(index) => Ok(index.equal(alloc, &Atom::Int(key))?.as_slice() == numbers),
        None => Ok(false),
    }
}

// The fields 7 and 5, with two objects that have the value 1 and one that has it.
fn two_fields(alloc: Global) -> Result<Indexes, AllocError> {
    let mut indexes = Indexes::new(alloc);
    indexes.start_field(alloc, 7, Base::I32)?;
    indexes.start_field(alloc, 5, Base::I32)?;
    enter(alloc, &mut indexes, 7, 1, 3)?;
    enter(alloc, &mut indexes, 7, 1, 2)?;
    enter(alloc, &mut indexes, 5, 1, 9)?;
    Ok(indexes)
}

#[test]
fn entries_of_one_field_leave_the_others(rt: HostRuntime) -> Result<(), Fail> {
    let alloc = rt.alloc();
    let mut indexes = two_fields(alloc)?;
    assert!(rt; !enter(alloc, &mut indexes, 6, 1, 1)?);
    indexes.mark();
    assert!(rt; leave(&mut indexes, 7, 1, 3));
    assert!(rt; !leave(&mut indexes, 7, 1, 3));
    assert!(rt; have(alloc, &indexes, 7, 1, &[2])?);
    assert!(rt; have(alloc, &indexes, 5, 1, &[9])?);
    indexes.undo();
    assert!(rt; have(alloc, &indexes, 7, 1, &[2, 3])?);
    Ok(())
}

// An index of one chunk of one entry, read from a segment of this number.
fn read_index(alloc: Global, base: Base, key: Atom, number: u32) -> Result<FieldIndex, AllocError> {
    let mut entries = Vec::new(alloc);
    entries.push(IndexItem { key, number: 1 })?;
    let mut chunks = Vec::new(alloc);
    chunks.push(Written { entries, number })?;
    let read = FieldIndex::from_chunks(alloc, base, chunks)?;
    Ok(read.unwrap_or(FieldIndex::new(alloc, base)))
}

// The lists of a store with one object and two indexed fields, as read from the segments 3, 4 and 5.
fn opened(alloc: Global) -> Result<Indexes, AllocError> {
    let mut entries = Vec::new(alloc);
    entries.push(ExtentItem {
        number: 1,
        class: 2,
    })?;
    let mut chunks = Vec::new(alloc);
    chunks.push(Written { entries, number: 3 })?;
    let read = Extents::from_chunks(alloc, chunks)?;
    let mut indexes = Indexes::from_extents(alloc, read.unwrap_or(Extents::new(alloc)));
    let texts = read_index(alloc, Base::Text, Atom::Text(None), 5)?;
    indexes.put_field(9, texts)?;
    let numbers = read_index(alloc, Base::I32, Atom::Int(8), 4)?;
    indexes.put_field(4, numbers)?;
    Ok(indexes)
}

// Whether these fields have an index.
fn indexed(alloc: Global, indexes: &Indexes, want: &[(u32, Base)]) -> Result<bool, AllocError> {
    Ok(indexes.indexed(alloc)?.as_slice() == want)
}

// Whether the chunks had these numbers at the mark.
fn marked(alloc: Global, indexes: &Indexes, want: &[u32]) -> Result<bool, AllocError> {
    Ok(indexes.marked_numbers(alloc)?.as_slice() == want)
}

#[test]
fn lists_that_are_opened_changed_and_written(rt: HostRuntime) -> Result<(), Fail> {
    let alloc = rt.alloc();
    let mut indexes = opened(alloc)?;
    indexes.start_field(alloc, 6, Base::Ref)?;
    let fields = [(4, Base::I32), (6, Base::Ref), (9, Base::Text)];
    assert!(rt; indexed(alloc, &indexes, &fields)?);
    assert!(rt; marked(alloc, &indexes, &[3, 4, 5])?);
    assert!(rt; enter(alloc, &mut indexes, 6, 1, 1)?);
    indexes.end_field(9);
    indexes.set_written(&[20, 21]);
    assert!(rt; marked(alloc, &indexes, &[3, 4, 20])?);
    indexes.undo();
    assert!(rt; indexed(alloc, &indexes, &[(4, Base::I32), (6, Base::Ref)])?);
    Ok(())
}

// Whether the extents and the index of field 7 have chunks of these lengths.
fn are_long(
    alloc: Global,
    indexes: &Indexes,
    objects: &[usize],
    entries: &[usize],
) -> Result<bool, AllocError> {
    let mut lens = Vec::new(alloc);
    for chunk in &indexes.extents().chunks(alloc)? {
        lens.push(chunk.entries.len())?;
    }
    let Some(index) = indexes.field(7) else {
        return Ok(false);
    };
    Ok(lens.as_slice() == objects && lengths(alloc, index)?.as_slice() == entries)
}

#[test]
fn small_chunks_of_all_lists_are_joined(rt: HostRuntime) -> Result<(), Fail> {
    let alloc = rt.alloc();
    let mut indexes = Indexes::new(alloc);
    indexes.start_field(alloc, 7, Base::I32)?;
    for number in 1..601 {
        indexes.put(alloc, number, 1)?;
    }
    for number in 1..301 {
        enter(alloc, &mut indexes, 7, i128::from(number), number)?;
    }
    indexes.mark();
    for number in 1..501 {
        indexes.take(number);
    }
    for number in 1..251 {
        assert!(rt; leave(&mut indexes, 7, i128::from(number), number));
    }
    assert!(rt; are_long(alloc, &indexes, &[12, 88], &[6, 44])?);
    indexes.join_small(alloc)?;
    assert!(rt; are_long(alloc, &indexes, &[100], &[50])?);
    indexes.undo();
    assert!(rt; are_long(alloc, &indexes, &[512, 88], &[128, 128, 44])?);
    Ok(())
}
