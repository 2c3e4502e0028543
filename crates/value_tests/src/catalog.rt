use oc_catalog::{Catalog, CatalogFault, Lists, read_catalog, write_catalog};
use oc_schema::Schema;
use std::alloc::{AllocError, Global};
use std::test::Fail;

// Next number 2, next field 3; class Pilot with the text `name` and the i32 `points`; the list of all
// objects in segment 2.
const PILOT: &[u8; 63] = b"\x01\0\0\0\x02\0\0\0\x03\0\x01\0\0\0\0\x05Pilot\0\x02\
    \0\0\0\x01\x01\x06\x04name\0\0\0\x02\x01\x04\x06points\
    \0\0\0\x01\0\0\0\0\0\0\0\x01\0\0\0\x02";

// As before, with `points` indexed, in the segments 4 and 3.
const INDEXED: &[u8; 79] = b"\x01\0\0\0\x02\0\0\0\x03\0\x01\0\0\0\0\x05Pilot\0\x02\
    \0\0\0\x01\x01\x06\x04name\0\0\0\x02\x03\x04\x06points\
    \0\0\0\x02\0\0\0\0\0\0\0\x01\0\0\0\x02\0\0\0\x02\0\0\0\x02\0\0\0\x04\0\0\0\x03";

// The front of both, up to the count of the lists.
const FRONT: usize = 47;

fn schema_shown(alloc: Global, schema: &Schema) -> Result<String, AllocError> {
    let mut all = String::new(alloc);
    for place in 0..schema.len() {
        let Some(class) = schema.class(place + 1) else {
            continue;
        };
        let parent = class.parent;
        all.push_str(str::from_utf8(class.name.as_slice()).unwrap_or("?"))?;
        let behind = format!(in alloc; ":{parent}")?;
        all.push_str(behind.as_str())?;
        for field in class.fields.as_slice() {
            let (id, current, indexed) = (field.id, field.current, field.indexed);
            let name = str::from_utf8(field.name.as_slice()).unwrap_or("?");
            let one = format!(in alloc; " {id} {name} {current} {indexed}")?;
            all.push_str(one.as_str())?;
        }
        all.push_str(";")?;
    }
    Ok(all)
}

fn lists_shown(alloc: Global, lists: &Lists) -> Result<String, AllocError> {
    let mut all = String::new(alloc);
    for list in lists.as_slice() {
        let id = list.id;
        let front = format!(in alloc; " {id}:")?;
        all.push_str(front.as_str())?;
        for segment in list.segments.as_slice() {
            let one = format!(in alloc; "{segment},")?;
            all.push_str(one.as_str())?;
        }
    }
    Ok(all)
}

fn catalog_shown(alloc: Global, catalog: &Catalog) -> Result<String, AllocError> {
    let (next, next_field) = (catalog.next, catalog.schema.next_field());
    let classes = schema_shown(alloc, &catalog.schema)?;
    let lists = lists_shown(alloc, &catalog.lists)?;
    format!(in alloc; "{next} {next_field} {classes}{lists}")
}

fn is_refused(alloc: Global, bytes: &[u8]) -> bool {
    matches!(read_catalog(alloc, bytes), Err(CatalogFault::NotACatalog))
}

#[test]
fn a_catalog_has_its_bytes(rt: HostRuntime) -> Result<(), Fail> {
    for (bytes, want) in [
        (
            b"\x01\0\0\0\x01\0\0\0\x01\0\0\0\0\0\x01\0\0\0\0\0\0\0\0".as_slice(),
            "1 1  0:",
        ),
        (
            PILOT,
            "2 3 Pilot:0 1 name true false 2 points true false; 0:2,",
        ),
        (
            INDEXED,
            "2 3 Pilot:0 1 name true false 2 points true true; 0:2, 2:4,3,",
        ),
    ] {
        let catalog = read_catalog(rt.alloc(), bytes)?;
        let shown = catalog_shown(rt.alloc(), &catalog)?;
        assert_eq!(rt; shown.as_str(), want);
        let again = write_catalog(rt.alloc(), &catalog)?;
        assert_eq!(rt; again.as_slice(), bytes);
    }
    Ok(())
}

#[test]
fn each_byte_is_judged(rt: HostRuntime) -> Result<(), Fail> {
    for (why, at, byte) in [
        ("another version", 0, 2),
        ("next number 0", 4, 0),
        ("next number 2^31", 1, 128),
        ("a field id that was not drawn", 8, 2),
        ("a class too few", 10, 2),
        ("a class too many", 10, 0),
        ("its own parent", 14, 1),
        ("a space in a name", 17, 32),
        ("a field too few", 22, 3),
        ("one id twice", 37, 1),
        ("a flag of 2", 38, 2),
        ("a flag of 4", 38, 4),
        ("past before current", 27, 0),
        ("kind 0", 28, 0),
        ("kind 10", 28, 10),
        ("kind 26", 28, 26),
        ("no list", 50, 0),
        ("a list too few", 50, 2),
        ("a list of a field that isn't indexed", 54, 2),
        ("a segment too few", 58, 2),
        ("segment 1", 62, 1),
        ("an indexed field without a list", 38, 3),
    ] {
        let mut bytes = Vec::from_slice(rt.alloc(), PILOT)?;
        bytes[at] = byte;
        assert!(rt; is_refused(rt.alloc(), &bytes), "{why}");
    }
    Ok(())
}

#[test]
fn the_lists_are_judged(rt: HostRuntime) -> Result<(), Fail> {
    for (why, lists) in [
        (
            "a segment in two lists",
            b"\0\0\0\x02\0\0\0\0\0\0\0\x01\0\0\0\x02\0\0\0\x02\0\0\0\x01\0\0\0\x02".as_slice(),
        ),
        (
            "a segment twice in a list",
            b"\0\0\0\x02\0\0\0\0\0\0\0\x01\0\0\0\x02\0\0\0\x02\0\0\0\x02\0\0\0\x03\0\0\0\x03",
        ),
        (
            "out of order",
            b"\0\0\0\x02\0\0\0\x02\0\0\0\x01\0\0\0\x03\0\0\0\0\0\0\0\x01\0\0\0\x02",
        ),
        ("only all objects", b"\0\0\0\x01\0\0\0\0\0\0\0\0"),
        ("only the field", b"\0\0\0\x01\0\0\0\x02\0\0\0\0"),
        (
            "one too many",
            b"\0\0\0\x03\0\0\0\0\0\0\0\0\0\0\0\x02\0\0\0\0\0\0\0\x03\0\0\0\0",
        ),
        (
            "one twice",
            b"\0\0\0\x03\0\0\0\0\0\0\0\0\0\0\0\x02\0\0\0\0\0\0\0\x02\0\0\0\0",
        ),
    ] {
        let mut bytes = Vec::from_slice(rt.alloc(), &INDEXED[..FRONT])?;
        bytes.extend_from_slice(lists)?;
        assert!(rt; is_refused(rt.alloc(), &bytes), "{why}");
    }
    Ok(())
}

#[test]
fn an_array_has_no_index(rt: HostRuntime) -> Result<(), Fail> {
    let mut bytes = Vec::from_slice(rt.alloc(), INDEXED)?;
    bytes[39] = 20;
    assert!(rt; is_refused(rt.alloc(), &bytes));
    Ok(())
}

#[test]
fn no_front_is_a_catalog(rt: HostRuntime) -> Result<(), Fail> {
    for len in 0..INDEXED.len() {
        assert!(rt; is_refused(rt.alloc(), &INDEXED[..len]), "{len}");
    }
    let mut bytes = Vec::from_slice(rt.alloc(), INDEXED)?;
    bytes.push(0)?;
    assert!(rt; is_refused(rt.alloc(), &bytes));
    Ok(())
}

// A catalog of one class without fields, whose name has so many letters.
fn with_name(alloc: Global, len: u8) -> Result<Vec<u8>, AllocError> {
    let mut bytes = Vec::from_slice(alloc, b"\x01\0\0\0\x01\0\0\0\x01\0\x01\0\0\0\0")?;
    bytes.push(len)?;
    for _ in 0..len {
        bytes.push(b'a')?;
    }
    bytes.extend_from_slice(b"\0\0\0\0\0\x01\0\0\0\0\0\0\0\0")?;
    Ok(bytes)
}

#[test]
fn a_name_has_1_to_64_bytes(rt: HostRuntime) -> Result<(), Fail> {
    for len in [1, 64] {
        let bytes = with_name(rt.alloc(), len)?;
        let catalog = read_catalog(rt.alloc(), &bytes)?;
        assert_eq!(rt; catalog.schema.len(), 1);
        let again = write_catalog(rt.alloc(), &catalog)?;
        assert_eq!(rt; again.as_slice(), bytes.as_slice());
    }
    for len in [0, 65, 255] {
        let bytes = with_name(rt.alloc(), len)?;
        assert!(rt; is_refused(rt.alloc(), &bytes), "{len}");
    }
    Ok(())
}
