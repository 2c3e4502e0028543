use oc_segments::{ExtentItem, IndexItem, SegmentFault, read_segment, write_segment};
use oc_value::{Atom, Base};
use std::alloc::{AllocError, Global};
use std::test::Fail;

fn key_shown(alloc: Global, key: &Atom) -> Result<String, AllocError> {
    match key {
        Atom::Bool(truth) => format!(in alloc; "{truth}"),
        Atom::Int(number) => format!(in alloc; "{number}"),
        Atom::Text(None) => format!(in alloc; "null"),
        Atom::Text(Some(text)) => match str::from_utf8(text.as_slice()) {
            Ok(text) => format!(in alloc; "'{text}'"),
            Err(_) => format!(in alloc; "no text"),
        },
        Atom::Ref(number) => format!(in alloc; "~{number}"),
    }
}

fn indexed_shown(alloc: Global, items: &[IndexItem]) -> Result<String, AllocError> {
    let mut all = String::new(alloc);
    for item in items {
        let number = item.number;
        let key = key_shown(alloc, &item.key)?;
        let one = format!(in alloc; "{key}:{number};")?;
        all.push_str(one.as_str())?;
    }
    Ok(all)
}

fn extents_shown(alloc: Global, items: &[ExtentItem]) -> Result<String, AllocError> {
    let mut all = String::new(alloc);
    for item in items {
        let (number, class) = (item.number, item.class);
        let one = format!(in alloc; "{number}:{class};")?;
        all.push_str(one.as_str())?;
    }
    Ok(all)
}

fn is_refused(alloc: Global, bytes: &[u8], base: Base) -> bool {
    matches!(
        read_segment::<IndexItem>(alloc, bytes, Some(base)),
        Err(SegmentFault::NotASegment)
    )
}

fn are_refused_extents(alloc: Global, bytes: &[u8]) -> bool {
    matches!(
        read_segment::<ExtentItem>(alloc, bytes, None),
        Err(SegmentFault::NotASegment)
    )
}

#[test]
fn the_list_of_all_objects_has_its_bytes(rt: HostRuntime) -> Result<(), Fail> {
    for (bytes, want) in [
        (b"\0\x01\0\0\0\x01\0\0\0\x02".as_slice(), "1:2;"),
        (
            b"\0\x02\0\0\0\x01\0\0\0\x02\0\0\x01\x02\0\0\0\x01",
            "1:2;258:1;",
        ),
    ] {
        let items = read_segment::<ExtentItem>(rt.alloc(), bytes, None)?;
        let shown = extents_shown(rt.alloc(), &items)?;
        assert_eq!(rt; shown.as_str(), want);
        let again = write_segment(rt.alloc(), items.as_slice(), None)?;
        assert_eq!(rt; again.as_slice(), bytes);
    }
    Ok(())
}

#[test]
fn each_base_kind_has_its_bytes(rt: HostRuntime) -> Result<(), Fail> {
    for (base, bytes, want) in [
        (
            Base::Bool,
            b"\0\x03\0\0\0\0\x07\x01\0\0\0\x02\x01\0\0\0\x09".as_slice(),
            "false:7;true:2;true:9;",
        ),
        (
            Base::I8,
            b"\0\x02\x80\0\0\0\x07\x7f\0\0\0\x02",
            "-128:7;127:2;",
        ),
        (
            Base::I16,
            b"\0\x02\x80\0\0\0\0\x07\x7f\xff\0\0\0\x02",
            "-32768:7;32767:2;",
        ),
        (
            Base::I32,
            b"\0\x02\xff\xff\xff\xff\0\0\0\x07\0\0\0\x25\0\0\0\x02",
            "-1:7;37:2;",
        ),
        (
            Base::I64,
            b"\0\x01\x7f\xff\xff\xff\xff\xff\xff\xff\0\0\0\x07",
            "9223372036854775807:7;",
        ),
        (
            Base::U64,
            b"\0\x02\0\0\0\0\0\0\0\0\0\0\0\x07\xff\xff\xff\xff\xff\xff\xff\xff\0\0\0\x02",
            "0:7;18446744073709551615:2;",
        ),
        (
            Base::I128,
            b"\0\x01\x80\0\0\0\0\0\0\0\0\0\0\0\0\0\0\0\0\0\0\x07",
            "-170141183460469231731687303715884105728:7;",
        ),
        (
            Base::Text,
            b"\0\x04\0\0\0\0\x02\0\0\0\0\x03\x01\0\0\0\0\0\0\0\x01\x01\0\0\0\x02\xc3\xa9\0\0\0\x01",
            "null:2;null:3;'':1;'\u{e9}':1;",
        ),
        (
            Base::Ref,
            b"\0\x03\0\0\0\0\0\0\0\x07\0\0\0\0\0\0\0\x08\x7f\xff\xff\xfe\0\0\0\x01",
            "~0:7;~0:8;~2147483646:1;",
        ),
    ] {
        let items = read_segment::<IndexItem>(rt.alloc(), bytes, Some(base))?;
        let shown = indexed_shown(rt.alloc(), &items)?;
        assert_eq!(rt; shown.as_str(), want);
        let again = write_segment(rt.alloc(), items.as_slice(), Some(base))?;
        assert_eq!(rt; again.as_slice(), bytes);
    }
    Ok(())
}

#[test]
fn lists_of_all_objects_are_judged(rt: HostRuntime) -> Result<(), Fail> {
    for (why, bytes) in [
        ("no byte", b"".as_slice()),
        ("no count", b"\0"),
        ("no entry", b"\0\0"),
        ("an entry too few", b"\0\x02\0\0\0\x01\0\0\0\x02"),
        ("cut off", b"\0\x01\0\0\0\x01\0\0\0"),
        ("a byte more", b"\0\x01\0\0\0\x01\0\0\0\x02\0"),
        (
            "one entry twice",
            b"\0\x02\0\0\0\x01\0\0\0\x02\0\0\0\x01\0\0\0\x02",
        ),
        (
            "one number twice",
            b"\0\x02\0\0\0\x01\0\0\0\x02\0\0\0\x01\0\0\0\x03",
        ),
        (
            "descending",
            b"\0\x02\0\0\0\x02\0\0\0\x01\0\0\0\x01\0\0\0\x02",
        ),
    ] {
        assert!(rt; are_refused_extents(rt.alloc(), bytes), "{why}");
    }
    Ok(())
}

#[test]
fn lists_of_fields_are_judged(rt: HostRuntime) -> Result<(), Fail> {
    for (why, base, bytes) in [
        ("no entry", Base::I8, b"\0\0".as_slice()),
        (
            "one entry twice",
            Base::I8,
            b"\0\x02\x05\0\0\0\x01\x05\0\0\0\x01",
        ),
        (
            "numbers descend at a tie",
            Base::I8,
            b"\0\x02\x05\0\0\0\x02\x05\0\0\0\x01",
        ),
        (
            "values descend",
            Base::I8,
            b"\0\x02\x05\0\0\0\x01\xff\0\0\0\x02",
        ),
        (
            "null behind a text",
            Base::Text,
            b"\0\x02\x01\0\0\0\0\0\0\0\x01\0\0\0\0\x02",
        ),
        ("two for a truth value", Base::Bool, b"\0\x01\x02\0\0\0\x01"),
        (
            "two in front of a text",
            Base::Text,
            b"\0\x01\x02\0\0\0\x01",
        ),
        (
            "no UTF-8",
            Base::Text,
            b"\0\x01\x01\0\0\0\x01\xff\0\0\0\x01",
        ),
        (
            "a reference too great",
            Base::Ref,
            b"\0\x01\x7f\xff\xff\xff\0\0\0\x01",
        ),
        ("no number", Base::I8, b"\0\x01\x05\0\0\0"),
        ("a byte more", Base::I8, b"\0\x01\x05\0\0\0\x01\0"),
    ] {
        assert!(rt; is_refused(rt.alloc(), bytes, base), "{why}");
    }
    Ok(())
}

// So many entries of the list of all objects, in ascending order.
fn ascending(alloc: Global, count: u16) -> Result<Vec<u8>, AllocError> {
    let mut bytes = Vec::from_slice(alloc, &count.to_be_bytes())?;
    for number in 0..count {
        bytes.extend_from_slice(&u32::from(number).to_be_bytes())?;
        bytes.extend_from_slice(&u32::from(7u8).to_be_bytes())?;
    }
    Ok(bytes)
}

#[test]
fn a_segment_has_at_most_512_entries(rt: HostRuntime) -> Result<(), Fail> {
    let bytes = ascending(rt.alloc(), 512)?;
    let items = read_segment::<ExtentItem>(rt.alloc(), &bytes, None)?;
    assert_eq!(rt; items.len(), 512);
    let again = write_segment(rt.alloc(), items.as_slice(), None)?;
    assert_eq!(rt; again.as_slice(), bytes.as_slice());
    let more = ascending(rt.alloc(), 513)?;
    assert!(rt; are_refused_extents(rt.alloc(), &more));
    Ok(())
}

#[test]
fn a_list_is_read_with_its_own_kind(rt: HostRuntime) -> Result<(), Fail> {
    let bytes = b"\0\x01\0\0\0\x01\0\0\0\x02";
    let extents = read_segment::<ExtentItem>(rt.alloc(), bytes, Some(Base::I32)).err();
    assert_eq!(rt; extents, Some(SegmentFault::NotASegment));
    let indexed = read_segment::<IndexItem>(rt.alloc(), bytes, None).err();
    assert_eq!(rt; indexed, Some(SegmentFault::NotASegment));
    Ok(())
}
