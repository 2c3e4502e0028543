use oc_marshal::{DecodeFault, decode, encode};
use oc_value::{Atom, Base, Entries, Entry, Kind, Rec, Txt, Value};
use std::alloc::{AllocError, Global};
use std::test::Fail;

// Class 1, with the text `Michael` under the id 1 and the i32 100 under 2.
const PILOT: &[u8; 32] =
    b"\0\0\0\x01\0\x02\0\0\0\x01\x06\x01\0\0\0\x07Michael\0\0\0\x02\x04\0\0\0\x64";

fn pilot(alloc: Global) -> Result<Rec, AllocError> {
    let name = Atom::Text(Some(Txt::from_slice(alloc, b"Michael")?));
    let mut entries = Vec::new(alloc);
    entries.push(Entry {
        id: 1,
        value: Value::One(name),
        kind: Kind::One(Base::Text),
    })?;
    entries.push(Entry {
        id: 2,
        value: Value::One(Atom::Int(100)),
        kind: Kind::One(Base::I32),
    })?;
    Ok(Rec {
        class: 1,
        entries: Entries::from_vec(entries),
    })
}

fn atom_shown(alloc: Global, atom: &Atom) -> Result<String, AllocError> {
    match atom {
        Atom::Bool(truth) => format!(in alloc; "{truth}"),
        Atom::Int(number) => format!(in alloc; "{number}"),
        Atom::Text(None) => format!(in alloc; "null"),
        Atom::Text(Some(text)) => match str::from_utf8(text.as_slice()) {
            Ok(text) => format!(in alloc; "'{text}'"),
            Err(_) => format!(in alloc; "no text"),
        },
        Atom::Ref(number) => format!(in alloc; "~{number}"),
    }
}

fn value_shown(alloc: Global, value: &Value) -> Result<String, AllocError> {
    match value {
        Value::One(atom) => atom_shown(alloc, atom),
        Value::Many(None) => format!(in alloc; "null array"),
        Value::Many(Some(atoms)) => {
            let mut all = String::new(alloc);
            for atom in atoms.as_slice() {
                let one = atom_shown(alloc, atom)?;
                all.push_str(one.as_str())?;
                all.push_str(";")?;
            }
            Ok(all)
        }
    }
}

fn rec_shown(alloc: Global, rec: &Rec) -> Result<String, AllocError> {
    let class = rec.class;
    let mut all = format!(in alloc; "{class}")?;
    for entry in rec.entries.as_slice() {
        let id = entry.id;
        let value = value_shown(alloc, &entry.value)?;
        let one = format!(in alloc; " {id}:{value}")?;
        all.push_str(one.as_str())?;
    }
    Ok(all)
}

#[test]
fn a_record_has_its_bytes(rt: HostRuntime) -> Result<(), Fail> {
    let rec = pilot(rt.alloc())?;
    let shown = rec_shown(rt.alloc(), &rec)?;
    assert_eq!(rt; shown.as_str(), "1 1:'Michael' 2:100");
    let read = decode(rt.alloc(), PILOT)?;
    let again = rec_shown(rt.alloc(), &read)?;
    assert_eq!(rt; again.as_str(), shown.as_str());
    let bytes = encode(rt.alloc(), &read)?;
    assert_eq!(rt; bytes.as_slice(), PILOT.as_slice());
    Ok(())
}

#[test]
fn other_bytes_are_no_record(rt: HostRuntime) -> Result<(), Fail> {
    for bytes in [
        // the ids 2 and 1, an id twice, a byte more, a byte less
        b"\0\0\0\x01\0\x02\0\0\0\x02\x04\0\0\0\x64\0\0\0\x01\x06\x01\0\0\0\x07Michael".as_slice(),
        b"\0\0\0\x01\0\x02\0\0\0\x01\x06\x01\0\0\0\x07Michael\0\0\0\x01\x04\0\0\0\x64",
        b"\0\0\0\x01\0\x02\0\0\0\x01\x06\x01\0\0\0\x07Michael\0\0\0\x02\x04\0\0\0\x64\0",
        b"\0\0\0\x01\0\x02\0\0\0\x01\x06\x01\0\0\0\x07Michael\0\0\0\x02\x04\0\0\0",
        // another count, the class 0, the id 0, nothing at all
        b"\0\0\0\x01\0\x01\0\0\0\x01\x06\x01\0\0\0\x07Michael\0\0\0\x02\x04\0\0\0\x64",
        b"\0\0\0\x01\0\x03\0\0\0\x01\x06\x01\0\0\0\x07Michael\0\0\0\x02\x04\0\0\0\x64",
        b"\0\0\0\0\0\0",
        b"\0\0\0\x01\0\x01\0\0\0\0\x01\0",
        b"",
    ] {
        let fault = decode(rt.alloc(), bytes).err();
        assert_eq!(rt; fault, Some(DecodeFault::NotARecord), "{bytes:?}");
    }
    Ok(())
}

// The bytes of a record of class 4 with one value under the id 1.
fn with_value(alloc: Global, tag: u8, payload: &[u8]) -> Result<Vec<u8>, AllocError> {
    let mut bytes = Vec::from_slice(alloc, b"\0\0\0\x04\0\x01\0\0\0\x01")?;
    bytes.push(tag)?;
    bytes.extend_from_slice(payload)?;
    Ok(bytes)
}

#[test]
fn each_kind_has_its_bytes(rt: HostRuntime) -> Result<(), Fail> {
    let alloc = rt.alloc();
    for (tag, payload, want) in [
        (1, b"\0".as_slice(), "false"),
        (1, b"\x01", "true"),
        (2, b"\x80", "-128"),
        (2, b"\x7f", "127"),
        (3, b"\x80\0", "-32768"),
        (3, b"\x7f\xff", "32767"),
        (4, b"\x80\0\0\0", "-2147483648"),
        (4, b"\x7f\xff\xff\xff", "2147483647"),
        (5, b"\x80\0\0\0\0\0\0\0", "-9223372036854775808"),
        (
            5,
            b"\x7f\xff\xff\xff\xff\xff\xff\xff",
            "9223372036854775807",
        ),
        (8, b"\0\0\0\0\0\0\0\0", "0"),
        (
            8,
            b"\xff\xff\xff\xff\xff\xff\xff\xff",
            "18446744073709551615",
        ),
        (
            9,
            b"\x80\0\0\0\0\0\0\0\0\0\0\0\0\0\0\0",
            "-170141183460469231731687303715884105728",
        ),
        (
            9,
            b"\x7f\xff\xff\xff\xff\xff\xff\xff\xff\xff\xff\xff\xff\xff\xff\xff",
            "170141183460469231731687303715884105727",
        ),
        (6, b"\0", "null"),
        (6, b"\x01\0\0\0\0", "''"),
        (6, b"\x01\0\0\0\x02\xc3\xa9", "'\u{e9}'"),
        (7, b"\0\0\0\0", "~0"),
        (7, b"\x7f\xff\xff\xfe", "~2147483646"),
        (17, b"\0", "null array"),
        (18, b"\x01\0\0\0\0", ""),
        (18, b"\x01\0\0\0\x02\xff\x01", "-1;1;"),
        (22, b"\x01\0\0\0\x02\0\x01\0\0\0\x01a", "null;'a';"),
        (
            25,
            b"\x01\0\0\0\x01\xff\xff\xff\xff\xff\xff\xff\xff\xff\xff\xff\xff\xff\xff\xff\xff",
            "-1;",
        ),
    ] {
        let bytes = with_value(alloc, tag, payload)?;
        let rec = decode(alloc, &bytes)?;
        let shown = rec_shown(alloc, &rec)?;
        let whole = format!(in alloc; "4 1:{want}")?;
        assert_eq!(rt; shown.as_str(), whole.as_str());
        let again = encode(alloc, &rec)?;
        assert_eq!(rt; again.as_slice(), bytes.as_slice());
    }
    Ok(())
}

#[test]
fn each_payload_is_judged(rt: HostRuntime) -> Result<(), Fail> {
    for (tag, payload) in [
        (0, b"\0".as_slice()),
        (10, b"\0"),
        (16, b"\0"),
        (26, b"\0"),
        (1, b"\x02"),
        (1, b""),
        (2, b""),
        (4, b"\0\0\0"),
        (8, b"\0\0\0\0\0\0\0"),
        (9, b"\0\0\0\0\0\0\0\0\0\0\0\0\0\0\0"),
        (6, b"\x02"),
        (6, b"\x01\0\0\0\x02a"),
        (6, b"\x01\0\0\0\x01\xff"),
        (6, b"\x01\xff\xff\xff\xff"),
        (7, b"\x7f\xff\xff\xff"),
        (18, b"\x02"),
        (18, b"\x01\0\0\0\x02\x01"),
        (17, b"\x01\0\0\0\x01\x02"),
        (22, b"\x01\xff\xff\xff\xff\0"),
    ] {
        let bytes = with_value(rt.alloc(), tag, payload)?;
        let fault = decode(rt.alloc(), &bytes).err();
        assert_eq!(rt; fault, Some(DecodeFault::NotARecord), "{bytes:?}");
    }
    Ok(())
}

#[test]
fn a_number_without_a_sign_has_eight_bytes(rt: HostRuntime) -> Result<(), Fail> {
    let bytes = b"\0\0\0\x01\0\x01\0\0\0\x01\x08\xff\xff\xff\xff\xff\xff\xff\xff";
    let rec = decode(rt.alloc(), bytes)?;
    let shown = rec_shown(rt.alloc(), &rec)?;
    assert_eq!(rt; shown.as_str(), "1 1:18446744073709551615");
    let again = encode(rt.alloc(), &rec)?;
    assert_eq!(rt; again.as_slice(), bytes.as_slice());
    assert_eq!(rt; again.len(), 19);
    Ok(())
}
