//! Lines beside the bytes that they are to have.

use oc_model::value::Txt;
use oc_print::{
    Answer, Mark, NameLine, ObjectLine, ObjectLines, Shown, ShownAtom, ShownField, ShownValue,
    Word, answer_text, object_line,
};
use sqlite_items::Items;
use std::alloc::{AllocError, Global};
use std::test::Fail;

fn field(alloc: Global, name: &[u8], value: ShownValue) -> Result<ShownField, AllocError> {
    Ok(ShownField {
        name: Txt::from_slice(alloc, name)?,
        value,
    })
}

/// The object ~7 of class K, with these fields.
fn object(alloc: Global, fields: Vec<ShownField>) -> Result<ObjectLine, AllocError> {
    Ok(ObjectLine {
        mark: Mark::Number(7),
        class: Txt::from_slice(alloc, b"K")?,
        fields: Shown::Fields(Items::from_vec(fields)),
    })
}

/// The object ~7 of class K, with one field.
fn with_value(alloc: Global, value: ShownValue) -> Result<ObjectLine, AllocError> {
    let mut fields = Vec::new(alloc);
    fields.push(field(alloc, b"v", value)?)?;
    object(alloc, fields)
}

fn array(alloc: Global, numbers: &[i128]) -> Result<ShownValue, AllocError> {
    let mut atoms = Vec::new(alloc);
    for number in numbers {
        atoms.push(ShownAtom::Int(*number))?;
    }
    Ok(ShownValue::Many(Some(Items::from_vec(atoms))))
}

#[test]
fn values_in_an_object_line(rt: HostRuntime) -> Result<(), Fail> {
    for (atom, want) in [
        (ShownAtom::Bool(true), "~7 K { v: true }\n"),
        (ShownAtom::Bool(false), "~7 K { v: false }\n"),
        (ShownAtom::Int(0), "~7 K { v: 0 }\n"),
        (ShownAtom::Int(-10), "~7 K { v: -10 }\n"),
        (
            ShownAtom::Int(i128::MIN),
            "~7 K { v: -170141183460469231731687303715884105728 }\n",
        ),
        (
            ShownAtom::Int(i128::MAX),
            "~7 K { v: 170141183460469231731687303715884105727 }\n",
        ),
        (ShownAtom::Text(None), "~7 K { v: null }\n"),
        (ShownAtom::Ref(None), "~7 K { v: null }\n"),
        (
            ShownAtom::Ref(Some(Mark::Number(4_294_967_295))),
            "~7 K { v: ~4294967295 }\n",
        ),
        (
            ShownAtom::Ref(Some(Mark::Handle(u64::MAX))),
            "~7 K { v: !18446744073709551615 }\n",
        ),
    ] {
        let object = with_value(rt.alloc(), ShownValue::One(atom))?;
        let line = object_line(rt.alloc(), &object)?;
        assert_eq!(rt; line.as_slice(), want.as_bytes(), "want {want}");
    }
    Ok(())
}

#[test]
fn texts_in_an_object_line(rt: HostRuntime) -> Result<(), Fail> {
    for (text, want) in [
        (b"".as_slice(), "~7 K { v: \"\" }\n"),
        (b"Ann ~!{}[],'".as_slice(), "~7 K { v: \"Ann ~!{}[],'\" }\n"),
        (b"a\"b\\c".as_slice(), "~7 K { v: \"a\\\"b\\\\c\" }\n"),
        (b"\n\r\t".as_slice(), "~7 K { v: \"\\n\\r\\t\" }\n"),
        (
            b"\x00\x01\x1f\x7f".as_slice(),
            "~7 K { v: \"\\x00\\x01\\x1f\\x7f\" }\n",
        ),
        (b"\xc3\xa9~".as_slice(), "~7 K { v: \"é~\" }\n"),
    ] {
        let text = Txt::from_slice(rt.alloc(), text)?;
        let object = with_value(rt.alloc(), ShownValue::One(ShownAtom::Text(Some(text))))?;
        let line = object_line(rt.alloc(), &object)?;
        assert_eq!(rt; line.as_slice(), want.as_bytes(), "want {want}");
    }
    Ok(())
}

#[test]
fn arrays_in_an_object_line(rt: HostRuntime) -> Result<(), Fail> {
    for (numbers, want) in [
        ([].as_slice(), "~7 K { v: [] }\n"),
        ([5].as_slice(), "~7 K { v: [5] }\n"),
        ([1, -2, 3].as_slice(), "~7 K { v: [1, -2, 3] }\n"),
    ] {
        let object = with_value(rt.alloc(), array(rt.alloc(), numbers)?)?;
        let line = object_line(rt.alloc(), &object)?;
        assert_eq!(rt; line.as_slice(), want.as_bytes(), "want {want}");
    }
    let object = with_value(rt.alloc(), ShownValue::Many(None))?;
    let line = object_line(rt.alloc(), &object)?;
    assert_eq!(rt; line.as_slice(), b"~7 K { v: null }\n".as_slice());
    Ok(())
}

#[test]
fn fields_of_an_object_line(rt: HostRuntime) -> Result<(), Fail> {
    let none = object(rt.alloc(), Vec::new(rt.alloc()))?;
    let line = object_line(rt.alloc(), &none)?;
    assert_eq!(rt; line.as_slice(), b"~7 K { }\n".as_slice());

    let mut fields = Vec::new(rt.alloc());
    fields.push(field(rt.alloc(), b"name", ShownValue::One(ShownAtom::Text(None)))?)?;
    fields.push(field(rt.alloc(), b"open", ShownValue::One(ShownAtom::Bool(true)))?)?;
    fields.push(field(rt.alloc(), b"n", ShownValue::Many(None))?)?;
    let three = object(rt.alloc(), fields)?;
    let line = object_line(rt.alloc(), &three)?;
    assert_eq!(rt;
        line.as_slice(),
        b"~7 K { name: null, open: true, n: null }\n".as_slice()
    );

    let stub = ObjectLine {
        mark: Mark::Handle(12),
        class: Txt::from_slice(rt.alloc(), b"Person")?,
        fields: Shown::Stub,
    };
    let line = object_line(rt.alloc(), &stub)?;
    assert_eq!(rt; line.as_slice(), b"!12 Person stub\n".as_slice());
    Ok(())
}

#[test]
fn answers(rt: HostRuntime) -> Result<(), Fail> {
    for (answer, want) in [
        (Answer::Done, "ok\n"),
        (
            Answer::Stored {
                number: 4_294_967_295,
                count: 0,
            },
            "stored ~4294967295 0\n",
        ),
        (Answer::Deleted(0), "deleted 0\n"),
        (Answer::Activated(1), "activated 1\n"),
        (Answer::Deactivated(2), "deactivated 2\n"),
        (Answer::Refreshed(30), "refreshed 30\n"),
        (Answer::Converted(4_294_967_295), "converted 4294967295\n"),
        (
            Answer::Committed(u64::MAX),
            "committed 18446744073709551615\n",
        ),
        (Answer::RolledBack, "rolled back\n"),
        (Answer::Closed, "closed\n"),
        (Answer::Refused(Word::Syntax), "error syntax\n"),
        (Answer::Refused(Word::Long), "error long\n"),
        (Answer::Refused(Word::Deep), "error deep\n"),
        (Answer::Refused(Word::Class), "error class\n"),
        (Answer::Refused(Word::Field), "error field\n"),
        (Answer::Refused(Word::Kind), "error kind\n"),
        (Answer::Refused(Word::Name), "error name\n"),
        (Answer::Refused(Word::Exists), "error exists\n"),
        (Answer::Refused(Word::Parent), "error parent\n"),
        (Answer::Refused(Word::Past), "error past\n"),
        (Answer::Refused(Word::Live), "error live\n"),
        (Answer::Refused(Word::Stub), "error stub\n"),
        (Answer::Refused(Word::Cycle), "error cycle\n"),
        (Answer::Refused(Word::Size), "error size\n"),
        (Answer::Refused(Word::Numbers), "error numbers\n"),
        (
            Answer::Refused(Word::Full {
                need: 3,
                len: 2,
                limit: 1,
            }),
            "error full\n",
        ),
    ] {
        let text = answer_text(rt.alloc(), &answer)?;
        assert_eq!(rt; text.as_slice(), want.as_bytes(), "want {want}");
    }
    Ok(())
}

/// Two objects of class K.
fn two_objects(alloc: Global) -> Result<ObjectLines, AllocError> {
    let mut objects = Vec::new(alloc);
    objects.push(object(alloc, Vec::new(alloc))?)?;
    objects.push(with_value(alloc, ShownValue::One(ShownAtom::Int(1)))?)?;
    Ok(Items::from_vec(objects))
}

#[test]
fn answers_with_objects(rt: HostRuntime) -> Result<(), Fail> {
    let alloc = rt.alloc();
    for (answer, want) in [
        (Answer::Found(Items::new(alloc)), "found 0\n"),
        (
            Answer::Found(two_objects(alloc)?),
            "~7 K { }\n~7 K { v: 1 }\nfound 2\n",
        ),
        (Answer::Shown(Items::new(alloc)), "shown 0\n"),
        (
            Answer::Shown(two_objects(alloc)?),
            "~7 K { }\n~7 K { v: 1 }\nshown 2\n",
        ),
        (Answer::Peeked(Items::new(alloc)), "peeked 0\n"),
        (
            Answer::Peeked(two_objects(alloc)?),
            "~7 K { }\n~7 K { v: 1 }\npeeked 2\n",
        ),
    ] {
        let text = answer_text(alloc, &answer)?;
        assert_eq!(rt; text.as_slice(), want.as_bytes(), "want {want}");
    }
    Ok(())
}

fn name(alloc: Global, name: &[u8], mark: Mark, active: bool) -> Result<NameLine, AllocError> {
    Ok(NameLine {
        name: Txt::from_slice(alloc, name)?,
        mark,
        active,
    })
}

#[test]
fn bound_names(rt: HostRuntime) -> Result<(), Fail> {
    let alloc = rt.alloc();
    let none = answer_text(alloc, &Answer::Names(Items::new(alloc)))?;
    assert_eq!(rt; none.as_slice(), b"names 0\n".as_slice());

    let mut names = Vec::new(alloc);
    names.push(name(alloc, b"b", Mark::Number(4_294_967_295), true)?)?;
    names.push(name(alloc, b"a", Mark::Number(1), false)?)?;
    names.push(name(alloc, b"c_1", Mark::Handle(12), true)?)?;
    let three = answer_text(alloc, &Answer::Names(Items::from_vec(names)))?;
    assert_eq!(rt;
        three.as_slice(),
        b"b ~4294967295 active\na ~1 stub\nc_1 !12 unsaved\nnames 3\n".as_slice()
    );
    Ok(())
}
