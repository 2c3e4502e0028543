use oc_model::value::{Atom, Base, Entries, Entry, Kind, Rec, Txt, Value};
use oc_schema::{ClassDef, Classes, FieldDef, Fields, Schema};
use std::alloc::{AllocError, Global};
use std::test::Fail;

const NUMBER: Kind = Kind::One(Base::I32);

const NUMBERS: Kind = Kind::Many(Base::I32);

/// A field's id, name and kind, and whether it is current and indexed.
type FieldRow = (u32, &'static [u8], Kind, bool, bool);

/// A class's name, its parent and its fields.
type ClassRow = (&'static [u8], u32, &'static [FieldRow]);

fn classes(alloc: Global, rows: &[ClassRow]) -> Result<Classes, AllocError> {
    let mut classes = Classes::new(alloc);
    for (name, parent, own) in rows {
        let mut fields = Fields::new(alloc);
        for (id, name, kind, current, indexed) in *own {
            fields.push(FieldDef {
                id: *id,
                name: Txt::from_slice(alloc, name)?,
                kind: *kind,
                current: *current,
                indexed: *indexed,
            })?;
        }
        classes.push(ClassDef {
            name: Txt::from_slice(alloc, name)?,
            parent: *parent,
            fields,
        })?;
    }
    Ok(classes)
}

/// Two classes, the second below the first, and a third apart.
const ANIMALS: &[ClassRow] = &[
    (
        b"Animal",
        0,
        &[
            (1, b"age", NUMBER, true, false),
            (2, b"weight", NUMBER, true, true),
            (3, b"size", NUMBER, false, false),
            (4, b"size", NUMBER, false, false),
            (5, b"size", NUMBERS, false, false),
        ],
    ),
    (
        b"Dog",
        1,
        &[
            (6, b"tricks", NUMBER, true, false),
            (7, b"age", NUMBER, false, false),
        ],
    ),
    (b"Plant", 0, &[]),
];

/// Which rule is broken, the id of the next field, the classes, and whether they make a schema.
type RuleRow = (&'static str, u32, &'static [ClassRow], bool);

const RULES: &[RuleRow] = &[
    ("all rules kept", 8, ANIMALS, true),
    ("no class", 1, &[], true),
    ("a class without a name", 1, &[(b"", 0, &[])], false),
    (
        "a reserved word",
        2,
        &[(b"A", 0, &[(1, b"order", NUMBER, true, false)])],
        false,
    ),
    (
        "one name twice",
        1,
        &[(b"A", 0, &[]), (b"A", 0, &[])],
        false,
    ),
    ("its own parent", 1, &[(b"A", 1, &[])], false),
    (
        "a name of the parent's",
        3,
        &[
            (b"A", 0, &[(1, b"a", NUMBER, true, false)]),
            (b"B", 1, &[(2, b"a", NUMBER, true, false)]),
        ],
        false,
    ),
    (
        "one id twice",
        2,
        &[
            (b"A", 0, &[(1, b"a", NUMBER, true, false)]),
            (b"B", 0, &[(1, b"a", NUMBER, true, false)]),
        ],
        false,
    ),
    (
        "the id 0",
        2,
        &[(b"A", 0, &[(0, b"a", NUMBER, true, false)])],
        false,
    ),
    (
        "an id that wasn't drawn",
        1,
        &[(b"A", 0, &[(1, b"a", NUMBER, true, false)])],
        false,
    ),
    ("a next id of 0", 0, &[], false),
    (
        "a past field in front",
        3,
        &[(
            b"A",
            0,
            &[
                (1, b"b", NUMBER, false, false),
                (2, b"a", NUMBER, true, false),
            ],
        )],
        false,
    ),
    (
        "past fields that descend",
        3,
        &[(
            b"A",
            0,
            &[
                (2, b"b", NUMBER, false, false),
                (1, b"a", NUMBER, false, false),
            ],
        )],
        false,
    ),
    (
        "an indexed past field",
        2,
        &[(b"A", 0, &[(1, b"a", NUMBER, false, true)])],
        false,
    ),
    (
        "an indexed array",
        2,
        &[(b"A", 0, &[(1, b"a", NUMBERS, true, true)])],
        false,
    ),
];

#[test]
fn each_broken_rule_leaves_no_schema(rt: HostRuntime) -> Result<(), Fail> {
    for (what, next_field, rows, want) in RULES {
        let made = Schema::of(rt.alloc(), classes(rt.alloc(), rows)?, *next_field)?;
        assert_eq!(rt; (*what, made.is_some()), (*what, *want));
    }
    Ok(())
}

/// Fields from this id on, of which each has its id in its name.
fn numbered_fields(
    alloc: Global,
    first: u32,
    count: u32,
    current: bool,
    fields: &mut Fields,
) -> Result<(), AllocError> {
    for id in first..first.saturating_add(count) {
        let name = format!(in alloc; "f{id}")?;
        fields.push(FieldDef {
            id,
            name: Txt::from_slice(alloc, name.as_bytes())?,
            kind: NUMBER,
            current,
            indexed: false,
        })?;
    }
    Ok(())
}

/// So many classes, each below the one before; the last has so many current and past fields.
fn chain(alloc: Global, length: u32, current: u32, past: u32) -> Result<Classes, AllocError> {
    let mut classes = Classes::new(alloc);
    for above in 0..length {
        let mut fields = Fields::new(alloc);
        if above.saturating_add(1) == length {
            numbered_fields(alloc, 1, current, true, &mut fields)?;
            numbered_fields(alloc, current.saturating_add(1), past, false, &mut fields)?;
        }
        let name = format!(in alloc; "C{above}")?;
        classes.push(ClassDef {
            name: Txt::from_slice(alloc, name.as_bytes())?,
            parent: above,
            fields,
        })?;
    }
    Ok(classes)
}

#[test]
fn limits_are_exact(rt: HostRuntime) -> Result<(), Fail> {
    for (length, current, past, want) in [
        (33, 0, 0, true),
        (34, 0, 0, false),
        (1, 255, 0, true),
        (1, 256, 0, false),
        (1, 255, 745, true),
        (1, 255, 746, false),
    ] {
        let made = Schema::of(rt.alloc(), chain(rt.alloc(), length, current, past)?, 2_000)?;
        assert_eq!(rt;
            (length, current, past, made.is_some()),
            (length, current, past, want)
        );
    }
    Ok(())
}

fn animals(alloc: Global) -> Result<Schema, AllocError> {
    match Schema::of(alloc, classes(alloc, ANIMALS)?, 8)? {
        Some(schema) => Ok(schema),
        None => Ok(Schema::empty(alloc)),
    }
}

#[test]
fn classes_and_fields_are_found(rt: HostRuntime) -> Result<(), Fail> {
    let schema = animals(rt.alloc())?;
    assert_eq!(rt; (schema.len(), schema.next_field()), (3, 8));
    for (name, want) in [
        (b"Animal".as_slice(), Some(1)),
        (b"Dog", Some(2)),
        (b"Plant", Some(3)),
        (b"dog", None),
    ] {
        assert_eq!(rt; schema.class_named(name), want);
    }
    assert!(rt; schema.class(0).is_none() && schema.class(4).is_none());
    let names: &[&[u8]] = &[b"age", b"weight", b"tricks"];
    let fields = fields_of(rt.alloc(), &schema, 2)?;
    assert_eq!(rt; fields.len(), names.len());
    for (field, name) in fields.iter().zip(names) {
        assert_eq!(rt; field.name.as_slice(), *name);
    }
    for (class, name, want) in [
        (2, b"age".as_slice(), Some(1)),
        (1, b"weight", Some(2)),
        (1, b"size", None),
        (1, b"tricks", None),
    ] {
        assert_eq!(rt; field_id(&schema, class, name), want);
    }
    for (class, name, want) in [
        (1, b"size".as_slice(), Some(4)),
        (1, b"age", None),
        (2, b"age", Some(7)),
    ] {
        assert_eq!(rt; past_id(&schema, class, name), want);
    }
    for (a, b, want) in [(1, 1, true), (2, 1, true), (1, 2, false), (3, 1, false)] {
        assert_eq!(rt; is_below(&schema, a, b), want);
    }
    Ok(())
}

// Each of these asks where the class is there.

fn fields_of(alloc: Global, schema: &Schema, class: u32) -> Result<Vec<FieldDef>, AllocError> {
    if schema.class(class).is_none() {
        return Ok(Vec::new(alloc));
    }
    schema.fields_of(alloc, class)
}

fn field_id(schema: &Schema, class: u32, name: &[u8]) -> Option<u32> {
    schema.class(class)?;
    let field = schema.field_named(class, name)?;
    Some(field.id)
}

fn past_id(schema: &Schema, class: u32, name: &[u8]) -> Option<u32> {
    schema.class(class)?;
    schema.past_field(class, name, NUMBER)
}

fn is_below(schema: &Schema, a: u32, b: u32) -> bool {
    schema.class(a).is_some() && schema.class(b).is_some() && schema.is_sub(a, b)
}

#[test]
fn records_suit_their_class(rt: HostRuntime) -> Result<(), Fail> {
    let schema = animals(rt.alloc())?;
    let rows: [(u32, &[(u32, Kind)], bool); 7] = [
        (2, &[(1, NUMBER), (6, NUMBER), (7, NUMBER)], true),
        (2, &[(4, NUMBER)], true),
        (1, &[(6, NUMBER)], false),
        (1, &[(1, Kind::One(Base::I64))], false),
        (1, &[(1, Kind::One(Base::Text))], false),
        (2, &[(6, NUMBER), (1, NUMBER)], false),
        (4, &[], false),
    ];
    for (class, ids, want) in rows {
        let mut entries = Entries::new(rt.alloc());
        for (id, kind) in ids {
            entries.push(Entry {
                id: *id,
                value: Value::One(Atom::Int(0)),
                kind: *kind,
            })?;
        }
        assert_eq!(rt; schema.suits(&Rec { class, entries }), want);
    }
    Ok(())
}
