ghost use Rattle.std.specs.Prelude.{◌≡◌, true, IfOk};
ghost use Rattle.std.specs.List.{list_all};
ghost use Rattle.oc_model.specs.SchemaRules.{is_name as names};

use oc_model::value::{Base, Kind, Txt};
use oc_refactor::{
    ConvertFault, DeclareFault, IndexFault, RenameClassFault, RenameFieldFault, convert_plan,
    declare, rename_class, rename_field, set_index,
};
use oc_schema::{ClassDef, Classes, FieldDef, FieldText, FieldTexts, Fields, Schema, is_name};
use std::alloc::{AllocError, Global};
use std::test::Fail;

const SMALL: Kind = Kind::One(Base::I32);

const GREAT: Kind = Kind::One(Base::I64);

const MANY: Kind = Kind::Many(Base::I32);

// ---- what is converted

/// One class `A`: `a` is a great number and was a small one twice, and `b` has always been a small one.
fn changed(alloc: Global) -> Result<Schema, AllocError> {
    let mut fields = Fields::new(alloc);
    for (id, name, kind, current) in [
        (4, b"a", GREAT, true),
        (2, b"b", SMALL, true),
        (1, b"a", SMALL, false),
        (3, b"a", SMALL, false),
    ] {
        fields.push(FieldDef {
            id,
            name: Txt::from_slice(alloc, name)?,
            kind,
            current,
            indexed: false,
        })?;
    }
    let mut classes = Classes::new(alloc);
    classes.push(ClassDef {
        name: Txt::from_slice(alloc, b"A")?,
        parent: 0,
        fields,
    })?;
    match Schema::of(alloc, classes, 5)? {
        Some(schema) => Ok(schema),
        None => Ok(Schema::empty(alloc)),
    }
}

#[test]
fn the_latest_past_field_is_converted(rt: HostRuntime) -> Result<(), Fail> {
    let alloc = rt.alloc();
    let schema = changed(alloc)?;
    for (class, field, from, want) in [
        (b"A", b"a", SMALL, Ok((1, 3, 4))),
        (b"B", b"a", SMALL, Err(ConvertFault::Class)),
        (b"A", b"c", SMALL, Err(ConvertFault::Field)),
        (b"A", b"b", SMALL, Err(ConvertFault::Past)),
        (b"A", b"a", GREAT, Err(ConvertFault::Past)),
    ] {
        let class = Txt::from_slice(alloc, class)?;
        let field = Txt::from_slice(alloc, field)?;
        let plan = convert_plan(&schema, &class, &field, from);
        assert_eq!(rt;
            plan.map(|plan| (plan.class, plan.past, plan.current)),
            want
        );
    }
    Ok(())
}

// ---- what is declared

/// A name; `AllocError` stands for what is none, and no test wants it.
fn name(alloc: Global, bytes: &[u8]) -> Result<Txt, AllocError>
    ensures { IfOk result (λ t. names t ≡ true) }
{
    if !is_name(bytes) {
        return Err(AllocError);
    }
    Txt::from_slice(alloc, bytes)
}

fn all_named(fields: &[FieldText]) -> bool
    ensures { result ≡ list_all (λ d. names d.name) fields.now }
{
    fields.iter().all(|field| is_name(field.name.as_slice()))
}

/// A class line: `class name : parent { fields }`, where no parent is an empty one.
fn line(
    alloc: Global,
    schema: &Schema,
    class: &[u8],
    parent: &[u8],
    fields: &FieldTexts,
) -> Result<Result<Schema, DeclareFault>, AllocError> {
    if !all_named(fields.as_slice()) {
        return Err(AllocError);
    }
    let class = name(alloc, class)?;
    if parent.is_empty() {
        return Ok(declare(alloc, schema, &class, None, fields));
    }
    let parent = Txt::from_slice(alloc, parent)?;
    Ok(declare(alloc, schema, &class, Some(&parent), fields))
}

type Row = (
    &'static [u8],
    &'static [u8],
    &'static [(&'static [u8], Kind)],
);

fn texts(alloc: Global, rows: &[(&'static [u8], Kind)]) -> Result<FieldTexts, AllocError> {
    let mut fields = FieldTexts::new(alloc);
    for (name, kind) in rows {
        fields.push(FieldText {
            name: Txt::from_slice(alloc, name)?,
            kind: *kind,
        })?;
    }
    Ok(fields)
}

/// What each line says, in order: a refused one leaves the schema.
const LINES: &[(Row, Option<DeclareFault>)] = &[
    ((b"A", b"X", &[]), Some(DeclareFault::Class)),
    ((b"A", b"A", &[]), Some(DeclareFault::Class)),
    ((b"A", b"", &[(b"a", SMALL)]), None),
    (
        (b"B", b"", &[(b"a", SMALL), (b"a", GREAT)]),
        Some(DeclareFault::Exists),
    ),
    ((b"B", b"A", &[(b"a", GREAT)]), Some(DeclareFault::Exists)),
    ((b"B", b"A", &[(b"b", SMALL)]), None),
    ((b"A", b"A", &[]), Some(DeclareFault::Parent)),
    ((b"A", b"X", &[]), Some(DeclareFault::Class)),
    ((b"B", b"", &[(b"a", SMALL)]), Some(DeclareFault::Parent)),
    ((b"A", b"", &[(b"b", SMALL)]), Some(DeclareFault::Exists)),
    ((b"B", b"A", &[(b"a", SMALL)]), Some(DeclareFault::Exists)),
    (
        (b"B", b"A", &[(b"c", SMALL), (b"c", SMALL)]),
        Some(DeclareFault::Exists),
    ),
    ((b"B", b"A", &[(b"b", GREAT), (b"c", SMALL)]), None),
    ((b"A", b"", &[(b"d", SMALL)]), None),
    ((b"A", b"", &[(b"a", SMALL)]), None),
];

#[test]
fn each_line_has_its_answer(rt: HostRuntime) -> Result<(), Fail> {
    let alloc = rt.alloc();
    let mut schema = Schema::empty(alloc);
    for ((class, parent, fields), want) in LINES {
        let fields = texts(alloc, fields)?;
        match line(alloc, &schema, class, parent, &fields)? {
            Ok(next) => {
                assert_eq!(rt; None, *want);
                schema = next;
            }
            Err(fault) => assert_eq!(rt; Some(fault), *want),
        }
    }
    Ok(())
}

/// The ids of the class's own fields in their order; the current ones first, and of each whether it is current and indexed.
fn own_fields(
    alloc: Global,
    schema: &Schema,
    class: &[u8],
) -> Result<Vec<(u32, bool, bool)>, AllocError> {
    let mut fields = Vec::new(alloc);
    if let Some(number) = schema.class_named(class) {
        if let Some(class) = schema.class(number) {
            for field in class.fields.as_slice() {
                fields.push((field.id, field.current, field.indexed))?;
            }
        }
    }
    Ok(fields)
}

/// A class's lines one after another, and the own fields that each leaves. An index is set on every field before each.
const CHANGES: &[(&[(&[u8], Kind)], &[(u32, bool, bool)])] = &[
    (
        &[(b"v", SMALL), (b"w", GREAT)],
        &[(1, true, false), (2, true, false)],
    ),
    (
        &[(b"w", GREAT), (b"v", GREAT)],
        &[(2, true, true), (3, true, false), (1, false, false)],
    ),
    (
        &[(b"u", MANY)],
        &[
            (4, true, false),
            (1, false, false),
            (2, false, false),
            (3, false, false),
        ],
    ),
    (
        &[(b"v", SMALL), (b"u", MANY)],
        &[
            (1, true, false),
            (4, true, false),
            (2, false, false),
            (3, false, false),
        ],
    ),
    (
        &[(b"v", SMALL), (b"w", SMALL)],
        &[
            (1, true, true),
            (5, true, false),
            (2, false, false),
            (3, false, false),
            (4, false, false),
        ],
    ),
];

#[test]
fn a_field_keeps_its_id(rt: HostRuntime) -> Result<(), Fail> {
    let alloc = rt.alloc();
    let mut schema = Schema::empty(alloc);
    for (fields, want) in CHANGES {
        for field in [b"u", b"v", b"w"] {
            let class = Txt::from_slice(alloc, b"K")?;
            let field = Txt::from_slice(alloc, field)?;
            if let Ok(next) = set_index(alloc, &schema, &class, &field, true) {
                schema = next;
            }
        }
        let fields = texts(alloc, fields)?;
        if let Ok(next) = line(alloc, &schema, b"K", b"", &fields)? {
            schema = next;
        }
        let own = own_fields(alloc, &schema, b"K")?;
        assert_eq!(rt; own.as_slice(), *want);
    }
    Ok(())
}

// ---- the limits

/// The name of a number below 17,576.
fn numbered(alloc: Global, n: u32) -> Result<Txt, AllocError> {
    let letters = [n / 676 % 26, n / 26 % 26, n % 26];
    Txt::from_slice(
        alloc,
        &[
            b'_',
            b'a' + letters[0] as u8,
            b'a' + letters[1] as u8,
            b'a' + letters[2] as u8,
        ],
    )
}

/// So many fields of this kind, with the names from this number on.
fn many(alloc: Global, from: u16, count: u16, kind: Kind) -> Result<FieldTexts, AllocError> {
    let mut fields = FieldTexts::new(alloc);
    for n in 0..count {
        fields.push(FieldText {
            name: numbered(alloc, u32::from(from) + u32::from(n))?,
            kind,
        })?;
    }
    Ok(fields)
}

/// A class, its parent, its fields (the first one's number, and how many), and whether there is room.
type Wide = (&'static [u8], &'static [u8], u16, u16, bool);

const WIDE: &[Wide] = &[
    (b"A", b"", 0, 256, false),
    (b"A", b"", 0, 255, true),
    (b"B", b"A", 300, 1, false),
    (b"A", b"", 0, 200, true),
    (b"B", b"A", 300, 56, false),
    (b"B", b"A", 300, 55, true),
    (b"C", b"B", 500, 0, true),
    (b"A", b"", 0, 201, false),
    (b"A", b"", 0, 199, true),
    (b"B", b"A", 300, 57, false),
    (b"B", b"A", 300, 56, true),
];

#[test]
fn there_are_255_fields(rt: HostRuntime) -> Result<(), Fail> {
    let alloc = rt.alloc();
    let mut schema = Schema::empty(alloc);
    for (class, parent, from, count, room) in WIDE {
        let fields = many(alloc, *from, *count, SMALL)?;
        match line(alloc, &schema, class, parent, &fields)? {
            Ok(next) => {
                assert!(rt; *room);
                schema = next;
            }
            Err(fault) => assert_eq!(rt; (fault, false), (DeclareFault::Size, *room)),
        }
    }
    Ok(())
}

#[test]
fn there_are_1000_own_fields(rt: HostRuntime) -> Result<(), Fail> {
    let alloc = rt.alloc();
    let mut schema = Schema::empty(alloc);
    for (from, count, kind, room) in [
        (0, 250, SMALL, true),
        (0, 250, GREAT, true),
        (0, 250, MANY, true),
        (300, 250, MANY, true),
        (300, 251, MANY, false),
        (300, 250, MANY, true),
        (300, 249, MANY, true),
        (299, 1, MANY, false),
    ] {
        let fields = many(alloc, from, count, kind)?;
        match line(alloc, &schema, b"A", b"", &fields)? {
            Ok(next) => {
                assert!(rt; room);
                schema = next;
            }
            Err(fault) => assert_eq!(rt; (fault, false), (DeclareFault::Size, room)),
        }
    }
    let own = own_fields(alloc, &schema, b"A")?;
    assert_eq!(rt; own.len(), 1_000);
    Ok(())
}

#[test]
fn there_are_32_ancestors(rt: HostRuntime) -> Result<(), Fail> {
    let alloc = rt.alloc();
    let none = FieldTexts::new(alloc);
    let mut schema = Schema::empty(alloc);
    let mut parent = Txt::from_slice(alloc, b"")?;
    for n in 0..34 {
        let class = numbered(alloc, n)?;
        match line(alloc, &schema, class.as_slice(), parent.as_slice(), &none)? {
            Ok(next) => {
                assert!(rt; n <= 32);
                schema = next;
                parent = class;
            }
            Err(fault) => assert_eq!(rt; (fault, n), (DeclareFault::Size, 33)),
        }
    }
    Ok(())
}

// ---- renames and indexes

/// Three classes in a row, each with a field, and one apart.
const FAMILY: &[Row] = &[
    (b"A", b"", &[(b"a", SMALL)]),
    (b"B", b"A", &[(b"b", SMALL)]),
    (b"C", b"B", &[(b"c", MANY)]),
    (b"D", b"", &[(b"d", SMALL)]),
];

fn family(alloc: Global) -> Result<Schema, AllocError> {
    let mut schema = Schema::empty(alloc);
    for (class, parent, fields) in FAMILY {
        let fields = texts(alloc, fields)?;
        if let Ok(next) = line(alloc, &schema, class, parent, &fields)? {
            schema = next;
        }
    }
    Ok(schema)
}

#[test]
fn each_rename_has_its_answer(rt: HostRuntime) -> Result<(), Fail> {
    let alloc = rt.alloc();
    let schema = family(alloc)?;
    for (class, to, want) in [
        (b"X", b"A", Err(RenameClassFault::Class)),
        (b"A", b"A", Err(RenameClassFault::Exists)),
        (b"A", b"B", Err(RenameClassFault::Exists)),
        (b"A", b"X", Ok(Some(1))),
    ] {
        let class = Txt::from_slice(alloc, class)?;
        let to = name(alloc, to)?;
        let renamed = rename_class(alloc, &schema, &class, &to);
        assert_eq!(rt;
            renamed.map(|schema| schema.class_named(to.as_slice())),
            want
        );
    }
    for (class, field, to, want) in [
        (b"X", b"x", b"x", Some(RenameFieldFault::Class)),
        (b"B", b"a", b"x", Some(RenameFieldFault::Field)),
        (b"B", b"b", b"a", Some(RenameFieldFault::Exists)),
        (b"B", b"b", b"b", Some(RenameFieldFault::Exists)),
        (b"B", b"b", b"c", Some(RenameFieldFault::Exists)),
        (b"B", b"b", b"d", None),
    ] {
        let class = Txt::from_slice(alloc, class)?;
        let field = Txt::from_slice(alloc, field)?;
        let to = name(alloc, to)?;
        let renamed = rename_field(alloc, &schema, &class, &field, &to);
        assert_eq!(rt; renamed.err(), want);
    }
    Ok(())
}

#[test]
fn each_index_has_its_answer(rt: HostRuntime) -> Result<(), Fail> {
    let alloc = rt.alloc();
    let schema = family(alloc)?;
    for (class, field, on, want) in [
        (b"X", b"a", true, Some(IndexFault::Class)),
        (b"A", b"b", true, Some(IndexFault::Field)),
        (b"C", b"c", true, Some(IndexFault::Kind)),
        (b"C", b"c", false, None),
        (b"C", b"a", true, None),
    ] {
        let class = Txt::from_slice(alloc, class)?;
        let field = Txt::from_slice(alloc, field)?;
        let set = set_index(alloc, &schema, &class, &field, on);
        assert_eq!(rt; set.err(), want);
    }
    let class = Txt::from_slice(alloc, b"C")?;
    let field = Txt::from_slice(alloc, b"a")?;
    if let Ok(schema) = set_index(alloc, &schema, &class, &field, true) {
        let own = own_fields(alloc, &schema, b"A")?;
        assert_eq!(rt; own.as_slice(), [(1, true, true)].as_slice());
    }
    Ok(())
}
