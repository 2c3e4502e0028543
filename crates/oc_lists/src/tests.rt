//! A table of changes against a plain list.

ghost use Rattle.std.specs.Prelude.{◌≡◌, ◌∷◌, [], length, IsTrue, IfOk, IfSome, Some, None};
ghost use Rattle.oc_model.specs.declared.value.Atom.TheVariants as atom;
ghost use Rattle.oc_model.specs.declared.value.Base.TheVariants as base;
ghost use Rattle.oc_model.specs.declared.value.Kind.TheVariants as kind;
ghost use Rattle.oc_model.specs.declared.value.Value.TheVariants as value;
ghost use Rattle.oc_lists.specs.Changing.{IsStorable};
ghost use Rattle.oc_lists.specs.Lists.{HasIndexes};

use crate::bases::pairs_of;
use crate::{RecChange, key_of, relist, storable_of};
use oc_index::Indexes;
use oc_marshal::{Entries, Entry, Rec};
use oc_schema::{ClassDef, Classes, FieldDef, Fields, Schema};
use oc_value::{Atom, Base, Kind, Txt, Value};
use std::alloc::{AllocError, Global};
use std::collections::BTreeMap;
use std::test::Fail;

const NUMBER: Kind = Kind::One(Base::I32);

// An object's number, its class or 0 if it is gone, and its weight.
type Row = (u32, u32, i32);

// A field of whole numbers.
fn field_of(alloc: Global, id: u32, name: &[u8], indexed: bool) -> Result<FieldDef, AllocError> {
    Ok(FieldDef {
        id,
        name: Txt::from_slice(alloc, name)?,
        kind: NUMBER,
        current: true,
        indexed,
    })
}

fn class_of(
    alloc: Global,
    name: &[u8],
    parent: u32,
    fields: Fields,
) -> Result<ClassDef, AllocError> {
    Ok(ClassDef {
        name: Txt::from_slice(alloc, name)?,
        parent,
        fields,
    })
}

// Animals with an age and a weight that is indexed, dogs below them, and plants.
fn animals(alloc: Global) -> Result<Schema, AllocError> {
    let mut fields = Fields::new(alloc);
    fields.push(field_of(alloc, 1, b"age", false)?)?;
    fields.push(field_of(alloc, 2, b"weight", true)?)?;
    let mut classes = Classes::new(alloc);
    classes.push(class_of(alloc, b"Animal", 0, fields)?)?;
    classes.push(class_of(alloc, b"Dog", 1, Fields::new(alloc))?)?;
    classes.push(class_of(alloc, b"Plant", 0, Fields::new(alloc))?)?;
    Ok(Schema::of(alloc, classes, 3)?.unwrap_or(Schema::empty(alloc)))
}

// A record with a weight.
fn rec_of(alloc: Global, class: u32, weight: i32) -> Result<Rec, AllocError>
    ensures { IfOk result (λ r. r ≡ record { class = class; entries = record { id = 2; value = value.One (atom.Int weight); kind = kind.One base.I32 } ∷ [] }) }
{
    let mut entries = Entries::new(alloc);
    entries.push(Entry {
        id: 2,
        value: Value::One(Atom::Int(weight as i128)),
        kind: NUMBER,
    })?;
    Ok(Rec { class, entries })
}

// A record of a class with the weight, or else without it, if either is one of the schema.
fn record_for(
    alloc: Global,
    schema: &Schema,
    class: u32,
    weight: i32,
) -> Result<Option<Rec>, AllocError>
    ensures { IfOk result (λ o. IfSome o (IsStorable schema.now)) }
{
    let rec = rec_of(alloc, class, weight)?;
    if schema.suits(&rec) {
        return Ok(Some(rec));
    }
    Ok(bare(alloc, schema, class))
}

fn bare(alloc: Global, schema: &Schema, class: u32) -> Option<Rec>
    ensures { IfSome result (IsStorable schema.now) }
{
    let entries = Entries::new(alloc);
    let rec = Rec { class, entries };
    if schema.suits(&rec) { Some(rec) } else { None }
}

// Whether the schema has one indexed field, and the lists the index of that field and no other.
fn has_its_index(alloc: Global, schema: &Schema, indexes: &Indexes) -> Result<bool, AllocError>
    ensures { IfOk result (λ b. IsTrue b → HasIndexes schema.now indexes.now) }
{
    let there = indexes.indexed(alloc)?;
    let wanted = pairs_of(alloc, schema)?;
    Ok(are_one_and_same(there.as_slice(), wanted.as_slice()))
}

fn are_one_and_same(these: &[(u32, Base)], those: &[(u32, Base)]) -> bool
    ensures same { IsTrue result → these.now ≡ those.now }
    ensures one { IsTrue result → length these.now ≡ 1 }
{
    let ([this], [that]) = (these, those) else {
        return false;
    };
    this.0 == that.0 && this.1 == that.1
}

// The row of the object of this number.
fn row_of(rows: &[Row], number: u32) -> Option<Row> {
    rows.iter().find(|row| row.0 == number).copied()
}

// Makes one change, and the same in the plain list. It is false if the change may not be made.
fn change_one(
    alloc: Global,
    indexes: &mut Indexes,
    classes: &mut BTreeMap<u32, Option<u32>>,
    schema: &Schema,
    rows: &mut Vec<Row>,
    row: Row,
) -> Result<bool, AllocError> {
    if !has_its_index(alloc, schema, indexes)? {
        return Ok(false);
    }
    let (number, class, weight) = row;
    let old = match row_of(rows.as_slice(), number) {
        Some((_, class, weight)) => record_for(alloc, schema, class, weight)?,
        None => None,
    };
    let rec = record_for(alloc, schema, class, weight)?;
    relist_one_change(
        alloc,
        indexes,
        classes,
        schema,
        old,
        RecChange { number, rec },
    )?;
    rows.retain(|other| other.0 != number);
    if class != 0 {
        rows.push(row)?;
    }
    Ok(true)
}

fn relist_one_change(
    alloc: Global,
    indexes: &mut Indexes,
    classes: &mut BTreeMap<u32, Option<u32>>,
    schema: &Schema,
    old: Option<Rec>,
    change: RecChange,
) -> Result<(), AllocError>
    requires indexes { HasIndexes schema.now indexes.old }
    requires storable { IfSome change.rec (IsStorable schema.now) }
{
    relist(alloc, indexes, classes, schema, &[old], &[change])
}

// Whether the lists are those of the rows, of objects with the numbers 1 to 9 and weights below 9.
fn hold(alloc: Global, indexes: &Indexes, rows: &[Row]) -> Result<bool, AllocError> {
    for number in 1..=9_u32 {
        let class = row_of(rows, number).map(|row| row.1);
        if indexes.extents().class_of(number) != class {
            return Ok(false);
        }
    }
    let Some(index) = indexes.field(2) else {
        return Ok(false);
    };
    for weight in 0..9_i32 {
        let numbers = index.equal(alloc, &Atom::Int(weight as i128))?;
        if numbers != weighing(alloc, rows, weight)? {
            return Ok(false);
        }
    }
    Ok(true)
}

// The animals of this weight, by number.
fn weighing(alloc: Global, rows: &[Row], weight: i32) -> Result<Vec<u32>, AllocError> {
    let mut numbers = Vec::new(alloc);
    for number in 1..=9_u32 {
        match row_of(rows, number) {
            Some(row) if row.1 != 3 && row.2 == weight => numbers.push(number)?,
            _ => {}
        }
    }
    Ok(numbers)
}

// New objects of all classes, other weights, the same weights again, and objects that go.
const CHANGES: &[Row] = &[
    (3, 1, 5),
    (1, 2, 5),
    (2, 3, 5),
    (7, 1, 0),
    (3, 1, 4),
    (1, 2, 5),
    (2, 3, 6),
    (1, 0, 0),
    (9, 0, 0),
    (7, 1, 8),
    (1, 1, 8),
    (2, 0, 0),
    (3, 0, 0),
];

#[test]
fn changes_one_by_one(rt: HostRuntime) -> Result<(), Fail> {
    let alloc = rt.alloc();
    let schema = animals(alloc)?;
    let mut indexes = Indexes::new(alloc);
    indexes.start_field(alloc, 2, Base::I32)?;
    let mut classes = BTreeMap::new(alloc);
    let mut rows = Vec::new(alloc);
    for row in CHANGES {
        assert!(rt; change_one(alloc, &mut indexes, &mut classes, &schema, &mut rows, *row)?);
        assert!(rt; hold(alloc, &indexes, rows.as_slice())?);
    }
    assert_eq!(rt; rows.len(), 2);
    Ok(())
}

#[test]
fn classes_of_the_mark_are_noted(rt: HostRuntime) -> Result<(), Fail> {
    let alloc = rt.alloc();
    let schema = animals(alloc)?;
    let mut indexes = Indexes::new(alloc);
    indexes.start_field(alloc, 2, Base::I32)?;
    indexes.put(alloc, 4, 3)?;
    indexes.mark();
    let mut classes = BTreeMap::new(alloc);
    let mut rows = Vec::new(alloc);
    rows.push((4, 3, 0))?;
    for row in [(4, 0, 0), (4, 1, 2), (5, 2, 1), (5, 0, 0)] {
        assert!(rt; change_one(alloc, &mut indexes, &mut classes, &schema, &mut rows, row)?);
    }
    assert_eq!(rt; classes.get(&4).copied(), Some(Some(3)));
    assert_eq!(rt; classes.get(&5).copied(), Some(None));
    assert_eq!(rt; classes.get(&6).copied(), None);
    indexes.undo();
    assert_eq!(rt; indexes.extents().class_of(4), Some(3));
    assert_eq!(rt; indexes.extents().class_of(5), None);
    Ok(())
}

#[test]
fn keys_of_records(rt: HostRuntime) -> Result<(), Fail> {
    let alloc = rt.alloc();
    let rec = rec_of(alloc, 1, 7)?;
    let weight = field_of(alloc, 2, b"weight", true)?;
    assert!(rt; is_number(&key_of(alloc, &rec, &weight)?, 7));
    let age = field_of(alloc, 1, b"age", false)?;
    assert!(rt; is_number(&key_of(alloc, &rec, &age)?, 0));
    Ok(())
}

fn is_number(key: &Atom, number: i128) -> bool {
    match key {
        Atom::Int(value) => *value == number,
        _ => false,
    }
}

// Bytes, and the class of their record where the schema of the animals may have it.
const SPELLED: &[(&[u8], Option<u32>)] = &[
    (b"\0\0\0\x01\0\0", Some(1)),
    (b"\0\0\0\x03\0\0", Some(3)),
    (b"\0\0\0\x04\0\0", None),
    (b"\0\0\0\x01\0\0\0", None),
    (b"", None),
];

#[test]
fn records_of_bytes(rt: HostRuntime) -> Result<(), Fail> {
    let alloc = rt.alloc();
    let schema = animals(alloc)?;
    for (bytes, class) in SPELLED {
        let rec = storable_of(alloc, &schema, bytes)?;
        assert!(rt; rec.map(|rec| rec.class) == *class);
    }
    Ok(())
}
