//! The classes of the tests: a shape with a size and a name, which are indexed, a circle and a square below it, a note with
//! texts, and a tag.

use oc_marshal::{Rec, decode};
use oc_schema::{ClassDef, Classes, FieldDef, Fields, Schema};
use oc_value::{Atom, Base, Entry, Kind, Txt, Value};
use std::alloc::{AllocError, Global};

/// The class of an object, and the key that its fields are made of.
#[derive(Clone, Copy, Debug, PartialEq, Eq)]
pub struct Shape {
    pub class: u32,
    pub key: u8,
}

/// The field of the size.
pub const SIZE: u32 = 1;

/// The field of the name.
pub const NAME: u32 = 2;

/// The first text of a note.
pub const TEXT: u32 = 3;

/// The class of notes.
pub const NOTE: u32 = 4;

/// How many texts a note has.
const TEXTS: u32 = 5;

fn field_of(
    alloc: Global,
    id: u32,
    name: &[u8],
    base: Base,
    indexed: bool,
) -> Result<FieldDef, AllocError> {
    Ok(FieldDef {
        id,
        name: Txt::from_slice(alloc, name)?,
        kind: Kind::One(base),
        current: true,
        indexed,
    })
}

fn class_of(
    alloc: Global,
    name: &[u8],
    parent: u32,
    fields: Fields,
) -> Result<ClassDef, AllocError> {
    Ok(ClassDef {
        name: Txt::from_slice(alloc, name)?,
        parent,
        fields,
    })
}

fn shape_fields(alloc: Global) -> Result<Fields, AllocError> {
    let mut fields = Fields::new(alloc);
    fields.push(field_of(alloc, SIZE, b"size", Base::I32, true)?)?;
    fields.push(field_of(alloc, NAME, b"name", Base::Text, true)?)?;
    Ok(fields)
}

fn note_fields(alloc: Global) -> Result<Fields, AllocError> {
    let mut fields = Fields::new(alloc);
    for name in [b"a", b"b", b"c", b"d", b"e"] {
        let id = TEXT + fields.as_slice().len().min(4) as u32;
        fields.push(field_of(alloc, id, name, Base::Text, false)?)?;
    }
    Ok(fields)
}

fn none(alloc: Global) -> Fields {
    Fields::new(alloc)
}

/// The schema of the five classes.
pub fn shapes(alloc: Global) -> Result<Option<Schema>, AllocError> {
    let mut classes = Classes::new(alloc);
    classes.push(class_of(alloc, b"Shape", 0, shape_fields(alloc)?)?)?;
    classes.push(class_of(alloc, b"Circle", 1, none(alloc))?)?;
    classes.push(class_of(alloc, b"Square", 1, none(alloc))?)?;
    classes.push(class_of(alloc, b"Note", 0, note_fields(alloc)?)?)?;
    classes.push(class_of(alloc, b"Tag", 0, none(alloc))?)?;
    Schema::of(alloc, classes, TEXT + TEXTS)
}

/// The name of a shape of this key: so many letters of one kind, or none at all.
pub fn name_of(key: u8) -> Option<(u8, usize)> {
    match key % 5 {
        4 => None,
        _ => Some((b'a' + key % 26, (key % 7) as usize)),
    }
}

fn put_head(bytes: &mut Vec<u8>, class: u32, count: u16) -> Result<(), AllocError> {
    bytes.extend_from_slice(&class.to_be_bytes())?;
    bytes.extend_from_slice(&count.to_be_bytes())
}

fn put_number(bytes: &mut Vec<u8>, id: u32, number: u32) -> Result<(), AllocError> {
    bytes.extend_from_slice(&id.to_be_bytes())?;
    bytes.push(4)?;
    bytes.extend_from_slice(&number.to_be_bytes())
}

fn put_text(bytes: &mut Vec<u8>, id: u32, text: Option<(u8, usize)>) -> Result<(), AllocError> {
    bytes.extend_from_slice(&id.to_be_bytes())?;
    bytes.push(6)?;
    match text {
        Some((letter, len)) => put_letters(bytes, letter, len),
        None => put_byte(bytes, 0),
    }
}

fn put_byte(bytes: &mut Vec<u8>, byte: u8) -> Result<(), AllocError> {
    bytes.push(byte)?;
    Ok(())
}

fn put_letters(bytes: &mut Vec<u8>, letter: u8, len: usize) -> Result<(), AllocError> {
    let count = u32::try_from(len).unwrap_or(u32::MAX);
    bytes.push(1)?;
    bytes.extend_from_slice(&count.to_be_bytes())?;
    for _ in 0..len {
        bytes.push(letter)?;
    }
    Ok(())
}

/// The bytes of the record that an object of this class and key has.
pub fn bytes_of(alloc: Global, shape: Shape) -> Result<Vec<u8>, AllocError> {
    let mut bytes = Vec::new(alloc);
    match shape.class {
        1..=3 => {
            put_head(&mut bytes, shape.class, 2)?;
            put_number(&mut bytes, SIZE, shape.key as u32)?;
            put_text(&mut bytes, NAME, name_of(shape.key))?;
        }
        NOTE => {
            put_head(&mut bytes, NOTE, 1)?;
            put_text(&mut bytes, TEXT, name_of(shape.key))?;
        }
        class => put_head(&mut bytes, class, 0)?,
    }
    Ok(bytes)
}

/// The bytes of a note with texts of these lengths.
pub fn note_of(alloc: Global, lens: [usize; 5]) -> Result<Vec<u8>, AllocError> {
    let mut bytes = Vec::new(alloc);
    put_head(&mut bytes, NOTE, 5)?;
    let mut id = TEXT;
    for len in lens {
        put_text(&mut bytes, id, Some((b'x', len)))?;
        id = id.saturating_add(1);
    }
    Ok(bytes)
}

/// Whether the record is that of these bytes.
pub fn is_of_bytes(alloc: Global, rec: &Rec, bytes: &[u8]) -> bool {
    match decode(alloc, bytes) {
        Ok(other) => {
            rec.class == other.class && are_same(rec.entries.as_slice(), other.entries.as_slice())
        }
        Err(_) => false,
    }
}

fn are_same(these: &[Entry], those: &[Entry]) -> bool {
    if these.len() != those.len() {
        return false;
    }
    for place in 0..these.len() {
        if !is_same(&these[place], &those[place]) {
            return false;
        }
    }
    true
}

fn is_same(this: &Entry, that: &Entry) -> bool {
    this.id == that.id && is_same_value(&this.value, &that.value)
}

fn is_same_value(this: &Value, that: &Value) -> bool {
    match (this, that) {
        (Value::One(Atom::Int(a)), Value::One(Atom::Int(b))) => *a == *b,
        (Value::One(Atom::Text(a)), Value::One(Atom::Text(b))) => is_same_text(a, b),
        _ => false,
    }
}

fn is_same_text(this: &Option<Txt>, that: &Option<Txt>) -> bool {
    match (this, that) {
        (Some(a), Some(b)) => a.as_slice() == b.as_slice(),
        (None, None) => true,
        _ => false,
    }
}
