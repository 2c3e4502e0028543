//! Schemas that grow by a class a line.

use crate::fault::Fault;
use oc_refactor::declare;
use oc_schema::{FieldText, FieldTexts, Schema, is_name};
use oc_value::{Base, Kind, Txt};
use std::alloc::{AllocError, Global};

/// Declares so many classes, each on the schema that the one before left. How many there are in the end.
pub fn classes_declared(alloc: Global, count: u32) -> Result<u64, Fault> {
    let mut schema = Schema::empty(alloc);
    for number in 0..count {
        schema = declared(alloc, &schema, number)?;
    }
    Ok(schema.len().into())
}

/// The schema with one class more, which has one field.
fn declared(alloc: Global, schema: &Schema, number: u32) -> Result<Schema, Fault> {
    let name = class_name(alloc, number)?;
    let field = FieldText {
        name: Txt::from_slice(alloc, b"points")?,
        kind: Kind::One(Base::I32),
    };
    if !is_name(name.as_slice()) || !is_name(field.name.as_slice()) {
        return Err(Fault::Refused);
    }
    let mut fields = FieldTexts::new(alloc);
    fields.push(field)?;
    let schema = declare(alloc, schema, &name, None, &fields)?;
    Ok(schema)
}

fn class_name(alloc: Global, number: u32) -> Result<Txt, AllocError> {
    let name = format!(in alloc; "C{number}")?;
    Txt::from_slice(alloc, name.as_bytes())
}
