//! The own fields of a class.

ghost use Rattle.std.specs.Prelude.{◌≡◌, find, map, IfOk};
ghost use Rattle.std.specs.Option.{option_copied};
ghost use Rattle.oc_model.specs.Schemas.{current};
ghost use Rattle.oc_model.specs.SchemaSteps.{is_called};
ghost use Rattle.oc_refactor.specs.Fields.{indexed_at, named_at};

use oc_model::value::Txt;
use oc_schema::{FieldDef, Fields};
use std::alloc::{AllocError, Global};

/// The current field of this name.
pub fn own_field<'a>(fields: &'a [FieldDef], name: &[u8]) -> Option<&'a FieldDef>
    ensures { option_copied result ≡ find (is_called name.now) (current fields.now) }
{
    for field in fields {
        if field.current && field.name.as_slice() == name {
            return Some(field);
        }
    }
    None
}

/// Copies of the fields.
pub fn copies(alloc: Global, fields: &[FieldDef]) -> Result<Fields, AllocError>
    ensures { IfOk result (λ copies. copies ≡ fields.now) }
{
    let mut copies = Fields::new(alloc);
    for field in fields {
        copies.push(copy(alloc, field)?)?;
    }
    Ok(copies)
}

/// A copy of the field.
pub fn copy(alloc: Global, field: &FieldDef) -> Result<FieldDef, AllocError>
    ensures { IfOk result (λ f. f ≡ field.now) }
{
    Ok(FieldDef {
        id: field.id,
        name: field.name.copy(alloc)?,
        kind: field.kind,
        current: field.current,
        indexed: field.indexed,
    })
}

/// Copies of the fields, of which the one with this id has an index or has none.
pub fn with_index(
    alloc: Global,
    fields: &[FieldDef],
    id: u32,
    on: bool,
) -> Result<Fields, AllocError>
    ensures { IfOk result (λ copies. copies ≡ map (indexed_at id on) fields.now) }
{
    let mut copies = Fields::new(alloc);
    for field in fields {
        copies.push(indexed_copy(alloc, field, id, on)?)?;
    }
    Ok(copies)
}

fn indexed_copy(alloc: Global, field: &FieldDef, id: u32, on: bool) -> Result<FieldDef, AllocError>
    ensures { IfOk result (λ f. f ≡ indexed_at id on field.now) }
{
    let mut copy = copy(alloc, field)?;
    if copy.id == id {
        copy.indexed = on;
    }
    Ok(copy)
}

/// Copies of the fields, of which the one with this id has another name.
pub fn with_name(
    alloc: Global,
    fields: &[FieldDef],
    id: u32,
    to: &Txt,
) -> Result<Fields, AllocError>
    ensures { IfOk result (λ copies. copies ≡ map (named_at id to.now) fields.now) }
{
    let mut copies = Fields::new(alloc);
    for field in fields {
        copies.push(named_copy(alloc, field, id, to)?)?;
    }
    Ok(copies)
}

fn named_copy(alloc: Global, field: &FieldDef, id: u32, to: &Txt) -> Result<FieldDef, AllocError>
    ensures { IfOk result (λ f. f ≡ named_at id to.now field.now) }
{
    let mut copy = copy(alloc, field)?;
    if copy.id == id {
        copy.name = to.copy(alloc)?;
    }
    Ok(copy)
}
