//! Lists of fields.

ghost use Rattle.std.specs.Prelude.{◌≡◌, ◌++◌, not, ◌&&◌, find, map, Some, IfOk, OnOk};
ghost use Rattle.std.specs.List.{list_any};
ghost use Rattle.std.specs.Option.{option_copied};
ghost use Rattle.oc_model.specs.Maps.{same};
ghost use Rattle.oc_model.specs.Kinds.{same_kind};
ghost use Rattle.oc_model.specs.Schemas.{current};
ghost use Rattle.oc_model.specs.SchemaSteps.{later_field, past_field};
ghost use Rattle.oc_model.specs.StoreRules.{is_under};

use crate::class_rules::is_same;
use oc_model::schema::FieldDef;
use oc_model::value::{Entry, Kind};
use std::alloc::{AllocError, Global};

/// The current ones of the fields, behind those that are there.
pub fn push_current<'a>(
    own: &'a [FieldDef],
    fields: &mut Vec<&'a FieldDef>,
) -> Result<(), AllocError>
    ensures { OnOk result (map (λ f. f.now) fields.new.items ≡ map (λ f. f.now) fields.old.items ++ current own.now) }
{
    for field in own {
        if field.current {
            fields.push(field)?;
        }
    }
    Ok(())
}

/// The first current field of this name.
pub fn current_named<'a>(fields: &'a [FieldDef], name: &[u8]) -> Option<&'a FieldDef>
    ensures { option_copied result ≡ find (λ f. same f.name name.now) (current fields.now) }
{
    for field in fields {
        if field.current && is_same(field.name.as_slice(), name) {
            return Some(field);
        }
    }
    None
}

/// Whether one of the fields has the entry's id and kind.
pub fn has_field_of(fields: &[FieldDef], entry: &Entry) -> bool
    ensures { result ≡ list_any (λ f. is_under f entry.now) fields.now }
{
    fields.iter().any(|field| field.id == entry.id && is_same_kind(field.kind, entry.kind))
}

/// Whether both are the same kind.
pub fn is_same_kind(a: Kind, b: Kind) -> bool
    ensures { result ≡ same_kind a b }
{
    a == b
}

/// The past field of this name and kind that has the greatest id.
pub fn latest_past<'a>(fields: &'a [FieldDef], name: &[u8], kind: Kind) -> Option<&'a FieldDef>
    ensures { option_copied result ≡ past_field fields.now name.now kind }
{
    let mut latest = None;
    for field in fields {
        if is_past(field, name, kind) {
            latest = later(latest, field);
        }
    }
    latest
}

fn is_past(field: &FieldDef, name: &[u8], kind: Kind) -> bool
    ensures { result ≡ (not field.now.current && same field.now.name name.now && same_kind field.now.kind kind) }
{
    !field.current && is_same(field.name.as_slice(), name) && is_same_kind(field.kind, kind)
}

/// The one with the greater id.
fn later<'a>(latest: Option<&'a FieldDef>, field: &'a FieldDef) -> Option<&'a FieldDef>
    ensures { option_copied result ≡ later_field (option_copied latest.entry) field.now }
{
    match latest {
        Some(other) if other.id >= field.id => Some(other),
        _ => Some(field),
    }
}

/// Copies of the fields.
pub fn copies(alloc: Global, fields: &[&FieldDef]) -> Result<Vec<FieldDef>, AllocError>
    ensures { IfOk result (λ v. v.items ≡ map (λ f. f.now) fields.now) }
{
    let mut copies = Vec::new(alloc);
    for field in fields {
        copies.push(copy(alloc, field)?)?;
    }
    Ok(copies)
}

fn copy(alloc: Global, field: &FieldDef) -> Result<FieldDef, AllocError>
    ensures { IfOk result (λ f. f ≡ field.now) }
{
    Ok(FieldDef {
        id: field.id,
        name: field.name.copy(alloc)?,
        kind: field.kind,
        current: field.current,
        indexed: field.indexed,
    })
}
