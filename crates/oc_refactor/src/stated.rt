//! The fields that a declaration leaves a class.

ghost use Rattle.std.specs.Prelude.{◌≡◌, ◌+◌, ◌<◌, ◌≤◌, ◌++◌, ◌∷◌, [], true, length, filter, option_map, unwrap_or, if◌then◌else◌, IfOk, OnOk};
ghost use Rattle.std.specs.Option.{option_copied};
ghost use Rattle.oc_model.specs.SchemaSteps.{kept_field as kept, field_for as there_for, made_current as current_again, is_new as needs_id, new_field as drawn, stated_fields};

use crate::fields::copy;
use oc_schema::{FieldDef, FieldText, latest_past};
use std::alloc::{AllocError, Global};

/// The current fields that the declarations state, in their order. Those that are new get ids from `first` on.
pub fn stated(
    alloc: Global,
    own: &[FieldDef],
    declared: &[FieldText],
    first: u32,
) -> Result<Vec<FieldDef>, AllocError>
    requires { first + length (filter (needs_id own.now) declared.now) ≤ 4294967295 }
    ensures { IfOk result (λ v. v.items ≡ stated_fields own.now first declared.now) }
{
    let mut fields = Vec::new(alloc);
    let mut next = first;
    for field in declared {
        next = push_stated(alloc, own, field, next, &mut fields)?;
    }
    Ok(fields)
}

/// The field that is stated, behind the others; the id that the next new one gets.
fn push_stated(
    alloc: Global,
    own: &[FieldDef],
    declared: &FieldText,
    next: u32,
    fields: &mut Vec<FieldDef>,
) -> Result<u32, AllocError>
    requires { needs_id own.now declared.now ≡ true → next < 4294967295 }
    ensures field { OnOk result (fields.new.items ≡ fields.old.items ++ unwrap_or (there_for own.now declared.now) (drawn next declared.now) ∷ []) }
    ensures next { IfOk result (λ n. n ≡ (if needs_id own.now declared.now then next + 1 else next)) }
{
    match field_for(alloc, own, declared)? {
        Some(field) => {
            fields.push(field)?;
            Ok(next)
        }
        None => {
            fields.push(new_field(alloc, next, declared)?)?;
            Ok(next + 1)
        }
    }
}

/// How many of the declarations need a new id.
pub fn new_count(own: &[FieldDef], declared: &[FieldText]) -> usize
    ensures { result ≡ length (filter (needs_id own.now) declared.now) }
{
    let mut count: usize = 0;
    for field in declared {
        if is_new(own, field) {
            count += 1;
        }
    }
    count
}

fn is_new(own: &[FieldDef], declared: &FieldText) -> bool
    ensures { result ≡ needs_id own.now declared.now }
{
    kept_field(own, declared).is_none()
        && latest_past(own, declared.name.as_slice(), declared.kind).is_none()
}

/// The field that is there for the declaration: the current one of its name and kind as it is, else the latest past one, made current.
fn field_for(
    alloc: Global,
    own: &[FieldDef],
    declared: &FieldText,
) -> Result<Option<FieldDef>, AllocError>
    ensures { IfOk result (λ o. o ≡ there_for own.now declared.now) }
{
    if let Some(field) = kept_field(own, declared) {
        return Ok(Some(copy(alloc, field)?));
    }
    let Some(field) = latest_past(own, declared.name.as_slice(), declared.kind) else {
        return Ok(None);
    };
    Ok(Some(made_current(alloc, field)?))
}

fn kept_field<'a>(own: &'a [FieldDef], declared: &FieldText) -> Option<&'a FieldDef>
    ensures { option_copied result ≡ kept own.now declared.now }
{
    for field in own {
        if field.current
            && field.name.as_slice() == declared.name.as_slice()
            && field.kind == declared.kind
        {
            return Some(field);
        }
    }
    None
}

fn made_current(alloc: Global, field: &FieldDef) -> Result<FieldDef, AllocError>
    ensures { IfOk result (λ f. f ≡ current_again field.now) }
{
    let mut field = copy(alloc, field)?;
    field.current = true;
    field.indexed = false;
    Ok(field)
}

fn new_field(alloc: Global, id: u32, declared: &FieldText) -> Result<FieldDef, AllocError>
    ensures { IfOk result (λ f. f ≡ drawn id declared.now) }
{
    Ok(FieldDef {
        id,
        name: declared.name.copy(alloc)?,
        kind: declared.kind,
        current: true,
        indexed: false,
    })
}
