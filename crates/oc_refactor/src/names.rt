//! The names that are declared.

ghost use Rattle.std.specs.Prelude.{◌≡◌, ◌≤◌, ◌&&◌, not, length, true, is_some, IfOk};
ghost use Rattle.std.specs.List.{list_any};
ghost use Rattle.oc_model.specs.Maps.{are_distinct as distinct};
ghost use Rattle.oc_model.specs.Schemas.{field_named};
ghost use Rattle.oc_model.specs.SchemaSteps.{names_of};

use oc_schema::{FieldText, Schema};
use std::alloc::{AllocError, Global};
use std::collections::BTreeSet;

/// Whether no name is given twice and none is that of a field which an object of the class has.
pub fn are_free(
    alloc: Global,
    schema: &Schema,
    class: u32,
    declared: &[FieldText],
) -> Result<bool, AllocError>
    requires { class ≤ length schema.now.classes }
    ensures { IfOk result (λ b. b ≡ (distinct (names_of declared.now) && not (list_any (λ n. is_some (field_named schema.now class n)) (names_of declared.now)))) }
{
    if !are_distinct(alloc, declared)? {
        return Ok(false);
    }
    Ok(!are_inherited(schema, class, declared))
}

/// Whether no two of the declarations have one name. The set is a tree, so a chosen name costs no more than another.
pub fn are_distinct(alloc: Global, declared: &[FieldText]) -> Result<bool, AllocError>
    ensures { IfOk result (λ b. b ≡ distinct (names_of declared.now)) }
{
    let mut later: BTreeSet<&[u8]> = BTreeSet::new(alloc);
    for place in (0..declared.len()).rev() {
        let field: &FieldText = &declared[place];
        if !later.insert(field.name.as_slice())? {
            return Ok(false);
        }
    }
    Ok(true)
}

/// Whether one of the names is that of a field which an object of the class has.
fn are_inherited(schema: &Schema, class: u32, declared: &[FieldText]) -> bool
    requires { class ≤ length schema.now.classes }
    ensures { result ≡ list_any (λ n. is_some (field_named schema.now class n)) (names_of declared.now) }
{
    for field in declared {
        if has_field(schema, class, field.name.as_slice()) {
            return true;
        }
    }
    false
}

#[tactic(auto, using(oc_schema::proofs::Ancestry::no_field_named, crate::proofs::Counting::class_there))]
fn has_field(schema: &Schema, class: u32, name: &[u8]) -> bool
    requires { class ≤ length schema.now.classes }
    ensures { result ≡ is_some (field_named schema.now class name.now) }
{
    class != 0 && schema.field_named(class, name).is_some()
}
