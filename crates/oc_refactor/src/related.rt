//! What stands above a class and below it.

ghost use Rattle.std.specs.Prelude.{◌≡◌, ◌++◌, ◌||◌, ◌&&◌, not, true, map, find, is_some, IfOk, OnOk};
ghost use Rattle.std.specs.List.{list_any};
ghost use Rattle.oc_model.specs.Maps.{are_distinct as distinct};
ghost use Rattle.oc_model.specs.Schemas.{class_at, current};
ghost use Rattle.oc_model.specs.SchemaRules.{is_above as above};
ghost use Rattle.oc_model.specs.SchemaSteps.{is_called, own_field as field_of, is_taken_around as taken_around, names_of};
ghost use Rattle.oc_refactor.specs.Around.{is_related as related, classes_around, kept_where};

use crate::fields::own_field;
use crate::names::are_distinct;
use oc_schema::{ClassDef, FieldText, Schema};
use std::alloc::{AllocError, Global};

/// The ancestors and the descendants of the class, by their numbers.
#[tactic(auto, using(crate::proofs::Around::around_turn, crate::proofs::Around::class_in_place))]
pub fn around<'a>(
    alloc: Global,
    schema: &'a Schema,
    class: u32,
) -> Result<Vec<&'a ClassDef>, AllocError>
    requires { is_some (class_at schema.now class) ≡ true }
    ensures { IfOk result (λ v. map (λ c. c.now) v.items ≡ classes_around schema.now class) }
{
    let mut around = Vec::new(alloc);
    for place in 0..schema.len() {
        push_related(schema, class, place + 1, &mut around)?;
    }
    Ok(around)
}

fn push_related<'a>(
    schema: &'a Schema,
    class: u32,
    number: u32,
    around: &mut Vec<&'a ClassDef>,
) -> Result<(), AllocError>
    requires class { is_some (class_at schema.now class) ≡ true }
    requires number { is_some (class_at schema.now number) ≡ true }
    ensures { OnOk result (map (λ c. c.now) around.new.items ≡ map (λ c. c.now) around.old.items ++ kept_where (related schema.now class number) (class_at schema.now number)) }
{
    if let Some(found) = schema.class(number) {
        if is_related(schema, class, number) {
            around.push(found)?;
        }
    }
    Ok(())
}

fn is_related(schema: &Schema, a: u32, b: u32) -> bool
    requires a { is_some (class_at schema.now a) ≡ true }
    requires b { is_some (class_at schema.now b) ≡ true }
    ensures { result ≡ related schema.now a b }
{
    is_above(schema, b, a) || is_above(schema, a, b)
}

fn is_above(schema: &Schema, a: u32, b: u32) -> bool
    requires a { is_some (class_at schema.now a) ≡ true }
    requires b { is_some (class_at schema.now b) ≡ true }
    ensures { result ≡ above schema.now a b }
{
    a != b && schema.is_sub(b, a)
}

/// Whether the class, an ancestor or a descendant has an own current field of this name.
pub fn is_taken(alloc: Global, schema: &Schema, class: u32, name: &[u8]) -> Result<bool, AllocError>
    requires { is_some (class_at schema.now class) ≡ true }
    ensures { IfOk result (λ b. b ≡ (is_some (field_of schema.now class name.now) || taken_around schema.now class name.now)) }
{
    if has_own(schema, class, name) {
        return Ok(true);
    }
    let taken = is_taken_around(alloc, schema, class, name)?;
    Ok(taken)
}

fn is_taken_around(
    alloc: Global,
    schema: &Schema,
    class: u32,
    name: &[u8],
) -> Result<bool, AllocError>
    requires { is_some (class_at schema.now class) ≡ true }
    ensures { IfOk result (λ b. b ≡ taken_around schema.now class name.now) }
{
    let around = around(alloc, schema, class)?;
    let taken = has_named(around.as_slice(), name);
    Ok(taken)
}

/// Whether no name is given twice and none is that of a field of an ancestor or a descendant of the class.
pub fn are_free_around(
    alloc: Global,
    schema: &Schema,
    class: u32,
    declared: &[FieldText],
) -> Result<bool, AllocError>
    requires { is_some (class_at schema.now class) ≡ true }
    ensures { IfOk result (λ b. b ≡ (distinct (names_of declared.now) && not (list_any (taken_around schema.now class) (names_of declared.now)))) }
{
    if !are_distinct(alloc, declared)? {
        return Ok(false);
    }
    let taken = are_taken_around(alloc, schema, class, declared)?;
    Ok(!taken)
}

fn are_taken_around(
    alloc: Global,
    schema: &Schema,
    class: u32,
    declared: &[FieldText],
) -> Result<bool, AllocError>
    requires { is_some (class_at schema.now class) ≡ true }
    ensures { IfOk result (λ b. b ≡ list_any (taken_around schema.now class) (names_of declared.now)) }
{
    let around = around(alloc, schema, class)?;
    let taken = have_named(around.as_slice(), declared);
    Ok(taken)
}

/// Whether one of the classes has an own current field of one of these names.
fn have_named(classes: &[&ClassDef], declared: &[FieldText]) -> bool
    ensures { result ≡ list_any (λ n. list_any (λ c. is_some (find (is_called n) (current c.now.fields))) classes.now) (names_of declared.now) }
{
    for field in declared {
        if has_named(classes, field.name.as_slice()) {
            return true;
        }
    }
    false
}

fn has_own(schema: &Schema, class: u32, name: &[u8]) -> bool
    ensures { result ≡ is_some (field_of schema.now class name.now) }
{
    match schema.class(class) {
        Some(found) => own_field(found.fields.as_slice(), name).is_some(),
        None => false,
    }
}

/// Whether one of the classes has an own current field of this name.
fn has_named(classes: &[&ClassDef], name: &[u8]) -> bool
    ensures { result ≡ list_any (λ c. is_some (find (is_called name.now) (current c.now.fields))) classes.now }
{
    for class in classes {
        if own_field(class.fields.as_slice(), name).is_some() {
            return true;
        }
    }
    false
}
