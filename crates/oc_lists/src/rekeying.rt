//! What a change of one object makes of the indexes.

ghost use Rattle.std.specs.Prelude.{◌≡◌, ◌==◌, ◌||◌, not, map, IsTrue, Option, OnOk, IfOk};
ghost use Rattle.std.specs.List.{list_all};
ghost use Rattle.oc_model.specs.Maps.{is_in};
ghost use Rattle.oc_model.specs.SchemaRules.{are_apart};
ghost use Rattle.oc_lists.specs.Lists.{HasIndexes};
ghost use Rattle.oc_lists.specs.Moving.{AreMoved};
ghost use Rattle.oc_lists.specs.Refiling.{at_field, class_for, indexed_for, is_kept, key_under, refiled, rekeyed, with_key, without_key, Refiles};
ghost use Rattle.oc_lists.specs.Staying.{is_off, keeps_key, Stay};

use crate::indexed::indexed_of;
use crate::keys::key_of;
use oc_index::Indexes;
use oc_marshal::Rec;
use oc_schema::{FieldDef, Schema};
use oc_value::{Atom, compare};
use std::alloc::{AllocError, Global};

/// Brings the indexes in step with a change of the object of this number, whose record went from the
/// one to the other.
pub fn rekey(
    alloc: Global,
    indexes: &mut Indexes,
    schema: &Schema,
    number: u32,
    old: &Option<Rec>,
    new: &Option<Rec>,
) -> Result<(), AllocError>
    requires { HasIndexes schema.now indexes.old }
    ensures moved { AreMoved indexes.old indexes.new }
    ensures extents { indexes.new.extents ≡ indexes.old.extents }
    ensures entries { OnOk result (Refiles (refiled number old.now new.now (indexed_for schema.now (class_for old.now new.now))) indexes.old indexes.new) }
    ensures stays { Stay (λ id. keeps_key schema.now id old.now new.now) indexes.old indexes.new }
{
    schema.keeps_rules();
    let fields = fields_for(alloc, schema, class_of(old, new))?;
    rekey_fields(alloc, indexes, fields.as_slice(), number, old, new)?;
    Ok(())
}

// The class of the new record, or else of the old one.
fn class_of(old: &Option<Rec>, new: &Option<Rec>) -> Option<u32>
    ensures { result ≡ class_for old.now new.now }
{
    match (new, old) {
        (Some(rec), _) | (None, Some(rec)) => Some(rec.class),
        (None, None) => None,
    }
}

fn fields_for<'a>(
    alloc: Global,
    schema: &'a Schema,
    class: Option<u32>,
) -> Result<Vec<&'a FieldDef>, AllocError>
    ensures { IfOk result (λ v. map (λ f. f.now) v.items ≡ indexed_for schema.now class) }
{
    match class {
        Some(class) => indexed_of(alloc, schema, class),
        None => Ok(Vec::new(alloc)),
    }
}

fn rekey_fields(
    alloc: Global,
    indexes: &mut Indexes,
    fields: &[&FieldDef],
    number: u32,
    old: &Option<Rec>,
    new: &Option<Rec>,
) -> Result<(), AllocError>
    requires apart { IsTrue (are_apart (map (λ f. f.0) indexes.old.fields)) }
    requires there { IsTrue (list_all (λ f. is_in (map (λ g. g.0) indexes.old.fields) f.id) (map (λ f. f.now) fields.now)) }
    ensures moved { AreMoved indexes.old indexes.new }
    ensures extents { indexes.new.extents ≡ indexes.old.extents }
    ensures entries { OnOk result (Refiles (refiled number old.now new.now (map (λ f. f.now) fields.now)) indexes.old indexes.new) }
    ensures stays { Stay (λ id. list_all (is_off id old.now new.now) (map (λ f. f.now) fields.now)) indexes.old indexes.new }
{
    for field in fields {
        rekey_field(alloc, indexes, field, number, old, new)?;
    }
    Ok(())
}

// Brings the index of one field in step.
fn rekey_field(
    alloc: Global,
    indexes: &mut Indexes,
    field: &FieldDef,
    number: u32,
    old: &Option<Rec>,
    new: &Option<Rec>,
) -> Result<(), AllocError>
    requires apart { IsTrue (are_apart (map (λ f. f.0) indexes.old.fields)) }
    requires there { IsTrue (is_in (map (λ g. g.0) indexes.old.fields) field.now.id) }
    ensures moved { AreMoved indexes.old indexes.new }
    ensures extents { indexes.new.extents ≡ indexes.old.extents }
    ensures entries { OnOk result (Refiles (at_field field.now.id (rekeyed number (key_under field.now old.now) (key_under field.now new.now))) indexes.old indexes.new) }
    ensures stays { Stay (λ id. is_off id old.now new.now field.now) indexes.old indexes.new }
{
    let before = key_if_any(alloc, old, field)?;
    let after = key_if_any(alloc, new, field)?;
    replace(alloc, indexes, field.id, number, &before, after)
}

fn key_if_any(
    alloc: Global,
    rec: &Option<Rec>,
    field: &FieldDef,
) -> Result<Option<Atom>, AllocError>
    ensures { IfOk result (λ k. k ≡ key_under field.now rec.now) }
{
    match rec {
        Some(rec) => Ok(Some(key_of(alloc, rec, field)?)),
        None => Ok(None),
    }
}

// Enters the object under the new value in place of the old one, where they aren't the same.
fn replace(
    alloc: Global,
    indexes: &mut Indexes,
    id: u32,
    number: u32,
    before: &Option<Atom>,
    after: Option<Atom>,
) -> Result<(), AllocError>
    requires apart { IsTrue (are_apart (map (λ f. f.0) indexes.old.fields)) }
    requires there { IsTrue (is_in (map (λ g. g.0) indexes.old.fields) id) }
    ensures moved { AreMoved indexes.old indexes.new }
    ensures extents { indexes.new.extents ≡ indexes.old.extents }
    ensures entries { OnOk result (Refiles (at_field id (rekeyed number before.now after)) indexes.old indexes.new) }
    ensures stays { Stay (λ n. not (id == n) || is_kept before.now after) indexes.old indexes.new }
{
    if is_same(before, &after) {
        return Ok(());
    }
    leave(indexes, id, number, before);
    enter(alloc, indexes, id, number, after)?;
    Ok(())
}

fn is_same(before: &Option<Atom>, after: &Option<Atom>) -> bool
    ensures { result ≡ is_kept before.now after.now }
{
    match (before, after) {
        (Some(before), Some(after)) => compare(before, after).is_eq(),
        _ => false,
    }
}

fn leave(indexes: &mut Indexes, id: u32, number: u32, key: &Option<Atom>)
    requires apart { IsTrue (are_apart (map (λ f. f.0) indexes.old.fields)) }
    requires there { IsTrue (is_in (map (λ g. g.0) indexes.old.fields) id) }
    ensures moved { AreMoved indexes.old indexes.new }
    ensures extents { indexes.new.extents ≡ indexes.old.extents }
    ensures entries { Refiles (at_field id (without_key number key.now)) indexes.old indexes.new }
    ensures others { Stay (λ n. not (id == n)) indexes.old indexes.new }
{
    if let Some(key) = key {
        indexes.remove(id, key, number);
    }
}

pub(crate) fn enter(
    alloc: Global,
    indexes: &mut Indexes,
    id: u32,
    number: u32,
    key: Option<Atom>,
) -> Result<(), AllocError>
    requires apart { IsTrue (are_apart (map (λ f. f.0) indexes.old.fields)) }
    requires there { IsTrue (is_in (map (λ g. g.0) indexes.old.fields) id) }
    ensures moved { AreMoved indexes.old indexes.new }
    ensures extents { indexes.new.extents ≡ indexes.old.extents }
    ensures entries { OnOk result (Refiles (at_field id (with_key number key)) indexes.old indexes.new) }
    ensures others { Stay (λ n. not (id == n)) indexes.old indexes.new }
{
    if let Some(key) = key {
        indexes.add(alloc, id, key, number)?;
    }
    Ok(())
}
