//! The indexes when a schema gives way to another one.

ghost use Rattle.std.specs.Prelude.{◌≡◌, ◌++◌, ◌∷◌, [], ℕ, Bool, None, Some, map, filter, not, is_some, if◌then◌else◌, IsTrue, IfOk, OnOk};
ghost use Rattle.std.specs.BTreeMap.{get};
ghost use Rattle.std.specs.FinMap.{is_sorted};
ghost use Rattle.std.specs.List.{list_all};
ghost use Rattle.std.specs.Ordering.{nat_cmp};
ghost use Rattle.oc_model.specs.declared.value.Rec.{Rec as RecOf};
ghost use Rattle.oc_model.specs.Maps.{at, is_in, with_at, Map};
ghost use Rattle.oc_model.specs.SchemaRules.{are_apart};
ghost use Rattle.oc_model.specs.StoreRules.{KeepsStore, Suits};
ghost use Rattle.oc_model.specs.Stores.{Store as StoreOf};
ghost use Rattle.oc_marshal.specs.Records.{IsRecord};
ghost use Rattle.oc_lists.specs.Following.{ended_unless, has_one_of, newly_indexed as newly_indexed_in, with_started, with_these, AreEntering, MayFollow};
ghost use Rattle.oc_lists.specs.Keeping.{AreKept, AreListsOf, AreNumbered};
ghost use Rattle.oc_lists.specs.Lists.{HasIndexes, HasLists};
ghost use Rattle.oc_lists.specs.Moving.{AreMoved};
ghost use Rattle.oc_lists.specs.Refiling.{at_field, indexed_in, key_under, refiled, rekeyed, Refiles};

use crate::bases::{bases_of, pairs_of};
use crate::indexed::indexed_of;
use crate::keys::key_of;
use crate::rekeying::enter;
use oc_index::Indexes;
use oc_marshal::Rec;
use oc_schema::{FieldDef, Schema};
use oc_value::Base;
use std::alloc::{AllocError, Global};
use std::collections::BTreeMap;

/// The ids of the fields that have an index in the new schema and none in the old one, each with the
/// kind of its values, in the order of the classes.
pub fn newly_indexed(
    alloc: Global,
    old: &Schema,
    new: &Schema,
) -> Result<Vec<(u32, Base)>, AllocError>
    ensures { IfOk result (λ v. v.items ≡ newly_indexed_in old.now new.now) }
{
    let before = bases_of(alloc, old)?;
    let mut added = Vec::new(alloc);
    for (id, base) in &pairs_of(alloc, new)? {
        push_unless(&mut added, *id, *base, has_base(&before, *id))?;
    }
    Ok(added)
}

// Adds the field, unless it was there.
fn push_unless(
    added: &mut Vec<(u32, Base)>,
    id: u32,
    base: Base,
    was_there: bool,
) -> Result<(), AllocError>
    ensures { OnOk result (added.new.items ≡ added.old.items ++ (if was_there then [] else (id, base) ∷ [])) }
{
    if !was_there {
        added.push((id, base))?;
    }
    Ok(())
}

/// Ends the indexes of the fields that the new schema has no index for, and starts an empty one for
/// each field that is newly indexed. Without memory some of this may be done and the rest not yet.
/// What was there at the mark stays, so `undo` gives the lists of the mark in any case.
pub fn start_indexes(
    alloc: Global,
    indexes: &mut Indexes,
    old: &Schema,
    new: &Schema,
) -> Result<(), AllocError>
    ensures extents { indexes.new.extents ≡ indexes.old.extents }
    ensures fields { OnOk result (indexes.new.fields ≡ with_started (newly_indexed_in old.now new.now) (with_these new.now indexes.old.fields)) }
    ensures marked { indexes.new.marked ≡ indexes.old.marked }
    ensures has { OnOk result (MayFollow old.now new.now → HasIndexes old.now indexes.old → HasIndexes new.now indexes.new) }
    ensures kept { OnOk result (AreKept indexes.old → AreKept indexes.new) }
    ensures numbered { OnOk result ((has_slot : ℕ → Bool) → AreNumbered has_slot indexes.old → AreNumbered has_slot indexes.new) }
    ensures lists { OnOk result (MayFollow old.now new.now → AreListsOf old.now indexes.old → AreListsOf new.now indexes.new) }
    ensures begins { OnOk result ((s : StoreOf) → s.schema ≡ old.now → KeepsStore s → MayFollow old.now new.now → HasIndexes old.now indexes.old → HasLists indexes.old s → AreEntering indexes.new s new.now []) }
{
    old.keeps_rules();
    restart(alloc, indexes, old, new)?;
    Ok(())
}

// Ends the indexes of the one schema alone, and starts those of the other alone.
fn restart(
    alloc: Global,
    indexes: &mut Indexes,
    old: &Schema,
    new: &Schema,
) -> Result<(), AllocError>
    ensures extents { indexes.new.extents ≡ indexes.old.extents }
    ensures fields { OnOk result (indexes.new.fields ≡ with_started (newly_indexed_in old.now new.now) (with_these new.now indexes.old.fields)) }
    ensures marked { indexes.new.marked ≡ indexes.old.marked }
{
    end_others(alloc, indexes, new)?;
    let started = newly_indexed(alloc, old, new)?;
    start_all(alloc, indexes, started.as_slice())
}

// Ends the indexes of all fields that the schema has no index for.
fn end_others(alloc: Global, indexes: &mut Indexes, schema: &Schema) -> Result<(), AllocError>
    ensures extents { indexes.new.extents ≡ indexes.old.extents }
    ensures fields { OnOk result (indexes.new.fields ≡ with_these schema.now indexes.old.fields) }
    ensures marked { indexes.new.marked ≡ indexes.old.marked }
{
    let bases = bases_of(alloc, schema)?;
    for (id, _) in &indexes.indexed(alloc)? {
        end_unless(indexes, *id, has_base(&bases, *id));
    }
    Ok(())
}

fn has_base(bases: &BTreeMap<u32, Base>, id: u32) -> bool
    ensures { result ≡ is_some (get nat_cmp bases.now id) }
{
    bases.contains_key(&id)
}

// Ends the index of the field, unless it stays.
fn end_unless(indexes: &mut Indexes, id: u32, stays: bool)
    ensures extents { indexes.new.extents ≡ indexes.old.extents }
    ensures fields { indexes.new.fields ≡ ended_unless stays id indexes.old.fields }
    ensures marked { indexes.new.marked ≡ indexes.old.marked }
{
    if !stays {
        indexes.end_field(id);
    }
}

fn start_all(
    alloc: Global,
    indexes: &mut Indexes,
    started: &[(u32, Base)],
) -> Result<(), AllocError>
    ensures extents { indexes.new.extents ≡ indexes.old.extents }
    ensures fields { OnOk result (indexes.new.fields ≡ with_started started.now indexes.old.fields) }
    ensures marked { indexes.new.marked ≡ indexes.old.marked }
{
    for (id, base) in started {
        indexes.start_field(alloc, *id, *base)?;
    }
    Ok(())
}

/// Enters the object with this record into the index of each of these fields that its class has.
/// Without memory it may stand in some of them and not yet in others.
pub fn enter_record(
    alloc: Global,
    indexes: &mut Indexes,
    started: &[(u32, Base)],
    schema: &Schema,
    number: u32,
    rec: &Rec,
) -> Result<(), AllocError>
    requires { HasIndexes schema.now indexes.old }
    ensures moved { AreMoved indexes.old indexes.new }
    ensures extents { indexes.new.extents ≡ indexes.old.extents }
    ensures entries { OnOk result (Refiles (refiled number None (Some rec.now) (filter (λ f. is_in (map (λ e. e.0) started.now) f.id) (indexed_in schema.now rec.now.class))) indexes.old indexes.new) }
    ensures kept { OnOk result (AreKept indexes.old → AreKept indexes.new) }
    ensures numbered { OnOk result ((has_slot : ℕ → Bool) → AreNumbered has_slot indexes.old → AreNumbered has_slot indexes.new) }
    ensures lists { OnOk result (Suits schema.now rec.now → IsRecord rec.now → AreListsOf schema.now indexes.old → AreListsOf schema.now indexes.new) }
    ensures goes_on { OnOk result ((s : StoreOf) (done : Map RecOf) → started.now ≡ newly_indexed_in s.schema schema.now → IsTrue (is_sorted nat_cmp done) → at done number ≡ None → AreEntering indexes.old s schema.now done → AreEntering indexes.new s schema.now (with_at done number rec.now)) }
{
    schema.keeps_rules();
    let fields = started_of(alloc, schema, rec.class, started)?;
    enter_fields(alloc, indexes, fields.as_slice(), number, rec)?;
    Ok(())
}

/// The classes of the schema whose objects have one of these fields, and it is indexed.
pub fn classes_with(
    alloc: Global,
    schema: &Schema,
    started: &[(u32, Base)],
) -> Result<Vec<u32>, AllocError>
    ensures { IfOk result (λ v. (c : ℕ) → is_in v.items c ≡ has_one_of (map (λ e. e.0) started.now) schema.now c) }
{
    schema.keeps_rules();
    let mut classes = Vec::new(alloc);
    for place in 0..schema.len() {
        let class = place + 1;
        let fields = started_of(alloc, schema, class, started)?;
        push_if(&mut classes, class, !fields.is_empty())?;
    }
    Ok(classes)
}

// Adds the class, if it has a field.
fn push_if(classes: &mut Vec<u32>, class: u32, has_field: bool) -> Result<(), AllocError>
    ensures { OnOk result (classes.new.items ≡ classes.old.items ++ (if has_field then class ∷ [] else [])) }
{
    if has_field {
        classes.push(class)?;
    }
    Ok(())
}

// The indexed fields of the class that are among these.
fn started_of<'a>(
    alloc: Global,
    schema: &'a Schema,
    class: u32,
    started: &[(u32, Base)],
) -> Result<Vec<&'a FieldDef>, AllocError>
    ensures { IfOk result (λ v. map (λ f. f.now) v.items ≡ filter (λ f. is_in (map (λ e. e.0) started.now) f.id) (indexed_in schema.now class)) }
{
    let mut fields = Vec::new(alloc);
    for field in &indexed_of(alloc, schema, class)? {
        if is_among(started, field.id) {
            fields.push(*field)?;
        }
    }
    Ok(fields)
}

fn is_among(started: &[(u32, Base)], wanted: u32) -> bool
    ensures { result ≡ is_in (map (λ e. e.0) started.now) wanted }
{
    for (id, _) in started {
        if wanted == *id {
            return true;
        }
    }
    false
}

fn enter_fields(
    alloc: Global,
    indexes: &mut Indexes,
    fields: &[&FieldDef],
    number: u32,
    rec: &Rec,
) -> Result<(), AllocError>
    requires apart { IsTrue (are_apart (map (λ f. f.0) indexes.old.fields)) }
    requires there { IsTrue (list_all (λ f. is_in (map (λ g. g.0) indexes.old.fields) f.id) (map (λ f. f.now) fields.now)) }
    ensures moved { AreMoved indexes.old indexes.new }
    ensures extents { indexes.new.extents ≡ indexes.old.extents }
    ensures entries { OnOk result (Refiles (refiled number None (Some rec.now) (map (λ f. f.now) fields.now)) indexes.old indexes.new) }
{
    for field in fields {
        enter_field(alloc, indexes, field, number, rec)?;
    }
    Ok(())
}

// Enters the object into the index of one field.
fn enter_field(
    alloc: Global,
    indexes: &mut Indexes,
    field: &FieldDef,
    number: u32,
    rec: &Rec,
) -> Result<(), AllocError>
    requires apart { IsTrue (are_apart (map (λ f. f.0) indexes.old.fields)) }
    requires there { IsTrue (is_in (map (λ g. g.0) indexes.old.fields) field.now.id) }
    ensures moved { AreMoved indexes.old indexes.new }
    ensures extents { indexes.new.extents ≡ indexes.old.extents }
    ensures entries { OnOk result (Refiles (at_field field.now.id (rekeyed number (key_under field.now None) (key_under field.now (Some rec.now)))) indexes.old indexes.new) }
{
    let key = key_of(alloc, rec, field)?;
    enter(alloc, indexes, field.id, number, Some(key))
}
