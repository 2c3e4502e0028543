//! The entries of an object that a line makes.

ghost use Rattle.std.specs.Prelude.{◌≡◌, ◌≤◌, ◌∷◌, [], length, fold, true, is_some, IfOk, OnOk};
ghost use Rattle.oc_model.specs.Schemas.{class_at};
ghost use Rattle.oc_model.specs.Stores.{entered, entry_for, value_in, written};
ghost use Rattle.oc_machine.specs.Values.{numbers_in_value, with_given};
ghost use Rattle.oc_container.specs.Givens.{fields_given, numbers_named, AreNumbers};
ghost use Rattle.oc_container.specs.Outlined.{remembered};
ghost use Rattle.oc_container.specs.Places.{is_at as at_place, place_of as place_in};

use crate::copying::copy_value;
use crate::resolving::value_of;
use crate::showing::value_under;
use oc_live::LiveObjects;
use oc_model::command::Given;
use oc_model::schema::FieldDef;
use oc_model::value::{Entry, Value};
use oc_schema::Schema;
use oc_value::default_of;
use std::alloc::{AllocError, Global};

/// The given values under the ids of their fields.
pub(crate) fn given_entries(
    alloc: Global,
    schema: &Schema,
    live: &LiveObjects,
    class: u32,
    givens: &[Given],
) -> Result<Vec<Entry>, AllocError>
    requires class { is_some (class_at schema.now class) ≡ true }
    requires numbers { AreNumbers (numbers_named givens.now) }
    ensures { IfOk result (λ v. v.items ≡ with_given (remembered live.now) [] (fields_given schema.now class givens.now)) }
{
    let mut entries = Vec::new(alloc);
    for given in givens {
        enter_given(alloc, schema, live, class, given, &mut entries)?;
    }
    Ok(entries)
}

// Enters the value under the id of its field, if the class has the field.
fn enter_given(
    alloc: Global,
    schema: &Schema,
    live: &LiveObjects,
    class: u32,
    given: &Given,
    entries: &mut Vec<Entry>,
) -> Result<(), AllocError>
    requires class { is_some (class_at schema.now class) ≡ true }
    requires numbers { AreNumbers (numbers_in_value (given.now).value) }
    ensures { OnOk result (entries.new.items ≡ with_given (remembered live.now) entries.old.items (fields_given schema.now class (given.now ∷ []))) }
{
    let Some(field) = schema.field_named(class, given.name.as_slice()) else {
        return Ok(());
    };
    let value = value_of(alloc, live, field.kind, &given.value)?;
    enter(entries, entry_of(field, value))
}

/// A value for each current field of an object of the class: the one among these under the field's id, or else the default.
#[tactic(auto, unfolding(oc_model::specs::Stores::written))]
pub(crate) fn all_entries(
    alloc: Global,
    schema: &Schema,
    class: u32,
    values: &[Entry],
) -> Result<Vec<Entry>, AllocError>
    requires { is_some (class_at schema.now class) ≡ true }
    ensures { IfOk result (λ v. v.items ≡ written schema.now class values.now []) }
{
    let fields = schema.fields_of(alloc, class)?;
    entries_of(alloc, &fields, values)
}

fn entries_of(
    alloc: Global,
    fields: &[FieldDef],
    values: &[Entry],
) -> Result<Vec<Entry>, AllocError>
    ensures { IfOk result (λ v. v.items ≡ fold (λ es f. entered (entry_for f (value_in values.now f.id f.kind)) es) [] fields.now) }
{
    let mut entries = Vec::new(alloc);
    for field in fields {
        let value = value_for(alloc, field, values)?;
        enter(&mut entries, entry_of(field, value))?;
    }
    Ok(entries)
}

// The value under the field's id, or the default of its kind.
fn value_for(alloc: Global, field: &FieldDef, values: &[Entry]) -> Result<Value, AllocError>
    ensures { IfOk result (λ v. v ≡ value_in values.now (field.now).id (field.now).kind) }
{
    match value_under(values, field.id) {
        Some(value) => copy_value(alloc, value),
        None => Ok(default_of(field.kind)),
    }
}

// The value as an entry for the field.
fn entry_of(field: &FieldDef, value: Value) -> Entry
    ensures { result ≡ entry_for field.now value }
{
    Entry {
        id: field.id,
        value,
        kind: field.kind,
    }
}

// Puts the entry in at its place by id, instead of one with its id.
fn enter(entries: &mut Vec<Entry>, entry: Entry) -> Result<(), AllocError>
    ensures { OnOk result (entries.new.items ≡ entered entry entries.old.items) }
{
    let place = place_of(entries, entry.id);
    if is_at(entries, place, entry.id) {
        entries[place] = entry;
    } else {
        entries.insert(place, entry)?;
    }
    Ok(())
}

// The place of the first entry whose id isn't less, or the length where there is none.
fn place_of(entries: &[Entry], id: u32) -> usize
    ensures value { result ≡ place_in id entries.now }
    ensures within { result ≤ length entries.now }
{
    for (place, entry) in entries.iter().enumerate() {
        if id <= entry.id {
            return place;
        }
    }
    entries.len()
}

// Whether the entry at the place has this id.
fn is_at(entries: &[Entry], place: usize, id: u32) -> bool
    ensures { result ≡ at_place entries.now place id }
{
    match entries.get(place) {
        Some(entry) => entry.id == id,
        None => false,
    }
}
