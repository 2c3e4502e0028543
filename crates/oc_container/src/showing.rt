//! How a stored object is shown.

ghost use Rattle.std.specs.Prelude.{◌≡◌, map, option_map, IfOk};
ghost use Rattle.oc_model.specs.Schemas.{fields_of as fields_in};
ghost use Rattle.oc_model.specs.Stores.{entry_of};
ghost use Rattle.oc_machine.specs.Showing.{class_name as name_of, shown_atom_by, shown_value_by};
ghost use Rattle.oc_container.specs.Asked.{mark_in as marked, record_line as line_of, shown_field as field_of};

use oc_model::answer::{
    Mark, ObjectLine, Shown, ShownAtom, ShownAtoms, ShownField, ShownFields, ShownValue,
};
use oc_model::schema::FieldDef;
use oc_model::value::{Atom, Entry, Rec, Txt, Value};
use oc_schema::Schema;
use oc_store::{Side, Store};
use oc_value::default_of;
use std::alloc::{AllocError, Global};

/// The line of an object of the session that has this record.
pub(crate) fn record_line(
    alloc: Global,
    store: &Store,
    number: u32,
    rec: &Rec,
) -> Result<ObjectLine, AllocError>
    ensures { IfOk result (λ l. l ≡ line_of (marked store.now) ((store.now).session).schema number rec.now) }
{
    let schema = store.schema(Side::Session);
    let fields = fields_of(alloc, schema, rec.class)?;
    let shown = shown_fields(alloc, store, &fields, rec.entries.as_slice())?;
    Ok(ObjectLine {
        mark: Mark::Number(number),
        class: class_name(alloc, schema, rec.class)?,
        fields: Shown::Fields(shown),
    })
}

// The name of the class, empty where there is none.
fn class_name(alloc: Global, schema: &Schema, class: u32) -> Result<Txt, AllocError>
    ensures { IfOk result (λ t. t ≡ name_of schema.now class) }
{
    match schema.class(class) {
        Some(class) => class.name.copy(alloc),
        None => Ok(Txt::from_vec(Vec::new(alloc))),
    }
}

// The current fields of an object of the class, none where there is no such class.
fn fields_of(alloc: Global, schema: &Schema, class: u32) -> Result<Vec<FieldDef>, AllocError>
    ensures { IfOk result (λ v. v.items ≡ fields_in schema.now class) }
{
    schema.keeps_rules();
    if schema.class(class).is_none() {
        return Ok(Vec::new(alloc));
    }
    schema.fields_of(alloc, class)
}

// The fields, each with the value that the entries have under its id.
fn shown_fields(
    alloc: Global,
    store: &Store,
    fields: &[FieldDef],
    entries: &[Entry],
) -> Result<ShownFields, AllocError>
    ensures { IfOk result (λ fs. fs ≡ map (field_of (marked store.now) entries.now) fields.now) }
{
    let mut shown = ShownFields::new(alloc);
    for field in fields {
        shown.push(shown_field(alloc, store, field, entries)?)?;
    }
    Ok(shown)
}

fn shown_field(
    alloc: Global,
    store: &Store,
    field: &FieldDef,
    entries: &[Entry],
) -> Result<ShownField, AllocError>
    ensures { IfOk result (λ f. f ≡ field_of (marked store.now) entries.now field.now) }
{
    let value = match value_under(entries, field.id) {
        Some(value) => shown_value(alloc, store, value)?,
        None => shown_value(alloc, store, &default_of(field.kind))?,
    };
    Ok(ShownField {
        name: field.name.copy(alloc)?,
        value,
    })
}

/// The value of the first entry of this id.
pub(crate) fn value_under(entries: &[Entry], id: u32) -> Option<&Value>
    ensures { option_map (λ v. v.now) result ≡ entry_of id entries.now }
{
    for entry in entries {
        if entry.id == id {
            return Some(&entry.value);
        }
    }
    None
}

fn shown_value(alloc: Global, store: &Store, value: &Value) -> Result<ShownValue, AllocError>
    ensures { IfOk result (λ v. v ≡ shown_value_by (marked store.now) value.now) }
{
    match value {
        Value::One(atom) => Ok(ShownValue::One(shown_atom(alloc, store, atom)?)),
        Value::Many(None) => Ok(ShownValue::Many(None)),
        Value::Many(Some(atoms)) => Ok(ShownValue::Many(Some(shown_atoms(
            alloc,
            store,
            atoms.as_slice(),
        )?))),
    }
}

fn shown_atoms(alloc: Global, store: &Store, atoms: &[Atom]) -> Result<ShownAtoms, AllocError>
    ensures { IfOk result (λ xs. xs ≡ map (shown_atom_by (marked store.now)) atoms.now) }
{
    let mut shown = ShownAtoms::new(alloc);
    for atom in atoms {
        shown.push(shown_atom(alloc, store, atom)?)?;
    }
    Ok(shown)
}

fn shown_atom(alloc: Global, store: &Store, atom: &Atom) -> Result<ShownAtom, AllocError>
    ensures { IfOk result (λ x. x ≡ shown_atom_by (marked store.now) atom.now) }
{
    match atom {
        Atom::Bool(b) => Ok(ShownAtom::Bool(*b)),
        Atom::Int(n) => Ok(ShownAtom::Int(*n)),
        Atom::Text(None) => Ok(ShownAtom::Text(None)),
        Atom::Text(Some(text)) => Ok(ShownAtom::Text(Some(text.copy(alloc)?))),
        Atom::Ref(number) => Ok(ShownAtom::Ref(mark_in(store, *number))),
    }
}

// A reference to an object that the session hasn't is shown as null.
fn mark_in(store: &Store, number: u64) -> Option<Mark>
    ensures { result ≡ marked store.now number }
{
    if number <= u64::from(u32::MAX) && store.class_of(Side::Session, number as u32).is_some() {
        Some(Mark::Number(number as u32))
    } else {
        None
    }
}
