//! What values name.

ghost use Rattle.std.specs.Prelude.{◌≡◌, ◌++◌, flat_map, option_map, IfOk, OnOk};
ghost use Rattle.oc_model.specs.Nodes.{named_in as names};
ghost use Rattle.oc_model.specs.References.{refs_in, refs_in_atom};
ghost use Rattle.oc_model.specs.Schemas.{fields_of as fields_in};
ghost use Rattle.oc_model.specs.Stores.{entry_of, value_in};

use oc_model::schema::FieldDef;
use oc_model::value::{Atom, Entry, Value};
use oc_schema::Schema;
use std::alloc::{AllocError, Global};

/// What the current fields of the class name, where these are the entries: the references that aren't null, in the order of
/// the fields.
pub(crate) fn named_in(
    alloc: Global,
    schema: &Schema,
    class: u32,
    entries: &[Entry],
) -> Result<Vec<u64>, AllocError>
    ensures { IfOk result (λ v. v.items ≡ names schema.now class entries.now) }
{
    let fields = fields_of(alloc, schema, class)?;
    named_by(alloc, &fields, entries)
}

// The current fields of an object of the class, none where there is no such class.
fn fields_of(alloc: Global, schema: &Schema, class: u32) -> Result<Vec<FieldDef>, AllocError>
    ensures { IfOk result (λ v. v.items ≡ fields_in schema.now class) }
{
    schema.keeps_rules();
    if schema.class(class).is_none() {
        return Ok(Vec::new(alloc));
    }
    schema.fields_of(alloc, class)
}

fn named_by(alloc: Global, fields: &[FieldDef], entries: &[Entry]) -> Result<Vec<u64>, AllocError>
    ensures { IfOk result (λ v. v.items ≡ flat_map (λ f. refs_in (value_in entries.now f.id f.kind)) fields.now) }
{
    let mut named = Vec::new(alloc);
    for field in fields {
        push_field(&mut named, field, entries)?;
    }
    Ok(named)
}

// A field without an entry has its default, which names nothing.
fn push_field(named: &mut Vec<u64>, field: &FieldDef, entries: &[Entry]) -> Result<(), AllocError>
    ensures { OnOk result (named.new.items ≡ named.old.items ++ refs_in (value_in entries.now field.now.id field.now.kind)) }
{
    if let Some(value) = value_of(entries, field.id) {
        push_value(named, value)?;
    }
    Ok(())
}

// The value of the first entry of this id.
fn value_of(entries: &[Entry], id: u32) -> Option<&Value>
    ensures { option_map (λ v. v.now) result ≡ entry_of id entries.now }
{
    for entry in entries {
        if entry.id == id {
            return Some(&entry.value);
        }
    }
    None
}

fn push_value(named: &mut Vec<u64>, value: &Value) -> Result<(), AllocError>
    ensures { OnOk result (named.new.items ≡ named.old.items ++ refs_in value.now) }
{
    match value {
        Value::One(atom) => push_atom(named, atom),
        Value::Many(None) => Ok(()),
        Value::Many(Some(atoms)) => push_atoms(named, atoms.as_slice()),
    }
}

fn push_atoms(named: &mut Vec<u64>, atoms: &[Atom]) -> Result<(), AllocError>
    ensures { OnOk result (named.new.items ≡ named.old.items ++ flat_map refs_in_atom atoms.now) }
{
    for atom in atoms {
        push_atom(named, atom)?;
    }
    Ok(())
}

fn push_atom(named: &mut Vec<u64>, atom: &Atom) -> Result<(), AllocError>
    ensures { OnOk result (named.new.items ≡ named.old.items ++ refs_in_atom atom.now) }
{
    if let Atom::Ref(number) = atom {
        if *number != 0 {
            named.push(*number)?;
        }
    }
    Ok(())
}
