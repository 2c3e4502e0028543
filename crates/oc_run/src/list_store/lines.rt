//! The lines that show records.

ghost use Rattle.std.specs.Prelude.{◌≡◌, ◌≤◌, length, map, IfOk};
ghost use Rattle.oc_machine.specs.Showing.{shown_atom_by, shown_value_by};
ghost use Rattle.oc_run.specs.ListStore.{mark_within, shown_in_order, line_of, lines_from};

use oc_model::answer::{
    Mark, ObjectLine, ObjectLines, Shown, ShownAtom, ShownAtoms, ShownField, ShownFields,
    ShownValue,
};
use oc_model::schema::{ClassDef, FieldDef};
use oc_model::value::{Atom, Entry, Rec, Value};
use std::alloc::{AllocError, Global};

/// The lines of the records of this class, in the order of their numbers. The first record has number 1.
pub fn lines(
    alloc: Global,
    number: u32,
    class: &ClassDef,
    records: &[Rec],
) -> Result<ObjectLines, AllocError>
    requires { length records.now ≤ 2147483646 }
    ensures { IfOk result (λ ls. ls ≡ lines_from (length records.now) class.now number 1 records.now) }
{
    let count = records.len() as u32;
    let mut lines = ObjectLines::new(alloc);
    let mut next = 1;
    for record in records {
        if record.class == number {
            lines.push(line(alloc, count, class, next, record)?)?;
        }
        next += 1;
    }
    Ok(lines)
}

/// The line of the record of this number, where so many records are stored.
fn line(
    alloc: Global,
    count: u32,
    class: &ClassDef,
    number: u32,
    stored: &Rec,
) -> Result<ObjectLine, AllocError>
    ensures { IfOk result (λ l. l ≡ line_of count class.now number stored.now) }
{
    let fields = shown_fields(
        alloc,
        count,
        class.fields.as_slice(),
        stored.entries.as_slice(),
    )?;
    Ok(ObjectLine {
        mark: Mark::Number(number),
        class: class.name.copy(alloc)?,
        fields: Shown::Fields(fields),
    })
}

/// The fields, each with the value of the entry in its place.
fn shown_fields(
    alloc: Global,
    count: u32,
    fields: &[FieldDef],
    entries: &[Entry],
) -> Result<ShownFields, AllocError>
    ensures { IfOk result (λ fs. fs ≡ shown_in_order count fields.now entries.now) }
{
    let mut shown = ShownFields::new(alloc);
    let mut values = entries.iter();
    for field in fields {
        let Some(entry) = values.next() else {
            return Ok(shown);
        };
        shown.push(ShownField {
            name: field.name.copy(alloc)?,
            value: shown_value(alloc, count, &entry.value)?,
        })?;
    }
    Ok(shown)
}

fn shown_value(alloc: Global, count: u32, value: &Value) -> Result<ShownValue, AllocError>
    ensures { IfOk result (λ v. v ≡ shown_value_by (mark_within count) value.now) }
{
    match value {
        Value::One(atom) => Ok(ShownValue::One(shown_atom(alloc, count, atom)?)),
        Value::Many(None) => Ok(ShownValue::Many(None)),
        Value::Many(Some(atoms)) => Ok(ShownValue::Many(Some(shown_atoms(
            alloc,
            count,
            atoms.as_slice(),
        )?))),
    }
}

fn shown_atoms(alloc: Global, count: u32, atoms: &[Atom]) -> Result<ShownAtoms, AllocError>
    ensures { IfOk result (λ xs. xs ≡ map (shown_atom_by (mark_within count)) atoms.now) }
{
    let mut shown = ShownAtoms::new(alloc);
    for atom in atoms {
        shown.push(shown_atom(alloc, count, atom)?)?;
    }
    Ok(shown)
}

fn shown_atom(alloc: Global, count: u32, atom: &Atom) -> Result<ShownAtom, AllocError>
    ensures { IfOk result (λ x. x ≡ shown_atom_by (mark_within count) atom.now) }
{
    match atom {
        Atom::Bool(b) => Ok(ShownAtom::Bool(*b)),
        Atom::Int(n) => Ok(ShownAtom::Int(*n)),
        Atom::Text(None) => Ok(ShownAtom::Text(None)),
        Atom::Text(Some(text)) => Ok(ShownAtom::Text(Some(text.copy(alloc)?))),
        Atom::Ref(number) => Ok(ShownAtom::Ref(mark_within(count, *number))),
    }
}

/// A reference to a record that isn't stored is shown as null.
fn mark_within(count: u32, number: u64) -> Option<Mark>
    ensures { result ≡ mark_within count number }
{
    if 1 <= number && number <= u64::from(count) {
        Some(Mark::Number(number as u32))
    } else {
        None
    }
}
