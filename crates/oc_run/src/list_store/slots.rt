//! The values of a new record, each in the place of its field.

ghost use Rattle.std.specs.Prelude.{◌≡◌, ◌<◌, true, length, map, drop, IfOk, Ok, Err};
ghost use Rattle.oc_model.specs.Maps.{are_distinct};
ghost use Rattle.oc_machine.specs.Values.{null_of};
ghost use Rattle.oc_run.specs.ListStore.{value_of, placed_from, is_filled, with_given, blank, filled, entries_given};

use oc_model::answer::Word;
use oc_model::command::{Given, Single, ValueText};
use oc_model::schema::FieldDef;
use oc_model::value::{Atom, Base, Entries, Entry, Kind, Value};
use oc_value::{default_of, fits};
use std::alloc::{AllocError, Global};
use std::marker::Model;

/// The values given so far, each in the place of its field.
#[derive(Drop)]
pub struct Slots {
    values: Vec<Option<Value>>,
    /// The place behind that of the last given value. Most lines give them in order.
    near: usize,
}

impl Model for Slots {
    ghost use Rattle.oc_run.specs.ListStore.{SlotList};

    ghost Value = { SlotList };

    ghost view = { λ s. s.values.items };
}

impl Slots {
    /// A place for each field, with no value yet.
    fn new(alloc: Global, fields: &[FieldDef]) -> Result<Slots, AllocError>
        ensures { IfOk result (λ s. s ≡ blank fields.now) }
    {
        let mut values = Vec::new(alloc);
        for _field in fields {
            values.push(None)?;
        }
        Ok(Slots { values, near: 0 })
    }

    /// Whether the field in this place has a value.
    #[tactic(auto, using(crate::proofs::Slots::filled_read))]
    fn is_filled(&self, place: usize) -> bool
        requires { place < length self.now }
        ensures { result ≡ is_filled self.now place }
    {
        self.values[place].is_some()
    }

    /// With one value more; or why it can't be had.
    #[tactic(auto, using(crate::proofs::Slots::placed_within))]
    fn with(
        mut self,
        alloc: Global,
        fields: &[FieldDef],
        given: &Given,
    ) -> Result<Result<Slots, Word>, AllocError>
        requires long { length self ≡ length fields.now }
        requires distinct { are_distinct (map (λ f. f.name) fields.now) ≡ true }
        ensures { IfOk result (λ r. r ≡ with_given fields.now self given.now) }
    {
        let Some((place, kind)) = placed_near(fields, self.near, given.name.as_slice()) else {
            return Ok(Err(Word::Field));
        };
        if self.is_filled(place) {
            return Ok(Err(Word::Exists));
        }
        let value = value_of(alloc, kind, &given.value)?;
        if !fits(kind, &value) {
            return Ok(Err(Word::Kind));
        }
        self.values[place] = Some(value);
        self.near = place + 1;
        Ok(Ok(self))
    }

    /// An entry for each field, with the default where no value was given.
    fn into_entries(self, alloc: Global, fields: &[FieldDef]) -> Result<Entries, AllocError>
        ensures { IfOk result (λ es. es ≡ filled fields.now self) }
    {
        let Slots { values, near: _ } = self;
        let mut values = values.into_iter();
        let mut entries = Entries::new(alloc);
        for field in fields {
            let Some(value) = values.next() else {
                return Ok(entries);
            };
            entries.push(Entry {
                id: field.id,
                value: value.unwrap_or(default_of(field.kind)),
                kind: field.kind,
            })?;
        }
        Ok(entries)
    }
}

/// The entries of a record with the given values; or why one can't be had.
#[tactic(auto, using(crate::proofs::Slots::blank_long, crate::proofs::Slots::given_long))]
pub fn entries_given(
    alloc: Global,
    fields: &[FieldDef],
    givens: &[Given],
) -> Result<Result<Entries, Word>, AllocError>
    requires { are_distinct (map (λ f. f.name) fields.now) ≡ true }
    ensures { IfOk result (λ r. r ≡ entries_given fields.now givens.now) }
{
    let mut slots = Slots::new(alloc, fields)?;
    for given in givens {
        match slots.with(alloc, fields, given)? {
            Ok(more) => slots = more,
            Err(word) => return Ok(Err(word)),
        }
    }
    Ok(Ok(slots.into_entries(alloc, fields)?))
}

/// The place and the kind of the field of this name. It is looked for from a place on, and then from the first.
#[tactic(auto, using(crate::proofs::Slots::placed_first))]
fn placed_near(fields: &[FieldDef], near: usize, name: &[u8]) -> Option<(usize, Kind)>
    requires { are_distinct (map (λ f. f.name) fields.now) ≡ true }
    ensures { result ≡ placed_from 0 fields.now name.now }
{
    placed(fields, near, name).or_else(|| placed(fields, 0, name))
}

/// The place and the kind of the first field of this name from a place on.
fn placed(fields: &[FieldDef], from: usize, name: &[u8]) -> Option<(usize, Kind)>
    ensures { result ≡ placed_from from (drop from fields.now) name.now }
{
    for place in from..fields.len() {
        if fields[place].name.as_slice() == name {
            return Some((place, fields[place].kind));
        }
    }
    None
}

/// The value that is written for a field of this kind. A value that the program doesn't have yet is taken for null.
fn value_of(alloc: Global, kind: Kind, text: &ValueText) -> Result<Value, AllocError>
    ensures { IfOk result (λ v. v ≡ value_of kind text.now) }
{
    match text {
        ValueText::One(Single::Int(n)) => Ok(Value::One(Atom::Int(*n))),
        ValueText::One(Single::Text(text)) => Ok(Value::One(Atom::Text(Some(text.copy(alloc)?)))),
        ValueText::One(_) | ValueText::Many(_) => Ok(null_of(kind)),
    }
}

/// The null of a kind.
fn null_of(kind: Kind) -> Value
    ensures { result ≡ null_of kind }
{
    match kind {
        Kind::One(Base::Text) => Value::One(Atom::Text(None)),
        Kind::One(_) => Value::One(Atom::Ref(0)),
        Kind::Many(_) => Value::Many(None),
    }
}
