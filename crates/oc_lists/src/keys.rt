//! The values of indexed fields.

ghost use Rattle.std.specs.Prelude.{◌≡◌, IfOk, option_map};
ghost use Rattle.oc_model.specs.Candidates.{single as single_in};
ghost use Rattle.oc_model.specs.Stores.{entry_of};
ghost use Rattle.oc_lists.specs.Lists.{key_in};

use oc_index::key_copy;
use oc_marshal::{Entry, Rec};
use oc_schema::FieldDef;
use oc_value::{Atom, Value, default_of};
use std::alloc::{AllocError, Global};

/// A copy of the value of the record under the field, as the field's index has it: what the record
/// has there, and else the default of the field's kind. It is the null text where that is an array.
pub fn key_of(alloc: Global, rec: &Rec, field: &FieldDef) -> Result<Atom, AllocError>
    ensures { IfOk result (λ k. k ≡ key_in field.now rec.now) }
{
    match value_of(rec.entries.as_slice(), field.id) {
        Some(value) => single(alloc, value),
        None => single(alloc, &default_of(field.kind)),
    }
}

// The value of the first entry of this id.
fn value_of(entries: &[Entry], id: u32) -> Option<&Value>
    ensures { option_map (λ v. v.now) result ≡ entry_of id entries.now }
{
    for entry in entries {
        if entry.id == id {
            return Some(&entry.value);
        }
    }
    None
}

// A copy of the single value.
fn single(alloc: Global, value: &Value) -> Result<Atom, AllocError>
    ensures { IfOk result (λ a. a ≡ single_in value.now) }
{
    match value {
        Value::One(atom) => key_copy(alloc, atom),
        Value::Many(_) => Ok(Atom::Text(None)),
    }
}
