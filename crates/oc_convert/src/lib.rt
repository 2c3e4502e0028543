//! Conversion: a value of one kind as a value of another.
#![tactic(auto)]

ghost use Rattle.std.specs.Prelude.{◌≡◌, IfOk, IsTrue};
ghost use Rattle.oc_convert.specs.Conversions.{converted};
ghost use Rattle.oc_convert.specs.Values.{fits};

mod atoms;
mod texts;

use atoms::{convert_atom, convert_atoms};
use oc_value::{Atoms, Kind, Value};
use std::alloc::{AllocError, Global};

/// The value as one of the kind `to`, or `None` where it has no conversion. A single value becomes
/// a single value and an array an array, whose elements are converted one by one; it has none
/// where one of them has none. The null array stays.
#[tactic(auto, unfolding(oc_model::specs::Conversions::converted))]
pub fn convert(
    alloc: Global,
    value: &Value,
    from: Kind,
    to: Kind,
) -> Result<Option<Value>, AllocError>
    requires { IsTrue (fits from value.now) }
    ensures { IfOk result (λ found. found ≡ converted from to value.now) }
{
    match (from, to, value) {
        (Kind::One(_), Kind::One(base), Value::One(atom)) => {
            let found = convert_atom(alloc, base, atom)?;
            Ok(found.map(Value::One))
        }
        (Kind::Many(_), Kind::Many(base), Value::Many(Some(atoms))) => {
            let found = convert_atoms(alloc, base, atoms.as_slice())?;
            Ok(found.map(|atoms| Value::Many(Some(Atoms::from_vec(atoms)))))
        }
        (Kind::Many(_), Kind::Many(_), Value::Many(None)) => Ok(Some(Value::Many(None))),
        _ => Ok(None),
    }
}
