//! What the values of a line come to, with handles for objects.

ghost use Rattle.std.specs.Prelude.{◌≡◌, ◌≤◌, map, flat_map, IfOk};
ghost use Rattle.oc_machine.specs.Memory.{to_handle};
ghost use Rattle.oc_machine.specs.Values.{atom_of as atom_in, null_atom as null_in, numbers_in_single, numbers_in_value, value_of as value_in};
ghost use Rattle.oc_container.specs.Givens.{AreNumbers};
ghost use Rattle.oc_container.specs.Outlined.{remembered};

use oc_live::LiveObjects;
use oc_model::command::{Single, ValueText};
use oc_model::value::{Atom, Atoms, Base, Kind, Value};
use std::alloc::{AllocError, Global};

/// The value that is written for a field of this kind. A name that isn't bound and a number without an object in memory come to null.
pub(crate) fn value_of(
    alloc: Global,
    live: &LiveObjects,
    kind: Kind,
    value: &ValueText,
) -> Result<Value, AllocError>
    requires { AreNumbers (numbers_in_value value.now) }
    ensures { IfOk result (λ v. v ≡ value_in (remembered live.now) kind value.now) }
{
    match (kind, value) {
        (Kind::One(base), ValueText::One(single)) => {
            Ok(Value::One(atom_of(alloc, live, base, single)?))
        }
        (Kind::Many(_), ValueText::One(Single::Null)) => Ok(Value::Many(None)),
        (Kind::Many(base), ValueText::One(single)) => {
            Ok(Value::One(atom_of(alloc, live, base, single)?))
        }
        (Kind::One(base) | Kind::Many(base), ValueText::Many(singles)) => {
            let atoms = atoms_of(alloc, live, base, singles.as_slice())?;
            Ok(Value::Many(Some(atoms)))
        }
    }
}

fn atoms_of(
    alloc: Global,
    live: &LiveObjects,
    base: Base,
    singles: &[Single],
) -> Result<Atoms, AllocError>
    requires { AreNumbers (flat_map numbers_in_single singles.now) }
    ensures { IfOk result (λ xs. xs ≡ map (atom_in (remembered live.now) base) singles.now) }
{
    let mut atoms = Atoms::new(alloc);
    for single in singles {
        atoms.push(atom_of(alloc, live, base, single)?)?;
    }
    Ok(atoms)
}

fn atom_of(
    alloc: Global,
    live: &LiveObjects,
    base: Base,
    single: &Single,
) -> Result<Atom, AllocError>
    requires { AreNumbers (numbers_in_single single.now) }
    ensures { IfOk result (λ x. x ≡ atom_in (remembered live.now) base single.now) }
{
    match single {
        Single::Null => Ok(null_atom(base)),
        Single::Bool(b) => Ok(Atom::Bool(*b)),
        Single::Int(n) => Ok(Atom::Int(*n)),
        Single::Text(text) => Ok(Atom::Text(Some(text.copy(alloc)?))),
        Single::Name(name) => Ok(Atom::Ref(live.handle_named(name).unwrap_or(0))),
        Single::Num(number) => Ok(Atom::Ref(handle_of(live, *number))),
    }
}

// The null of a base kind: a text where the kind is text, else a reference.
fn null_atom(base: Base) -> Atom
    ensures { result ≡ null_in base }
{
    match base {
        Base::Text => Atom::Text(None),
        _ => Atom::Ref(0),
    }
}

// The handle of the number's object in memory, 0 where there is none.
fn handle_of(live: &LiveObjects, number: u128) -> u64
    requires { number ≤ 4294967295 }
    ensures { result ≡ to_handle (remembered live.now) number }
{
    live.handle_of(number as u32).unwrap_or(0)
}
