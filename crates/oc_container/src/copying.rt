//! Copies of values.

ghost use Rattle.std.specs.Prelude.{◌≡◌, IfOk};

use oc_model::value::{Atom, Atoms, Value};
use std::alloc::{AllocError, Global};

/// A copy of the value.
pub(crate) fn copy_value(alloc: Global, value: &Value) -> Result<Value, AllocError>
    ensures { IfOk result (λ v. v ≡ value.now) }
{
    match value {
        Value::One(atom) => Ok(Value::One(copy_atom(alloc, atom)?)),
        Value::Many(None) => Ok(Value::Many(None)),
        Value::Many(Some(atoms)) => Ok(Value::Many(Some(copy_atoms(alloc, atoms.as_slice())?))),
    }
}

fn copy_atoms(alloc: Global, atoms: &[Atom]) -> Result<Atoms, AllocError>
    ensures { IfOk result (λ xs. xs ≡ atoms.now) }
{
    let mut copies = Atoms::new(alloc);
    for atom in atoms {
        copies.push(copy_atom(alloc, atom)?)?;
    }
    Ok(copies)
}

fn copy_atom(alloc: Global, atom: &Atom) -> Result<Atom, AllocError>
    ensures { IfOk result (λ x. x ≡ atom.now) }
{
    match atom {
        Atom::Bool(b) => Ok(Atom::Bool(*b)),
        Atom::Int(n) => Ok(Atom::Int(*n)),
        Atom::Text(None) => Ok(Atom::Text(None)),
        Atom::Text(Some(text)) => Ok(Atom::Text(Some(text.copy(alloc)?))),
        Atom::Ref(n) => Ok(Atom::Ref(*n)),
    }
}
