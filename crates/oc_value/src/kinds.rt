ghost use Rattle.std.specs.Prelude.{◌≡◌};
ghost use Rattle.std.specs.List.{list_all};
ghost use Rattle.oc_value.specs.Values.{fits as value_fits, fits_base as atom_fits, default, default_base as default_atom};
ghost use Rattle.oc_model.specs.declared.value.Atom.TheVariants as atom;

use oc_model::value::{Atom, Base, Kind, Value};

/// Whether the value is of this kind. Null fits texts, references and every array.
pub fn fits(kind: Kind, value: &Value) -> bool
    ensures { result ≡ value_fits kind value.now }
{
    match (kind, value) {
        (Kind::One(base), Value::One(atom)) => fits_base(base, atom),
        (Kind::Many(base), Value::Many(Some(atoms))) => fits_all(base, atoms.as_slice()),
        (Kind::Many(_), Value::Many(None)) => true,
        _ => false,
    }
}

fn fits_all(base: Base, atoms: &[Atom]) -> bool
    ensures { result ≡ list_all (atom_fits base) atoms.now }
{
    atoms.iter().all(|atom| fits_base(base, atom))
}

/// Whether the single value is of this base kind. Null fits texts and references.
pub fn fits_base(base: Base, atom: &Atom) -> bool
    ensures { result ≡ atom_fits base atom.now }
{
    match atom {
        Atom::Bool(_) => base == Base::Bool,
        Atom::Int(number) => fits_number(base, *number),
        Atom::Text(_) => base == Base::Text,
        Atom::Ref(_) => base == Base::Ref,
    }
}

fn fits_number(base: Base, number: i128) -> bool
    ensures { result ≡ atom_fits base (atom.Int number) }
{
    match base {
        Base::I8 => i8::try_from(number).is_ok(),
        Base::I16 => i16::try_from(number).is_ok(),
        Base::I32 => i32::try_from(number).is_ok(),
        Base::I64 => i64::try_from(number).is_ok(),
        Base::U64 => u64::try_from(number).is_ok(),
        Base::I128 => true,
        Base::Bool | Base::Text | Base::Ref => false,
    }
}

/// The value that a field of this kind has at first: false, 0 or null.
pub fn default_of(kind: Kind) -> Value
    ensures { result ≡ default kind }
{
    match kind {
        Kind::One(base) => Value::One(default_base(base)),
        Kind::Many(_) => Value::Many(None),
    }
}

fn default_base(base: Base) -> Atom
    ensures { result ≡ default_atom base }
{
    match base {
        Base::Bool => Atom::Bool(false),
        Base::Text => Atom::Text(None),
        Base::Ref => Atom::Ref(0),
        Base::I8 | Base::I16 | Base::I32 | Base::I64 | Base::U64 | Base::I128 => Atom::Int(0),
    }
}
