//! Whether a record is short enough to be stored.

ghost use Rattle.std.specs.Prelude.{◌≡◌, ◌+◌, nat_le, sum_by};
ghost use Rattle.oc_model.specs.Stores.{width_of, atom_len, base_of, value_len, entry_len};
ghost use Rattle.oc_run.specs.ListStore.{Pays};

use oc_model::value::{Atom, Base, Entry, Kind, Value};

/// The most bytes that a record may take.
const RECORD_LIMIT: u32 = 262_144;

/// What a record takes for its class and for how many entries it has.
const RECORD_HEAD: usize = 6;

/// What an entry takes for its field and its kind.
const ENTRY_HEAD: usize = 5;

/// What a text or an array takes that isn't null, beside its bytes or elements.
const LENGTH_HEAD: usize = 5;

/// Whether a record of these entries takes at most as many bytes as it may.
pub fn is_short(entries: &[Entry]) -> bool
    ensures { result ≡ nat_le (6 + sum_by entry_len entries.now) 262144 }
{
    match pay(RECORD_LIMIT, RECORD_HEAD) {
        Some(room) => pay_entries(room, entries).is_some(),
        None => false,
    }
}

fn pay(room: u32, cost: usize) -> Option<u32>
    ensures { Pays room cost result }
{
    if cost <= room as usize {
        Some(room - cost as u32)
    } else {
        None
    }
}

fn pay_entries(room: u32, entries: &[Entry]) -> Option<u32>
    ensures { Pays room (sum_by entry_len entries.now) result }
{
    let mut left = room;
    for entry in entries {
        left = pay_entry(left, entry)?;
    }
    Some(left)
}

fn pay_entry(room: u32, entry: &Entry) -> Option<u32>
    ensures { Pays room (entry_len entry.now) result }
{
    pay_value(pay(room, ENTRY_HEAD)?, base_of(entry.kind), &entry.value)
}

fn pay_value(room: u32, base: Base, value: &Value) -> Option<u32>
    ensures { Pays room (value_len base value.now) result }
{
    match value {
        Value::One(atom) => pay_atom(room, base, atom),
        Value::Many(None) => pay(room, 1),
        Value::Many(Some(atoms)) => pay_atoms(pay(room, LENGTH_HEAD)?, base, atoms.as_slice()),
    }
}

fn pay_atoms(room: u32, base: Base, atoms: &[Atom]) -> Option<u32>
    ensures { Pays room (sum_by (atom_len base) atoms.now) result }
{
    let mut left = room;
    for atom in atoms {
        left = pay_atom(left, base, atom)?;
    }
    Some(left)
}

fn pay_atom(room: u32, base: Base, atom: &Atom) -> Option<u32>
    ensures { Pays room (atom_len base atom.now) result }
{
    match atom {
        Atom::Text(None) => pay(room, 1),
        Atom::Text(Some(text)) => pay(room, LENGTH_HEAD + text.as_slice().len()),
        Atom::Bool(_) | Atom::Int(_) | Atom::Ref(_) => pay(room, width_of(base)),
    }
}

fn base_of(kind: Kind) -> Base
    ensures { result ≡ base_of kind }
{
    match kind {
        Kind::One(base) | Kind::Many(base) => base,
    }
}

fn width_of(base: Base) -> usize
    ensures { result ≡ width_of base }
{
    match base {
        Base::Bool | Base::I8 => 1,
        Base::I16 => 2,
        Base::I32 | Base::Text | Base::Ref => 4,
        Base::I64 | Base::U64 => 8,
        Base::I128 => 16,
    }
}
