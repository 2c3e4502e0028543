ghost use Rattle.std.specs.Prelude.{◌≡◌, ◌++◌, ◌∷◌, [], ◌^◌, ◌<◌, IsTrue, IfOk, OnOk, length, flat_map};
ghost use Rattle.std.specs.Int.{w32, w128, to_be_bytes, bytes_high_first, cast_unsigned};
ghost use Rattle.std.specs.List.{list_all};
ghost use Rattle.oc_model.specs.declared.value.Atom.TheVariants as atom;
ghost use Rattle.oc_marshal.specs.Kinds.{kind_tag, base_tag};
ghost use Rattle.oc_marshal.specs.Stores.{base_of, width_of};
ghost use Rattle.oc_marshal.specs.Values.{fits, fits_base};
ghost use Rattle.oc_marshal.specs.Spelling.{atom_bytes, value_bytes, entry_bytes, record_bytes, entry_fits, is_small, is_small_atom, IsSpellable};

use oc_value::{Atom, Base, Entry, Kind, Rec, Value, by_width, put_int, put_nat};
use std::alloc::{AllocError, Global};

/// The bytes of a record that can be spelled: its class and ids are from 1 on, it has at most
/// 65,535 entries, and each value is of its entry's kind, with texts and arrays shorter than 2^32
/// and references up to 2,147,483,646.
#[tactic(auto, unfolding(oc_model::specs::Spelling::record_bytes))]
pub fn encode(alloc: Global, rec: &Rec) -> Result<Vec<u8>, AllocError>
    requires { IsSpellable rec.now }
    ensures { IfOk result (λ v. v.items ≡ record_bytes rec.now) }
{
    let entries = rec.entries.as_slice();
    let count = entries.len() as u16;
    let mut out = Vec::new(alloc);
    out.extend_from_slice(&rec.class.to_be_bytes())?;
    out.extend_from_slice(&count.to_be_bytes())?;
    put_entries(&mut out, entries)?;
    Ok(out)
}

fn put_entries(out: &mut Vec<u8>, entries: &[Entry]) -> Result<(), AllocError>
    requires fits { IsTrue (list_all entry_fits entries.now) }
    requires small { IsTrue (list_all (λ e. is_small e.value) entries.now) }
    ensures { OnOk result (out.new.items ≡ out.old.items ++ flat_map entry_bytes entries.now) }
{
    for entry in entries {
        put_entry(out, entry)?;
    }
    Ok(())
}

fn put_entry(out: &mut Vec<u8>, entry: &Entry) -> Result<(), AllocError>
    requires fits { IsTrue (entry_fits entry.now) }
    requires small { IsTrue (is_small entry.now.value) }
    ensures { OnOk result (out.new.items ≡ out.old.items ++ entry_bytes entry.now) }
{
    out.extend_from_slice(&entry.id.to_be_bytes())?;
    out.push(tag_of(entry.kind))?;
    put_value(out, entry.kind, &entry.value)?;
    Ok(())
}

fn tag_of(kind: Kind) -> u8
    ensures { result ≡ kind_tag kind }
{
    match kind {
        Kind::One(base) => tag_of_base(base),
        Kind::Many(base) => tag_of_base(base) + 16,
    }
}

fn tag_of_base(base: Base) -> u8
    ensures tag { result ≡ base_tag base }
    ensures small { result < 16 }
{
    match base {
        Base::Bool => 1,
        Base::I8 => 2,
        Base::I16 => 3,
        Base::I32 => 4,
        Base::I64 => 5,
        Base::Text => 6,
        Base::Ref => 7,
        Base::U64 => 8,
        Base::I128 => 9,
    }
}

fn put_value(out: &mut Vec<u8>, kind: Kind, value: &Value) -> Result<(), AllocError>
    requires fits { IsTrue (fits kind value.now) }
    requires small { IsTrue (is_small value.now) }
    ensures { OnOk result (out.new.items ≡ out.old.items ++ value_bytes kind value.now) }
{
    match value {
        Value::One(atom) => put_atom(out, base_of(kind), atom),
        Value::Many(None) => put_byte(out, 0),
        Value::Many(Some(atoms)) => put_array(out, base_of(kind), atoms.as_slice()),
    }
}

fn base_of(kind: Kind) -> Base
    ensures { result ≡ base_of kind }
{
    match kind {
        Kind::One(base) | Kind::Many(base) => base,
    }
}

fn put_array(out: &mut Vec<u8>, base: Base, atoms: &[Atom]) -> Result<(), AllocError>
    requires fits { IsTrue (list_all (fits_base base) atoms.now) }
    requires small { IsTrue (list_all is_small_atom atoms.now) }
    requires few { length atoms.now < 2 ^ 32 }
    ensures { OnOk result (out.new.items ≡ out.old.items ++ 1 ∷ to_be_bytes w32 (length atoms.now) ++ flat_map (atom_bytes base) atoms.now) }
{
    let count = atoms.len() as u32;
    out.push(1)?;
    out.extend_from_slice(&count.to_be_bytes())?;
    for atom in atoms {
        put_atom(out, base, atom)?;
    }
    Ok(())
}

fn put_atom(out: &mut Vec<u8>, base: Base, atom: &Atom) -> Result<(), AllocError>
    requires fits { IsTrue (fits_base base atom.now) }
    requires small { IsTrue (is_small_atom atom.now) }
    ensures { OnOk result (out.new.items ≡ out.old.items ++ atom_bytes base atom.now) }
{
    match atom {
        Atom::Bool(truth) => put_byte(out, u8::from(*truth)),
        Atom::Int(number) => put_number(out, base, *number),
        Atom::Text(None) => put_byte(out, 0),
        Atom::Text(Some(text)) => put_text(out, text.as_slice()),
        Atom::Ref(number) => out.extend_from_slice(&(*number as u32).to_be_bytes()),
    }
}

fn put_number(out: &mut Vec<u8>, base: Base, number: i128) -> Result<(), AllocError>
    requires { IsTrue (fits_base base (atom.Int number)) }
    ensures { OnOk result (out.new.items ≡ out.old.items ++ bytes_high_first (width_of base) (cast_unsigned w128 number)) }
{
    by_width!(base, put_int, put_nat, (out, number),
        Bool => unreachable!(),
        Text => unreachable!(),
        Ref => unreachable!(),
    )
}

fn put_text(out: &mut Vec<u8>, text: &[u8]) -> Result<(), AllocError>
    requires { length text.now < 2 ^ 32 }
    ensures { OnOk result (out.new.items ≡ out.old.items ++ 1 ∷ to_be_bytes w32 (length text.now) ++ text.now) }
{
    let len = text.len() as u32;
    out.push(1)?;
    out.extend_from_slice(&len.to_be_bytes())?;
    out.extend_from_slice(text)?;
    Ok(())
}

fn put_byte(out: &mut Vec<u8>, byte: u8) -> Result<(), AllocError>
    ensures { OnOk result (out.new.items ≡ out.old.items ++ byte ∷ []) }
{
    out.push(byte)?;
    Ok(())
}
