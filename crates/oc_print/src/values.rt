//! Values as they are shown.

ghost use Rattle.std.specs.Prelude.{◌≡◌, ◌++◌, ◌<◌, OnOk, map, flat_map, codes};
ghost use Rattle.oc_machine.specs.Printing.{escape, hex, quoted, mark_text, atom_text, value_text, joined};

use crate::numbers::{put_natural, put_whole};
use oc_model::answer::{Mark, ShownAtom, ShownValue};
use std::alloc::{AllocError, Global};

/// Appends `~` and the object's number, or `!` and its handle.
pub(crate) fn put_mark(alloc: Global, out: &mut Vec<u8>, mark: Mark) -> Result<(), AllocError>
    ensures { OnOk result (out.new.items ≡ out.old.items ++ mark_text mark) }
{
    match mark {
        Mark::Number(number) => {
            out.push(b'~')?;
            put_natural(alloc, out, number.into())
        }
        Mark::Handle(handle) => {
            out.push(b'!')?;
            put_natural(alloc, out, handle)
        }
    }
}

/// Appends the value: one value, or an array in brackets.
pub(crate) fn put_value(
    alloc: Global,
    out: &mut Vec<u8>,
    value: &ShownValue,
) -> Result<(), AllocError>
    ensures { OnOk result (out.new.items ≡ out.old.items ++ value_text value.now) }
{
    match value {
        ShownValue::One(atom) => put_atom(alloc, out, atom),
        ShownValue::Many(None) => out.extend_from_slice(b"null"),
        ShownValue::Many(Some(atoms)) => {
            out.push(b'[')?;
            put_atoms(alloc, out, atoms.as_slice())?;
            out.push(b']')?;
            Ok(())
        }
    }
}

fn put_atoms(alloc: Global, out: &mut Vec<u8>, atoms: &[ShownAtom]) -> Result<(), AllocError>
    ensures { OnOk result (out.new.items ≡ out.old.items ++ joined (codes ", ") (map atom_text atoms.now)) }
{
    let Some((first, others)) = atoms.split_first() else {
        return Ok(());
    };
    put_atom(alloc, out, first)?;
    put_other_atoms(alloc, out, others)?;
    Ok(())
}

/// Appends the values that stand behind another, each behind a comma.
fn put_other_atoms(alloc: Global, out: &mut Vec<u8>, atoms: &[ShownAtom]) -> Result<(), AllocError>
    ensures { OnOk result (out.new.items ≡ out.old.items ++ flat_map (λ atom. codes ", " ++ atom_text atom) atoms.now) }
{
    for atom in atoms {
        out.extend_from_slice(b", ")?;
        put_atom(alloc, out, atom)?;
    }
    Ok(())
}

fn put_atom(alloc: Global, out: &mut Vec<u8>, atom: &ShownAtom) -> Result<(), AllocError>
    ensures { OnOk result (out.new.items ≡ out.old.items ++ atom_text atom.now) }
{
    match atom {
        ShownAtom::Bool(true) => out.extend_from_slice(b"true"),
        ShownAtom::Bool(false) => out.extend_from_slice(b"false"),
        ShownAtom::Int(number) => put_whole(alloc, out, *number),
        ShownAtom::Text(Some(text)) => put_quoted(out, text.as_slice()),
        ShownAtom::Ref(Some(mark)) => put_mark(alloc, out, *mark),
        ShownAtom::Text(None) | ShownAtom::Ref(None) => out.extend_from_slice(b"null"),
    }
}

fn put_quoted(out: &mut Vec<u8>, text: &[u8]) -> Result<(), AllocError>
    ensures { OnOk result (out.new.items ≡ out.old.items ++ quoted text.now) }
{
    out.push(b'"')?;
    put_all_escaped(out, text)?;
    out.push(b'"')?;
    Ok(())
}

fn put_all_escaped(out: &mut Vec<u8>, text: &[u8]) -> Result<(), AllocError>
    ensures { OnOk result (out.new.items ≡ out.old.items ++ flat_map escape text.now) }
{
    for byte in text {
        put_escaped(out, *byte)?;
    }
    Ok(())
}

/// Appends the byte as it stands in a text: by an escape, or as it is.
fn put_escaped(out: &mut Vec<u8>, byte: u8) -> Result<(), AllocError>
    ensures { OnOk result (out.new.items ≡ out.old.items ++ escape byte) }
{
    match byte {
        b'"' | b'\\' => out.extend_from_slice(&[b'\\', byte]),
        b'\n' => out.extend_from_slice(b"\\n"),
        b'\r' => out.extend_from_slice(b"\\r"),
        b'\t' => out.extend_from_slice(b"\\t"),
        0..32 | 127 => out.extend_from_slice(&[
            b'\\',
            b'x',
            hex_digit(byte / 16),
            hex_digit(byte % 16),
        ]),
        _ => out.extend_from_slice(&[byte]),
    }
}

fn hex_digit(digit: u8) -> u8
    requires { digit < 16 }
    ensures { result ≡ hex digit }
{
    if digit < 10 {
        b'0' + digit
    } else {
        b'a' + (digit - 10)
    }
}
