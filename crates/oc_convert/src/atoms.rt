ghost use Rattle.std.specs.Prelude.{◌≡◌, IfOk, MatchOption, None, Some};
ghost use Rattle.std.specs.Fmt.{signed_decimal};
ghost use Rattle.oc_convert.specs.Ranges.{IsWhole};
ghost use Rattle.oc_convert.specs.Conversions.{converted_atom, converted_atoms, from_truth, from_number, from_text, from_null, from_reference, in_range, some_text, truth_text, truth_numbered};

use crate::texts::{truth_in, whole_in};
use oc_value::{Atom, Base, Txt, fits_base};
use std::alloc::{AllocError, Global};

// The cases over the kind that a single value is converted to.
macro_rules! by_base {
    (
        $base:expr,truth =>
        $truth:expr,whole =>
        $whole:expr,text =>
        $text:expr,reference =>
        $reference:expr $(,)?
    ) => {
        match $base {
            Base::Bool => $truth,
            Base::I8 | Base::I16 | Base::I32 | Base::I64 | Base::U64 | Base::I128 => $whole,
            Base::Text => $text,
            Base::Ref => $reference,
        }
    };
}

pub(crate) fn convert_atoms(
    alloc: Global,
    base: Base,
    atoms: &[Atom],
) -> Result<Option<Vec<Atom>>, AllocError>
    ensures { IfOk result (λ found. MatchOption found
        (converted_atoms base atoms.now ≡ None)
        (λ v. converted_atoms base atoms.now ≡ Some v.items)) }
{
    let mut all = Vec::new(alloc);
    for atom in atoms {
        let Some(converted) = convert_atom(alloc, base, atom)? else {
            return Ok(None);
        };
        all.push(converted)?;
    }
    Ok(Some(all))
}

pub(crate) fn convert_atom(
    alloc: Global,
    base: Base,
    atom: &Atom,
) -> Result<Option<Atom>, AllocError>
    ensures { IfOk result (λ found. found ≡ converted_atom base atom.now) }
{
    match atom {
        Atom::Bool(truth) => convert_truth(alloc, base, *truth),
        Atom::Int(number) => convert_number(alloc, base, *number),
        Atom::Text(Some(text)) => convert_text(alloc, base, text.as_slice()),
        Atom::Text(None) => Ok(convert_null(base)),
        Atom::Ref(number) => Ok(convert_reference(base, *number)),
    }
}

fn convert_truth(alloc: Global, base: Base, truth: bool) -> Result<Option<Atom>, AllocError>
    ensures { IfOk result (λ found. found ≡ from_truth base truth) }
{
    by_base!(base,
        truth => Ok(Some(Atom::Bool(truth))),
        whole => Ok(number_in(base, i128::from(truth))),
        text => Ok(Some(text_of(alloc, word_of(truth))?)),
        reference => Ok(None),
    )
}

fn convert_number(alloc: Global, base: Base, number: i128) -> Result<Option<Atom>, AllocError>
    ensures { IfOk result (λ found. found ≡ from_number base number) }
{
    by_base!(base,
        truth => Ok(truth_of(number).map(Atom::Bool)),
        whole => Ok(number_in(base, number)),
        text => Ok(Some(decimal_of(alloc, number)?)),
        reference => Ok(None),
    )
}

fn convert_text(alloc: Global, base: Base, text: &[u8]) -> Result<Option<Atom>, AllocError>
    ensures { IfOk result (λ found. found ≡ from_text base text.now) }
{
    by_base!(base,
        truth => Ok(truth_in(text).map(Atom::Bool)),
        whole => Ok(number_spelled_in(base, text)),
        text => Ok(Some(text_of(alloc, text)?)),
        reference => Ok(None),
    )
}

fn convert_null(base: Base) -> Option<Atom>
    ensures { result ≡ from_null base }
{
    by_base!(base,
        truth => None,
        whole => None,
        text => Some(Atom::Text(None)),
        reference => None,
    )
}

fn convert_reference(base: Base, number: u64) -> Option<Atom>
    ensures { result ≡ from_reference base number }
{
    by_base!(base,
        truth => None,
        whole => None,
        text => None,
        reference => Some(Atom::Ref(number)),
    )
}

// The number as one of the kind, if it is in its range.
fn number_in(base: Base, number: i128) -> Option<Atom>
    ensures { result ≡ in_range base number }
{
    let atom = Atom::Int(number);
    if fits_base(base, &atom) {
        Some(atom)
    } else {
        None
    }
}

fn number_spelled_in(base: Base, text: &[u8]) -> Option<Atom>
    requires { IsWhole base }
    ensures { result ≡ from_text base text.now }
{
    number_in(base, whole_in(text)?)
}

fn truth_of(number: i128) -> Option<bool>
    ensures { result ≡ truth_numbered number }
{
    match number {
        0 => Some(false),
        1 => Some(true),
        _ => None,
    }
}

fn word_of(truth: bool) -> &'static [u8]
    ensures { result.now ≡ truth_text truth }
{
    if truth { b"true" } else { b"false" }
}

fn text_of(alloc: Global, text: &[u8]) -> Result<Atom, AllocError>
    ensures { IfOk result (λ a. a ≡ some_text text.now) }
{
    Ok(Atom::Text(Some(Txt::from_slice(alloc, text)?)))
}

fn decimal_of(alloc: Global, number: i128) -> Result<Atom, AllocError>
    ensures { IfOk result (λ a. a ≡ some_text (signed_decimal number)) }
{
    let text = number.to_string(alloc)?;
    Ok(Atom::Text(Some(Txt::from_vec(text.into_bytes()))))
}
