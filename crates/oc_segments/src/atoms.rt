//! Single values at a place of the bytes, each given with the place behind it; and their bytes.

ghost use Rattle.std.specs.Prelude.{◌≡◌, ◌++◌, ◌∷◌, [], ◌*◌, ◌-◌, ◌+◌, ◌^◌, ◌≤◌, ◌<◌, length, take, drop, IsTrue, IfOk, OnOk, IfSome, IfNone};
ghost use Rattle.std.specs.Int.{w32, w128, to_be_bytes, bytes_high_first, cast_unsigned};
ghost use Rattle.std.specs.Str.{is_utf8};
ghost use Rattle.oc_model.specs.declared.value.Base.TheVariants as base;
ghost use Rattle.oc_model.specs.declared.value.Atom.TheVariants as atom;
ghost use Rattle.oc_model.specs.Stores.{width_of};
ghost use Rattle.oc_model.specs.Values.{fits_base, fits_signed, fits_unsigned};
ghost use Rattle.oc_model.specs.Spelling.{atom_bytes, is_small_atom};
ghost use Rattle.oc_value.specs.Integers.{number_bytes, IsWidth};
ghost use Rattle.oc_marshal.specs.Places.{StandsAt, NothingAt, any, flag_bytes, is_optional, optional_bytes};
ghost use Rattle.oc_marshal.specs.Records.{is_atom, is_string, string_bytes, IsWhole};

use oc_catalog::places::word_at;
use oc_value::{Atom, Base, Txt, by_width, get_int, get_nat, put_int, put_nat};
use std::alloc::{AllocError, Global};

/// A single value of the kind.
pub(crate) fn atom_at(
    alloc: Global,
    base: Base,
    bytes: &[u8],
    at: usize,
) -> Result<Option<(Atom, usize)>, AllocError>
    requires { at ≤ length bytes.now }
    ensures found { IfOk result (λ f. IfSome f (λ p. StandsAt (is_atom base) (atom_bytes base) bytes.now at p.0 p.1)) }
    ensures none { IfOk result (λ f. IfNone f (NothingAt (is_atom base) (atom_bytes base) bytes.now at)) }
{
    match base {
        Base::Text => {
            let Some((text, to)) = text_at(alloc, bytes, at)? else {
                return Ok(None);
            };
            Ok(Some((Atom::Text(text), to)))
        }
        Base::Bool => Ok(truth_at(bytes, at)),
        Base::Ref => Ok(reference_at(bytes, at)),
        Base::I8 | Base::I16 | Base::I32 | Base::I64 | Base::U64 | Base::I128 => {
            Ok(whole_at(base, bytes, at))
        }
    }
}

fn truth_at(bytes: &[u8], at: usize) -> Option<(Atom, usize)>
    requires { at ≤ length bytes.now }
    ensures found { IfSome result (λ p. StandsAt (is_atom base.Bool) (atom_bytes base.Bool) bytes.now at p.0 p.1) }
    ensures none { IfNone result (NothingAt (is_atom base.Bool) (atom_bytes base.Bool) bytes.now at) }
{
    let (truth, to) = flag_at(bytes, at)?;
    Some((Atom::Bool(truth), to))
}

fn whole_at(base: Base, bytes: &[u8], at: usize) -> Option<(Atom, usize)>
    requires whole { IsWhole base }
    requires there { at ≤ length bytes.now }
    ensures found { IfSome result (λ p. StandsAt (is_atom base) (atom_bytes base) bytes.now at p.0 p.1) }
    ensures none { IfNone result (NothingAt (is_atom base) (atom_bytes base) bytes.now at) }
{
    let (number, to) = number_at(base, bytes, at)?;
    Some((Atom::Int(number), to))
}

#[tactic(auto, using(oc_marshal::proofs::Readings::no_reference))]
fn reference_at(bytes: &[u8], at: usize) -> Option<(Atom, usize)>
    requires { at ≤ length bytes.now }
    ensures found { IfSome result (λ p. StandsAt (is_atom base.Ref) (atom_bytes base.Ref) bytes.now at p.0 p.1) }
    ensures none { IfNone result (NothingAt (is_atom base.Ref) (atom_bytes base.Ref) bytes.now at) }
{
    let (number, to) = word_at(bytes, at)?;
    if number > 2_147_483_646 {
        return None;
    }
    Some((Atom::Ref(u64::from(number)), to))
}

#[tactic(auto, using(oc_marshal::proofs::Parts::no_flag))]
fn text_at(
    alloc: Global,
    bytes: &[u8],
    at: usize,
) -> Result<Option<(Option<Txt>, usize)>, AllocError>
    requires { at ≤ length bytes.now }
    ensures found { IfOk result (λ f. IfSome f (λ p. StandsAt (is_optional is_string) (optional_bytes string_bytes) bytes.now at p.0 p.1)) }
    ensures none { IfOk result (λ f. IfNone f (NothingAt (is_optional is_string) (optional_bytes string_bytes) bytes.now at)) }
{
    let Some((is_some, from)) = flag_at(bytes, at) else {
        return Ok(None);
    };
    if !is_some {
        return Ok(Some((None, from)));
    }
    let Some((text, to)) = string_at(alloc, bytes, from)? else {
        return Ok(None);
    };
    Ok(Some((Some(text), to)))
}

/// A byte 0 or 1.
fn flag_at(bytes: &[u8], at: usize) -> Option<(bool, usize)>
    requires { at ≤ length bytes.now }
    ensures found { IfSome result (λ p. StandsAt any flag_bytes bytes.now at p.0 p.1) }
    ensures none { IfNone result (NothingAt any flag_bytes bytes.now at) }
{
    if at == bytes.len() {
        return None;
    }
    match bytes[at] {
        0 => Some((false, at + 1)),
        1 => Some((true, at + 1)),
        _ => None,
    }
}

/// A number of a kind of whole numbers.
fn number_at(base: Base, bytes: &[u8], at: usize) -> Option<(i128, usize)>
    requires whole { IsWhole base }
    requires there { at ≤ length bytes.now }
    ensures found { IfSome result (λ p. StandsAt (λ n. fits_base base (atom.Int n)) (number_bytes (width_of base)) bytes.now at p.0 p.1) }
    ensures none { IfNone result (NothingAt (λ n. fits_base base (atom.Int n)) (number_bytes (width_of base)) bytes.now at) }
{
    by_width!(base, signed_at, natural_at, (bytes, at),
        Bool => unreachable!(),
        Text => unreachable!(),
        Ref => unreachable!(),
    )
}

/// A number of so many bytes with a sign.
fn signed_at<const W: usize>(bytes: &[u8], at: usize) -> Option<(i128, usize)>
    requires width { IsWidth W }
    requires there { at ≤ length bytes.now }
    ensures found { IfSome result (λ p. StandsAt (fits_signed (8 * W - 1)) (number_bytes W) bytes.now at p.0 p.1) }
    ensures none { IfNone result (NothingAt (fits_signed (8 * W - 1)) (number_bytes W) bytes.now at) }
{
    if bytes.len() - at < W {
        return None;
    }
    Some((get_int::<W>(bytes, at), at + W))
}

/// A number of so many bytes that isn't negative.
fn natural_at<const W: usize>(bytes: &[u8], at: usize) -> Option<(i128, usize)>
    requires width { IsWidth W }
    requires narrow { W < 16 }
    requires there { at ≤ length bytes.now }
    ensures found { IfSome result (λ p. StandsAt (fits_unsigned (8 * W)) (number_bytes W) bytes.now at p.0 p.1) }
    ensures none { IfNone result (NothingAt (fits_unsigned (8 * W)) (number_bytes W) bytes.now at) }
{
    if bytes.len() - at < W {
        return None;
    }
    Some((get_nat::<W>(bytes, at), at + W))
}

/// A length and so many bytes of UTF-8.
fn string_at(alloc: Global, bytes: &[u8], at: usize) -> Result<Option<(Txt, usize)>, AllocError>
    requires { at ≤ length bytes.now }
    ensures found { IfOk result (λ f. IfSome f (λ p. StandsAt is_string string_bytes bytes.now at p.0 p.1)) }
    ensures none { IfOk result (λ f. IfNone f (NothingAt is_string string_bytes bytes.now at)) }
{
    let Some((len, from)) = word_at(bytes, at) else {
        return Ok(None);
    };
    let Some(end) = end_within(bytes, from, len) else {
        return Ok(None);
    };
    let text = part(bytes, from, len);
    if !has_utf8(text) {
        return Ok(None);
    }
    Ok(Some((Txt::from_slice(alloc, text)?, end)))
}

fn part(bytes: &[u8], from: usize, len: u32) -> &[u8]
    requires { from + len ≤ length bytes.now }
    ensures part { result.now ≡ take len (drop from bytes.now) }
    ensures len { length result.now ≡ len }
{
    &bytes[from..from + len as usize]
}

#[tactic(auto, using(oc_marshal::proofs::Texts::utf8))]
fn has_utf8(text: &[u8]) -> bool
    ensures { result ≡ is_utf8 text.now }
{
    str::from_utf8(text).is_ok()
}

/// The place so many bytes further on, if it is within the bytes.
fn end_within(bytes: &[u8], from: usize, len: u32) -> Option<usize>
    requires { from ≤ length bytes.now }
    ensures found { IfSome result (λ end. end ≡ from + len) }
    ensures within { IfSome result (λ end. end ≤ length bytes.now) }
    ensures none { IfNone result (length bytes.now < from + len) }
{
    if bytes.len() - from < len as usize {
        None
    } else {
        Some(from + len as usize)
    }
}

/// Appends the bytes of a single value.
pub(crate) fn put_atom(out: &mut Vec<u8>, base: Base, atom: &Atom) -> Result<(), AllocError>
    requires fits { IsTrue (fits_base base atom.now) }
    requires small { IsTrue (is_small_atom atom.now) }
    ensures { OnOk result (out.new.items ≡ out.old.items ++ atom_bytes base atom.now) }
{
    match atom {
        Atom::Bool(truth) => put_byte(out, u8::from(*truth)),
        Atom::Int(number) => put_number(out, base, *number),
        Atom::Text(None) => put_byte(out, 0),
        Atom::Text(Some(text)) => put_text(out, text.as_slice()),
        Atom::Ref(number) => out.extend_from_slice(&(*number as u32).to_be_bytes()),
    }
}

fn put_number(out: &mut Vec<u8>, base: Base, number: i128) -> Result<(), AllocError>
    requires { IsTrue (fits_base base (atom.Int number)) }
    ensures { OnOk result (out.new.items ≡ out.old.items ++ bytes_high_first (width_of base) (cast_unsigned w128 number)) }
{
    by_width!(base, put_int, put_nat, (out, number),
        Bool => unreachable!(),
        Text => unreachable!(),
        Ref => unreachable!(),
    )
}

fn put_text(out: &mut Vec<u8>, text: &[u8]) -> Result<(), AllocError>
    requires { length text.now < 2 ^ 32 }
    ensures { OnOk result (out.new.items ≡ out.old.items ++ 1 ∷ to_be_bytes w32 (length text.now) ++ text.now) }
{
    let len = text.len() as u32;
    out.push(1)?;
    out.extend_from_slice(&len.to_be_bytes())?;
    out.extend_from_slice(text)?;
    Ok(())
}

fn put_byte(out: &mut Vec<u8>, byte: u8) -> Result<(), AllocError>
    ensures { OnOk result (out.new.items ≡ out.old.items ++ byte ∷ []) }
{
    out.push(byte)?;
    Ok(())
}
