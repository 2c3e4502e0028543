//! Numbers, kinds and texts at a place of the bytes. Each is given with the place behind it.

ghost use Rattle.std.specs.Prelude.{◌≡◌, ◌≢◌, ◌++◌, ◌*◌, ◌-◌, ◌+◌, ◌≤◌, ◌<◌, true, length, take, drop, IfOk, IfSome, IfNone};
ghost use Rattle.std.specs.Int.{w16, w32, to_be_bytes};
ghost use Rattle.std.specs.Str.{is_utf8};
ghost use Rattle.oc_model.specs.declared.value.Kind.{Kind as KindOf};
ghost use Rattle.oc_model.specs.declared.value.Base.{Base as BaseOf};
ghost use Rattle.oc_model.specs.declared.value.Atom.TheVariants as atom;
ghost use Rattle.oc_value.specs.Integers.{number_bytes, IsWidth};
ghost use Rattle.oc_marshal.specs.Kinds.{kind_tag, base_tag};
ghost use Rattle.oc_marshal.specs.Stores.{width_of};
ghost use Rattle.oc_marshal.specs.Values.{fits_base, fits_signed, fits_unsigned};
ghost use Rattle.oc_marshal.specs.Spelling.{is_word};
ghost use Rattle.oc_marshal.specs.Places.{StandsAt, NothingAt, any, flag_bytes, is_short};
ghost use Rattle.oc_marshal.specs.Records.{is_string, kind_bytes, string_bytes, IsWhole};

use oc_value::{Base, Kind, Txt, by_width, get_int, get_nat};
use std::alloc::{AllocError, Global};

fn rest_from(bytes: &[u8], at: usize) -> &[u8]
    requires { at ≤ length bytes.now }
    ensures { result.now ≡ drop at bytes.now }
{
    &bytes[at..]
}

/// A number of four bytes.
pub(crate) fn word_at(bytes: &[u8], at: usize) -> Option<(u32, usize)>
    requires { at ≤ length bytes.now }
    ensures found { IfSome result (λ p. StandsAt is_word (to_be_bytes w32) bytes.now at p.0 p.1) }
    ensures none { IfNone result (NothingAt is_word (to_be_bytes w32) bytes.now at) }
{
    if bytes.len() - at < 4 {
        return None;
    }
    Some((word_from(rest_from(bytes, at)), at + 4))
}

fn word_from(bytes: &[u8]) -> u32
    requires { 4 ≤ length bytes.now }
    ensures { bytes.now ≡ to_be_bytes w32 result ++ drop 4 bytes.now }
{
    u32::from_be_bytes([bytes[0], bytes[1], bytes[2], bytes[3]])
}

/// A number of two bytes.
pub(crate) fn short_at(bytes: &[u8], at: usize) -> Option<(u16, usize)>
    requires { at ≤ length bytes.now }
    ensures found { IfSome result (λ p. StandsAt is_short (to_be_bytes w16) bytes.now at p.0 p.1) }
    ensures none { IfNone result (NothingAt is_short (to_be_bytes w16) bytes.now at) }
{
    if bytes.len() - at < 2 {
        return None;
    }
    Some((short_from(rest_from(bytes, at)), at + 2))
}

fn short_from(bytes: &[u8]) -> u16
    requires { 2 ≤ length bytes.now }
    ensures { bytes.now ≡ to_be_bytes w16 result ++ drop 2 bytes.now }
{
    u16::from_be_bytes([bytes[0], bytes[1]])
}

/// A byte 0 or 1.
pub(crate) fn flag_at(bytes: &[u8], at: usize) -> Option<(bool, usize)>
    requires { at ≤ length bytes.now }
    ensures found { IfSome result (λ p. StandsAt any flag_bytes bytes.now at p.0 p.1) }
    ensures none { IfNone result (NothingAt any flag_bytes bytes.now at) }
{
    if at == bytes.len() {
        return None;
    }
    match bytes[at] {
        0 => Some((false, at + 1)),
        1 => Some((true, at + 1)),
        _ => None,
    }
}

/// A number of so many bytes with a sign.
fn signed_at<const W: usize>(bytes: &[u8], at: usize) -> Option<(i128, usize)>
    requires width { IsWidth W }
    requires there { at ≤ length bytes.now }
    ensures found { IfSome result (λ p. StandsAt (fits_signed (8 * W - 1)) (number_bytes W) bytes.now at p.0 p.1) }
    ensures none { IfNone result (NothingAt (fits_signed (8 * W - 1)) (number_bytes W) bytes.now at) }
{
    if bytes.len() - at < W {
        return None;
    }
    Some((get_int::<W>(bytes, at), at + W))
}

/// A number of so many bytes that isn't negative.
fn natural_at<const W: usize>(bytes: &[u8], at: usize) -> Option<(i128, usize)>
    requires width { IsWidth W }
    requires narrow { W < 16 }
    requires there { at ≤ length bytes.now }
    ensures found { IfSome result (λ p. StandsAt (fits_unsigned (8 * W)) (number_bytes W) bytes.now at p.0 p.1) }
    ensures none { IfNone result (NothingAt (fits_unsigned (8 * W)) (number_bytes W) bytes.now at) }
{
    if bytes.len() - at < W {
        return None;
    }
    Some((get_nat::<W>(bytes, at), at + W))
}

/// A number of a kind of whole numbers.
pub(crate) fn number_at(base: Base, bytes: &[u8], at: usize) -> Option<(i128, usize)>
    requires whole { IsWhole base }
    requires there { at ≤ length bytes.now }
    ensures found { IfSome result (λ p. StandsAt (λ n. fits_base base (atom.Int n)) (number_bytes (width_of base)) bytes.now at p.0 p.1) }
    ensures none { IfNone result (NothingAt (λ n. fits_base base (atom.Int n)) (number_bytes (width_of base)) bytes.now at) }
{
    by_width!(base, signed_at, natural_at, (bytes, at),
        Bool => unreachable!(),
        Text => unreachable!(),
        Ref => unreachable!(),
    )
}

/// The tag of a kind.
pub(crate) fn kind_at(bytes: &[u8], at: usize) -> Option<(Kind, usize)>
    requires { at ≤ length bytes.now }
    ensures found { IfSome result (λ p. StandsAt any kind_bytes bytes.now at p.0 p.1) }
    ensures none { IfNone result (NothingAt any kind_bytes bytes.now at) }
{
    if at == bytes.len() {
        return None;
    }
    let kind = kind_of(bytes[at])?;
    Some((kind, at + 1))
}

fn kind_of(tag: u8) -> Option<Kind>
    ensures found { IfSome result (λ k. kind_tag k ≡ tag) }
    ensures none { IfNone result ((k : KindOf) → kind_tag k ≢ tag) }
{
    if tag < 16 {
        base_of(tag).map(Kind::One)
    } else {
        base_of(tag - 16).map(Kind::Many)
    }
}

fn base_of(tag: u8) -> Option<Base>
    ensures found { IfSome result (λ b. base_tag b ≡ tag) }
    ensures none { IfNone result ((b : BaseOf) → base_tag b ≢ tag) }
{
    match tag {
        1 => Some(Base::Bool),
        2 => Some(Base::I8),
        3 => Some(Base::I16),
        4 => Some(Base::I32),
        5 => Some(Base::I64),
        6 => Some(Base::Text),
        7 => Some(Base::Ref),
        8 => Some(Base::U64),
        9 => Some(Base::I128),
        _ => None,
    }
}

/// A length and so many bytes of UTF-8.
pub(crate) fn string_at(
    alloc: Global,
    bytes: &[u8],
    at: usize,
) -> Result<Option<(Txt, usize)>, AllocError>
    requires { at ≤ length bytes.now }
    ensures found { IfOk result (λ f. IfSome f (λ p. StandsAt is_string string_bytes bytes.now at p.0 p.1)) }
    ensures none { IfOk result (λ f. IfNone f (NothingAt is_string string_bytes bytes.now at)) }
{
    let Some((len, from)) = word_at(bytes, at) else {
        return Ok(None);
    };
    let Some(end) = end_within(bytes, from, len) else {
        return Ok(None);
    };
    let text = part(bytes, from, len);
    if !has_utf8(text) {
        return Ok(None);
    }
    Ok(Some((Txt::from_slice(alloc, text)?, end)))
}

fn part(bytes: &[u8], from: usize, len: u32) -> &[u8]
    requires { from + len ≤ length bytes.now }
    ensures part { result.now ≡ take len (drop from bytes.now) }
    ensures len { length result.now ≡ len }
{
    &bytes[from..from + len as usize]
}

#[tactic(auto, using(crate::proofs::Texts::utf8))]
fn has_utf8(text: &[u8]) -> bool
    ensures { result ≡ is_utf8 text.now }
{
    str::from_utf8(text).is_ok()
}

// The place so many bytes further on, if it is within the bytes.
fn end_within(bytes: &[u8], from: usize, len: u32) -> Option<usize>
    requires { from ≤ length bytes.now }
    ensures found { IfSome result (λ end. end ≡ from + len) }
    ensures within { IfSome result (λ end. end ≤ length bytes.now) }
    ensures none { IfNone result (length bytes.now < from + len) }
{
    if bytes.len() - from < len as usize {
        None
    } else {
        Some(from + len as usize)
    }
}
