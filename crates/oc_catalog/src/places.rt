//! Numbers, flags, kinds and names at a place of the bytes. Each is given with the place behind it.

ghost use Rattle.std.specs.Prelude.{◌≡◌, ◌≢◌, ◌++◌, ◌-◌, ◌+◌, ◌≤◌, length, take, drop, IfOk, IfSome, IfNone};
ghost use Rattle.std.specs.Int.{w16, w32, to_be_bytes};
ghost use Rattle.oc_model.specs.declared.value.Kind.{Kind as KindOf};
ghost use Rattle.oc_model.specs.declared.value.Base.{Base as BaseOf};
ghost use Rattle.oc_model.specs.Kinds.{kind_tag, base_tag};
ghost use Rattle.oc_model.specs.Spelling.{is_word, name_bytes};
ghost use Rattle.oc_marshal.specs.Places.{StandsAt, NothingAt, any, is_short};
ghost use Rattle.oc_marshal.specs.Records.{kind_bytes};
ghost use Rattle.oc_catalog.specs.Drafts.{flags_bytes, is_short_name};

use oc_value::{Base, Kind, Txt};
use std::alloc::{AllocError, Global};

fn rest_from(bytes: &[u8], at: usize) -> &[u8]
    requires { at ≤ length bytes.now }
    ensures { result.now ≡ drop at bytes.now }
{
    &bytes[at..]
}

/// A number of four bytes.
pub fn word_at(bytes: &[u8], at: usize) -> Option<(u32, usize)>
    requires { at ≤ length bytes.now }
    ensures found { IfSome result (λ p. StandsAt is_word (to_be_bytes w32) bytes.now at p.0 p.1) }
    ensures none { IfNone result (NothingAt is_word (to_be_bytes w32) bytes.now at) }
{
    if bytes.len() - at < 4 {
        return None;
    }
    Some((word_from(rest_from(bytes, at)), at + 4))
}

fn word_from(bytes: &[u8]) -> u32
    requires { 4 ≤ length bytes.now }
    ensures { bytes.now ≡ to_be_bytes w32 result ++ drop 4 bytes.now }
{
    u32::from_be_bytes([bytes[0], bytes[1], bytes[2], bytes[3]])
}

/// A number of two bytes.
pub fn short_at(bytes: &[u8], at: usize) -> Option<(u16, usize)>
    requires { at ≤ length bytes.now }
    ensures found { IfSome result (λ p. StandsAt is_short (to_be_bytes w16) bytes.now at p.0 p.1) }
    ensures none { IfNone result (NothingAt is_short (to_be_bytes w16) bytes.now at) }
{
    if bytes.len() - at < 2 {
        return None;
    }
    Some((short_from(rest_from(bytes, at)), at + 2))
}

fn short_from(bytes: &[u8]) -> u16
    requires { 2 ≤ length bytes.now }
    ensures { bytes.now ≡ to_be_bytes w16 result ++ drop 2 bytes.now }
{
    u16::from_be_bytes([bytes[0], bytes[1]])
}

/// Whether a field is current, and whether it is indexed.
pub(crate) fn flags_at(bytes: &[u8], at: usize) -> Option<(bool, bool, usize)>
    requires { at ≤ length bytes.now }
    ensures found { IfSome result (λ p. StandsAt any flags_bytes bytes.now at (p.0, p.1) p.2) }
    ensures none { IfNone result (NothingAt any flags_bytes bytes.now at) }
{
    if at == bytes.len() {
        return None;
    }
    match bytes[at] {
        0 => Some((false, false, at + 1)),
        1 => Some((true, false, at + 1)),
        2 => Some((false, true, at + 1)),
        3 => Some((true, true, at + 1)),
        _ => None,
    }
}

/// The tag of a kind.
pub(crate) fn kind_at(bytes: &[u8], at: usize) -> Option<(Kind, usize)>
    requires { at ≤ length bytes.now }
    ensures found { IfSome result (λ p. StandsAt any kind_bytes bytes.now at p.0 p.1) }
    ensures none { IfNone result (NothingAt any kind_bytes bytes.now at) }
{
    if at == bytes.len() {
        return None;
    }
    let kind = kind_of(bytes[at])?;
    Some((kind, at + 1))
}

fn kind_of(tag: u8) -> Option<Kind>
    ensures found { IfSome result (λ k. kind_tag k ≡ tag) }
    ensures none { IfNone result ((k : KindOf) → kind_tag k ≢ tag) }
{
    if tag < 16 {
        base_of(tag).map(Kind::One)
    } else {
        base_of(tag - 16).map(Kind::Many)
    }
}

fn base_of(tag: u8) -> Option<Base>
    ensures found { IfSome result (λ b. base_tag b ≡ tag) }
    ensures none { IfNone result ((b : BaseOf) → base_tag b ≢ tag) }
{
    match tag {
        1 => Some(Base::Bool),
        2 => Some(Base::I8),
        3 => Some(Base::I16),
        4 => Some(Base::I32),
        5 => Some(Base::I64),
        6 => Some(Base::Text),
        7 => Some(Base::Ref),
        8 => Some(Base::U64),
        9 => Some(Base::I128),
        _ => None,
    }
}

/// A length of one byte, and a name of so many bytes.
pub(crate) fn name_at(
    alloc: Global,
    bytes: &[u8],
    at: usize,
) -> Result<Option<(Txt, usize)>, AllocError>
    requires { at ≤ length bytes.now }
    ensures found { IfOk result (λ f. IfSome f (λ p. StandsAt is_short_name name_bytes bytes.now at p.0 p.1)) }
    ensures none { IfOk result (λ f. IfNone f (NothingAt is_short_name name_bytes bytes.now at)) }
{
    if at == bytes.len() {
        return Ok(None);
    }
    let len = usize::from(bytes[at]);
    if bytes.len() - (at + 1) < len {
        return Ok(None);
    }
    let name = Txt::from_slice(alloc, part(bytes, at + 1, len))?;
    Ok(Some((name, at + 1 + len)))
}

fn part(bytes: &[u8], from: usize, len: usize) -> &[u8]
    requires { from + len ≤ length bytes.now }
    ensures part { result.now ≡ take len (drop from bytes.now) }
    ensures len { length result.now ≡ len }
{
    &bytes[from..from + len]
}
