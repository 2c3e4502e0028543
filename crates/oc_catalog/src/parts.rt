//! Things that stand in bytes one behind another, with their count in front.

ghost use Rattle.std.specs.Prelude.{◌≡◌, ◌≤◌, ◌++◌, Bool, List, ℕ, IsTrue, length, flat_map, IfOk, OnOk, IfSome, IfNone};
ghost use Rattle.std.specs.List.{list_all};
ghost use Rattle.std.specs.Int.{w16, w32};
ghost use Rattle.oc_model.specs.Spelling.{counted, Tells};
ghost use Rattle.oc_marshal.specs.Places.{StandsAt, NothingAt, StandInRow, NoRowAt};
ghost use Rattle.oc_catalog.specs.Drafts.{are_few, are_many};

use crate::places::{short_at, word_at};
use sqlite_items::Items;
use std::alloc::{AllocError, Global};

/// A thing whose bytes tell it, whatever stands behind them.
pub(crate) trait Part: Drop {
    ghost test: { Self → Bool };

    ghost spell: { Self → List ℕ };

    /// The one that stands at the place, with the place behind it.
    fn read(alloc: Global, bytes: &[u8], at: usize) -> Result<Option<(Self, usize)>, AllocError>
        requires { at ≤ length bytes.now }
        ensures found { IfOk result (λ f. IfSome f (λ p. StandsAt test spell bytes.now at p.0 p.1)) }
        ensures none { IfOk result (λ f. IfNone f (NothingAt test spell bytes.now at)) };

    /// Appends its bytes.
    fn write(&self, out: &mut Vec<u8>) -> Result<(), AllocError>
        requires { IsTrue (test self.now) }
        ensures { OnOk result (out.new.items ≡ out.old.items ++ spell self.now) };

    ghost told: { Tells (λ x. IsTrue (test x)) spell };
}

// As many as the count says.
fn row_at<P: Part>(
    alloc: Global,
    count: u32,
    bytes: &[u8],
    at: usize,
) -> Result<Option<(Vec<P>, usize)>, AllocError>
    requires { at ≤ length bytes.now }
    ensures found { IfOk result (λ f. IfSome f (λ p. StandInRow P.test P.spell bytes.now at (p.0).items p.1)) }
    ensures count { IfOk result (λ f. IfSome f (λ p. length (p.0).items ≡ count)) }
    ensures none { IfOk result (λ f. IfNone f (NoRowAt P.test P.spell bytes.now at count)) }
{
    let mut parts = Vec::new(alloc);
    let mut place = at;
    for _ in 0..count {
        let Some((part, to)) = P::read(alloc, bytes, place)? else {
            return Ok(None);
        };
        parts.push(part)?;
        place = to;
    }
    Ok(Some((parts, place)))
}

/// As many as the two bytes in front say.
pub(crate) fn few_at<P: Part>(
    alloc: Global,
    bytes: &[u8],
    at: usize,
) -> Result<Option<(Items<P>, usize)>, AllocError>
    requires { at ≤ length bytes.now }
    ensures found { IfOk result (λ f. IfSome f (λ p. StandsAt (are_few P.test) (counted w16 P.spell) bytes.now at p.0 p.1)) }
    ensures none { IfOk result (λ f. IfNone f (NothingAt (are_few P.test) (counted w16 P.spell) bytes.now at)) }
{
    let Some((count, from)) = short_at(bytes, at) else {
        return Ok(None);
    };
    let Some((parts, to)) = row_at::<P>(alloc, u32::from(count), bytes, from)? else {
        return Ok(None);
    };
    Ok(Some((Items::from_vec(parts), to)))
}

/// As many as the four bytes in front say.
pub(crate) fn many_at<P: Part>(
    alloc: Global,
    bytes: &[u8],
    at: usize,
) -> Result<Option<(Items<P>, usize)>, AllocError>
    requires { at ≤ length bytes.now }
    ensures found { IfOk result (λ f. IfSome f (λ p. StandsAt (are_many P.test) (counted w32 P.spell) bytes.now at p.0 p.1)) }
    ensures none { IfOk result (λ f. IfNone f (NothingAt (are_many P.test) (counted w32 P.spell) bytes.now at)) }
{
    let Some((count, from)) = word_at(bytes, at) else {
        return Ok(None);
    };
    let Some((parts, to)) = row_at::<P>(alloc, count, bytes, from)? else {
        return Ok(None);
    };
    Ok(Some((Items::from_vec(parts), to)))
}

/// Appends the bytes of all, with their count in two bytes in front.
pub(crate) fn write_few<P: Part>(parts: &[P], out: &mut Vec<u8>) -> Result<(), AllocError>
    requires { IsTrue (are_few P.test parts.now) }
    ensures { OnOk result (out.new.items ≡ out.old.items ++ counted w16 P.spell parts.now) }
{
    let count = parts.len() as u16;
    out.extend_from_slice(&count.to_be_bytes())?;
    write_row(parts, out)?;
    Ok(())
}

/// Appends the bytes of all, with their count in four bytes in front.
pub(crate) fn write_many<P: Part>(parts: &[P], out: &mut Vec<u8>) -> Result<(), AllocError>
    requires { IsTrue (are_many P.test parts.now) }
    ensures { OnOk result (out.new.items ≡ out.old.items ++ counted w32 P.spell parts.now) }
{
    let count = parts.len() as u32;
    out.extend_from_slice(&count.to_be_bytes())?;
    write_row(parts, out)?;
    Ok(())
}

fn write_row<P: Part>(parts: &[P], out: &mut Vec<u8>) -> Result<(), AllocError>
    requires { IsTrue (list_all P.test parts.now) }
    ensures { OnOk result (out.new.items ≡ out.old.items ++ flat_map P.spell parts.now) }
{
    for part in parts {
        part.write(out)?;
    }
    Ok(())
}
