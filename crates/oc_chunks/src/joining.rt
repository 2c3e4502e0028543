//! Neighbours that have become small are joined.

ghost use Rattle.std.specs.Prelude.{◌≡◌, ◌≤◌, ◌<◌, ◌+◌, length, take, flat_map, IfOk, IfSome, IfNone, OnOk, OnErr};
ghost use Rattle.oc_chunks.specs.Ascending.{Each};
ghost use Rattle.oc_chunks.specs.Joining.{are_small as small_pair, Joins, NoneSmall};
ghost use Rattle.oc_chunks.specs.Merging.{AreSmall, Cleared, IsAlone, IsJointPart, Merges, MergesTwo, Neighbours};
ghost use Rattle.oc_chunks.specs.Pieces.{IsSized, IsSizedPart, IsSound, chunk_now, chunks_now, chunks_then};

use crate::cutting::{copies, is_small, made};
use crate::editing::stand_in;
use crate::entry::Entry;
use crate::piece::{Part, Piece, entries, is_changed};
use std::alloc::{AllocError, Global};

/// Joins neighbours of which one has changed and that together have at most half of the bound. Without memory some may
/// be joined already.
pub(crate) fn join_small<E: Entry>(
    alloc: Global,
    pieces: &mut Vec<Piece<E>>,
) -> Result<(), AllocError>
    requires { IsSound E.order pieces.old.items }
    ensures sound { IsSound E.order pieces.new.items }
    ensures joins { Joins E.bytes E.MOST (flat_map chunks_now pieces.old.items) (flat_map chunks_now pieces.new.items) }
    ensures marked { flat_map (chunks_then E.order) pieces.new.items ≡ flat_map (chunks_then E.order) pieces.old.items }
    ensures none { OnOk result (NoneSmall E.bytes E.MOST (flat_map chunks_now pieces.new.items)) }
{
    for at in 0..pieces.len() {
        join_back(alloc, pieces, at)?;
    }
    Ok(())
}

/// Joins the piece at the place with what stands before it, as long as that is small.
fn join_back<E: Entry>(
    alloc: Global,
    pieces: &mut Vec<Piece<E>>,
    at: usize,
) -> Result<(), AllocError>
    requires sound { IsSound E.order pieces.old.items }
    requires within { at < length pieces.old.items }
    requires none { NoneSmall E.bytes E.MOST (flat_map chunks_now (take at pieces.old.items)) }
    ensures merges { Merges E.order E.bytes E.MOST (at + 1) pieces.old.items pieces.new.items }
    ensures none { OnOk result (NoneSmall E.bytes E.MOST (flat_map chunks_now (take (at + 1) pieces.new.items))) }
{
    let Some(first) = neighbour(pieces, at) else {
        return Ok(());
    };
    if !are_small(&pieces[first].part, &pieces[at].part) {
        return Ok(());
    }
    join_two(alloc, pieces, first, at)?;
    join_back(alloc, pieces, first)?;
    Ok(())
}

/// The last piece before this one that has entries, if this one has entries too.
fn neighbour<E>(pieces: &[Piece<E>], at: usize) -> Option<usize>
    requires { at < length pieces.now }
    ensures found { IfSome result (λ first. Neighbours pieces.now first at) }
    ensures none { IfNone result (IsAlone pieces.now at) }
{
    if pieces[at].part.len == 0 {
        return None;
    }
    for first in (0..at).rev() {
        if pieces[first].part.len > 0 {
            return Some(first);
        }
    }
    None
}

/// Whether the two are to be joined.
fn are_small<E: Entry>(first: &Part<E>, second: &Part<E>) -> bool
    requires first { IsSizedPart first.now }
    requires second { IsSizedPart second.now }
    ensures { result ≡ small_pair E.bytes E.MOST (chunk_now first.now) (chunk_now second.now) }
{
    (is_changed(first) || is_changed(second)) && is_small(entries(first), entries(second))
}

/// Joins two pieces. The first gets the entries of both, and both stay what they were at the mark.
fn join_two<E: Entry>(
    alloc: Global,
    pieces: &mut Vec<Piece<E>>,
    first: usize,
    second: usize,
) -> Result<(), AllocError>
    requires sound { IsSound E.order pieces.old.items }
    requires small { AreSmall E.bytes E.MOST pieces.old.items first second }
    ensures ok { OnOk result (MergesTwo E.order E.bytes E.MOST first second pieces.old.items pieces.new.items) }
    ensures err { OnErr result (pieces.new.items ≡ pieces.old.items) }
{
    let joint = joint(alloc, &pieces[first].part, &pieces[second].part)?;
    stand_in(&mut pieces[first], joint);
    clear(alloc, pieces, first + 1, second + 1);
    Ok(())
}

/// A part with the entries of both.
fn joint<E: Entry>(alloc: Global, first: &Part<E>, second: &Part<E>) -> Result<Part<E>, AllocError>
    requires first { IsSizedPart first.now }
    requires second { IsSizedPart second.now }
    ensures { IfOk result (IsJointPart first.now second.now) }
{
    let mut items = copies(alloc, entries(first))?;
    let mut more = copies(alloc, entries(second))?;
    items.append(&mut more)?;
    Ok(made(items).part)
}

/// Takes the entries from the pieces from the one place on and before the other. They stay what they were at the mark.
fn clear<E: Entry>(alloc: Global, pieces: &mut Vec<Piece<E>>, from: usize, to: usize)
    requires order { from ≤ to }
    requires within { to ≤ length pieces.old.items }
    requires sized { Each IsSized pieces.old.items }
    ensures { Cleared E.order from to pieces.old.items pieces.new.items }
{
    for at in from..to {
        let bare = made(Vec::new(alloc));
        stand_in(&mut pieces[at], bare.part);
    }
}
