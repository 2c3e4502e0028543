//! The bound of a chunk that a change makes, and how entries are cut into such chunks.

ghost use Rattle.std.specs.Prelude.{◌≡◌, ◌≤◌, ◌<◌, ◌∷◌, ◌+◌, ◌*◌, ◌++◌, nat_le, length, sum_by, IfOk, IfSome, IfNone, OnOk, map};
ghost use Rattle.std.specs.Bool.{OnTrue};
ghost use Rattle.oc_chunks.specs.Chunks.{is_within as within};
ghost use Rattle.oc_chunks.specs.Cutting.{made_of, IsCutInto, IsWide};
ghost use Rattle.oc_chunks.specs.Joining.{is_small as small};

use crate::entry::Entry;
use crate::piece::{Part, Piece, Was};
use std::alloc::{AllocError, Global};

/// The bytes that a chunk of several entries has at most once a change has cut it.
const BYTES: usize = 4096;

/// Whether the entries are one chunk that a change makes.
pub(crate) fn is_within<E: Entry>(entries: &[E]) -> bool
    ensures { result ≡ within E.bytes E.MOST entries.now }
{
    entries.len() <= 1 || entries.len() <= E::MOST && is_light(entries, BYTES)
}

/// Whether the entries are one such chunk with this one. None of them takes more bytes than the widest, so most chunks
/// are judged by their number of entries alone.
pub(crate) fn has_room<E: Entry>(entries: &[E], entry: &E, widest: usize) -> bool
    requires wide { IsWide E.bytes widest (entry.now ∷ entries.now) }
    ensures { result ≡ within E.bytes E.MOST (entry.now ∷ entries.now) }
{
    if entries.is_empty() {
        return true;
    }
    if entries.len() >= E::MOST {
        return false;
    }
    are_light(entries.len(), widest) || is_light_with(entries, entry)
}

/// Whether so many entries and one more have no more than the bytes of a chunk, even if each is as wide as the widest.
fn are_light(len: usize, widest: usize) -> bool
    ensures { OnTrue result ((len + 1) * widest ≤ 4096) }
{
    if len >= BYTES {
        return false;
    }
    match widest.checked_mul(len + 1) {
        Some(most) => most <= BYTES,
        None => false,
    }
}

// Whether the entries and this one have no more than the bytes of a chunk.
fn is_light_with<E: Entry>(entries: &[E], entry: &E) -> bool
    ensures { result ≡ nat_le (sum_by E.bytes (entry.now ∷ entries.now)) 4096 }
{
    match BYTES.checked_sub(entry.len()) {
        Some(room) => is_light(entries, room),
        None => false,
    }
}

// Whether the entries have no more than so many bytes.
fn is_light<E: Entry>(entries: &[E], room: usize) -> bool
    ensures { result ≡ nat_le (sum_by E.bytes entries.now) room }
{
    room_behind(entries, room).is_some()
}

/// What is left of so many bytes behind those of the entries.
fn room_behind<E: Entry>(entries: &[E], room: usize) -> Option<usize>
    ensures left { IfSome result (λ left. sum_by E.bytes entries.now + left ≡ room) }
    ensures none { IfNone result (room < sum_by E.bytes entries.now) }
{
    let mut left = room;
    for entry in entries {
        left = left.checked_sub(entry.len())?;
    }
    Some(left)
}

/// Whether all these entries are at most half of a chunk that a change makes.
pub(crate) fn is_small<E: Entry>(first: &[E], second: &[E]) -> bool
    requires first { length first.now ≤ 512 }
    requires second { length second.now ≤ 512 }
    ensures { result ≡ small E.bytes E.MOST (first.now ++ second.now) }
{
    if 2 * (first.len() + second.len()) > E::MOST {
        return false;
    }
    match room_behind(first, BYTES / 2) {
        Some(room) => is_light(second, room),
        None => false,
    }
}

/// A new chunk of these entries.
pub(crate) fn made<E>(items: Vec<E>) -> Piece<E>
    ensures { result ≡ made_of items }
{
    Piece {
        part: Part {
            len: items.len(),
            items,
            number: None,
            changed: true,
        },
        was: Was::Nothing,
    }
}

/// The same entries once more, with room for a whole chunk.
pub(crate) fn copies<E: Entry>(alloc: Global, entries: &[E]) -> Result<Vec<E>, AllocError>
    requires { length entries.now ≤ 512 }
    ensures { IfOk result (λ v. v.items ≡ entries.now) }
{
    let mut copies = Vec::with_capacity(alloc, E::MOST.max(entries.len() + 1))?;
    for entry in entries {
        copies.push(entry.copy(alloc)?)?;
    }
    Ok(copies)
}

/// Cuts the entries into halves until each is within the bound.
pub(crate) fn cut<E: Entry>(mut entries: Vec<E>, out: &mut Vec<Piece<E>>) -> Result<(), AllocError>
    requires { 1 ≤ length entries.items }
    ensures { OnOk result (IsCutInto E.bytes E.MOST entries.items out.old.items out.new.items) }
{
    if is_within(&entries) {
        out.push(made(entries))?;
        return Ok(());
    }
    let rest = entries.split_off(entries.len() / 2)?;
    cut(entries, out)?;
    cut(rest, out)?;
    Ok(())
}
