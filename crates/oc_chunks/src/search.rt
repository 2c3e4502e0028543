//! Where a place of the order lies in the pieces.

ghost use Rattle.std.specs.Prelude.{◌≡◌, ◌+◌, ◌<◌, ◌≤◌, length, take, drop, flat_map, IfSome, IfNone};
ghost use Rattle.oc_chunks.specs.Ascending.{Each, IsAscending};
ghost use Rattle.oc_chunks.specs.Pieces.{begins, is_upto, last_is, present, shown, IsBegun, IsLater, IsSized, Place};

use crate::entry::{Cut, Entry};
use crate::piece::{Part, Piece, entries};

/// A piece, and a place among its entries.
#[derive(Clone, Copy)]
pub(crate) struct Found {
    pub(crate) piece: usize,
    pub(crate) at: usize,
}

/// Where the place lies: behind the last entry that is not behind it.
pub(crate) fn locate<E: Entry, C: Cut<E>>(pieces: &[Piece<E>], cut: &C) -> Found
    requires some { 0 < length pieces.now }
    requires sized { Each IsSized pieces.now }
    requires ascending { IsAscending E.order (flat_map shown pieces.now) }
    ensures { Place (C.side cut.now) pieces.now result.piece result.at }
{
    let piece = len_begun(pieces, 0, pieces.len(), cut).saturating_sub(1);
    let at = entries(&pieces[piece].part).partition_point(|entry| is_not_behind(entry, cut));
    Found { piece, at }
}

/// How many pieces lie up to the last that begins no later than the place. That one lies from the low place on and before
/// the high one, or just before the low one.
fn len_begun<E: Entry, C: Cut<E>>(pieces: &[Piece<E>], low: usize, high: usize, cut: &C) -> usize
    requires order { low ≤ high }
    requires within { high ≤ length pieces.now }
    requires ascending { IsAscending E.order (flat_map shown pieces.now) }
    requires begun { IsBegun (C.side cut.now) pieces.now low }
    requires later { Each (IsLater (C.side cut.now)) (drop high pieces.now) }
    ensures within { result ≤ length pieces.now }
    ensures begun { IsBegun (C.side cut.now) pieces.now result }
    ensures later { Each (IsLater (C.side cut.now)) (drop result pieces.now) }
{
    if low == high {
        return low;
    }
    let middle = low + (high - low) / 2;
    match first_begun(pieces, middle, high, cut) {
        Some(at) => len_begun(pieces, at + 1, high, cut),
        None => len_begun(pieces, low, middle, cut),
    }
}

/// The first piece with an entry, there or gone, from the one place on and before the other, if it begins no later than the
/// cut's place.
fn first_begun<E: Entry, C: Cut<E>>(
    pieces: &[Piece<E>],
    from: usize,
    to: usize,
    cut: &C,
) -> Option<usize>
    requires order { from ≤ to }
    requires within { to ≤ length pieces.now }
    requires ascending { IsAscending E.order (flat_map shown pieces.now) }
    requires later { Each (IsLater (C.side cut.now)) (drop to pieces.now) }
    ensures from { IfSome result (λ at. from ≤ at) }
    ensures to { IfSome result (λ at. at < to) }
    ensures begun { IfSome result (λ at. IsBegun (C.side cut.now) pieces.now (at + 1)) }
    ensures later { IfNone result (Each (IsLater (C.side cut.now)) (drop from pieces.now)) }
{
    for at in from..to {
        let piece = &pieces[at];
        if begins_upto(piece, cut) {
            return Some(at);
        }
        if !piece.part.items.is_empty() {
            return None;
        }
    }
    None
}

/// Whether the last of the entries before the found one is the entry at the place.
pub(crate) fn is_there<E: Entry, C: Cut<E>>(part: &Part<E>, at: usize, cut: &C) -> bool
    requires within { part.now.len ≤ length part.now.items.items }
    requires there { at ≤ part.now.len }
    ensures { result ≡ last_is (C.side cut.now) (take at (present part.now)) }
{
    if at == 0 {
        return false;
    }
    cut.side(&entries(part)[at - 1]).is_eq()
}

fn begins_upto<E: Entry, C: Cut<E>>(piece: &Piece<E>, cut: &C) -> bool
    ensures { result ≡ begins (C.side cut.now) piece.now }
{
    match piece.part.items.first() {
        Some(entry) => is_not_behind(entry, cut),
        None => false,
    }
}

pub(crate) fn is_not_behind<E: Entry, C: Cut<E>>(entry: &E, cut: &C) -> bool
    ensures { result ≡ is_upto (C.side cut.now) entry.now }
{
    !cut.side(entry).is_gt()
}
