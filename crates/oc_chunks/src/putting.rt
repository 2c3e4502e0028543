//! An entry in place of the one that is equal to it.

ghost use Rattle.std.specs.Prelude.{◌≡◌, ◌≤◌, ◌<◌, ◌-◌, ◌∷◌, flat_map, length, IfOk, OnOk, OnErr};
ghost use Rattle.oc_chunks.specs.Adding.{IsCutOver};
ghost use Rattle.oc_chunks.specs.Chunks.{joined, Puts};
ghost use Rattle.oc_chunks.specs.Cutting.{IsWide};
ghost use Rattle.oc_chunks.specs.Pieces.{IsSound, chunks_now, view};
ghost use Rattle.oc_chunks.specs.Removing.{IsHere};

use crate::adding::{self, place_of, push_alone};
use crate::cutting::{copies, cut};
use crate::editing::put_pieces;
use crate::entry::Entry;
use crate::piece::{Part, Piece, entries};
use crate::search::Found;
use std::alloc::{AllocError, Global};

/// Puts the entry at its place, in place of the one that is equal to it if there is one. No entry takes more
/// bytes than the widest.
pub(crate) fn put<E: Entry>(
    alloc: Global,
    pieces: &mut Vec<Piece<E>>,
    widest: usize,
    entry: E,
) -> Result<(), AllocError>
    requires sound { IsSound E.order pieces.old.items }
    requires wide { IsWide E.bytes widest (entry ∷ joined (flat_map chunks_now pieces.old.items)) }
    ensures sound { IsSound E.order pieces.new.items }
    ensures ok { OnOk result (Puts E.order E.bytes E.MOST entry (view E.order pieces.old.items) (view E.order pieces.new.items)) }
    ensures err { OnErr result (view E.order pieces.new.items ≡ view E.order pieces.old.items) }
{
    if pieces.is_empty() {
        return push_alone(alloc, pieces, entry);
    }
    match place_of(pieces, &entry) {
        Ok(found) => put_over(alloc, pieces, found, entry),
        Err(gap) => adding::put(alloc, pieces, widest, gap, entry),
    }
}

/// Puts the entry in place of the found one.
fn put_over<E: Entry>(
    alloc: Global,
    pieces: &mut Vec<Piece<E>>,
    found: Found,
    entry: E,
) -> Result<(), AllocError>
    requires sound { IsSound E.order pieces.old.items }
    requires here { IsHere (λ e. E.order e entry) pieces.old.items found.piece found.at }
    ensures sound { IsSound E.order pieces.new.items }
    ensures ok { OnOk result (Puts E.order E.bytes E.MOST entry (view E.order pieces.old.items) (view E.order pieces.new.items)) }
    ensures err { OnErr result (view E.order pieces.new.items ≡ view E.order pieces.old.items) }
{
    let made = cut_over(alloc, &pieces[found.piece].part, found.at, entry)?;
    put_pieces(pieces, found.piece, made)?;
    Ok(())
}

// The part's entries with this one in place of that before the place, cut into new pieces.
fn cut_over<E: Entry>(
    alloc: Global,
    part: &Part<E>,
    at: usize,
    entry: E,
) -> Result<Vec<Piece<E>>, AllocError>
    requires within { part.now.len ≤ length part.now.items.items }
    requires few { part.now.len ≤ 512 }
    requires some { 1 ≤ at }
    requires there { at ≤ part.now.len }
    ensures { IfOk result (λ made. IsCutOver E.bytes E.MOST at entry part.now made.items) }
{
    let mut items = copies(alloc, entries(part))?;
    items[at - 1] = entry;
    let mut made = Vec::new(alloc);
    cut(items, &mut made)?;
    Ok(made)
}
