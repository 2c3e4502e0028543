//! Look-ups: the entry at a place, and what lies between two places.

ghost use Rattle.std.specs.Prelude.{◌≡◌, ◌+◌, ◌^◌, ◌-◌, ◌++◌, ◌<◌, ◌≤◌, min, length, filter, flat_map, IfOk};
ghost use Rattle.std.specs.Option.{option_map};
ghost use Rattle.std.specs.List.{find as find_in};
ghost use Rattle.oc_chunks.specs.Ascending.{Each, IsAscending};
ghost use Rattle.oc_chunks.specs.Between.{is_at, is_past, is_between, entries_in};
ghost use Rattle.oc_chunks.specs.Pieces.{IsSound, IsSized, is_upto, shown};

use crate::entry::{Cut, Entry};
use crate::piece::{Piece, entries};
use crate::search::{is_not_behind, is_there, locate};
use std::alloc::{AllocError, Global};

/// The entry at the place.
pub(crate) fn find<'a, E: Entry, C: Cut<E>>(pieces: &'a [Piece<E>], cut: &C) -> Option<&'a E>
    requires { IsSound E.order pieces.now }
    ensures { option_map (λ e. e.now) result ≡ find_in (is_at (C.side cut.now)) (entries_in pieces.now) }
{
    if pieces.is_empty() {
        return None;
    }
    let found = locate(pieces, cut);
    let part = &pieces[found.piece].part;
    if !is_there(part, found.at, cut) {
        return None;
    }
    Some(&entries(part)[found.at - 1])
}

/// A stretch of the list: entries of a piece, those of whole pieces, and entries of one piece more.
#[derive(Drop)]
pub(crate) struct Span<'a, E> {
    first: &'a [E],
    pieces: &'a [Piece<E>],
    last: &'a [E],
}

/// What lies behind the low place, and not behind the high one.
pub(crate) fn span_between<'a, E: Entry, C: Cut<E>>(
    pieces: &'a [Piece<E>],
    low: &C,
    high: &C,
) -> Span<'a, E>
    requires { IsSound E.order pieces.now }
    ensures entries { result.first.now ++ (entries_in result.pieces.now ++ result.last.now) ≡ filter (is_between (C.side low.now) (C.side high.now)) (entries_in pieces.now) }
    ensures sized { Each IsSized result.pieces.now }
{
    let back = back_behind(pieces, low);
    let front = front_upto(back.pieces, high);
    Span {
        first: upto(back.first, high),
        pieces: front.pieces,
        last: front.last,
    }
}

/// The entries that aren't behind the place.
fn upto<'a, E: Entry, C: Cut<E>>(entries: &'a [E], cut: &C) -> &'a [E]
    requires { IsAscending E.order entries.now }
    ensures { result.now ≡ filter (is_upto (C.side cut.now)) entries.now }
{
    let at = entries.partition_point(|entry| is_not_behind(entry, cut));
    &entries[..at]
}

/// The front of a list: whole pieces, and entries of the piece behind them.
#[derive(Drop)]
struct Front<'a, E> {
    pieces: &'a [Piece<E>],
    last: &'a [E],
}

/// What isn't behind the place.
fn front_upto<'a, E: Entry, C: Cut<E>>(pieces: &'a [Piece<E>], cut: &C) -> Front<'a, E>
    requires sized { Each IsSized pieces.now }
    requires ascending { IsAscending E.order (flat_map shown pieces.now) }
    ensures entries { entries_in result.pieces.now ++ result.last.now ≡ filter (is_upto (C.side cut.now)) (entries_in pieces.now) }
    ensures sized { Each IsSized result.pieces.now }
{
    if pieces.is_empty() {
        return Front { pieces, last: &[] };
    }
    let found = locate(pieces, cut);
    Front {
        pieces: &pieces[..found.piece],
        last: &entries(&pieces[found.piece].part)[..found.at],
    }
}

/// The back of a list: entries of a piece, and the whole pieces behind it.
#[derive(Drop)]
struct Back<'a, E> {
    first: &'a [E],
    pieces: &'a [Piece<E>],
}

/// What is behind the place.
fn back_behind<'a, E: Entry, C: Cut<E>>(pieces: &'a [Piece<E>], cut: &C) -> Back<'a, E>
    requires sized { Each IsSized pieces.now }
    requires ascending { IsAscending E.order (flat_map shown pieces.now) }
    ensures entries { result.first.now ++ entries_in result.pieces.now ≡ filter (is_past (C.side cut.now)) (entries_in pieces.now) }
    ensures first { IsAscending E.order result.first.now }
    ensures sized { Each IsSized result.pieces.now }
    ensures ascending { IsAscending E.order (flat_map shown result.pieces.now) }
{
    if pieces.is_empty() {
        return Back { first: &[], pieces };
    }
    let found = locate(pieces, cut);
    Back {
        first: &entries(&pieces[found.piece].part)[found.at..],
        pieces: &pieces[found.piece + 1..],
    }
}

/// How many entries there are, at most 2^64 - 1.
pub(crate) fn len_of<E: Entry>(span: &Span<E>) -> u64
    requires { Each IsSized span.now.pieces.now }
    ensures { result ≡ min (length (span.now.first.now ++ (entries_in span.now.pieces.now ++ span.now.last.now))) (2 ^ 64 - 1) }
{
    let mut len = span.first.len() as u64;
    for piece in span.pieces {
        len = len.saturating_add(piece.part.len as u64);
    }
    len.saturating_add(span.last.len() as u64)
}

/// The entries, a slice of each chunk.
pub(crate) fn slices<'a, E: Entry>(
    alloc: Global,
    span: &Span<'a, E>,
) -> Result<Vec<&'a [E]>, AllocError>
    requires { Each IsSized span.now.pieces.now }
    ensures { IfOk result (λ v. flat_map (λ s. s.now) v.items ≡ span.now.first.now ++ (entries_in span.now.pieces.now ++ span.now.last.now)) }
{
    let mut slices = Vec::with_capacity(alloc, span.pieces.len())?;
    slices.push(span.first)?;
    for piece in span.pieces {
        slices.push(entries(&piece.part))?;
    }
    slices.push(span.last)?;
    Ok(slices)
}
