//! A list of chunks that were read from a file.

ghost use Rattle.std.specs.Prelude.{◌≡◌, ◌≤◌, ◌++◌, ◌∷◌, [], map, length, true, false, IfOk, IfSome, IfNone, OnOk};
ghost use Rattle.std.specs.Bool.{OnTrue, OnFalse};
ghost use Rattle.oc_chunks.specs.Ascending.{Each, IsAscending};
ghost use Rattle.oc_chunks.specs.Between.{entries_in};
ghost use Rattle.oc_chunks.specs.Opening.{chunk_read, piece_read, Follows, IsList, IsOf};
ghost use Rattle.oc_chunks.specs.Settling.{IsSettled};
ghost use Rattle.std.specs.declared.cmp.Ordering.TheVariants.{Less};

use crate::entry::Entry;
use crate::piece::{Part, Piece, Was};
use std::alloc::{AllocError, Global};
use std::mem;

/// A chunk as it was written: its entries, and its number as a segment.
#[derive(Drop)]
pub struct Written<E> {
    pub entries: Vec<E>,
    pub number: u32,
}

/// The pieces of the chunks, if they make a list.
pub(crate) fn pieces_of<E: Entry>(
    alloc: Global,
    mut chunks: Vec<Written<E>>,
) -> Result<Option<Vec<Piece<E>>>, AllocError>
    ensures found { IfOk result (λ r. IfSome r (λ v. IsOf E.order (map chunk_read chunks.items) v.items)) }
    ensures none { IfOk result (λ r. IfNone r (IsList E.order (map chunk_read chunks.items) → ⊥)) }
{
    let mut pieces = Vec::with_capacity(alloc, chunks.len())?;
    for at in 0..chunks.len() {
        let chunk = &mut chunks[at];
        let number = chunk.number;
        let entries = mem::replace(&mut chunk.entries, Vec::new(alloc));
        if !follows(&pieces, entries.as_slice()) {
            return Ok(None);
        }
        pieces.push(piece_read(entries, number))?;
    }
    Ok(Some(pieces))
}

/// The piece of a chunk that was read.
fn piece_read<E>(entries: Vec<E>, number: u32) -> Piece<E>
    ensures { result ≡ piece_read entries number }
{
    Piece {
        part: Part {
            len: entries.len(),
            items: entries,
            number: Some(number),
            changed: false,
        },
        was: Was::Itself,
    }
}

/// Whether a chunk of these entries may follow the pieces.
fn follows<E: Entry>(pieces: &[Piece<E>], entries: &[E]) -> bool
    requires settled { Each IsSettled pieces.now }
    requires ascending { IsAscending E.order (entries_in pieces.now) }
    ensures yes { OnTrue result (Follows E.order (entries_in pieces.now) entries.now) }
    ensures no { OnFalse result (Follows E.order (entries_in pieces.now) entries.now → ⊥) }
{
    if entries.is_empty() || entries.len() > 512 {
        return false;
    }
    if !is_above(pieces, &entries[0]) {
        return false;
    }
    ascends(entries)
}

/// Whether the entry is above all of the pieces.
fn is_above<E: Entry>(pieces: &[Piece<E>], entry: &E) -> bool
    requires settled { Each IsSettled pieces.now }
    requires ascending { IsAscending E.order (entries_in pieces.now) }
    ensures yes { OnTrue result (Each (λ e. E.order e entry.now ≡ Less) (entries_in pieces.now)) }
    ensures no { OnFalse result (Each (λ e. E.order e entry.now ≡ Less) (entries_in pieces.now) → ⊥) }
{
    if pieces.is_empty() {
        return true;
    }
    let items = &pieces[pieces.len() - 1].part.items;
    items[items.len() - 1].compare(entry).is_lt()
}

/// Whether each entry is below the next.
fn ascends<E: Entry>(entries: &[E]) -> bool
    ensures yes { OnTrue result (IsAscending E.order entries.now) }
    ensures no { OnFalse result (IsAscending E.order entries.now → ⊥) }
{
    for at in 1..entries.len() {
        if !entries[at - 1].compare(&entries[at]).is_lt() {
            return false;
        }
    }
    true
}
