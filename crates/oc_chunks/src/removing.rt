//! An entry fewer in the pieces.

ghost use Rattle.std.specs.Prelude.{◌≡◌, ◌≤◌, ◌<◌, ◌+◌, true, flat_map, length};
ghost use Rattle.std.specs.List.{list_any};
ghost use Rattle.std.specs.Ordering.{is_eq};
ghost use Rattle.oc_chunks.specs.Chunks.{joined, left};
ghost use Rattle.oc_chunks.specs.Removing.{moved, kept_behind, IsHere};
ghost use Rattle.oc_chunks.specs.Pieces.{IsSound, chunks_now, chunks_then};

use crate::entry::{Cut, Entry};
use crate::piece::{Piece, Was, entries, take_out};
use crate::search::{Found, is_there, locate};

/// Takes the entry at the place out, if there is one. It takes no memory.
pub(crate) fn remove<E: Entry, C: Cut<E>>(pieces: &mut Vec<Piece<E>>, cut: &C) -> bool
    requires { IsSound E.order pieces.old.items }
    ensures sound { IsSound E.order pieces.new.items }
    ensures there { result ≡ list_any (λ e. is_eq (C.side cut.now e)) (joined (flat_map chunks_now pieces.old.items)) }
    ensures chunks { flat_map chunks_now pieces.new.items ≡ flat_map (left (λ e. is_eq (C.side cut.now e))) (flat_map chunks_now pieces.old.items) }
    ensures marked { flat_map (chunks_then E.order) pieces.new.items ≡ flat_map (chunks_then E.order) pieces.old.items }
{
    if pieces.is_empty() {
        return false;
    }
    let found = locate(pieces, cut);
    if !is_there(&pieces[found.piece].part, found.at, cut) {
        return false;
    }
    leave_at(pieces, found, cut);
    true
}

/// Moves an entry of the piece behind those that are there. A new piece lets it go, unless it was the last.
fn leave<E: Drop>(piece: &mut Piece<E>, at: usize)
    requires within { piece.old.part.len ≤ length piece.old.part.items.items }
    requires there { at < piece.old.part.len }
    ensures items { piece.new.part.items.items ≡ kept_behind piece.old.was piece.new.part.len (moved at piece.old.part) }
    ensures len { piece.new.part.len + 1 ≡ piece.old.part.len }
    ensures number { piece.new.part.number ≡ piece.old.part.number }
    ensures changed { piece.new.part.changed ≡ piece.old.part.changed }
    ensures was { piece.new.was ≡ piece.old.was }
{
    take_out(&mut piece.part, at);
    match piece.was {
        Was::Itself => {}
        Was::Nothing | Was::Other(_) => piece.part.items.truncate(piece.part.len.max(1)),
    }
}

// Takes the found entry out.
fn leave_at<E: Entry, C: Cut<E>>(pieces: &mut Vec<Piece<E>>, found: Found, cut: &C)
    requires sound { IsSound E.order pieces.old.items }
    requires here { IsHere (C.side cut.now) pieces.old.items found.piece found.at }
    ensures sound { IsSound E.order pieces.new.items }
    ensures there { list_any (λ e. is_eq (C.side cut.now e)) (joined (flat_map chunks_now pieces.old.items)) ≡ true }
    ensures chunks { flat_map chunks_now pieces.new.items ≡ flat_map (left (λ e. is_eq (C.side cut.now e))) (flat_map chunks_now pieces.old.items) }
    ensures marked { flat_map (chunks_then E.order) pieces.new.items ≡ flat_map (chunks_then E.order) pieces.old.items }
{
    leave(&mut pieces[found.piece], found.at - 1);
}
