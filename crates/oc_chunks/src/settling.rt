//! The mark: the pieces as they are become what is kept, or what was kept comes back.

ghost use Rattle.std.specs.Prelude.{◌≡◌, ◌≤◌, ◌<◌, [], false, length, slice_index_or, flat_map};
ghost use Rattle.std.specs.Bool.{OnTrue};
ghost use Rattle.oc_model.specs.Lists.{placed};
ghost use Rattle.oc_chunks.specs.Ascending.{Each, IsAscending};
ghost use Rattle.oc_chunks.specs.Chunks.{joined};
ghost use Rattle.oc_chunks.specs.Editing.{put_in};
ghost use Rattle.oc_chunks.specs.Pieces.{IsSound, IsSized, IsSizedPart, chunks_now, chunks_then, gone, present, restored};
ghost use Rattle.oc_chunks.specs.Settling.{IsSettled, IsKept, IsPutBack, IsRestored, kept_chunks};

use crate::entry::Entry;
use crate::piece::{Part, Piece, Was, entries};
use std::mem;

/// What is kept of each piece.
#[derive(Clone, Copy)]
pub(crate) enum Keep {
    /// What it is.
    Now,
    /// What it was at the mark.
    Then,
}

/// Keeps one side of each piece, and lets the other go. It takes no memory.
pub(crate) fn settle<E: Entry>(pieces: &mut Vec<Piece<E>>, keep: Keep)
    requires { IsSound E.order pieces.old.items }
    ensures sound { IsSound E.order pieces.new.items }
    ensures settled { Each IsSettled pieces.new.items }
    ensures chunks { flat_map chunks_now pieces.new.items ≡ flat_map (kept_chunks E.order keep) pieces.old.items }
    ensures marked { flat_map (chunks_then E.order) pieces.new.items ≡ flat_map (kept_chunks E.order keep) pieces.old.items }
{
    let mut kept = 0;
    for at in 0..pieces.len() {
        if settle_one(&mut pieces[at], keep) {
            pieces.swap(kept, at);
            kept += 1;
        }
    }
    pieces.truncate(kept);
}

// Whether something of the piece is kept.
fn settle_one<E: Entry>(piece: &mut Piece<E>, keep: Keep) -> bool
    requires sized { IsSized piece.old }
    requires ascending { IsAscending E.order (joined (chunks_then E.order piece.old)) }
    ensures kept { OnTrue result (IsKept (kept_chunks E.order keep piece.old) piece.new) }
    ensures gone { result ≡ false → kept_chunks E.order keep piece.old ≡ [] }
{
    match keep {
        Keep::Now => keep_now(piece),
        Keep::Then => keep_then(piece),
    }
}

fn keep_now<E: Entry>(piece: &mut Piece<E>) -> bool
    requires { IsSized piece.old }
    ensures kept { OnTrue result (IsKept (chunks_now piece.old) piece.new) }
    ensures gone { result ≡ false → chunks_now piece.old ≡ [] }
{
    if piece.part.len == 0 {
        return false;
    }
    piece.part.changed = piece.part.changed || piece.part.len < piece.part.items.len();
    piece.part.items.truncate(piece.part.len);
    piece.was = Was::Itself;
    true
}

fn keep_then<E: Entry>(piece: &mut Piece<E>) -> bool
    requires sized { IsSized piece.old }
    requires ascending { IsAscending E.order (joined (chunks_then E.order piece.old)) }
    ensures kept { OnTrue result (IsKept (chunks_then E.order piece.old) piece.new) }
    ensures gone { result ≡ false → chunks_then E.order piece.old ≡ [] }
{
    match mem::replace(&mut piece.was, Was::Itself) {
        Was::Itself => {}
        Was::Nothing => return false,
        Was::Other(old) => piece.part = old,
    }
    restore(&mut piece.part);
    true
}

// Puts what went back to its place.
fn restore<E: Entry>(part: &mut Part<E>)
    requires sized { IsSizedPart part.old }
    requires ascending { IsAscending E.order (restored E.order (present part.old) (gone part.old)) }
    ensures { IsRestored E.order part.old part.new }
{
    while part.len < part.items.len() {
        put_back(part);
    }
}

// Puts the latest that went back to its place.
fn put_back<E: Entry>(part: &mut Part<E>)
    requires within { part.old.len < length part.old.items.items }
    requires ascending { IsAscending E.order (present part.old) }
    ensures back { IsPutBack E.order part.old part.new }
{
    let len = part.len;
    let at = place_behind(part);
    part.items[at..len + 1].rotate_right(1);
    part.len = len + 1;
}

// Where the latest that went goes among the entries that are there.
fn place_behind<E: Entry>(part: &Part<E>) -> usize
    requires within { part.now.len < length part.now.items.items }
    requires ascending { IsAscending E.order (present part.now) }
    ensures within { result ≤ part.now.len }
    ensures placed { (d : E) → placed E.order (slice_index_or part.now.items.items part.now.len d) (present part.now) ≡ put_in result (slice_index_or part.now.items.items part.now.len d) (present part.now) }
{
    gap_for(entries(part), &part.items[part.len])
}

// Where the entry goes among these.
fn gap_for<E: Entry>(entries: &[E], entry: &E) -> usize
    requires { IsAscending E.order entries.now }
    ensures within { result ≤ length entries.now }
    ensures placed { placed E.order entry.now entries.now ≡ put_in result entry.now entries.now }
{
    entries.partition_point(|other| other.compare(entry).is_lt())
}

/// Whether each piece is as it was at the mark, with nothing gone.
pub(crate) fn are_settled<E: Drop>(pieces: &[Piece<E>]) -> bool
    requires { Each IsSized pieces.now }
    ensures { OnTrue result (Each IsSettled pieces.now) }
{
    for piece in pieces {
        if !is_settled(piece) {
            return false;
        }
    }
    true
}

// Whether the piece is as it was at the mark, with nothing gone.
fn is_settled<E: Drop>(piece: &Piece<E>) -> bool
    requires { IsSized piece.now }
    ensures { OnTrue result (IsSettled piece.now) }
{
    match &piece.was {
        Was::Itself => piece.part.len > 0 && piece.part.len == piece.part.items.len(),
        _ => false,
    }
}
