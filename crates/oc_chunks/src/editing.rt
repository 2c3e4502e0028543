//! Changes of the pieces.

ghost use Rattle.std.specs.Prelude.{◌≡◌, ◌≤◌, ◌<◌, ◌+◌, ◌++◌, ◌∷◌, [], max, nat_le, take, drop, length, slice_get, Some, OnOk, OnErr};
ghost use Rattle.oc_chunks.specs.Pieces.{present};
ghost use Rattle.oc_chunks.specs.Cutting.{IsMade};
ghost use Rattle.oc_chunks.specs.Editing.{stands_in, put_in, StandsFor};

use crate::piece::{Part, Piece, Was};
use std::alloc::AllocError;
use std::mem;

/// Puts the new part in place of the piece, which keeps what it was at the mark. The number stays where the piece had an entry.
pub(crate) fn stand_in<E: Drop>(piece: &mut Piece<E>, part: Part<E>)
    ensures { piece.new ≡ stands_in piece.old part }
{
    let number = if piece.part.len == 0 {
        None
    } else {
        piece.part.number
    };
    let Part {
        items,
        len,
        number: _,
        changed,
    } = part;
    let new = Part {
        items,
        len,
        number,
        changed,
    };
    let old = mem::replace(&mut piece.part, new);
    if let Was::Itself = piece.was {
        piece.was = Was::Other(old);
    }
}

/// Puts the new pieces in place of the one at this place.
pub(crate) fn put_pieces<E: Drop>(
    pieces: &mut Vec<Piece<E>>,
    at: usize,
    mut made: Vec<Piece<E>>,
) -> Result<(), AllocError>
    requires within { at < length pieces.old.items }
    requires some { 1 ≤ length made.items }
    ensures ok { OnOk result (StandsFor pieces.old.items at made.items pieces.new.items) }
    ensures err { OnErr result (pieces.new.items ≡ pieces.old.items) }
{
    let first = made.remove(0);
    let more = made.len();
    pieces.append(&mut made)?;
    pieces[at + 1..].rotate_right(more);
    stand_in(&mut pieces[at], first.part);
    Ok(())
}

/// Puts an entry among those that are there.
pub(crate) fn enter<E: Drop>(part: &mut Part<E>, at: usize, entry: E) -> Result<(), AllocError>
    requires within { part.old.len ≤ length part.old.items.items }
    requires there { at ≤ part.old.len }
    ensures ok { OnOk result (part.new.items.items ≡ put_in at entry (present part.old)) }
    ensures len { OnOk result (part.new.len ≡ part.old.len + 1) }
    ensures number { part.new.number ≡ part.old.number }
    ensures changed { part.new.changed ≡ part.old.changed }
    ensures err { OnErr result ((part.new.items.items ≡ part.old.items.items) × (part.new.len ≡ part.old.len)) }
{
    part.items.insert(at, entry)?;
    part.len += 1;
    part.items.truncate(part.len);
    Ok(())
}
