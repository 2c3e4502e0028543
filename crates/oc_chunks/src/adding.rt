//! An entry more in the pieces.

ghost use Rattle.std.specs.Prelude.{◌≡◌, ◌≤◌, ◌∷◌, ◌+◌, ◌==◌, true, length, flat_map, IfOk, IfErr, OnOk, OnErr};
ghost use Rattle.std.specs.declared.cmp.Ordering.TheVariants.{Less};
ghost use Rattle.oc_chunks.specs.Ascending.{Each, has};
ghost use Rattle.oc_chunks.specs.Chunks.{joined, Adds};
ghost use Rattle.oc_chunks.specs.Cutting.{IsWide};
ghost use Rattle.oc_chunks.specs.Pieces.{IsSound, chunks_now, present, shown, view};
ghost use Rattle.oc_chunks.specs.Adding.{Gap, IsWithinWay, Fits, IsCutOf};
ghost use Rattle.oc_chunks.specs.Removing.{IsHere};
ghost use Rattle.oc_chunks.specs.declared.adding.Way.TheVariants as way_of;

use crate::cutting::{copies, cut, has_room, made};
use crate::editing::{enter, put_pieces};
use crate::entry::{At, Entry};
use crate::piece::{Part, Piece, Was, entries};
use crate::search::{Found, is_there, locate};
use std::alloc::{AllocError, Global};

/// How an entry goes into its place.
enum Way {
    /// Into a new chunk behind all others.
    Behind,
    /// Among the entries of a chunk that was made since the mark.
    Within,
    /// Into chunks that are made of a chunk's entries.
    Anew,
}

/// Puts the entry at its place, if none is equal to it. No entry takes more bytes than the widest.
pub(crate) fn add<E: Entry>(
    alloc: Global,
    pieces: &mut Vec<Piece<E>>,
    widest: usize,
    entry: E,
) -> Result<(), AllocError>
    requires sound { IsSound E.order pieces.old.items }
    requires wide { IsWide E.bytes widest (entry ∷ joined (flat_map chunks_now pieces.old.items)) }
    ensures sound { IsSound E.order pieces.new.items }
    ensures ok { OnOk result (Adds E.order E.bytes E.MOST entry (view E.order pieces.old.items) (view E.order pieces.new.items)) }
    ensures err { OnErr result (view E.order pieces.new.items ≡ view E.order pieces.old.items) }
{
    if pieces.is_empty() {
        return push_alone(alloc, pieces, entry);
    }
    match place_of(pieces, &entry) {
        Ok(_) => Ok(()),
        Err(gap) => put(alloc, pieces, widest, gap, entry),
    }
}

/// Where an entry is that is equal to this one, or the gap for it.
pub(crate) fn place_of<E: Entry>(pieces: &[Piece<E>], entry: &E) -> Result<Found, Found>
    requires sound { IsSound E.order pieces.now }
    requires some { 1 ≤ length pieces.now }
    ensures there { IfOk result (λ _. has E.order entry.now (joined (flat_map chunks_now pieces.now)) ≡ true) }
    ensures here { IfOk result (λ f. IsHere (λ e. E.order e entry.now) pieces.now f.piece f.at) }
    ensures gap { IfErr result (λ f. Gap E.order entry.now pieces.now f.piece f.at) }
{
    let cut = At { entry };
    let found = locate(pieces, &cut);
    if is_there(&pieces[found.piece].part, found.at, &cut) {
        Ok(found)
    } else {
        Err(found)
    }
}

/// Puts the entry into the gap for it. No entry takes more bytes than the widest.
pub(crate) fn put<E: Entry>(
    alloc: Global,
    pieces: &mut Vec<Piece<E>>,
    widest: usize,
    gap: Found,
    entry: E,
) -> Result<(), AllocError>
    requires sound { IsSound E.order pieces.old.items }
    requires wide { IsWide E.bytes widest (entry ∷ joined (flat_map chunks_now pieces.old.items)) }
    requires gap { Gap E.order entry pieces.old.items gap.piece gap.at }
    ensures sound { IsSound E.order pieces.new.items }
    ensures ok { OnOk result (Adds E.order E.bytes E.MOST entry (view E.order pieces.old.items) (view E.order pieces.new.items)) }
    ensures err { OnErr result (view E.order pieces.new.items ≡ view E.order pieces.old.items) }
{
    let is_last = gap.piece + 1 == pieces.len();
    match way_into(&pieces[gap.piece], gap.at, is_last, &entry, widest) {
        Way::Behind => push_alone(alloc, pieces, entry),
        Way::Within => put_within(pieces, gap, entry),
        Way::Anew => put_anew(alloc, pieces, gap, entry),
    }
}

fn way_into<E: Entry>(piece: &Piece<E>, at: usize, is_last: bool, entry: &E, widest: usize) -> Way
    requires within { piece.now.part.len ≤ length piece.now.part.items.items }
    requires wide { IsWide E.bytes widest (entry.now ∷ present piece.now.part) }
    ensures behind { result ≡ way_of.Behind → (is_last ≡ true) × (at ≡ piece.now.part.len) × (1 ≤ at) }
    ensures within { result ≡ way_of.Within → IsWithinWay E.bytes E.MOST entry.now piece.now }
{
    if !has_room(entries(&piece.part), entry, widest) {
        if is_last && at == piece.part.len && at > 0 {
            return Way::Behind;
        }
        return Way::Anew;
    }
    match piece.was {
        Was::Nothing | Was::Other(_) if piece.part.len > 0 => Way::Within,
        _ => Way::Anew,
    }
}

/// Puts the entry into a chunk of its own, behind all others.
pub(crate) fn push_alone<E: Entry>(
    alloc: Global,
    pieces: &mut Vec<Piece<E>>,
    entry: E,
) -> Result<(), AllocError>
    requires sound { IsSound E.order pieces.old.items }
    requires last { Each (λ e. E.order e entry ≡ Less) (flat_map shown pieces.old.items) }
    ensures sound { IsSound E.order pieces.new.items }
    ensures ok { OnOk result (Adds E.order E.bytes E.MOST entry (view E.order pieces.old.items) (view E.order pieces.new.items)) }
    ensures err { OnErr result (view E.order pieces.new.items ≡ view E.order pieces.old.items) }
{
    let mut items = Vec::new(alloc);
    items.push(entry)?;
    pieces.push(made(items))?;
    Ok(())
}

fn put_within<E: Entry>(pieces: &mut Vec<Piece<E>>, gap: Found, entry: E) -> Result<(), AllocError>
    requires sound { IsSound E.order pieces.old.items }
    requires fits { Fits E.order E.bytes E.MOST entry pieces.old.items gap.piece gap.at }
    ensures sound { IsSound E.order pieces.new.items }
    ensures ok { OnOk result (Adds E.order E.bytes E.MOST entry (view E.order pieces.old.items) (view E.order pieces.new.items)) }
    ensures err { OnErr result (view E.order pieces.new.items ≡ view E.order pieces.old.items) }
{
    let piece = &mut pieces[gap.piece];
    enter(&mut piece.part, gap.at, entry)?;
    Ok(())
}

fn put_anew<E: Entry>(
    alloc: Global,
    pieces: &mut Vec<Piece<E>>,
    gap: Found,
    entry: E,
) -> Result<(), AllocError>
    requires sound { IsSound E.order pieces.old.items }
    requires gap { Gap E.order entry pieces.old.items gap.piece gap.at }
    ensures sound { IsSound E.order pieces.new.items }
    ensures ok { OnOk result (Adds E.order E.bytes E.MOST entry (view E.order pieces.old.items) (view E.order pieces.new.items)) }
    ensures err { OnErr result (view E.order pieces.new.items ≡ view E.order pieces.old.items) }
{
    let made = cut_with(alloc, &pieces[gap.piece].part, gap.at, entry)?;
    put_pieces(pieces, gap.piece, made)?;
    Ok(())
}

// The part's entries with one more, cut into new pieces.
fn cut_with<E: Entry>(
    alloc: Global,
    part: &Part<E>,
    at: usize,
    entry: E,
) -> Result<Vec<Piece<E>>, AllocError>
    requires within { part.now.len ≤ length part.now.items.items }
    requires few { part.now.len ≤ 512 }
    requires there { at ≤ part.now.len }
    ensures { IfOk result (λ made. IsCutOf E.bytes E.MOST at entry part.now made.items) }
{
    let mut items = copies(alloc, entries(part))?;
    items.insert(at, entry)?;
    let mut made = Vec::new(alloc);
    cut(items, &mut made)?;
    Ok(made)
}
