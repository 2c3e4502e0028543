//! The list in chunks.

ghost use Rattle.std.specs.Prelude.{◌≡◌, ◌^◌, ◌-◌, [], min, length, filter, map, IfOk, IfSome, IfNone, OnOk, OnErr};
ghost use Rattle.std.specs.Bool.{OnTrue};
ghost use Rattle.std.specs.List.{find as find_in, list_any, flat_map};
ghost use Rattle.std.specs.Option.{option_map};
ghost use Rattle.std.specs.Ordering.{is_eq};
ghost use Rattle.oc_chunks.specs.Between.{is_at, is_between};
ghost use Rattle.oc_chunks.specs.Ascending.{entered, replaced, Each, IsAscending};
ghost use Rattle.oc_chunks.specs.Opening.{chunk_read, spare_of, written, IsList};
ghost use Rattle.oc_chunks.specs.Joining.{Joins, NoneSmall};
ghost use Rattle.oc_chunks.specs.Reading.{chunk_of};
ghost use Rattle.oc_chunks.specs.Chunks.{IsCutFrom, IsSizedChunk, joined, left, numbers as numbers_of};

use crate::between::{self, len_of, slices, span_between};
use crate::entry::{Cut, Entry};
use crate::joining::join_small;
use crate::opening::{Written, pieces_of};
use crate::piece::Piece;
use crate::reading::{ChunkView, views};
use crate::settling::{Keep, are_settled, settle};
use crate::widths::widest_of;
use crate::writing::{are_numbered, marked_numbers, set_written};
use crate::{adding, putting, removing};
use std::alloc::{AllocError, Global};
use std::marker::Model;

/// Entries in ascending order, no two equal, in chunks of 1 to 512. It keeps what its chunks were
/// at the last mark: `undo` gives them back.
#[derive(Drop)]
pub struct ChunkList<E: Entry> {
    pieces: Vec<Piece<E>>,
    // No entry has taken more bytes.
    widest: usize,
    // Where true, nothing has changed since the chunks were written.
    is_stored: bool,
}

impl<E: Entry> Model for ChunkList<E> {
    ghost use Rattle.oc_chunks.specs.Chunks.{Chunked, chunked_code};
    ghost use Rattle.oc_chunks.specs.Lists.{IsLawful};
    ghost use Rattle.oc_chunks.specs.Pieces.{view as list_of};

    ghost Value = { Chunked E };

    ghost coded = { chunked_code E.code };

    ghost view = { λ l. list_of E.order l.pieces.items };

    ghost invariant = { λ l. IsLawful E.order E.bytes l.pieces.items l.widest l.is_stored };
}

impl<E: Entry> ChunkList<E> {
    /// No entries, at the mark too.
    pub fn new(alloc: Global) -> ChunkList<E>
        ensures chunks { result.chunks ≡ [] }
        ensures marked { result.marked ≡ [] }
    {
        ChunkList {
            pieces: Vec::new(alloc),
            widest: 0,
            is_stored: true,
        }
    }

    /// The list of these chunks, nothing of which has changed since they were written, or nothing
    /// where they make no list: one has no entry or more than 512, or the entries don't ascend. A
    /// chunk stays as it is until it changes, however large.
    pub fn of(alloc: Global, chunks: Vec<Written<E>>) -> Result<Option<ChunkList<E>>, AllocError>
        ensures chunks { IfOk result (λ r. IfSome r (λ l. l.chunks ≡ map chunk_read chunks.items)) }
        ensures marked { IfOk result (λ r. IfSome r (λ l. l.marked ≡ map chunk_read chunks.items)) }
        ensures none { IfOk result (λ r. IfNone r (IsList E.order (map chunk_read chunks.items) → ⊥)) }
    {
        let widest = widest_of(&chunks);
        match pieces_of(alloc, chunks)? {
            Some(pieces) => Ok(Some(ChunkList {
                pieces,
                widest,
                is_stored: true,
            })),
            None => Ok(None),
        }
    }

    /// The chunks in order. Each has 1 to 512 entries, and no two entries are equal.
    pub fn chunks<'a>(&'a self, alloc: Global) -> Result<Vec<ChunkView<'a, E>>, AllocError>
        ensures chunks { IfOk result (λ v. map chunk_of v.items ≡ self.now.chunks) }
        ensures sized { Each IsSizedChunk self.now.chunks }
        ensures ascending { IsAscending E.order (joined self.now.chunks) }
    {
        views(alloc, self.pieces.as_slice())
    }

    /// Every list is in ascending order, and no two entries are equal.
    pub fn keeps_order(&self)
        ensures { IsAscending E.order (joined self.now.chunks) }
    {
        let _ = &self.pieces;
    }

    /// The entry at the place.
    pub fn find<C: Cut<E>>(&self, cut: &C) -> Option<&E>
        ensures { option_map (λ e. e.now) result ≡ find_in (is_at (C.side cut.now)) (joined self.now.chunks) }
    {
        between::find(self.pieces.as_slice(), cut)
    }

    /// How many entries lie behind the low place and not behind the high one, at most 2^64 - 1. It
    /// searches at both ends, and counts by chunks between them.
    pub fn count<C: Cut<E>>(&self, low: &C, high: &C) -> u64
        ensures { result ≡ min (length (filter (is_between (C.side low.now) (C.side high.now)) (joined self.now.chunks))) (2 ^ 64 - 1) }
    {
        len_of(&span_between(self.pieces.as_slice(), low, high))
    }

    /// The entries behind the low place and not behind the high one, in slices. It searches at both
    /// ends.
    pub fn between<'a, C: Cut<E>>(
        &'a self,
        alloc: Global,
        low: &C,
        high: &C,
    ) -> Result<Vec<&'a [E]>, AllocError>
        ensures { IfOk result (λ v. flat_map (λ s. s.now) v.items ≡ filter (is_between (C.side low.now) (C.side high.now)) (joined self.now.chunks)) }
    {
        slices(alloc, &span_between(self.pieces.as_slice(), low, high))
    }

    /// Puts the entry at its place, if none is equal to it. A chunk that comes to more than the
    /// bound is cut; at the end of the list it stays, and a new one begins.
    pub fn add(&mut self, alloc: Global, entry: E) -> Result<(), AllocError>
        ensures entries { OnOk result (joined self.new.chunks ≡ entered E.order entry (joined self.old.chunks)) }
        ensures numbers { OnOk result (numbers_of self.new.chunks ≡ numbers_of self.old.chunks) }
        ensures chunks { OnOk result (IsCutFrom E.bytes E.MOST self.old.chunks self.new.chunks) }
        ensures marked { OnOk result (self.new.marked ≡ self.old.marked) }
        ensures err { OnErr result (self.new ≡ self.old) }
    {
        let widest = self.widest.max(entry.len());
        self.is_stored = false;
        adding::add(alloc, &mut self.pieces, widest, entry)?;
        self.widest = widest;
        Ok(())
    }

    /// Puts the entry at its place, in place of the one that is equal to it if there is one. The
    /// chunk that gets it has changed, and is cut as by `add`.
    pub fn put(&mut self, alloc: Global, entry: E) -> Result<(), AllocError>
        ensures entries { OnOk result (joined self.new.chunks ≡ replaced E.order entry (joined self.old.chunks)) }
        ensures numbers { OnOk result (numbers_of self.new.chunks ≡ numbers_of self.old.chunks) }
        ensures chunks { OnOk result (IsCutFrom E.bytes E.MOST self.old.chunks self.new.chunks) }
        ensures marked { OnOk result (self.new.marked ≡ self.old.marked) }
        ensures err { OnErr result (self.new ≡ self.old) }
    {
        let widest = self.widest.max(entry.len());
        self.is_stored = false;
        putting::put(alloc, &mut self.pieces, widest, entry)?;
        self.widest = widest;
        Ok(())
    }

    /// Takes the entry at the place out, if there is one. The chunk that had it has changed, and
    /// goes if it is empty. It takes no memory.
    pub fn remove<C: Cut<E>>(&mut self, cut: &C) -> bool
        ensures there { result ≡ list_any (λ e. is_eq (C.side cut.now e)) (joined self.old.chunks) }
        ensures chunks { self.new.chunks ≡ flat_map (left (λ e. is_eq (C.side cut.now e))) self.old.chunks }
        ensures marked { self.new.marked ≡ self.old.marked }
    {
        self.is_stored = false;
        removing::remove(&mut self.pieces, cut)
    }

    /// Joins neighbours of which one has changed and that together have at most half of the bound.
    /// What is joined has the number of the first, and has changed. Without memory some may be
    /// joined and others not yet.
    pub fn join_small(&mut self, alloc: Global) -> Result<(), AllocError>
        ensures entries { joined self.new.chunks ≡ joined self.old.chunks }
        ensures chunks { Joins E.bytes E.MOST self.old.chunks self.new.chunks }
        ensures marked { self.new.marked ≡ self.old.marked }
        ensures none { OnOk result (NoneSmall E.bytes E.MOST self.new.chunks) }
    {
        if self.is_stored {
            return Ok(());
        }
        join_small(alloc, &mut self.pieces)
    }

    /// Whether the list is as it was at the mark. Where a change was made and undone by another since, it may say
    /// that it isn't. It takes no memory.
    pub fn is_marked(&self) -> bool
        ensures { OnTrue result (self.now.marked ≡ self.now.chunks) }
    {
        self.is_stored || are_settled(self.pieces.as_slice())
    }

    /// The list as it is becomes what `undo` gives back. It takes no memory.
    pub fn mark(&mut self)
        ensures chunks { self.new.chunks ≡ self.old.chunks }
        ensures marked { self.new.marked ≡ self.old.chunks }
    {
        if self.is_stored {
            return;
        }
        settle(&mut self.pieces, Keep::Now);
    }

    /// What follows a commit: each chunk is written, and those without a number have got the next
    /// of these. So is the mark. It gives the numbers that are left, and takes no memory.
    pub fn set_written<'a>(&mut self, numbers: &'a [u32]) -> &'a [u32]
        ensures chunks { self.new.chunks ≡ written numbers.now self.old.chunks }
        ensures marked { self.new.marked ≡ self.new.chunks }
        ensures rest { result.now ≡ spare_of numbers.now self.old.chunks }
    {
        if self.is_stored {
            return numbers;
        }
        settle(&mut self.pieces, Keep::Now);
        let rest = set_written(&mut self.pieces, numbers);
        self.is_stored = are_numbered(self.pieces.as_slice());
        rest
    }

    /// The numbers of the chunks as they were at the mark, in order.
    pub fn marked_numbers(&self, alloc: Global) -> Result<Vec<u32>, AllocError>
        ensures { IfOk result (λ v. v.items ≡ numbers_of self.now.marked) }
    {
        marked_numbers(alloc, self.pieces.as_slice())
    }

    /// The chunks as they were at the mark: their bounds, numbers and marks of change. It takes no
    /// memory.
    pub fn undo(&mut self)
        ensures chunks { self.new.chunks ≡ self.old.marked }
        ensures marked { self.new.marked ≡ self.old.marked }
    {
        if self.is_stored {
            return;
        }
        settle(&mut self.pieces, Keep::Then);
    }
}
