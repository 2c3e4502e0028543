//! The list of a field.

ghost use Rattle.std.specs.Prelude.{◌≡◌, ◌++◌, ◌^◌, ◌-◌, [], min, length, map, filter, IfOk, IfSome, IfNone, OnOk, OnErr};
ghost use Rattle.std.specs.Bool.{OnTrue};
ghost use Rattle.std.specs.List.{flat_map, list_any};
ghost use Rattle.oc_chunks.specs.Ascending.{entered, Each, IsAscending};
ghost use Rattle.oc_chunks.specs.Chunks.{joined, left, numbers as segments_of, IsCutFrom, IsSizedChunk};
ghost use Rattle.oc_chunks.specs.Joining.{Joins, NoneSmall};
ghost use Rattle.oc_chunks.specs.Opening.{chunk_read, spare_of, written, IsList};
ghost use Rattle.oc_chunks.specs.Reading.{chunk_of};
ghost use Rattle.oc_index.specs.Items.{index_bytes, index_cmp};
ghost use Rattle.oc_index.specs.Ranges.{has_key, is_entry, is_in_range, numbers_of};

use crate::items::IndexItem;
use crate::place::Place;
use crate::ranges::{Edge, End, high_edge, low_edge};
use oc_chunks::{ChunkList, ChunkView, Written};
use oc_value::{Atom, Base};
use std::alloc::{AllocError, Global};
use std::marker::Model;

/// The objects that have a field, each with its value of the field, ascending by value and then by
/// number, in chunks of 1 to 512. It keeps what its chunks were at the last mark.
#[derive(Drop)]
pub struct FieldIndex {
    base: Base,
    list: ChunkList<IndexItem>,
}

impl Model for FieldIndex {
    ghost use Rattle.oc_index.specs.Fields.{FieldList};

    ghost Value = { FieldList };

    ghost view = { λ f. record { base = f.base; chunks = f.list.chunks; marked = f.list.marked } };
}

impl FieldIndex {
    /// No objects, at the mark too.
    pub fn new(alloc: Global, base: Base) -> FieldIndex
        ensures base { result.base ≡ base }
        ensures chunks { result.chunks ≡ [] }
        ensures marked { result.marked ≡ [] }
    {
        FieldIndex {
            base,
            list: ChunkList::new(alloc),
        }
    }

    /// The index of these chunks, nothing of which has changed since they were written, or nothing
    /// where a chunk has no entry or more than 512, or the entries don't ascend.
    pub fn from_chunks(
        alloc: Global,
        base: Base,
        chunks: Vec<Written<IndexItem>>,
    ) -> Result<Option<FieldIndex>, AllocError>
        ensures base { IfOk result (λ r. IfSome r (λ f. f.base ≡ base)) }
        ensures chunks { IfOk result (λ r. IfSome r (λ f. f.chunks ≡ map chunk_read chunks.items)) }
        ensures marked { IfOk result (λ r. IfSome r (λ f. f.marked ≡ map chunk_read chunks.items)) }
        ensures none { IfOk result (λ r. IfNone r (IsList index_cmp (map chunk_read chunks.items) → ⊥)) }
    {
        match ChunkList::of(alloc, chunks)? {
            Some(list) => Ok(Some(FieldIndex { base, list })),
            None => Ok(None),
        }
    }

    /// The kind of the field's values.
    pub fn base(&self) -> Base
        ensures { result ≡ self.now.base }
    {
        self.base
    }

    /// The chunks in order.
    pub fn chunks<'a>(&'a self, alloc: Global) -> Result<Vec<ChunkView<'a, IndexItem>>, AllocError>
        ensures chunks { IfOk result (λ v. map chunk_of v.items ≡ self.now.chunks) }
        ensures sized { Each IsSizedChunk self.now.chunks }
        ensures ascending { IsAscending index_cmp (joined self.now.chunks) }
    {
        self.list.chunks(alloc)
    }

    /// Enters the object with its value. An entry that is there stays as it is.
    pub fn add(&mut self, alloc: Global, key: Atom, number: u32) -> Result<(), AllocError>
        ensures base { self.new.base ≡ self.old.base }
        ensures entries { OnOk result (joined self.new.chunks ≡ entered index_cmp (record { key = key; number = number }) (joined self.old.chunks)) }
        ensures segments { OnOk result (segments_of self.new.chunks ≡ segments_of self.old.chunks) }
        ensures chunks { OnOk result (IsCutFrom index_bytes 128 self.old.chunks self.new.chunks) }
        ensures marked { OnOk result (self.new.marked ≡ self.old.marked) }
        ensures err { OnErr result (self.new ≡ self.old) }
    {
        self.list.add(alloc, IndexItem { key, number })?;
        Ok(())
    }

    /// Takes the entry of this value and number out, if there is one. The chunk that had it has
    /// changed, and goes if it is empty. It takes no memory.
    pub fn remove(&mut self, key: &Atom, number: u32) -> bool
        ensures base { self.new.base ≡ self.old.base }
        ensures there { result ≡ list_any (is_entry key.now number) (joined self.old.chunks) }
        ensures chunks { self.new.chunks ≡ flat_map (left (is_entry key.now number)) self.old.chunks }
        ensures marked { self.new.marked ≡ self.old.marked }
    {
        self.list.remove(&Place { key, number })
    }

    /// The objects that have this value, by number. The null text and the null reference are one.
    pub fn equal(&self, alloc: Global, key: &Atom) -> Result<Vec<u32>, AllocError>
        ensures { IfOk result (λ v. v.items ≡ numbers_of (filter (has_key key.now) (joined self.now.chunks))) }
    {
        let slices = self
            .list
            .between(alloc, &Edge::Before(key), &Edge::Behind(key))?;
        numbers_in(alloc, &slices)
    }

    /// The objects whose values lie between the ends, by number.
    pub fn range(&self, alloc: Global, low: &End, high: &End) -> Result<Vec<u32>, AllocError>
        ensures { IfOk result (λ v. v.items ≡ numbers_of (filter (is_in_range low.now high.now) (joined self.now.chunks))) }
    {
        let slices = self.list.between(alloc, &low_edge(low), &high_edge(high))?;
        numbers_in(alloc, &slices)
    }

    /// How many objects have values between the ends, at most 2^64 - 1. It searches at both ends, and
    /// counts by chunks between them. It takes no memory.
    pub fn count(&self, low: &End, high: &End) -> u64
        ensures { result ≡ min (length (filter (is_in_range low.now high.now) (joined self.now.chunks))) (2 ^ 64 - 1) }
    {
        self.list.count(&low_edge(low), &high_edge(high))
    }

    /// Joins neighbours of which one has changed and that together have at most half of the bound.
    /// What is joined has the number of the first, and has changed. Without memory some may be
    /// joined and others not yet.
    pub fn join_small(&mut self, alloc: Global) -> Result<(), AllocError>
        ensures base { self.new.base ≡ self.old.base }
        ensures entries { joined self.new.chunks ≡ joined self.old.chunks }
        ensures chunks { Joins index_bytes 128 self.old.chunks self.new.chunks }
        ensures marked { self.new.marked ≡ self.old.marked }
        ensures none { OnOk result (NoneSmall index_bytes 128 self.new.chunks) }
    {
        self.list.join_small(alloc)
    }

    /// What follows a commit: each chunk is written, and those without a number as a segment have
    /// got the next of these. So is the mark. It gives the numbers that are left, and takes no
    /// memory.
    pub fn set_written<'a>(&mut self, numbers: &'a [u32]) -> &'a [u32]
        ensures base { self.new.base ≡ self.old.base }
        ensures chunks { self.new.chunks ≡ written numbers.now self.old.chunks }
        ensures marked { self.new.marked ≡ self.new.chunks }
        ensures rest { result.now ≡ spare_of numbers.now self.old.chunks }
    {
        self.list.set_written(numbers)
    }

    /// The numbers of the chunks as they were at the mark, in order.
    pub fn marked_numbers(&self, alloc: Global) -> Result<Vec<u32>, AllocError>
        ensures { IfOk result (λ v. v.items ≡ segments_of self.now.marked) }
    {
        self.list.marked_numbers(alloc)
    }

    /// Whether the list is as it was at the mark. Where a change was made and undone by another since, it
    /// may say that it isn't. It takes no memory.
    pub fn is_marked(&self) -> bool
        ensures { OnTrue result (self.now.marked ≡ self.now.chunks) }
    {
        self.list.is_marked()
    }

    /// The list as it is becomes what `undo` gives back. It takes no memory.
    pub fn mark(&mut self)
        ensures base { self.new.base ≡ self.old.base }
        ensures chunks { self.new.chunks ≡ self.old.chunks }
        ensures marked { self.new.marked ≡ self.old.chunks }
    {
        self.list.mark();
    }

    /// The chunks as they were at the mark: their bounds, numbers and marks of change. It takes no
    /// memory.
    pub fn undo(&mut self)
        ensures base { self.new.base ≡ self.old.base }
        ensures chunks { self.new.chunks ≡ self.old.marked }
        ensures marked { self.new.marked ≡ self.old.marked }
    {
        self.list.undo();
    }
}

/// The numbers of these entries, ascending.
fn numbers_in(alloc: Global, slices: &[&[IndexItem]]) -> Result<Vec<u32>, AllocError>
    ensures { IfOk result (λ v. v.items ≡ numbers_of (flat_map (λ s. s.now) slices.now)) }
{
    let mut numbers = Vec::new(alloc);
    for entries in slices {
        push_numbers(&mut numbers, entries)?;
    }
    numbers.sort_unstable();
    Ok(numbers)
}

fn push_numbers(numbers: &mut Vec<u32>, entries: &[IndexItem]) -> Result<(), AllocError>
    ensures { OnOk result (numbers.new.items ≡ numbers.old.items ++ map (λ e. e.number) entries.now) }
{
    for entry in entries {
        numbers.push(entry.number)?;
    }
    Ok(())
}
