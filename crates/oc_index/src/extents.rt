//! The list of all objects.

ghost use Rattle.std.specs.Prelude.{◌≡◌, ◌++◌, [], map, filter, IfOk, IfSome, IfNone, OnOk, OnErr};
ghost use Rattle.std.specs.Bool.{OnTrue};
ghost use Rattle.std.specs.List.{find, flat_map};
ghost use Rattle.std.specs.Option.{option_map};
ghost use Rattle.oc_model.specs.Maps.{is_in};
ghost use Rattle.oc_chunks.specs.Ascending.{replaced, Each, IsAscending};
ghost use Rattle.oc_chunks.specs.Chunks.{joined, left, numbers as segments_of, IsCutFrom, IsSizedChunk};
ghost use Rattle.oc_chunks.specs.Joining.{Joins, NoneSmall};
ghost use Rattle.oc_chunks.specs.Opening.{chunk_read, spare_of, written, IsList};
ghost use Rattle.oc_chunks.specs.Reading.{chunk_of};
ghost use Rattle.oc_index.specs.Items.{extent_cmp};
ghost use Rattle.oc_index.specs.Ranges.{is_numbered};

use crate::items::ExtentItem;
use oc_chunks::{At, ChunkList, ChunkView, Written};
use std::alloc::{AllocError, Global};
use std::marker::Model;

/// The numbers of all objects with their classes, ascending by number, in chunks of 1 to 512. It
/// keeps what its chunks were at the last mark.
#[derive(Drop)]
pub struct Extents {
    list: ChunkList<ExtentItem>,
}

impl Model for Extents {
    ghost use Rattle.oc_chunks.specs.Chunks.{Chunked};
    ghost use Rattle.oc_index.specs.declared.items.ExtentItem.{ExtentItem};

    ghost Value = { Chunked ExtentItem };

    ghost view = { λ e. e.list };
}

impl Extents {
    /// No objects, at the mark too.
    pub fn new(alloc: Global) -> Extents
        ensures chunks { result.chunks ≡ [] }
        ensures marked { result.marked ≡ [] }
    {
        Extents {
            list: ChunkList::new(alloc),
        }
    }

    /// The extents of these chunks, nothing of which has changed since they were written, or nothing
    /// where a chunk has no entry or more than 512, or the numbers don't ascend.
    pub fn from_chunks(
        alloc: Global,
        chunks: Vec<Written<ExtentItem>>,
    ) -> Result<Option<Extents>, AllocError>
        ensures chunks { IfOk result (λ r. IfSome r (λ e. e.chunks ≡ map chunk_read chunks.items)) }
        ensures marked { IfOk result (λ r. IfSome r (λ e. e.marked ≡ map chunk_read chunks.items)) }
        ensures none { IfOk result (λ r. IfNone r (IsList extent_cmp (map chunk_read chunks.items) → ⊥)) }
    {
        match ChunkList::of(alloc, chunks)? {
            Some(list) => Ok(Some(Extents { list })),
            None => Ok(None),
        }
    }

    /// The chunks in order.
    pub fn chunks<'a>(&'a self, alloc: Global) -> Result<Vec<ChunkView<'a, ExtentItem>>, AllocError>
        ensures chunks { IfOk result (λ v. map chunk_of v.items ≡ self.now.chunks) }
        ensures sized { Each IsSizedChunk self.now.chunks }
        ensures ascending { IsAscending extent_cmp (joined self.now.chunks) }
    {
        self.list.chunks(alloc)
    }

    /// The objects always stand in the order of their numbers, each once.
    pub fn keeps_order(&self)
        ensures { IsAscending extent_cmp (joined self.now.chunks) }
    {
        self.list.keeps_order();
    }

    /// Puts the object in, in place of the one of its number if there is one.
    pub fn put(&mut self, alloc: Global, number: u32, class: u32) -> Result<(), AllocError>
        ensures entries { OnOk result (joined self.new.chunks ≡ replaced extent_cmp (record { number = number; class = class }) (joined self.old.chunks)) }
        ensures segments { OnOk result (segments_of self.new.chunks ≡ segments_of self.old.chunks) }
        ensures chunks { OnOk result (IsCutFrom (λ _. 8) 512 self.old.chunks self.new.chunks) }
        ensures marked { OnOk result (self.new.marked ≡ self.old.marked) }
        ensures err { OnErr result (self.new ≡ self.old) }
    {
        self.list.put(alloc, ExtentItem { number, class })?;
        Ok(())
    }

    /// Takes the object of this number out, and tells its class, if there is one. The chunk that had
    /// it has changed, and goes if it is empty.
    pub fn remove(&mut self, number: u32) -> Option<u32>
        ensures class { result ≡ option_map (λ e. e.class) (find (is_numbered number) (joined self.old.chunks)) }
        ensures chunks { self.new.chunks ≡ flat_map (left (is_numbered number)) self.old.chunks }
        ensures marked { self.new.marked ≡ self.old.marked }
    {
        let class = self.class_of(number);
        self.list.remove(&At {
            entry: &ExtentItem { number, class: 0 },
        });
        class
    }

    /// The class of the object of this number, if there is one.
    pub fn class_of(&self, number: u32) -> Option<u32>
        ensures { result ≡ option_map (λ e. e.class) (find (is_numbered number) (joined self.now.chunks)) }
    {
        let place = ExtentItem { number, class: 0 };
        match self.list.find(&At { entry: &place }) {
            Some(entry) => Some(entry.class),
            None => None,
        }
    }

    /// The objects of these classes, by number.
    pub fn of(&self, alloc: Global, classes: &[u32]) -> Result<Vec<u32>, AllocError>
        ensures { IfOk result (λ v. v.items ≡ map (λ e. e.number) (filter (λ e. is_in classes.now e.class) (joined self.now.chunks))) }
    {
        let chunks = self.list.chunks(alloc)?;
        let mut numbers = Vec::new(alloc);
        for chunk in &chunks {
            push_of(&mut numbers, chunk.entries, classes)?;
        }
        Ok(numbers)
    }

    /// Joins neighbours of which one has changed and that together have at most half of the bound.
    /// What is joined has the number of the first, and has changed. Without memory some may be
    /// joined and others not yet.
    pub fn join_small(&mut self, alloc: Global) -> Result<(), AllocError>
        ensures entries { joined self.new.chunks ≡ joined self.old.chunks }
        ensures chunks { Joins (λ _. 8) 512 self.old.chunks self.new.chunks }
        ensures marked { self.new.marked ≡ self.old.marked }
        ensures none { OnOk result (NoneSmall (λ _. 8) 512 self.new.chunks) }
    {
        self.list.join_small(alloc)
    }

    /// What follows a commit: each chunk is written, and those without a number as a segment have
    /// got the next of these. So is the mark. It gives the numbers that are left, and takes no
    /// memory.
    pub fn set_written<'a>(&mut self, numbers: &'a [u32]) -> &'a [u32]
        ensures chunks { self.new.chunks ≡ written numbers.now self.old.chunks }
        ensures marked { self.new.marked ≡ self.new.chunks }
        ensures rest { result.now ≡ spare_of numbers.now self.old.chunks }
    {
        self.list.set_written(numbers)
    }

    /// The numbers of the chunks as they were at the mark, in order.
    pub fn marked_numbers(&self, alloc: Global) -> Result<Vec<u32>, AllocError>
        ensures { IfOk result (λ v. v.items ≡ segments_of self.now.marked) }
    {
        self.list.marked_numbers(alloc)
    }

    /// Whether the list is as it was at the mark. Where a change was made and undone by another since, it
    /// may say that it isn't. It takes no memory.
    pub fn is_marked(&self) -> bool
        ensures { OnTrue result (self.now.marked ≡ self.now.chunks) }
    {
        self.list.is_marked()
    }

    /// The list as it is becomes what `undo` gives back. It takes no memory.
    pub fn mark(&mut self)
        ensures chunks { self.new.chunks ≡ self.old.chunks }
        ensures marked { self.new.marked ≡ self.old.chunks }
    {
        self.list.mark();
    }

    /// The chunks as they were at the mark: their bounds, numbers and marks of change. It takes no
    /// memory.
    pub fn undo(&mut self)
        ensures chunks { self.new.chunks ≡ self.old.marked }
        ensures marked { self.new.marked ≡ self.old.marked }
    {
        self.list.undo();
    }
}

/// Adds the numbers of those that are of one of the classes.
fn push_of(
    numbers: &mut Vec<u32>,
    entries: &[ExtentItem],
    classes: &[u32],
) -> Result<(), AllocError>
    ensures { OnOk result (numbers.new.items ≡ numbers.old.items ++ map (λ e. e.number) (filter (λ e. is_in classes.now e.class) entries.now)) }
{
    for entry in entries {
        if is_among(classes, entry.class) {
            numbers.push(entry.number)?;
        }
    }
    Ok(())
}

fn is_among(classes: &[u32], class: u32) -> bool
    ensures { result ≡ is_in classes.now class }
{
    classes.iter().any(|other| class == *other)
}
