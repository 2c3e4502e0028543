//! The lists as a commit writes them: the segments that are due, and the entries of the catalog.

ghost use Rattle.std.specs.Prelude.{◌≡◌, ◌+◌, ◌++◌, ◌∷◌, [], Some, None, map, filter, flat_map, is_some, not, if◌then◌else◌, IsSome, IfOk, IfSome, OnOk};
ghost use Rattle.std.specs.Option.{option_to_list};
ghost use Rattle.oc_model.specs.Spelling.{segment_bytes};
ghost use Rattle.oc_chunks.specs.Ascending.{Each, IsAscending};
ghost use Rattle.oc_chunks.specs.Chunks.{joined, numbers as numbers_of, IsSizedChunk};
ghost use Rattle.oc_chunks.specs.Opening.{number_from, spare_behind, spare_of, written, IsList};
ghost use Rattle.oc_chunks.specs.Reading.{chunk_of};
ghost use Rattle.oc_index.specs.Indexed.{field_at, written_fields};
ghost use Rattle.oc_index.specs.Items.{index_cmp};
ghost use Rattle.oc_segments.specs.Items.{index_fits, index_spelling};
ghost use Rattle.oc_segments.specs.Segments.{AreEntries};
ghost use Rattle.oc_lists.specs.Keeping.{AreWritable};
ghost use Rattle.oc_store.specs.Last.{field_segments, index_segments, is_due, list_segments, lists_written, numberless, numberless_of, planned, planned_as, segment_of, system_change, written_segments, AreInChunks};
ghost use Rattle.oc_store.specs.Numbering.{AreRising};
ghost use Rattle.oc_store.specs.Outlines.{named, named_lists};

use crate::segments::system_slot;
use oc_catalog::{ListEntry, Numbers};
use oc_chunks::ChunkView;
use oc_index::{IndexItem, Indexes};
use oc_segments::{Item, write_segment};
use oc_slots::{Bytes, SlotChange};
use oc_value::Base;
use std::alloc::{AllocError, Global};

/// How many chunks of all lists have no number.
pub(crate) fn count_numberless(alloc: Global, lists: &Indexes) -> Result<usize, AllocError>
    requires { AreRising (map (λ f. f.0) lists.now.fields) }
    ensures { IfOk result (λ n. n ≡ numberless_of lists.now) }
{
    let extents = lists.extents().chunks(alloc)?;
    let mut count = numberless(&extents);
    let indexed = lists.indexed(alloc)?;
    for (id, _) in &indexed {
        let more = field_numberless(alloc, lists, *id)?;
        count = sum(count, more)?;
    }
    Ok(count)
}

// How many chunks of the index of this field have no number.
fn field_numberless(alloc: Global, lists: &Indexes, id: u32) -> Result<usize, AllocError>
    requires { IsSome (field_at id lists.now.fields) }
    ensures { IfOk result (λ n. IfSome (field_at id lists.now.fields) (λ f. n ≡ numberless f.chunks)) }
{
    let chunks = field_chunks(alloc, lists, id)?;
    Ok(numberless(&chunks))
}

// The sum. Where it is too large it answers that memory ran out: no memory holds so many chunks.
fn sum(a: usize, b: usize) -> Result<usize, AllocError>
    ensures { IfOk result (λ n. n ≡ a + b) }
{
    match a.checked_add(b) {
        Some(sum) => Ok(sum),
        None => Err(AllocError),
    }
}

fn numberless<E>(chunks: &[ChunkView<E>]) -> usize
    ensures { result ≡ numberless (map chunk_of chunks.now) }
{
    let mut count = 0;
    for chunk in chunks {
        count += one_without(chunk.number);
    }
    count
}

// 1 for none.
fn one_without(number: Option<u32>) -> usize
    ensures { result ≡ (if is_some number then 0 else 1) }
{
    match number {
        Some(_) => 0,
        None => 1,
    }
}

// The chunks of the index of this field.
fn field_chunks<'a>(
    alloc: Global,
    lists: &'a Indexes,
    id: u32,
) -> Result<Vec<ChunkView<'a, IndexItem>>, AllocError>
    requires { IsSome (field_at id lists.now.fields) }
    ensures chunks { IfOk result (λ v. IfSome (field_at id lists.now.fields) (λ f. map chunk_of v.items ≡ f.chunks)) }
    ensures sized { IfSome (field_at id lists.now.fields) (λ f. Each IsSizedChunk f.chunks) }
    ensures ascending { IfSome (field_at id lists.now.fields) (λ f. IsAscending index_cmp (joined f.chunks)) }
{
    let Some(index) = lists.field(id) else {
        unreachable!()
    };
    index.chunks(alloc)
}

/// Adds the segments that are due to the changes, and gives the lists as the catalog names them. The chunks without a
/// number get the next of these.
pub(crate) fn write_lists(
    alloc: Global,
    lists: &Indexes,
    numbers: &[u32],
    changes: &mut Vec<SlotChange>,
) -> Result<Vec<ListEntry>, AllocError>
    requires ids { AreRising (map (λ f. f.0) lists.now.fields) }
    requires writable { AreWritable lists.now }
    ensures chunks { OnOk result (AreInChunks lists.now) }
    ensures entries { IfOk result (λ v. v.items ≡ named_lists (lists_written numbers.now lists.now)) }
    ensures changes { OnOk result (changes.new.items ≡ changes.old.items ++ map system_change (written_segments (planned numbers.now (list_segments lists.now)))) }
{
    let extents = lists.extents().chunks(alloc)?;
    let segments = write_list(alloc, None, &extents, numbers, changes)?;
    let mut entries = Vec::new(alloc);
    entries.push(ListEntry { id: 0, segments })?;
    let rest = left_of(&extents, numbers);
    write_fields(alloc, lists, rest, &mut entries, changes)?;
    Ok(entries)
}

// The same of the indexes.
fn write_fields(
    alloc: Global,
    lists: &Indexes,
    numbers: &[u32],
    entries: &mut Vec<ListEntry>,
    changes: &mut Vec<SlotChange>,
) -> Result<(), AllocError>
    requires ids { AreRising (map (λ f. f.0) lists.now.fields) }
    requires writable { AreWritable lists.now }
    ensures chunks { OnOk result (Each (λ f. IsList index_cmp (f.1).chunks) lists.now.fields) }
    ensures entries { OnOk result (entries.new.items ≡ entries.old.items ++ map named (written_fields numbers.now lists.now.fields)) }
    ensures changes { OnOk result (changes.new.items ≡ changes.old.items ++ map system_change (written_segments (planned numbers.now (field_segments lists.now.fields)))) }
{
    let indexed = lists.indexed(alloc)?;
    let mut spare = numbers;
    for (id, base) in &indexed {
        let chunks = field_chunks(alloc, lists, *id)?;
        write_field(alloc, *id, *base, &chunks, spare, entries, changes)?;
        spare = left_of(&chunks, spare);
    }
    Ok(())
}

// The same of the index of a field, whose values are of this kind.
fn write_field(
    alloc: Global,
    id: u32,
    base: Base,
    chunks: &[ChunkView<IndexItem>],
    numbers: &[u32],
    entries: &mut Vec<ListEntry>,
    changes: &mut Vec<SlotChange>,
) -> Result<(), AllocError>
    requires { Each (λ c. AreEntries index_cmp (index_fits (Some base)) c.entries) (map chunk_of chunks.now) }
    ensures entries { OnOk result (entries.new.items ≡ entries.old.items ++ record { id = id; segments = numbers_of (written numbers.now (map chunk_of chunks.now)) } ∷ []) }
    ensures changes { OnOk result (changes.new.items ≡ changes.old.items
        ++ map system_change (written_segments (planned numbers.now (map (segment_of (segment_bytes (index_spelling (Some base)))) (map chunk_of chunks.now))))) }
{
    let segments = write_list(alloc, Some(base), chunks, numbers, changes)?;
    entries.push(ListEntry { id, segments })?;
    Ok(())
}

// Adds the segments of the chunks that are due to the changes, and gives the numbers of all segments of the list. The
// base kind is the field's, and `None` for the list of all objects.
fn write_list<E: Item>(
    alloc: Global,
    base: Option<Base>,
    chunks: &[ChunkView<E>],
    numbers: &[u32],
    changes: &mut Vec<SlotChange>,
) -> Result<Numbers, AllocError>
    requires { Each (λ c. AreEntries E.order (E.fits base) c.entries) (map chunk_of chunks.now) }
    ensures segments { IfOk result (λ s. s ≡ numbers_of (written numbers.now (map chunk_of chunks.now))) }
    ensures changes { OnOk result (changes.new.items ≡ changes.old.items
        ++ map system_change (written_segments (planned numbers.now (map (segment_of (segment_bytes (E.spell base))) (map chunk_of chunks.now))))) }
{
    let mut segments = Numbers::new(alloc);
    let mut spare = numbers;
    for chunk in chunks {
        let number = number_from(chunk.number, spare);
        write_chunk(alloc, base, chunk, number, &mut segments, changes)?;
        spare = spare_behind(chunk.number, spare);
    }
    Ok(segments)
}

// Adds the segment of a chunk that has this number.
fn write_chunk<E: Item>(
    alloc: Global,
    base: Option<Base>,
    chunk: &ChunkView<E>,
    number: Option<u32>,
    segments: &mut Numbers,
    changes: &mut Vec<SlotChange>,
) -> Result<(), AllocError>
    requires { AreEntries E.order (E.fits base) (chunk_of chunk.now).entries }
    ensures segments { OnOk result (segments.new ≡ segments.old ++ option_to_list number) }
    ensures changes { OnOk result (changes.new.items ≡ changes.old.items
        ++ map system_change (written_segments (planned_as number (segment_of (segment_bytes (E.spell base)) (chunk_of chunk.now))))) }
{
    let Some(number) = number else {
        return Ok(());
    };
    segments.push(number)?;
    if is_due(chunk) {
        changes.push(segment_change(alloc, base, chunk, number)?)?;
    }
    Ok(())
}

// Whether the chunk's segment is to be written.
fn is_due<E>(chunk: &ChunkView<E>) -> bool
    ensures { result ≡ is_due (segment_of (λ _. []) (chunk_of chunk.now)) }
{
    chunk.changed || chunk.number.is_none()
}

// The chunk under this number.
fn segment_change<E: Item>(
    alloc: Global,
    base: Option<Base>,
    chunk: &ChunkView<E>,
    number: u32,
) -> Result<SlotChange, AllocError>
    requires { AreEntries E.order (E.fits base) (chunk_of chunk.now).entries }
    ensures { IfOk result (λ c. c ≡ system_change (number, Some (segment_bytes (E.spell base) (chunk_of chunk.now).entries))) }
{
    let bytes = write_segment(alloc, chunk.entries, base)?;
    Ok(SlotChange {
        id: system_slot(number),
        bytes: Some(Bytes::of(bytes)),
    })
}

// The number that a chunk has, or the first of these.
fn number_from(number: Option<u32>, spare: &[u32]) -> Option<u32>
    ensures { result ≡ number_from number spare.now }
{
    if number.is_some() {
        return number;
    }
    match spare.split_first() {
        Some((first, _)) => Some(*first),
        None => None,
    }
}

// The numbers that are left of these.
fn spare_behind<'a>(number: Option<u32>, spare: &'a [u32]) -> &'a [u32]
    ensures { result.now ≡ spare_behind number spare.now }
{
    if number.is_some() {
        return spare;
    }
    match spare.split_first() {
        Some((_, rest)) => rest,
        None => spare,
    }
}

// The numbers that all chunks of a list leave of these.
fn left_of<'a, E>(chunks: &[ChunkView<E>], numbers: &'a [u32]) -> &'a [u32]
    ensures { result.now ≡ spare_of numbers.now (map chunk_of chunks.now) }
{
    let mut spare = numbers;
    for chunk in chunks {
        spare = spare_behind(chunk.number, spare);
    }
    spare
}
