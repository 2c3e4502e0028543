//! A list in segments, read and judged.

ghost use Rattle.std.specs.Prelude.{◌≡◌, ◌≤◌, ◌+◌, ◌++◌, ◌∷◌, ℕ, Bool, List, [], length, map, flat_map, IsTrue, IsErrOf, IfOk, IfSome, IfNone, OnOk};
ghost use Rattle.std.specs.Bool.{OnTrue, OnFalse};
ghost use Rattle.std.specs.List.{list_all};
ghost use Rattle.oc_model.specs.Schemas.{Schema as SchemaOf};
ghost use Rattle.oc_host.specs.Counts.{Rose};
ghost use Rattle.oc_host.specs.Disk.{Looks};
ghost use Rattle.oc_layout.specs.declared.cells.Space.{Space as SpaceOf};
ghost use Rattle.oc_layout.specs.declared.cells.Space.TheVariants.{System};
ghost use Rattle.oc_chunks.specs.Ascending.{IsAscending};
ghost use Rattle.oc_chunks.specs.Chunks.{joined, numbers};
ghost use Rattle.oc_chunks.specs.Opening.{chunk_read, Follows, IsList};
ghost use Rattle.oc_segments.specs.Segments.{AreEntries, SpellsSegment};
ghost use Rattle.oc_slots.specs.declared.slot.Side.TheVariants.{Committed};
ghost use Rattle.oc_slots.specs.Stores.{committed, length_on, Agrees};
ghost use Rattle.oc_store.specs.declared.fault.ReadFault.TheVariants as read_fault;
ghost use Rattle.oc_lists.specs.Keeping.{extent_suits};
ghost use Rattle.oc_store.specs.Listed.{index_suits, is_segment, segments_len};
ghost use Rattle.oc_store.specs.Lists.{chunk_kept, system_slot, HasSegment, IsDamagedAt, IsNext, IsSoundList};

use crate::fault::ReadFault;
use oc_chunks::Written;
use oc_host::Host;
use oc_schema::Schema;
use oc_segments::{ExtentItem, IndexItem, Item, SegmentFault, read_segment};
use oc_slots::{Side, SlotId, SlotStore, Space};
use oc_value::Base;
use std::alloc::Global;

/// The last number that a slot may have.
const LAST_NUMBER: u32 = 2_147_483_646;

/// An entry of a list that is judged when it is read.
pub(crate) trait Listed: Item {
    ghost suits: { SchemaOf → Self → Bool };

    /// Whether a store of this schema can have the entry.
    fn suits(&self, schema: &Schema) -> bool
        ensures { result ≡ suits schema.now self.now };
}

impl Listed for ExtentItem {
    ghost use Rattle.oc_lists.specs.Keeping.{extent_suits};

    ghost suits = { extent_suits };

    fn suits(&self, schema: &Schema) -> bool {
        schema.class(self.class).is_some()
    }
}

impl Listed for IndexItem {
    ghost use Rattle.oc_store.specs.Listed.{index_suits};

    ghost suits = { index_suits };

    fn suits(&self, _schema: &Schema) -> bool {
        true
    }
}

/// The chunks of the list that stands in these segments. `Damaged` tells the first that isn't sound. The base kind is
/// the field's, and `None` for the list of all objects.
pub(crate) fn read_list<E: Listed, H: Host>(
    alloc: Global,
    slots: &SlotStore,
    host: &mut H,
    schema: &Schema,
    base: Option<Base>,
    segments: &[u32],
) -> Result<Vec<Written<E>>, ReadFault>
    requires agrees { IsTrue H.tells → Agrees slots.now (H.disk host.old) }
    ensures list { IfOk result (λ v. IsList E.order (map chunk_read v.items)) }
    ensures numbers { IfOk result (λ v. numbers (map chunk_read v.items) ≡ segments.now) }
    ensures writable { IfOk result (λ v. IsTrue (list_all (E.stands base) (joined (map chunk_read v.items)))) }
    ensures suit { IfOk result (λ v. IsTrue (list_all (E.suits schema.now) (joined (map chunk_read v.items)))) }
    ensures there { OnOk result (IsTrue (list_all (is_segment slots.now) segments.now)) }
    ensures sound { IfOk result (λ v. IsTrue H.tells →
        IsSoundList (SpellsSegment E.order (E.stands base) (E.spell base)) (committed slots.now (H.disk host.old)) E.order (E.suits schema.now) segments.now (map chunk_read v.items)) }
    ensures damaged { (space : SpaceOf) (n : ℕ) → IsErrOf result (read_fault.Damaged space n) → (space ≡ System) × (IsTrue H.tells →
        IsDamagedAt (SpellsSegment E.order (E.stands base) (E.spell base)) (committed slots.now (H.disk host.old)) E.order (E.suits schema.now) segments.now n) }
    ensures agrees { IsTrue H.tells → Agrees slots.now (H.disk host.new) }
    ensures looks { IsTrue H.tells → Looks (H.disk host.old) (H.disk host.new) }
    ensures later { H.faults host.old ≤ H.faults host.new }
    ensures cause { IsErrOf result read_fault.Host → Rose (H.faults host.old) (H.faults host.new) }
    ensures taken { H.taken host.new ≤ H.taken host.old + segments_len slots.now segments.now }
{
    let mut chunks = Vec::new(alloc);
    for number in segments {
        let entries = read_next(alloc, slots, host, schema, base, &chunks, *number)?;
        chunks.push(Written {
            entries,
            number: *number,
        })?;
    }
    Ok(chunks)
}

// The entries of a segment that stands behind these chunks.
fn read_next<E: Listed, H: Host>(
    alloc: Global,
    slots: &SlotStore,
    host: &mut H,
    schema: &Schema,
    base: Option<Base>,
    chunks: &[Written<E>],
    number: u32,
) -> Result<Vec<E>, ReadFault>
    requires agrees { IsTrue H.tells → Agrees slots.now (H.disk host.old) }
    requires list { IsList E.order (map chunk_read chunks.now) }
    ensures follows { IfOk result (λ v. Follows E.order (joined (map chunk_read chunks.now)) v.items) }
    ensures writable { IfOk result (λ v. IsTrue (list_all (E.stands base) v.items)) }
    ensures suit { IfOk result (λ v. IsTrue (list_all (E.suits schema.now) v.items)) }
    ensures there { OnOk result (IsTrue (is_segment slots.now number)) }
    ensures next { IfOk result (λ v. IsTrue H.tells →
        IsNext (SpellsSegment E.order (E.stands base) (E.spell base)) (committed slots.now (H.disk host.old)) E.order (E.suits schema.now) (joined (map chunk_read chunks.now)) (chunk_kept number v.items)) }
    ensures damaged { (space : SpaceOf) (n : ℕ) → IsErrOf result (read_fault.Damaged space n) → (space ≡ System) × (n ≡ number) × (IsTrue H.tells → (entries : List E) →
        IsNext (SpellsSegment E.order (E.stands base) (E.spell base)) (committed slots.now (H.disk host.old)) E.order (E.suits schema.now) (joined (map chunk_read chunks.now)) (chunk_kept number entries) → ⊥) }
    ensures agrees { IsTrue H.tells → Agrees slots.now (H.disk host.new) }
    ensures looks { IsTrue H.tells → Looks (H.disk host.old) (H.disk host.new) }
    ensures later { H.faults host.old ≤ H.faults host.new }
    ensures cause { IsErrOf result read_fault.Host → Rose (H.faults host.old) (H.faults host.new) }
    ensures taken { H.taken host.new ≤ H.taken host.old + length_on Committed slots.now (system_slot number) }
{
    let entries = read_entries::<E, H>(alloc, slots, host, base, number)?;
    if !stand_above(chunks, &entries) || !all_suit(schema, &entries) {
        return Err(damaged(number));
    }
    Ok(entries)
}

// The entries of a segment.
fn read_entries<E: Listed, H: Host>(
    alloc: Global,
    slots: &SlotStore,
    host: &mut H,
    base: Option<Base>,
    number: u32,
) -> Result<Vec<E>, ReadFault>
    requires agrees { IsTrue H.tells → Agrees slots.now (H.disk host.old) }
    ensures entries { IfOk result (λ v. AreEntries E.order (E.stands base) v.items) }
    ensures there { OnOk result (IsTrue (is_segment slots.now number)) }
    ensures spelled { IfOk result (λ v. IsTrue H.tells →
        HasSegment (SpellsSegment E.order (E.stands base) (E.spell base)) (committed slots.now (H.disk host.old)) number v.items) }
    ensures only { IfOk result (λ v. IsTrue H.tells → (entries : List E) →
        HasSegment (SpellsSegment E.order (E.stands base) (E.spell base)) (committed slots.now (H.disk host.old)) number entries → entries ≡ v.items) }
    ensures damaged { (space : SpaceOf) (n : ℕ) → IsErrOf result (read_fault.Damaged space n) → (space ≡ System) × (n ≡ number) × (IsTrue H.tells → (entries : List E) →
        HasSegment (SpellsSegment E.order (E.stands base) (E.spell base)) (committed slots.now (H.disk host.old)) number entries → ⊥) }
    ensures agrees { IsTrue H.tells → Agrees slots.now (H.disk host.new) }
    ensures looks { IsTrue H.tells → Looks (H.disk host.old) (H.disk host.new) }
    ensures later { H.faults host.old ≤ H.faults host.new }
    ensures cause { IsErrOf result read_fault.Host → Rose (H.faults host.old) (H.faults host.new) }
    ensures taken { H.taken host.new ≤ H.taken host.old + length_on Committed slots.now (system_slot number) }
{
    if number > LAST_NUMBER {
        return Err(damaged(number));
    }
    let slot = system_slot(number);
    let Some(bytes) = slots.read(host, Side::Committed, slot)? else {
        return Err(damaged(number));
    };
    match read_segment(alloc, &bytes, base) {
        Ok(entries) => Ok(entries),
        Err(SegmentFault::NotASegment) => Err(damaged(number)),
        Err(SegmentFault::Memory) => Err(ReadFault::Memory),
    }
}

/// The system's slot of this number.
pub(crate) fn system_slot(number: u32) -> SlotId
    ensures { result ≡ system_slot number }
{
    SlotId {
        space: Space::System,
        number,
    }
}

/// The fault of that slot.
pub(crate) fn damaged(number: u32) -> ReadFault
    ensures { result ≡ read_fault.Damaged System number }
{
    ReadFault::Damaged {
        space: Space::System,
        number,
    }
}

// Whether the entries stand above those of the chunks.
fn stand_above<E: Listed>(chunks: &[Written<E>], entries: &[E]) -> bool
    requires list { IsList E.order (map chunk_read chunks.now) }
    requires some { 1 ≤ length entries.now }
    requires ascending { IsAscending E.order entries.now }
    ensures yes { OnTrue result (IsAscending E.order (joined (map chunk_read chunks.now) ++ entries.now)) }
    ensures no { OnFalse result (IsAscending E.order (joined (map chunk_read chunks.now) ++ entries.now) → ⊥) }
{
    match last_entry(chunks) {
        Some(last) => last.before(&entries[0]),
        None => true,
    }
}

// The last entry of the chunks.
fn last_entry<E: Listed>(chunks: &[Written<E>]) -> Option<&E>
    requires { IsList E.order (map chunk_read chunks.now) }
    ensures last { IfSome result (λ e. (front : List E) × (joined (map chunk_read chunks.now) ≡ front ++ e.now ∷ [])) }
    ensures none { IfNone result (joined (map chunk_read chunks.now) ≡ []) }
{
    let chunk = chunks.last()?;
    chunk.entries.last()
}

fn all_suit<E: Listed>(schema: &Schema, entries: &[E]) -> bool
    ensures { result ≡ list_all (E.suits schema.now) entries.now }
{
    for entry in entries {
        if !entry.suits(schema) {
            return false;
        }
    }
    true
}
