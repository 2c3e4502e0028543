//! The lists of a store, read from the segments that its catalog names.

ghost use Rattle.std.specs.Prelude.{◌≡◌, ◌<◌, ◌≤◌, ◌+◌, ℕ, [], map, None, Some, IsSome, IsTrue, IsErrOf, IfOk, OnOk};
ghost use Rattle.std.specs.BTreeMap.{get};
ghost use Rattle.std.specs.List.{list_all};
ghost use Rattle.std.specs.Ordering.{nat_cmp};
ghost use Rattle.oc_model.specs.declared.value.Base.{Base as BaseOf};
ghost use Rattle.oc_model.specs.Lists.{IsOneOf};
ghost use Rattle.oc_host.specs.Counts.{Rose};
ghost use Rattle.oc_host.specs.Disk.{Looks};
ghost use Rattle.oc_layout.specs.declared.cells.Space.{Space as SpaceOf};
ghost use Rattle.oc_layout.specs.declared.cells.Space.TheVariants.{System};
ghost use Rattle.oc_chunks.specs.Ascending.{Each, Pairs};
ghost use Rattle.oc_chunks.specs.Chunks.{joined, numbers};
ghost use Rattle.oc_index.specs.Items.{extent_cmp, index_cmp};
ghost use Rattle.oc_catalog.specs.Catalogs.{list_ids, segments_of};
ghost use Rattle.oc_segments.specs.Items.{extent_fits, index_stands};
ghost use Rattle.oc_slots.specs.Stores.{committed, Agrees};
ghost use Rattle.oc_store.specs.declared.fault.ReadFault.TheVariants as read_fault;
ghost use Rattle.oc_lists.specs.Keeping.{extent_suits, list_numbers, AreWritable};
ghost use Rattle.oc_store.specs.Listed.{index_suits, is_segment, lists_len, segments_len};
ghost use Rattle.oc_store.specs.Lists.{AreNext, IsDamagedAt, SpellsExtents, SpellsIndex};
ghost use Rattle.oc_lists.specs.Lists.{bases_in, IsMarked};
ghost use Rattle.oc_store.specs.Outlines.{named, named_lists, IsDamagedAmong, IsDamagedIn, IsIndex};
ghost use Rattle.oc_store.specs.Sides.{AreWritten, IsWritten};

use crate::fault::ReadFault;
use crate::segments::read_list;
use oc_catalog::ListEntry;
use oc_host::Host;
use oc_index::{ExtentItem, Extents, FieldIndex, IndexItem, Indexes};
use oc_lists::bases_of;
use oc_schema::Schema;
use oc_slots::SlotStore;
use oc_value::Base;
use std::alloc::Global;
use std::collections::BTreeMap;

// The list of all objects.
fn read_extents<H: Host>(
    alloc: Global,
    slots: &SlotStore,
    host: &mut H,
    schema: &Schema,
    segments: &[u32],
) -> Result<Extents, ReadFault>
    requires agrees { IsTrue H.tells → Agrees slots.now (H.disk host.old) }
    ensures numbers { IfOk result (λ e. numbers e.chunks ≡ segments.now) }
    ensures marked { IfOk result (λ e. e.marked ≡ e.chunks) }
    ensures written { IfOk result (λ e. Each IsWritten e.chunks) }
    ensures writable { IfOk result (λ e. IsTrue (list_all (extent_fits None) (joined e.chunks))) }
    ensures classes { IfOk result (λ e. IsTrue (list_all (extent_suits schema.now) (joined e.chunks))) }
    ensures there { OnOk result (IsTrue (list_all (is_segment slots.now) segments.now)) }
    ensures sound { IfOk result (λ e. IsTrue H.tells →
        AreNext SpellsExtents (committed slots.now (H.disk host.old)) extent_cmp (extent_suits schema.now) [] e.chunks) }
    ensures damaged { (space : SpaceOf) (n : ℕ) → IsErrOf result (read_fault.Damaged space n) → (space ≡ System) × (IsTrue H.tells →
        IsDamagedAt SpellsExtents (committed slots.now (H.disk host.old)) extent_cmp (extent_suits schema.now) segments.now n) }
    ensures agrees { IsTrue H.tells → Agrees slots.now (H.disk host.new) }
    ensures looks { IsTrue H.tells → Looks (H.disk host.old) (H.disk host.new) }
    ensures later { H.faults host.old ≤ H.faults host.new }
    ensures cause { IsErrOf result read_fault.Host → Rose (H.faults host.old) (H.faults host.new) }
    ensures taken { H.taken host.new ≤ H.taken host.old + segments_len slots.now segments.now }
{
    let chunks = read_list::<ExtentItem, H>(alloc, slots, host, schema, None, segments)?;
    let Some(extents) = Extents::from_chunks(alloc, chunks)? else {
        unreachable!()
    };
    Ok(extents)
}

// The index of a field of this base kind.
fn read_index<H: Host>(
    alloc: Global,
    slots: &SlotStore,
    host: &mut H,
    schema: &Schema,
    base: Base,
    segments: &[u32],
) -> Result<FieldIndex, ReadFault>
    requires agrees { IsTrue H.tells → Agrees slots.now (H.disk host.old) }
    ensures base { IfOk result (λ f. f.base ≡ base) }
    ensures numbers { IfOk result (λ f. numbers f.chunks ≡ segments.now) }
    ensures marked { IfOk result (λ f. f.marked ≡ f.chunks) }
    ensures written { IfOk result (λ f. Each IsWritten f.chunks) }
    ensures writable { IfOk result (λ f. IsTrue (list_all (index_stands (Some f.base)) (joined f.chunks))) }
    ensures there { OnOk result (IsTrue (list_all (is_segment slots.now) segments.now)) }
    ensures sound { IfOk result (λ f. IsTrue H.tells →
        AreNext (SpellsIndex base) (committed slots.now (H.disk host.old)) index_cmp (index_suits schema.now) [] f.chunks) }
    ensures damaged { (space : SpaceOf) (n : ℕ) → IsErrOf result (read_fault.Damaged space n) → (space ≡ System) × (IsTrue H.tells →
        IsDamagedAt (SpellsIndex base) (committed slots.now (H.disk host.old)) index_cmp (index_suits schema.now) segments.now n) }
    ensures agrees { IsTrue H.tells → Agrees slots.now (H.disk host.new) }
    ensures looks { IsTrue H.tells → Looks (H.disk host.old) (H.disk host.new) }
    ensures later { H.faults host.old ≤ H.faults host.new }
    ensures cause { IsErrOf result read_fault.Host → Rose (H.faults host.old) (H.faults host.new) }
    ensures taken { H.taken host.new ≤ H.taken host.old + segments_len slots.now segments.now }
{
    let chunks = read_list::<IndexItem, H>(alloc, slots, host, schema, Some(base), segments)?;
    let Some(index) = FieldIndex::from_chunks(alloc, base, chunks)? else {
        unreachable!()
    };
    Ok(index)
}

// The index that the catalog names so.
fn read_field<H: Host>(
    alloc: Global,
    slots: &SlotStore,
    host: &mut H,
    schema: &Schema,
    bases: &BTreeMap<u32, Base>,
    list: &ListEntry,
) -> Result<FieldIndex, ReadFault>
    requires agrees { IsTrue H.tells → Agrees slots.now (H.disk host.old) }
    requires right { (id : ℕ) (b : BaseOf) → get nat_cmp bases.now id ≡ Some b → IsOneOf (id, b) (bases_in schema.now) }
    requires there { IsSome (get nat_cmp bases.now list.now.id) }
    ensures base { IfOk result (λ f. IsOneOf (list.now.id, f.base) (bases_in schema.now)) }
    ensures numbers { IfOk result (λ f. numbers f.chunks ≡ list.now.segments) }
    ensures marked { IfOk result (λ f. f.marked ≡ f.chunks) }
    ensures written { IfOk result (λ f. Each IsWritten f.chunks) }
    ensures writable { IfOk result (λ f. IsTrue (list_all (index_stands (Some f.base)) (joined f.chunks))) }
    ensures there { OnOk result (IsTrue (list_all (is_segment slots.now) list.now.segments)) }
    ensures sound { IfOk result (λ f. IsTrue H.tells → IsIndex (committed slots.now (H.disk host.old)) schema.now (list.now.id, f)) }
    ensures damaged { (space : SpaceOf) (n : ℕ) → IsErrOf result (read_fault.Damaged space n) → (space ≡ System) × (IsTrue H.tells →
        IsDamagedIn (committed slots.now (H.disk host.old)) schema.now list.now n) }
    ensures agrees { IsTrue H.tells → Agrees slots.now (H.disk host.new) }
    ensures looks { IsTrue H.tells → Looks (H.disk host.old) (H.disk host.new) }
    ensures later { H.faults host.old ≤ H.faults host.new }
    ensures cause { IsErrOf result read_fault.Host → Rose (H.faults host.old) (H.faults host.new) }
    ensures taken { H.taken host.new ≤ H.taken host.old + segments_len slots.now list.now.segments }
{
    let Some(base) = bases.get(&list.id) else {
        unreachable!()
    };
    let segments = list.segments.as_slice();
    let index = read_index(alloc, slots, host, schema, *base, segments)?;
    Ok(index)
}

// The indexes that the catalog names so, put beside the extents.
fn read_fields<H: Host>(
    alloc: Global,
    slots: &SlotStore,
    host: &mut H,
    schema: &Schema,
    lists: &[ListEntry],
    indexes: &mut Indexes,
) -> Result<(), ReadFault>
    requires agrees { IsTrue H.tells → Agrees slots.now (H.disk host.old) }
    requires none { (indexes.old.fields ≡ []) × (indexes.old.marked ≡ []) }
    requires ascend { Pairs (λ k l. k.id < l.id) lists.now }
    requires known { Each (λ l. (b : BaseOf) × IsOneOf (l.id, b) (bases_in schema.now)) lists.now }
    ensures extents { indexes.new.extents ≡ indexes.old.extents }
    ensures named { OnOk result (map named indexes.new.fields ≡ lists.now) }
    ensures marked { OnOk result (indexes.new.marked ≡ indexes.new.fields) }
    ensures each { OnOk result (Each (λ f. (f.1).marked ≡ (f.1).chunks) indexes.new.fields) }
    ensures written { OnOk result (Each (λ f. Each IsWritten (f.1).chunks) indexes.new.fields) }
    ensures writable { OnOk result (Each (λ f. IsTrue (list_all (index_stands (Some (f.1).base)) (joined (f.1).chunks))) indexes.new.fields) }
    ensures there { OnOk result (IsTrue (list_all (is_segment slots.now) (segments_of lists.now))) }
    ensures bases { OnOk result (Each (λ f. IsOneOf (f.0, (f.1).base) (bases_in schema.now)) indexes.new.fields) }
    ensures sound { OnOk result (IsTrue H.tells → Each (IsIndex (committed slots.now (H.disk host.old)) schema.now) indexes.new.fields) }
    ensures damaged { (space : SpaceOf) (n : ℕ) → IsErrOf result (read_fault.Damaged space n) → (space ≡ System) × (IsTrue H.tells →
        IsDamagedAmong (committed slots.now (H.disk host.old)) schema.now lists.now n) }
    ensures agrees { IsTrue H.tells → Agrees slots.now (H.disk host.new) }
    ensures looks { IsTrue H.tells → Looks (H.disk host.old) (H.disk host.new) }
    ensures later { H.faults host.old ≤ H.faults host.new }
    ensures cause { IsErrOf result read_fault.Host → Rose (H.faults host.old) (H.faults host.new) }
    ensures taken { H.taken host.new ≤ H.taken host.old + lists_len slots.now lists.now }
{
    let bases = bases_of(alloc, schema)?;
    for list in lists {
        let index = read_field(alloc, slots, host, schema, &bases, list)?;
        indexes.put_field(list.id, index)?;
    }
    Ok(())
}

/// The lists that the catalog names. `Damaged` tells the first segment that isn't sound.
pub(crate) fn read_lists<H: Host>(
    alloc: Global,
    slots: &SlotStore,
    host: &mut H,
    schema: &Schema,
    lists: &[ListEntry],
) -> Result<Indexes, ReadFault>
    requires agrees { IsTrue H.tells → Agrees slots.now (H.disk host.old) }
    requires ids { map (λ l. l.id) lists.now ≡ list_ids schema.now.classes }
    ensures named { IfOk result (λ l. named_lists l ≡ lists.now) }
    ensures marked { IfOk result IsMarked }
    ensures written { IfOk result AreWritten }
    ensures writable { IfOk result AreWritable }
    ensures classes { IfOk result (λ l. IsTrue (list_all (extent_suits schema.now) (joined (l.extents).chunks))) }
    ensures there { IfOk result (λ l. IsTrue (list_all (is_segment slots.now) (list_numbers l))) }
    ensures bases { IfOk result (λ l. Each (λ f. IsOneOf (f.0, (f.1).base) (bases_in schema.now)) l.fields) }
    ensures extents { IfOk result (λ l. IsTrue H.tells →
        AreNext SpellsExtents (committed slots.now (H.disk host.old)) extent_cmp (extent_suits schema.now) [] (l.extents).chunks) }
    ensures fields { IfOk result (λ l. IsTrue H.tells → Each (IsIndex (committed slots.now (H.disk host.old)) schema.now) l.fields) }
    ensures damaged { (space : SpaceOf) (n : ℕ) → IsErrOf result (read_fault.Damaged space n) → (space ≡ System) × (IsTrue H.tells →
        IsDamagedAmong (committed slots.now (H.disk host.old)) schema.now lists.now n) }
    ensures agrees { IsTrue H.tells → Agrees slots.now (H.disk host.new) }
    ensures looks { IsTrue H.tells → Looks (H.disk host.old) (H.disk host.new) }
    ensures later { H.faults host.old ≤ H.faults host.new }
    ensures cause { IsErrOf result read_fault.Host → Rose (H.faults host.old) (H.faults host.new) }
    ensures taken { H.taken host.new ≤ H.taken host.old + lists_len slots.now lists.now }
{
    schema.keeps_rules();
    let Some((all, fields)) = lists.split_first() else {
        unreachable!()
    };
    let extents = read_extents(alloc, slots, host, schema, all.segments.as_slice())?;
    let mut indexes = Indexes::from_extents(alloc, extents);
    read_fields(alloc, slots, host, schema, fields, &mut indexes)?;
    Ok(indexes)
}
