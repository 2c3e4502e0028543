//! What is kept in memory of a store, read from its catalog and its segments.

ghost use Rattle.std.specs.Prelude.{◌≡◌, ◌⊎◌, ◌≤◌, ◌+◌, ℕ, [], Some, IsSomeAnd, IsTrue, IsErrOf, IfOk};
ghost use Rattle.oc_host.specs.Counts.{Rose};
ghost use Rattle.oc_host.specs.Disk.{Looks};
ghost use Rattle.oc_layout.specs.declared.cells.Space.{Space as SpaceOf};
ghost use Rattle.oc_layout.specs.declared.cells.Space.TheVariants.{System};
ghost use Rattle.oc_model.specs.Schemas.{empty_schema};
ghost use Rattle.oc_catalog.specs.declared.catalog.Catalog.{Catalog as CatalogOf};
ghost use Rattle.oc_catalog.specs.Catalogs.{IsNext, SpellsCatalog};
ghost use Rattle.oc_slots.specs.declared.slot.Side.TheVariants.{Committed};
ghost use Rattle.oc_slots.specs.Stores.{committed, committed_place, length_on, Agrees};
ghost use Rattle.oc_store.specs.declared.fault.ReadFault.TheVariants as read_fault;
ghost use Rattle.oc_store.specs.Last.{are_small};
ghost use Rattle.oc_store.specs.Listed.{is_there, lists_len};
ghost use Rattle.oc_store.specs.Lists.{system_slot};
ghost use Rattle.oc_lists.specs.Keeping.{list_numbers, AreListsOf, AreNumbered};
ghost use Rattle.oc_lists.specs.Lists.{IsMarked};
ghost use Rattle.oc_store.specs.Outlines.{HasDamagedSegment, HasNoCatalog, IsDamaged, IsOutline};
ghost use Rattle.oc_store.specs.Sides.{AreWritten, IsSide};

use crate::checking::has_just;
use crate::fault::ReadFault;
use crate::lists::read_lists;
use crate::segments::{damaged, system_slot};
use oc_catalog::{Catalog, CatalogFault, read_catalog};
use oc_host::Host;
use oc_index::Indexes;
use oc_schema::Schema;
use oc_slots::{Side, SlotStore};
use std::alloc::Global;

/// The number of the catalog's slot.
const CATALOG: u32 = 1;

/// The next number of a store, its schema and its lists.
#[derive(Drop)]
pub(crate) struct Outline {
    pub(crate) next: u32,
    pub(crate) schema: Schema,
    pub(crate) indexes: Indexes,
}

/// The outline of the store that the committed side has. `Damaged` tells the system's slot that is damaged first: the
/// catalog's bytes are judged, then the segments, and then whether the extents have just the objects that have slots.
pub(crate) fn read_outline<H: Host>(
    alloc: Global,
    slots: &SlotStore,
    host: &mut H,
) -> Result<Outline, ReadFault>
    requires agrees { IsTrue H.tells → Agrees slots.now (H.disk host.old) }
    ensures outline { IfOk result (λ o. IsTrue H.tells → IsOutline (slots.now.header).first (committed slots.now (H.disk host.old)) o.next o.schema o.indexes) }
    ensures side { IfOk result (λ o. IsSide (committed_place slots.now) (record { next = o.next; schema = o.schema }) o.indexes) }
    ensures written { IfOk result (λ o. AreWritten o.indexes) }
    ensures marked { IfOk result (λ o. IsMarked o.indexes) }
    ensures damaged { (space : SpaceOf) (n : ℕ) → IsErrOf result (read_fault.Damaged space n) → (space ≡ System) × (IsTrue H.tells →
        IsDamaged (committed slots.now (H.disk host.old)) n) }
    ensures agrees { IsTrue H.tells → Agrees slots.now (H.disk host.new) }
    ensures looks { IsTrue H.tells → Looks (H.disk host.old) (H.disk host.new) }
    ensures later { H.faults host.old ≤ H.faults host.new }
    ensures cause { IsErrOf result read_fault.Host → Rose (H.faults host.old) (H.faults host.new) }
    ensures taken { IsTrue H.tells → (c : CatalogOf) → IsSomeAnd (committed slots.now (H.disk host.old) (system_slot 1)) (SpellsCatalog c) →
        H.taken host.new ≤ H.taken host.old + length_on Committed slots.now (system_slot 1) + lists_len slots.now c.lists }
    ensures taken_alone { IsTrue H.tells → ((c : CatalogOf) → IsSomeAnd (committed slots.now (H.disk host.old) (system_slot 1)) (SpellsCatalog c) → ⊥) →
        H.taken host.new ≤ H.taken host.old + length_on Committed slots.now (system_slot 1) }
{
    let outline = read_parts(alloc, slots, host)?;
    if !has_just(alloc, slots, outline.indexes.extents(), outline.next)? {
        return Err(damaged(CATALOG));
    }
    Ok(outline)
}

// The outline, before it is compared with the objects' slots.
fn read_parts<H: Host>(alloc: Global, slots: &SlotStore, host: &mut H) -> Result<Outline, ReadFault>
    requires agrees { IsTrue H.tells → Agrees slots.now (H.disk host.old) }
    ensures outline { IfOk result (λ o. IsTrue H.tells → IsOutline (slots.now.header).first (committed slots.now (H.disk host.old)) o.next o.schema o.indexes) }
    ensures next { IfOk result (λ o. IsNext o.next) }
    ensures lists { IfOk result (λ o. AreListsOf o.schema o.indexes) }
    ensures numbered { IfOk result (λ o. AreNumbered (is_there slots.now) o.indexes) }
    ensures small { IfOk result (λ o. IsTrue (are_small (list_numbers o.indexes))) }
    ensures written { IfOk result (λ o. AreWritten o.indexes) }
    ensures marked { IfOk result (λ o. IsMarked o.indexes) }
    ensures damaged { (space : SpaceOf) (n : ℕ) → IsErrOf result (read_fault.Damaged space n) → (space ≡ System) × (IsTrue H.tells →
        ((n ≡ 1) × HasNoCatalog (committed slots.now (H.disk host.old))) ⊎ HasDamagedSegment (committed slots.now (H.disk host.old)) n) }
    ensures agrees { IsTrue H.tells → Agrees slots.now (H.disk host.new) }
    ensures looks { IsTrue H.tells → Looks (H.disk host.old) (H.disk host.new) }
    ensures later { H.faults host.old ≤ H.faults host.new }
    ensures cause { IsErrOf result read_fault.Host → Rose (H.faults host.old) (H.faults host.new) }
    ensures taken { IsTrue H.tells → (c : CatalogOf) → IsSomeAnd (committed slots.now (H.disk host.old) (system_slot 1)) (SpellsCatalog c) →
        H.taken host.new ≤ H.taken host.old + length_on Committed slots.now (system_slot 1) + lists_len slots.now c.lists }
    ensures taken_alone { IsTrue H.tells → ((c : CatalogOf) → IsSomeAnd (committed slots.now (H.disk host.old) (system_slot 1)) (SpellsCatalog c) → ⊥) →
        H.taken host.new ≤ H.taken host.old + length_on Committed slots.now (system_slot 1) }
{
    let found = slots.read(host, Side::Committed, system_slot(CATALOG))?;
    match found {
        Some(bytes) => read_catalogued(alloc, slots, host, &bytes),
        None => Ok(bare(alloc, slots.header().first)),
    }
}

// The outline that a catalog of these bytes leads to.
fn read_catalogued<H: Host>(
    alloc: Global,
    slots: &SlotStore,
    host: &mut H,
    bytes: &[u8],
) -> Result<Outline, ReadFault>
    requires agrees { IsTrue H.tells → Agrees slots.now (H.disk host.old) }
    requires bytes { IsTrue H.tells → committed slots.now (H.disk host.old) (system_slot 1) ≡ Some bytes.now }
    ensures outline { IfOk result (λ o. IsTrue H.tells → IsOutline (slots.now.header).first (committed slots.now (H.disk host.old)) o.next o.schema o.indexes) }
    ensures next { IfOk result (λ o. IsNext o.next) }
    ensures lists { IfOk result (λ o. AreListsOf o.schema o.indexes) }
    ensures numbered { IfOk result (λ o. AreNumbered (is_there slots.now) o.indexes) }
    ensures small { IfOk result (λ o. IsTrue (are_small (list_numbers o.indexes))) }
    ensures written { IfOk result (λ o. AreWritten o.indexes) }
    ensures marked { IfOk result (λ o. IsMarked o.indexes) }
    ensures damaged { (space : SpaceOf) (n : ℕ) → IsErrOf result (read_fault.Damaged space n) → (space ≡ System) × (IsTrue H.tells →
        ((n ≡ 1) × HasNoCatalog (committed slots.now (H.disk host.old))) ⊎ HasDamagedSegment (committed slots.now (H.disk host.old)) n) }
    ensures agrees { IsTrue H.tells → Agrees slots.now (H.disk host.new) }
    ensures looks { IsTrue H.tells → Looks (H.disk host.old) (H.disk host.new) }
    ensures later { H.faults host.old ≤ H.faults host.new }
    ensures cause { IsErrOf result read_fault.Host → Rose (H.faults host.old) (H.faults host.new) }
    ensures taken { (c : CatalogOf) → SpellsCatalog c bytes.now → H.taken host.new ≤ H.taken host.old + lists_len slots.now c.lists }
    ensures taken_alone { ((c : CatalogOf) → SpellsCatalog c bytes.now → ⊥) → H.taken host.new ≤ H.taken host.old }
{
    let catalog = catalog_in(alloc, bytes)?;
    let Catalog {
        next,
        schema,
        lists,
    } = catalog;
    let indexes = read_lists(alloc, slots, host, &schema, lists.as_slice())?;
    Ok(Outline {
        next,
        schema,
        indexes,
    })
}

// The catalog of these bytes.
fn catalog_in(alloc: Global, bytes: &[u8]) -> Result<Catalog, ReadFault>
    ensures spelled { IfOk result (λ c. SpellsCatalog c bytes.now) }
    ensures only { IfOk result (λ c. (other : CatalogOf) → SpellsCatalog other bytes.now → other ≡ c) }
    ensures damaged { (space : SpaceOf) (n : ℕ) → IsErrOf result (read_fault.Damaged space n) → (space ≡ System) × (n ≡ 1) × ((c : CatalogOf) → SpellsCatalog c bytes.now → ⊥) }
    ensures host { IsErrOf result read_fault.Host → ⊥ }
{
    match read_catalog(alloc, bytes) {
        Ok(catalog) => Ok(catalog),
        Err(CatalogFault::NotACatalog) => Err(damaged(CATALOG)),
        Err(CatalogFault::Memory) => Err(ReadFault::Memory),
    }
}

// The outline of a store in which nothing was ever committed.
fn bare(alloc: Global, first: u32) -> Outline
    ensures next { result.next ≡ first }
    ensures schema { result.schema ≡ empty_schema }
    ensures extents { (((result.indexes).extents).chunks ≡ []) × (((result.indexes).extents).marked ≡ []) }
    ensures fields { ((result.indexes).fields ≡ []) × ((result.indexes).marked ≡ []) }
{
    Outline {
        next: first,
        schema: Schema::empty(alloc),
        indexes: Indexes::new(alloc),
    }
}
