//! A record is read.

ghost use Rattle.std.specs.Prelude.{◌≡◌, ◌≤◌, ◌+◌, ℕ, Option, Some, is_some, IsTrue, IsErrOf, IfOk, IfSome, OnErr};
ghost use Rattle.oc_host.specs.Counts.{Rose};
ghost use Rattle.oc_host.specs.Disk.{Looks};
ghost use Rattle.oc_layout.specs.declared.cells.Space.{Space as SpaceOf};
ghost use Rattle.oc_layout.specs.declared.cells.Space.TheVariants.{Objects};
ghost use Rattle.oc_model.specs.declared.value.Rec.{Rec as RecOf};
ghost use Rattle.oc_model.specs.Maps.{at};
ghost use Rattle.oc_model.specs.Stores.{Store as StoreOf};
ghost use Rattle.oc_model.specs.StoreRules.{Suits};
ghost use Rattle.oc_marshal.specs.Records.{IsRecord, SpellsRecord};
ghost use Rattle.oc_slots.specs.Stores.{length_on, map_on, place_on, Agrees as AgreeSlots};
ghost use Rattle.oc_store.specs.declared.fault.ReadFault.TheVariants as read_fault;
ghost use Rattle.oc_store.specs.Filed.{class_on, heading_on, side_of, Agrees, IsRead, Shows};
ghost use Rattle.oc_store.specs.Stands.{object_slot};

use crate::fault::ReadFault;
use crate::store::{Store, schema_on};
use oc_host::Host;
use oc_marshal::{DecodeFault, Rec, decode};
use oc_schema::Schema;
use oc_slots::{Side, SlotId, SlotStore, Space};
use std::alloc::Global;

impl Store {
    /// The record of the object of this number on this side, or `None` exactly where that side hasn't the object. `Damaged`
    /// comes exactly where its slot was read, and has bytes that are no record's, or of a record that doesn't suit the
    /// schema of the side or is of another class than the object.
    ///
    /// The bytes of the records that were fetched last are kept in memory, and such a record is not read again. Nothing
    /// else changes.
    pub fn fetch<H: Host>(
        &mut self,
        host: &mut H,
        side: Side,
        number: u32,
    ) -> Result<Option<Rec>, ReadFault>
        requires agrees { IsTrue H.tells → Agrees self.old (H.disk host.old) }
        ensures record { IfOk result (λ found. IsTrue H.tells → (c s : StoreOf) → Shows self.old (H.disk host.old) c s →
            found ≡ at (side_of side c s).records number) }
        ensures read { IfOk result (λ found. IsTrue H.tells →
            IsRead (heading_on side self.old).schema (class_on side self.old number) (map_on side (self.old.slots) (H.disk host.old) (object_slot number)) found) }
        ensures none { IfOk result (λ found. is_some found ≡ is_some (class_on side self.old number)) }
        ensures class { IfOk result (λ found. IfSome found (λ r. class_on side self.old number ≡ Some r.class)) }
        ensures suits { IfOk result (λ found. IfSome found (Suits (heading_on side self.old).schema)) }
        ensures is { IfOk result (λ found. IfSome found IsRecord) }
        ensures damaged { (space : SpaceOf) (n : ℕ) → IsErrOf result (read_fault.Damaged space n) → (space ≡ Objects) × (n ≡ number) × (IsTrue H.tells → (found : Option RecOf) →
            IsRead (heading_on side self.old).schema (class_on side self.old number) (map_on side (self.old.slots) (H.disk host.old) (object_slot number)) found → ⊥) }
        ensures same { self.new ≡ record self.old { slots = record (self.old.slots) { cached = (self.new.slots).cached } } }
        ensures agrees { IsTrue H.tells → Agrees self.new (H.disk host.new) }
        ensures shows { IsTrue H.tells → (c s : StoreOf) → Shows self.old (H.disk host.old) c s → Shows self.new (H.disk host.new) c s }
        ensures looks { IsTrue H.tells → Looks (H.disk host.old) (H.disk host.new) }
        ensures later { H.faults host.old ≤ H.faults host.new }
        ensures cause { IsErrOf result read_fault.Host → Rose (H.faults host.old) (H.faults host.new) }
        ensures taken { H.taken host.new ≤ H.taken host.old + length_on side (self.old.slots) (object_slot number) }
    {
        let class = self.class_of(side, number);
        let schema = schema_on(side, &self.schema, &self.session.schema);
        fetch_record(
            self.alloc,
            &mut self.slots,
            host,
            schema,
            class,
            side,
            number,
        )
    }
}

/// The record of an object of this side, which has this schema and has the object in this class, or `None` where it has no
/// such slot. `Damaged` comes exactly where the slot has bytes that are no record's, or of a record that doesn't suit the
/// schema or is of another class.
pub(crate) fn fetch_record<H: Host>(
    alloc: Global,
    slots: &mut SlotStore,
    host: &mut H,
    schema: &Schema,
    class: Option<u32>,
    side: Side,
    number: u32,
) -> Result<Option<Rec>, ReadFault>
    requires agrees { IsTrue H.tells → AgreeSlots slots.old (H.disk host.old) }
    ensures read { IfOk result (λ found. IsTrue H.tells → IsRead schema.now class (map_on side slots.old (H.disk host.old) (object_slot number)) found) }
    ensures there { IfOk result (λ found. is_some found ≡ is_some (place_on side slots.old (object_slot number))) }
    ensures class { IfOk result (λ found. IfSome found (λ r. class ≡ Some r.class)) }
    ensures suits { IfOk result (λ found. IfSome found (Suits schema.now)) }
    ensures is { IfOk result (λ found. IfSome found IsRecord) }
    ensures damaged { (space : SpaceOf) (n : ℕ) → IsErrOf result (read_fault.Damaged space n) → (space ≡ Objects) × (n ≡ number) × (IsTrue H.tells → (found : Option RecOf) →
        IsRead schema.now class (map_on side slots.old (H.disk host.old) (object_slot number)) found → ⊥) }
    ensures same { slots.new ≡ record slots.old { cached = slots.new.cached } }
    ensures agrees { IsTrue H.tells → AgreeSlots slots.new (H.disk host.new) }
    ensures looks { IsTrue H.tells → Looks (H.disk host.old) (H.disk host.new) }
    ensures later { H.faults host.old ≤ H.faults host.new }
    ensures cause { IsErrOf result read_fault.Host → Rose (H.faults host.old) (H.faults host.new) }
    ensures taken { H.taken host.new ≤ H.taken host.old + length_on side slots.old (object_slot number) }
{
    let Some(bytes) = slots.fetch(host, side, object_slot(number))? else {
        return Ok(None);
    };
    let rec = record_of(alloc, &bytes, schema, class, number)?;
    Ok(Some(rec))
}

/// The slot of the object of this number.
pub(crate) fn object_slot(number: u32) -> SlotId
    ensures { result ≡ object_slot number }
{
    SlotId {
        space: Space::Objects,
        number,
    }
}

// The record of these bytes, if it suits the schema and is of the class.
fn record_of(
    alloc: Global,
    bytes: &[u8],
    schema: &Schema,
    class: Option<u32>,
    number: u32,
) -> Result<Rec, ReadFault>
    ensures spelled { IfOk result (λ r. SpellsRecord r bytes.now) }
    ensures is { IfOk result IsRecord }
    ensures suits { IfOk result (λ r. Suits schema.now r) }
    ensures class { IfOk result (λ r. class ≡ Some r.class) }
    ensures damaged { (space : SpaceOf) (n : ℕ) → IsErrOf result (read_fault.Damaged space n) → (space ≡ Objects) × (n ≡ number) × ((r : RecOf) →
        SpellsRecord r bytes.now → Suits schema.now r → class ≡ Some r.class → ⊥) }
    ensures host { IsErrOf result read_fault.Host → ⊥ }
{
    let rec = decoded(alloc, bytes, number)?;
    if class != Some(rec.class) || !schema.suits(&rec) {
        return Err(damaged_object(number));
    }
    Ok(rec)
}

// The record of these bytes.
fn decoded(alloc: Global, bytes: &[u8], number: u32) -> Result<Rec, ReadFault>
    ensures spelled { IfOk result (λ r. SpellsRecord r bytes.now) }
    ensures only { IfOk result (λ r. (other : RecOf) → SpellsRecord other bytes.now → other ≡ r) }
    ensures damaged { (space : SpaceOf) (n : ℕ) → IsErrOf result (read_fault.Damaged space n) → (space ≡ Objects) × (n ≡ number) × ((r : RecOf) → SpellsRecord r bytes.now → ⊥) }
    ensures host { IsErrOf result read_fault.Host → ⊥ }
{
    match decode(alloc, bytes) {
        Ok(rec) => Ok(rec),
        Err(DecodeFault::NotARecord) => Err(damaged_object(number)),
        Err(DecodeFault::Memory) => Err(ReadFault::Memory),
    }
}

// The fault of an object's slot.
fn damaged_object(number: u32) -> ReadFault
    ensures { result ≡ read_fault.Damaged Objects number }
{
    ReadFault::Damaged {
        space: Space::Objects,
        number,
    }
}
