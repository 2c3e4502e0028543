//! The session gets another schema, and the indexes that it asks for.

ghost use Rattle.std.specs.Prelude.{◌≡◌, ◌≤◌, ◌+◌, ◌++◌, ◌∷◌, [], ℕ, Bool, false, true, List, Option, map, filter, IsTrue, IsErrOf, IfOk, OnErr, OnOk};
ghost use Rattle.oc_host.specs.Counts.{Rose};
ghost use Rattle.oc_host.specs.Disk.{Looks};
ghost use Rattle.oc_layout.specs.declared.cells.Space.{Space as SpaceOf};
ghost use Rattle.oc_layout.specs.declared.cells.Space.TheVariants.{Objects};
ghost use Rattle.oc_model.specs.declared.value.Rec.{Rec as RecOf};
ghost use Rattle.oc_model.specs.Lists.{IsOneOf};
ghost use Rattle.oc_model.specs.Maps.{at, is_in};
ghost use Rattle.oc_model.specs.SchemaRules.{are_apart};
ghost use Rattle.oc_model.specs.StoreRules.{KeepsStore};
ghost use Rattle.oc_model.specs.Stores.{Store as StoreOf};
ghost use Rattle.oc_chunks.specs.Chunks.{joined};
ghost use Rattle.oc_lists.specs.Following.{has_one_of, newly_indexed as newly_indexed_in, records_of, reindexed, AreEntering, MayFollow};
ghost use Rattle.oc_lists.specs.Keeping.{AreKept, AreListsOf, AreNumbered};
ghost use Rattle.oc_lists.specs.Lists.{class_in, HasLists};
ghost use Rattle.oc_slots.specs.declared.slot.Side.TheVariants.{Session};
ghost use Rattle.oc_slots.specs.Stores.{length_on, session, Agrees as AgreeSlots};
ghost use Rattle.oc_store.specs.declared.fault.ReadFault.TheVariants as read_fault;
ghost use Rattle.oc_store.specs.Filed.{class_on, Agrees, IsFresh, IsRead, Shows};
ghost use Rattle.oc_store.specs.Reindexing.{objects_len, with_schema};
ghost use Rattle.oc_store.specs.Stands.{object_slot, SpellsObject};

use crate::fault::ReadFault;
use crate::fetching::fetch_record;
use crate::rolling_back::give_up;
use crate::store::{Store, schema_on};
use oc_host::Host;
use oc_index::{Extents, Indexes};
use oc_lists::{classes_with, enter_record, newly_indexed, start_indexes};
use oc_schema::Schema;
use oc_slots::{Side, SlotStore};
use oc_value::Base;
use std::alloc::{AllocError, Global};

impl Store {
    /// Gives the session this schema, which may follow the one that it has. Indexes of fields that are no longer indexed end. A
    /// newly indexed field gets its index from the records of the objects whose class has it; each is fetched once. Nothing is
    /// written.
    ///
    /// `Damaged` tells the first of these objects whose record in the session is damaged. After any fault the store is spent, and
    /// its session is given up.
    pub fn set_schema<H: Host>(&mut self, host: &mut H, schema: Schema) -> Result<(), ReadFault>
        requires agrees { IsTrue H.tells → Agrees self.old (H.disk host.old) }
        requires follows { MayFollow (self.old.session).schema schema }
        ensures shows { OnOk result (IsTrue H.tells → (c s : StoreOf) → Shows self.old (H.disk host.old) c s →
            Shows self.new (H.disk host.new) c (with_schema schema s)) }
        ensures agrees { IsTrue H.tells → Agrees self.new (H.disk host.new) }
        ensures committed { self.new.committed ≡ self.old.committed }
        ensures session { OnOk result (self.new.session ≡ record { next = (self.old.session).next; schema = schema }) }
        ensures touched { OnOk result (self.new.touched ≡ true) }
        ensures slots { OnOk result (self.new.slots ≡ record (self.old.slots) { cached = (self.new.slots).cached }) }
        ensures header { (self.new.slots).header ≡ (self.old.slots).header }
        ensures given_up { OnErr result (IsFresh self.new) }
        ensures still { OnErr result (IsTrue H.tells → (c s : StoreOf) → Shows self.old (H.disk host.old) c s → Shows self.new (H.disk host.new) c c) }
        ensures damaged { (space : SpaceOf) (n : ℕ) → IsErrOf result (read_fault.Damaged space n) → (space ≡ Objects)
            × IsOneOf n (reindexed (self.old.session).schema schema (joined ((self.old.lists).extents).chunks)) × (IsTrue H.tells → (found : Option RecOf) →
            IsRead (self.old.session).schema (class_on Session self.old n) (session (self.old.slots) (H.disk host.old) (object_slot n)) found → ⊥) }
        ensures looks { IsTrue H.tells → Looks (H.disk host.old) (H.disk host.new) }
        ensures later { H.faults host.old ≤ H.faults host.new }
        ensures cause { IsErrOf result read_fault.Host → Rose (H.faults host.old) (H.faults host.new) }
        ensures taken { H.taken host.new ≤ H.taken host.old + objects_len (self.old.slots) (reindexed (self.old.session).schema schema (joined ((self.old.lists).extents).chunks)) }
    {
        let alloc = self.alloc;
        let old = schema_on(Side::Session, &self.schema, &self.session.schema);
        let done = reindex(
            alloc,
            &mut self.slots,
            host,
            &mut self.indexes,
            old,
            &schema,
        );
        if let Err(fault) = done {
            give_up(
                alloc,
                &mut self.slots,
                &mut self.indexes,
                &mut self.session,
                self.next,
            );
            return Err(fault);
        }
        self.session.schema = Some(schema);
        self.session.touched = true;
        Ok(())
    }
}

// Makes of the indexes of the one schema those of the other. After a fault some may have ended and others be entered in part.
fn reindex<H: Host>(
    alloc: Global,
    slots: &mut SlotStore,
    host: &mut H,
    indexes: &mut Indexes,
    old: &Schema,
    new: &Schema,
) -> Result<(), ReadFault>
    requires agrees { IsTrue H.tells → AgreeSlots slots.old (H.disk host.old) }
    requires follows { MayFollow old.now new.now }
    requires lists { AreListsOf old.now indexes.old }
    ensures extents { indexes.new.extents ≡ indexes.old.extents }
    ensures marked { indexes.new.marked ≡ indexes.old.marked }
    ensures kept { OnOk result (AreKept indexes.old → AreKept indexes.new) }
    ensures numbered { OnOk result ((has_slot : ℕ → Bool) → AreNumbered has_slot indexes.old → AreNumbered has_slot indexes.new) }
    ensures lists { OnOk result (AreListsOf new.now indexes.new) }
    ensures has { OnOk result (IsTrue H.tells → (s : StoreOf) → s.schema ≡ old.now → KeepsStore s →
        ((n : ℕ) → SpellsObject (session slots.old (H.disk host.old) (object_slot n)) (at s.records n)) → HasLists indexes.old s → HasLists indexes.new (with_schema new.now s)) }
    ensures damaged { (space : SpaceOf) (n : ℕ) → IsErrOf result (read_fault.Damaged space n) → (space ≡ Objects) × IsOneOf n (reindexed old.now new.now (joined indexes.old.extents.chunks)) × (IsTrue H.tells → (found : Option RecOf) →
        IsRead old.now (class_in (joined indexes.old.extents.chunks) n) (session slots.old (H.disk host.old) (object_slot n)) found → ⊥) }
    ensures same { slots.new ≡ record slots.old { cached = slots.new.cached } }
    ensures agrees { IsTrue H.tells → AgreeSlots slots.new (H.disk host.new) }
    ensures looks { IsTrue H.tells → Looks (H.disk host.old) (H.disk host.new) }
    ensures later { H.faults host.old ≤ H.faults host.new }
    ensures cause { IsErrOf result read_fault.Host → Rose (H.faults host.old) (H.faults host.new) }
    ensures taken { H.taken host.new ≤ H.taken host.old + objects_len slots.old (reindexed old.now new.now (joined indexes.old.extents.chunks)) }
{
    let started = newly_indexed(alloc, old, new)?;
    let numbers = objects_with(alloc, indexes.extents(), new, &started)?;
    start_indexes(alloc, indexes, old, new)?;
    enter_objects(alloc, slots, host, indexes, old, new, &started, &numbers)?;
    Ok(())
}

// The objects whose classes have one of these fields, by number.
fn objects_with(
    alloc: Global,
    extents: &Extents,
    schema: &Schema,
    started: &[(u32, Base)],
) -> Result<Vec<u32>, AllocError>
    ensures { IfOk result (λ v. v.items ≡ map (λ e. e.number) (filter (λ e. has_one_of (map (λ f. f.0) started.now) schema.now e.class) (joined extents.now.chunks))) }
{
    let classes = classes_with(alloc, schema, started)?;
    let numbers = extents.of(alloc, &classes)?;
    Ok(numbers)
}

// Enters these objects into the indexes of the fields that were started. Their records suit the old schema.
fn enter_objects<H: Host>(
    alloc: Global,
    slots: &mut SlotStore,
    host: &mut H,
    indexes: &mut Indexes,
    old: &Schema,
    new: &Schema,
    started: &[(u32, Base)],
    numbers: &[u32],
) -> Result<(), ReadFault>
    requires agrees { IsTrue H.tells → AgreeSlots slots.old (H.disk host.old) }
    requires follows { MayFollow old.now new.now }
    requires lists { AreListsOf new.now indexes.old }
    ensures extents { indexes.new.extents ≡ indexes.old.extents }
    ensures marked { indexes.new.marked ≡ indexes.old.marked }
    ensures kept { OnOk result (AreKept indexes.old → AreKept indexes.new) }
    ensures numbered { OnOk result ((has_slot : ℕ → Bool) → AreNumbered has_slot indexes.old → AreNumbered has_slot indexes.new) }
    ensures lists { OnOk result (AreListsOf new.now indexes.new) }
    ensures entered { OnOk result (IsTrue H.tells → (s : StoreOf) → started.now ≡ newly_indexed_in s.schema new.now → KeepsStore s →
        ((n : ℕ) → SpellsObject (session slots.old (H.disk host.old) (object_slot n)) (at s.records n)) → IsTrue (are_apart numbers.now) →
        AreEntering indexes.old s new.now [] → AreEntering indexes.new s new.now (records_of numbers.now s.records)) }
    ensures damaged { (space : SpaceOf) (n : ℕ) → IsErrOf result (read_fault.Damaged space n) → (space ≡ Objects) × IsOneOf n numbers.now × (IsTrue H.tells → (found : Option RecOf) →
        IsRead old.now (class_in (joined indexes.old.extents.chunks) n) (session slots.old (H.disk host.old) (object_slot n)) found → ⊥) }
    ensures same { slots.new ≡ record slots.old { cached = slots.new.cached } }
    ensures agrees { IsTrue H.tells → AgreeSlots slots.new (H.disk host.new) }
    ensures looks { IsTrue H.tells → Looks (H.disk host.old) (H.disk host.new) }
    ensures later { H.faults host.old ≤ H.faults host.new }
    ensures cause { IsErrOf result read_fault.Host → Rose (H.faults host.old) (H.faults host.new) }
    ensures taken { H.taken host.new ≤ H.taken host.old + objects_len slots.old numbers.now }
{
    for number in numbers {
        enter_object(alloc, slots, host, indexes, old, new, started, *number)?;
    }
    Ok(())
}

// Enters the object, if the session has it.
fn enter_object<H: Host>(
    alloc: Global,
    slots: &mut SlotStore,
    host: &mut H,
    indexes: &mut Indexes,
    old: &Schema,
    new: &Schema,
    started: &[(u32, Base)],
    number: u32,
) -> Result<(), ReadFault>
    requires agrees { IsTrue H.tells → AgreeSlots slots.old (H.disk host.old) }
    requires follows { MayFollow old.now new.now }
    requires lists { AreListsOf new.now indexes.old }
    ensures extents { indexes.new.extents ≡ indexes.old.extents }
    ensures marked { indexes.new.marked ≡ indexes.old.marked }
    ensures kept { OnOk result (AreKept indexes.old → AreKept indexes.new) }
    ensures numbered { OnOk result ((has_slot : ℕ → Bool) → AreNumbered has_slot indexes.old → AreNumbered has_slot indexes.new) }
    ensures lists { OnOk result (AreListsOf new.now indexes.new) }
    ensures entered { OnOk result (IsTrue H.tells → (s : StoreOf) → started.now ≡ newly_indexed_in s.schema new.now → KeepsStore s →
        SpellsObject (session slots.old (H.disk host.old) (object_slot number)) (at s.records number) → (done : List ℕ) → is_in done number ≡ false →
        AreEntering indexes.old s new.now (records_of done s.records) → AreEntering indexes.new s new.now (records_of (done ++ number ∷ []) s.records)) }
    ensures damaged { (space : SpaceOf) (n : ℕ) → IsErrOf result (read_fault.Damaged space n) → (space ≡ Objects) × (n ≡ number) × (IsTrue H.tells → (found : Option RecOf) →
        IsRead old.now (class_in (joined indexes.old.extents.chunks) n) (session slots.old (H.disk host.old) (object_slot n)) found → ⊥) }
    ensures same { slots.new ≡ record slots.old { cached = slots.new.cached } }
    ensures agrees { IsTrue H.tells → AgreeSlots slots.new (H.disk host.new) }
    ensures looks { IsTrue H.tells → Looks (H.disk host.old) (H.disk host.new) }
    ensures later { H.faults host.old ≤ H.faults host.new }
    ensures cause { IsErrOf result read_fault.Host → Rose (H.faults host.old) (H.faults host.new) }
    ensures taken { H.taken host.new ≤ H.taken host.old + length_on Session slots.old (object_slot number) }
{
    let class = indexes.extents().class_of(number);
    let Some(rec) = fetch_record(alloc, slots, host, old, class, Side::Session, number)? else {
        return Ok(());
    };
    enter_record(alloc, indexes, started, new, number, &rec)?;
    Ok(())
}
