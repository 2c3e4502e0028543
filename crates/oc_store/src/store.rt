//! A store of objects in a file.

ghost use Rattle.std.specs.Prelude.{◌≡◌, [], None, false, unwrap_or};
ghost use Rattle.oc_lists.specs.Keeping.{class_noted};
ghost use Rattle.oc_store.specs.Filed.{side_of};

use oc_index::Indexes;
use oc_schema::Schema;
use oc_slots::{Header, Side, SlotStore};
use std::alloc::Global;
use std::collections::BTreeMap;
use std::marker::Model;

/// Two stores of objects in a file: the committed one, which the last commit left, and the session's, which is that
/// with what has changed since.
///
/// Contracts see the slots, the next number and the schema of each side, the lists as they are and as the last commit left
/// them, and whether a call changed the session since. What the two stores are is told by these and the file (`Shows`).
#[derive(Drop)]
pub struct Store {
    pub(crate) alloc: Global,
    pub(crate) slots: SlotStore,
    pub(crate) schema: Schema,
    pub(crate) next: u32,
    pub(crate) indexes: Indexes,
    pub(crate) session: SessionState,
}

/// What the session has of its own beside slots and lists.
#[derive(Drop)]
pub(crate) struct SessionState {
    // The schema, where it isn't the committed one.
    pub(crate) schema: Option<Schema>,
    pub(crate) next: u32,
    // Of each object that changed since the last commit, the class that the committed side has it in.
    pub(crate) classes: BTreeMap<u32, Option<u32>>,
    // Whether a call changed the session since it began.
    pub(crate) touched: bool,
}

impl SessionState {
    /// Of a session in which nothing changed. It takes no memory.
    pub(crate) fn unchanged(alloc: Global, next: u32) -> SessionState
        ensures schema { result.schema ≡ None }
        ensures next { result.next ≡ next }
        ensures classes { result.classes.entries ≡ [] }
        ensures touched { result.touched ≡ false }
    {
        SessionState {
            schema: None,
            next,
            classes: BTreeMap::new(alloc),
            touched: false,
        }
    }
}

impl Model for Store {
    ghost use Rattle.std.specs.Prelude.{unwrap_or};
    ghost use Rattle.oc_store.specs.Filed.{FiledStore, IsFiled, IsUntouched};

    ghost Value = { FiledStore };

    ghost view = { λ s. record {
      slots = s.slots;
      committed = record { next = s.next; schema = s.schema };
      session = record { next = s.session.next; schema = unwrap_or s.session.schema s.schema };
      lists = s.indexes;
      touched = s.session.touched;
    } };

    ghost invariant = { λ s. IsFiled s.slots (record { next = s.next; schema = s.schema }) (record { next = s.session.next; schema = unwrap_or s.session.schema s.schema }) s.indexes s.session.classes.entries × IsUntouched (record { slots = s.slots; committed = record { next = s.next; schema = s.schema }; session = record { next = s.session.next; schema = unwrap_or s.session.schema s.schema }; lists = s.indexes; touched = s.session.touched }) };
}

impl Store {
    ghost use Rattle.std.specs.Prelude.{◌≡◌, ℕ};
    ghost use Rattle.oc_host.specs.Disk.{Disk};
    ghost use Rattle.oc_model.specs.Stores.{Store as StoreOf, class_of};
    ghost use Rattle.oc_store.specs.Filed.{class_on, heading_on, side_of, Shows};

    /// The class of the object of this number on this side, or `None` exactly where that side hasn't the object. It reads
    /// no slot.
    pub fn class_of(&self, side: Side, number: u32) -> Option<u32>
        ensures class { result ≡ class_on side self.now number }
        ensures stores { (disk : Disk) (c s : StoreOf) → Shows self.now disk c s → result ≡ class_of (side_of side c s) number }
    {
        let listed = self.indexes.extents().class_of(number);
        match side {
            Side::Session => listed,
            Side::Committed => noted(&self.session.classes, number, listed),
        }
    }

    /// The schema of this side.
    pub fn schema(&self, side: Side) -> &Schema
        ensures { result.now ≡ (heading_on side self.now).schema }
    {
        schema_on(side, &self.schema, &self.session.schema)
    }

    /// The number that the session's next object gets.
    pub fn next(&self) -> u32
        ensures { result ≡ (self.now.session).next }
    {
        self.session.next
    }

    /// The lists of the session.
    pub fn indexes(&self) -> &Indexes
        ensures { result.now ≡ self.now.lists }
    {
        &self.indexes
    }

    /// What the first 128 bytes of the file spell.
    pub fn header(&self) -> Header
        ensures { result ≡ (self.now.slots).header }
    {
        self.slots.header()
    }
}

// The class that was noted for an object that changed, or else the one that the session has.
fn noted(classes: &BTreeMap<u32, Option<u32>>, number: u32, listed: Option<u32>) -> Option<u32>
    ensures { result ≡ class_noted classes.now.entries listed number }
{
    match classes.get(&number) {
        Some(class) => *class,
        None => listed,
    }
}

/// The schema of this side, where the session's is the committed one unless it has one of its own.
pub(crate) fn schema_on<'a>(side: Side, schema: &'a Schema, own: &'a Option<Schema>) -> &'a Schema
    ensures { result.now ≡ side_of side schema.now (unwrap_or own.now schema.now) }
{
    match side {
        Side::Committed => schema,
        Side::Session => session_schema(schema, own),
    }
}

fn session_schema<'a>(schema: &'a Schema, own: &'a Option<Schema>) -> &'a Schema
    ensures { result.now ≡ unwrap_or own.now schema.now }
{
    match own {
        Some(own) => own,
        None => schema,
    }
}
