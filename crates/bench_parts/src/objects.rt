//! Objects stored in a file: each has a short name and an indexed number.
ghost use Rattle.std.specs.Prelude.{◌≡◌, ◌≤◌, ◌∷◌, [], IsTrue, IfOk, IfSome};
ghost use Rattle.std.specs.List.{list_all};
ghost use Rattle.oc_model.specs.SchemaRules.{is_name as names};
ghost use Rattle.oc_slots.specs.declared.slot.Side.TheVariants.{Session};
ghost use Rattle.oc_slots.specs.Attaching.{IsMaking};
ghost use Rattle.oc_lists.specs.Changing.{AreRecChanges, IsStorable};
ghost use Rattle.oc_lists.specs.Following.{MayFollow};
ghost use Rattle.oc_store.specs.Filed.{class_on};

use crate::counting::Counting;
use crate::fault::Fault;
use oc_following::laws_of_following;
use oc_lists::{RecChange, storable_of};
use oc_marshal::Rec;
use oc_model::value::{Base, Kind, Txt};
use oc_refactor::{declare, set_index};
use oc_schema::{FieldText, FieldTexts, Schema, is_name};
use oc_store::{Making, Side, Store};
use std::alloc::{AllocError, Global};
use std::rt::Files;

const A_COMMIT: u32 = 100;

const LIMIT: u32 = 2_147_483_647;

/// The record of a pilot, but for the number at its end: 28 of 32 bytes.
const PILOT: &[u8] = b"\0\0\0\x01\0\x02\0\0\0\x01\x06\x01\0\0\0\x07Michael\0\0\0\x02\x04";

/// The order of the numbers.
#[derive(Clone, Copy, PartialEq, Eq)]
pub enum Keys {
    Ascending,
    Scattered,
}

impl Keys {
    fn of(self, number: u32) -> u32 {
        match self {
            Keys::Ascending => number,
            Keys::Scattered => (number as u64 * 37 % 101) as u32,
        }
    }
}

fn making() -> Making
    ensures { IsMaking result }
{
    Making {
        limit: LIMIT,
        first: 1,
        anew: false,
        block: None,
    }
}

fn text(alloc: Global, bytes: &[u8]) -> Result<Txt, AllocError> {
    Txt::from_slice(alloc, bytes)
}

/// A name and a number.
fn fields_of(alloc: Global) -> Result<FieldTexts, AllocError> {
    let mut fields = FieldTexts::new(alloc);
    fields.push(FieldText {
        name: text(alloc, b"name")?,
        kind: Kind::One(Base::Text),
    })?;
    fields.push(FieldText {
        name: text(alloc, b"points")?,
        kind: Kind::One(Base::I32),
    })?;
    Ok(fields)
}

fn are_names(fields: &[FieldText]) -> bool
    ensures { result ≡ list_all (λ d. names d.name) fields.now }
{
    fields.iter().all(|field| is_name(field.name.as_slice()))
}

/// The schema with a class of pilots.
fn with_pilots(alloc: Global, schema: &Schema) -> Result<Schema, Fault>
    ensures { IfOk result (λ t. MayFollow schema.now t) }
{
    laws_of_following();
    schema.keeps_rules();
    let class = text(alloc, b"Pilot")?;
    let fields = fields_of(alloc)?;
    if !is_name(class.as_slice()) || !are_names(fields.as_slice()) {
        return Err(Fault::Lost);
    }
    match declare(alloc, schema, &class, None, &fields) {
        Ok(declared) => Ok(declared),
        Err(_) => Err(Fault::Lost),
    }
}

/// The schema with an index of the pilots' numbers.
fn with_index(alloc: Global, schema: &Schema) -> Result<Schema, Fault>
    ensures { IfOk result (λ t. MayFollow schema.now t) }
{
    laws_of_following();
    schema.keeps_rules();
    let class = text(alloc, b"Pilot")?;
    let field = text(alloc, b"points")?;
    match set_index(alloc, schema, &class, &field, true) {
        Ok(indexed) => Ok(indexed),
        Err(_) => Err(Fault::Lost),
    }
}

/// Gives the store the class, and then the index.
fn prepare<R: Files + Print>(
    alloc: Global,
    store: &mut Store,
    host: &mut Counting<'_, R>,
) -> Result<(), Fault> {
    let declared = with_pilots(alloc, store.schema(Side::Session))?;
    store.set_schema(host, declared)?;
    let indexed = with_index(alloc, store.schema(Side::Session))?;
    store.set_schema(host, indexed)?;
    Ok(())
}

/// The record of a pilot with this number, if the schema has its class.
fn record_of(alloc: Global, schema: &Schema, key: u32) -> Result<Option<Rec>, AllocError>
    ensures { IfOk result (λ o. IfSome o (IsStorable schema.now)) }
{
    let mut bytes = Vec::from_slice(alloc, PILOT)?;
    bytes.extend_from_slice(&key.to_be_bytes())?;
    storable_of(alloc, schema, bytes.as_slice())
}

/// Whether the session has no object of this number and may get one.
fn is_next(store: &Store, change: &RecChange, next: u32) -> bool
    requires { IfSome change.now.rec (IsStorable (store.now.session).schema) }
    ensures { IsTrue result → AreRecChanges (store.now.session).schema (class_on Session store.now) (store.now.session).next next (change.now ∷ []) }
{
    change.number >= 1
        && change.number < next
        && store.next() <= next
        && next <= LIMIT
        && store.class_of(Side::Session, change.number).is_none()
}

/// Stores an object with this number and this key.
fn store_one<R: Files + Print>(
    alloc: Global,
    store: &mut Store,
    host: &mut Counting<'_, R>,
    number: u32,
    key: u32,
) -> Result<(), Fault>
    requires { number ≤ 2000000 }
{
    let Some(rec) = record_of(alloc, store.schema(Side::Session), key)? else {
        return Err(Fault::Lost);
    };
    let change = RecChange {
        number,
        rec: Some(rec),
    };
    if !is_next(store, &change, number + 1) {
        return Err(Fault::Lost);
    }
    let mut changes = Vec::new(alloc);
    changes.push(change)?;
    store.change(host, number + 1, changes)?;
    Ok(())
}

/// Stores so many objects in a new container, with a commit after each 100 and one at the end.
pub fn store_all<R: Files + Print>(
    alloc: Global,
    host: &mut Counting<'_, R>,
    keys: Keys,
    count: u32,
) -> Result<(), Fault>
    requires { count ≤ 2000000 }
{
    let mut store = Store::attach(alloc, host, &making())?;
    prepare(alloc, &mut store, host)?;
    for number in 1..=count {
        store_one(alloc, &mut store, host, number, keys.of(number))?;
        if number % A_COMMIT == 0 || number == count {
            store.commit(host)?;
        }
    }
    Ok(())
}

/// Attaches the store of a file in which so many objects were stored.
pub fn attach<R: Files + Print>(
    alloc: Global,
    host: &mut Counting<'_, R>,
    count: u32,
) -> Result<(), Fault> {
    let store = Store::attach(alloc, host, &making())?;
    if store.next() as u64 == count as u64 + 1 {
        Ok(())
    } else {
        Err(Fault::Lost)
    }
}
