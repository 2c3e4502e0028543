//! A store over a host in memory, and what the tests of changes do with it.

ghost use Rattle.std.specs.Prelude.{◌≡◌, ◌≤◌, ◌∷◌, [], IsTrue, IfOk, IfSome};
ghost use Rattle.oc_slots.specs.declared.slot.Side.TheVariants.{Session};
ghost use Rattle.oc_slots.specs.Attaching.{IsMaking};
ghost use Rattle.oc_lists.specs.Changing.{AreRecChanges, IsStorable};
ghost use Rattle.oc_store.specs.Filed.{class_on};

use oc_host::MemHost;
use oc_lists::{RecChange, storable_of};
use oc_schema::Schema;
use oc_store::{ChangeFault, Making, Side, Store};
use quiet_host::Quiet;
use std::alloc::{AllocError, Global};

/// The most that the next number may be.
const LAST_NEXT: u32 = 2_147_483_647;

/// What a call on the store answers, or nothing where the call may not be made.
pub type Answer = Option<Result<(), ChangeFault>>;

/// A store and its host.
#[derive(Drop)]
pub struct Trial {
    pub host: Quiet,
    pub store: Store,
}

/// What a container is made as.
pub fn making(limit: u32) -> Making
    requires low { 128 ≤ limit }
    requires high { limit ≤ 2147483647 }
    ensures { IsMaking result }
{
    Making {
        limit,
        first: 1,
        anew: false,
        block: None,
    }
}

/// The store of this file, made of an empty one.
pub fn opened(alloc: Global, bytes: &[u8]) -> Result<Option<Trial>, AllocError> {
    let mut start = Vec::new(alloc);
    start.extend_from_slice(bytes)?;
    let memory = MemHost::new(alloc, start, Vec::new(alloc))?;
    Ok(attached(alloc, Quiet::of(memory), 100_000_000))
}

/// The store of this host.
pub fn attached(alloc: Global, mut host: Quiet, limit: u32) -> Option<Trial>
    requires low { 128 ≤ limit }
    requires high { limit ≤ 2147483647 }
{
    match Store::attach(alloc, &mut host, &making(limit)) {
        Ok(store) => Some(Trial { host, store }),
        Err(_) => None,
    }
}

/// The store of the file as it is now.
pub fn reopened(alloc: Global, trial: &Trial) -> Result<Option<Trial>, AllocError> {
    opened(alloc, trial.host.memory.bytes())
}

// Whether this may become of the object.
fn may_change(store: &Store, change: &RecChange, next: u32) -> bool
    requires storable { IfSome change.now.rec (IsStorable (store.now.session).schema) }
    ensures { IsTrue result → AreRecChanges (store.now.session).schema (class_on Session store.now) (store.now.session).next next (change.now ∷ []) }
{
    change.number >= 1
        && change.number < next
        && store.next() <= next
        && next <= LAST_NEXT
        && keeps_class(store, change)
}

// Whether the object, if the session has it, stays in its class.
fn keeps_class(store: &Store, change: &RecChange) -> bool
    ensures { IsTrue result → IfSome change.now.rec (λ r. IfSome (class_on Session store.now change.now.number) (λ k. k ≡ r.class)) }
{
    match (store.class_of(Side::Session, change.number), &change.rec) {
        (Some(class), Some(rec)) => class == rec.class,
        _ => true,
    }
}

/// Gives the object this record, or takes it away, if that may be done.
pub fn change_one(
    alloc: Global,
    store: &mut Store,
    host: &mut Quiet,
    change: RecChange,
    next: u32,
) -> Result<Answer, AllocError>
    requires storable { IfSome change.rec (IsStorable (store.old.session).schema) }
{
    if !may_change(store, &change, next) {
        return Ok(None);
    }
    let mut changes = Vec::new(alloc);
    changes.push(change)?;
    Ok(Some(store.change(host, next, changes)))
}

/// Gives the object the record of these bytes, if that is a record that the store may take.
pub fn put(
    alloc: Global,
    trial: &mut Trial,
    number: u32,
    bytes: &[u8],
) -> Result<Answer, AllocError> {
    let Trial { host, store } = trial;
    let schema = store.schema(Side::Session);
    let Some(rec) = storable_of(alloc, schema, bytes)? else {
        return Ok(None);
    };
    let next = store.next().max(number.saturating_add(1));
    let change = RecChange {
        number,
        rec: Some(rec),
    };
    change_one(alloc, store, host, change, next)
}

/// Takes the object away.
pub fn take(alloc: Global, trial: &mut Trial, number: u32) -> Result<Answer, AllocError> {
    let Trial { host, store } = trial;
    let next = store.next();
    let change = RecChange { number, rec: None };
    change_one(alloc, store, host, change, next)
}

/// Commits, and tells whether that was done.
pub fn commit(trial: &mut Trial) -> bool {
    trial.store.commit(&mut trial.host).is_ok()
}

/// Gives a store without classes this schema, and tells whether that was done.
pub fn declare(trial: &mut Trial, schema: Schema) -> bool {
    let Trial { host, store } = trial;
    if store.schema(Side::Session).len() != 0 {
        return false;
    }
    schema.keeps_rules();
    store.set_schema(host, schema).is_ok()
}
