//! The lists brought in step with changes of objects.

ghost use Rattle.std.specs.Prelude.{◌≡◌, ◌<◌, ◌^◌, ◌↔◌, ℕ, Bool, false, ◌==◌, AllPairs, List, length, is_some, IsSome, IsTrue, OnOk, IfSome, All};
ghost use Rattle.std.specs.Ordering.{nat_cmp};
ghost use Rattle.std.specs.BTreeMap.{get};
ghost use Rattle.oc_model.specs.StoreRules.{KeepsStore};
ghost use Rattle.oc_model.specs.Stores.{class_of, Store};
ghost use Rattle.oc_chunks.specs.Ascending.{IsAscending};
ghost use Rattle.oc_chunks.specs.Chunks.{joined};
ghost use Rattle.oc_index.specs.declared.items.ExtentItem.{ExtentItem};
ghost use Rattle.oc_index.specs.Items.{extent_cmp};
ghost use Rattle.oc_lists.specs.Changing.{store_changed, there_after, AreOld, AreRecChanges, IsStorable};
ghost use Rattle.oc_lists.specs.Keeping.{class_noted, AreKept, AreListsOf, AreNoted, AreNumbered};
ghost use Rattle.oc_lists.specs.Lists.{class_in, HasIndexes, HasLists};
ghost use Rattle.oc_lists.specs.Moving.{AreMoved};
ghost use Rattle.oc_lists.specs.Refiling.{class_for, class_of_rec, indexed_for, refiled, relisted, Refiles};
ghost use Rattle.oc_lists.specs.Staying.{keep_key, keeps_key, IsListed, Stay};

use crate::record::RecChange;
use crate::rekeying::rekey;
use oc_index::{Extents, Indexes};
use oc_marshal::Rec;
use oc_schema::Schema;
use std::alloc::{AllocError, Global};
use std::collections::BTreeMap;

/// Brings the lists in step with the changes of objects: `olds` are the records that the objects had.
/// It notes in `classes` the class that each of them had at the mark. Without memory some changes may
/// be made and others not yet: `undo` gives the lists of the mark. A list in which nothing changes is
/// left alone, so a commit needn't write it.
pub fn relist(
    alloc: Global,
    indexes: &mut Indexes,
    classes: &mut BTreeMap<u32, Option<u32>>,
    schema: &Schema,
    olds: &[Option<Rec>],
    changes: &[RecChange],
) -> Result<(), AllocError>
    requires indexes { HasIndexes schema.now indexes.old }
    requires lengths { length olds.now ≡ length changes.now }
    requires distinct { AllPairs (λ a b. (a.number == b.number) ≡ false) changes.now }
    requires storable { All (λ c. IfSome c.rec (IsStorable schema.now)) changes.now }
    ensures extents_marked { indexes.new.extents.marked ≡ indexes.old.extents.marked }
    ensures marked { indexes.new.marked ≡ indexes.old.marked }
    ensures untouched { All (λ c. IsListed (joined indexes.old.extents.chunks) c.number c.rec) changes.now → indexes.new.extents ≡ indexes.old.extents }
    ensures stays { Stay (keep_key schema.now olds.now changes.now) indexes.old indexes.new }
    ensures kept { OnOk result (AreKept indexes.old → AreKept indexes.new) }
    ensures numbered { OnOk result ((has_slot : ℕ → Bool) → AreNumbered has_slot indexes.old → AreNumbered has_slot indexes.new) }
    ensures lists { OnOk result (AreListsOf schema.now indexes.old → AreListsOf schema.now indexes.new) }
    ensures there { OnOk result ((n : ℕ) → is_some (class_in (joined indexes.new.extents.chunks) n) ≡ there_after changes.now n (is_some (class_in (joined indexes.old.extents.chunks) n))) }
    ensures noted { OnOk result ((then : List ExtentItem) → AreNoted classes.old.entries (joined indexes.old.extents.chunks) then → AreNoted classes.new.entries (joined indexes.new.extents.chunks) then) }
    ensures has { OnOk result ((s : Store) (next : ℕ) → KeepsStore s → s.schema ≡ schema.now → AreRecChanges s.schema (class_of s) s.next next changes.now → AreOld s.records changes.now olds.now → HasLists indexes.old s → HasLists indexes.new (store_changed next changes.now s)) }
{
    schema.keeps_rules();
    for place in 0..changes.len() {
        let change = &changes[place];
        relist_one(
            alloc,
            indexes,
            classes,
            schema,
            change.number,
            &olds[place],
            &change.rec,
        )?;
    }
    Ok(())
}

// Brings the lists in step with one change.
fn relist_one(
    alloc: Global,
    indexes: &mut Indexes,
    classes: &mut BTreeMap<u32, Option<u32>>,
    schema: &Schema,
    number: u32,
    old: &Option<Rec>,
    new: &Option<Rec>,
) -> Result<(), AllocError>
    requires { HasIndexes schema.now indexes.old }
    ensures moved { AreMoved indexes.old indexes.new }
    ensures extents { OnOk result (joined indexes.new.extents.chunks ≡ relisted number (class_of_rec new.now) (joined indexes.old.extents.chunks)) }
    ensures entries { OnOk result (Refiles (refiled number old.now new.now (indexed_for schema.now (class_for old.now new.now))) indexes.old indexes.new) }
    ensures untouched { IsListed (joined indexes.old.extents.chunks) number new.now → indexes.new.extents ≡ indexes.old.extents }
    ensures stays { Stay (λ id. keeps_key schema.now id old.now new.now) indexes.old indexes.new }
    ensures noted { OnOk result ((then : List ExtentItem) → AreNoted classes.old.entries (joined indexes.old.extents.chunks) then → AreNoted classes.new.entries (joined indexes.new.extents.chunks) then) }
    ensures small { number < 2 ^ 32 }
{
    note(indexes.extents(), classes, number)?;
    put_or_take(alloc, indexes, number, new)?;
    rekey(alloc, indexes, schema, number, old, new)?;
    Ok(())
}

// Notes the class of the object, unless one was noted.
fn note(
    extents: &Extents,
    classes: &mut BTreeMap<u32, Option<u32>>,
    number: u32,
) -> Result<(), AllocError>
    ensures noted { OnOk result (IsSome (get nat_cmp classes.new number)) }
    ensures still { OnOk result ((n : ℕ) → class_noted classes.new.entries (class_in (joined extents.now.chunks) n) n ≡ class_noted classes.old.entries (class_in (joined extents.now.chunks) n) n) }
{
    if classes.contains_key(&number) {
        return Ok(());
    }
    classes.insert(number, extents.class_of(number))?;
    Ok(())
}

// Puts the object in with its new class, or takes it out. Where it stands so already nothing is touched.
fn put_or_take(
    alloc: Global,
    indexes: &mut Indexes,
    number: u32,
    rec: &Option<Rec>,
) -> Result<(), AllocError>
    ensures moved { AreMoved indexes.old indexes.new }
    ensures extents { OnOk result (joined indexes.new.extents.chunks ≡ relisted number (class_of_rec rec.now) (joined indexes.old.extents.chunks)) }
    ensures untouched { IsListed (joined indexes.old.extents.chunks) number rec.now → indexes.new.extents ≡ indexes.old.extents }
    ensures fields { indexes.new.fields ≡ indexes.old.fields }
{
    if is_listed(indexes.extents(), number, rec) {
        return Ok(());
    }
    match rec {
        Some(rec) => indexes.put(alloc, number, rec.class),
        None => {
            indexes.take(number);
            Ok(())
        }
    }
}

// Whether the object stands in the extents as its record says: with its class, or not at all.
fn is_listed(extents: &Extents, number: u32, rec: &Option<Rec>) -> bool
    ensures listed { IsTrue result ↔ IsListed (joined extents.now.chunks) number rec.now }
    ensures order { IsAscending extent_cmp (joined extents.now.chunks) }
{
    extents.keeps_order();
    match (extents.class_of(number), rec) {
        (Some(class), Some(rec)) => class == rec.class,
        (None, None) => true,
        _ => false,
    }
}
