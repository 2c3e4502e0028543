//! What a commit changes last: the segments of the lists, and the catalog.

ghost use Rattle.std.specs.Prelude.{◌≡◌, ◌⊎◌, ◌<◌, ◌≤◌, ◌++◌, ◌∷◌, ℕ, List, [], None, Some, length, map, flat_map, is_some, true, false, IsTrue, IfOk, IfSome, OnOk};
ghost use Rattle.std.specs.Bool.{OnTrue};
ghost use Rattle.oc_model.specs.Lists.{IsOneOf};
ghost use Rattle.oc_layout.specs.declared.cells.Space.TheVariants.{System};
ghost use Rattle.oc_chunks.specs.Ascending.{Each};
ghost use Rattle.oc_catalog.specs.Catalogs.{segments_of as segments_in, AreLists, IsNext, SpellsCatalog};
ghost use Rattle.oc_slots.specs.Maps.{changed, SlotMap};
ghost use Rattle.oc_slots.specs.Maps.{has_after};
ghost use Rattle.oc_slots.specs.Stores.{committed_place, AreChanges};
ghost use Rattle.oc_lists.specs.Keeping.{list_numbers, AreKept, AreListsOf, AreNumbered, AreWritable};
ghost use Rattle.oc_lists.specs.Lists.{lists_then};
ghost use Rattle.oc_store.specs.Last.{are_small, gone_segments, last_changes, lists_written, numberless_of, numbers_off, system_change, unchanged_of, AreInChunks};
ghost use Rattle.oc_store.specs.Lists.{system_slot};
ghost use Rattle.oc_store.specs.Numbering.{AreLeast, AreRising, IsSegmentNumber};
ghost use Rattle.oc_store.specs.Outlines.{named_lists, IsOutline};
ghost use Rattle.oc_store.specs.Sides.{Heading};

use crate::numbering::{is_among, new_numbers};
use crate::segments::system_slot;
use crate::writing::{count_numberless, write_lists};
use oc_catalog::{ListEntry, write_catalog_of};
use oc_index::Indexes;
use oc_pages::ascending;
use oc_schema::Schema;
use oc_slots::{Bytes, Side, SlotChange, SlotStore, Space};
use std::alloc::{AllocError, Global};

/// The number of the catalog's slot.
const CATALOG: u32 = 1;

/// What a commit changes in the system's slots, and the numbers that the chunks without one get.
#[derive(Drop)]
pub(crate) struct Last {
    pub(crate) changes: Vec<SlotChange>,
    pub(crate) numbers: Vec<u32>,
}

/// What a commit of these lists changes in the system's slots. A segment is written if its chunk has changed or has no
/// number; those of the last commit whose number no chunk has any more are gone; and the catalog is written.
///
/// The chunks without a number get the least numbers that the committed side hasn't.
pub(crate) fn last_of(
    alloc: Global,
    slots: &SlotStore,
    lists: &Indexes,
    next: u32,
    schema: &Schema,
) -> Result<Last, AllocError>
    requires next { IsNext next }
    requires lists { AreListsOf schema.now lists.now }
    requires numbered { AreNumbered (λ n. is_some (committed_place slots.now (system_slot n))) lists.now }
    requires marked { AreNumbered (λ n. is_some (committed_place slots.now (system_slot n))) (lists_then lists.now) }
    requires small { IsTrue (are_small (list_numbers lists.now)) }
    requires marked_small { IsTrue (are_small (list_numbers (lists_then lists.now))) }
    requires kept { AreKept lists.now }
    ensures changes { IfOk result (λ last. AreChanges last.changes.items) }
    ensures made { IfOk result (λ last. (catalog : List ℕ)
        × SpellsCatalog (record { next = next; schema = schema.now; lists = named_lists (lists_written last.numbers.items lists.now) }) catalog
        × (last.changes.items ≡ map system_change (last_changes last.numbers.items lists.now catalog))) }
    ensures system { IfOk result (λ last. Each (λ c. c.id.space ≡ System) last.changes.items) }
    ensures outline { IfOk result (λ last. (first : ℕ) (m : SlotMap) (then : Heading) → IsOutline first m then.next then.schema (lists_then lists.now) →
        IsOutline first (changed last.changes.items m) next schema.now (lists_written last.numbers.items lists.now)) }
    ensures numbered { IfOk result (λ last. AreNumbered (λ n. has_after last.changes.items (system_slot n) (is_some (committed_place slots.now (system_slot n)))) (lists_written last.numbers.items lists.now)) }
    ensures small { IfOk result (λ last. IsTrue (are_small (list_numbers (lists_written last.numbers.items lists.now)))) }
    ensures gone { IfOk result (λ last. Each (λ n. IsOneOf n (list_numbers (lists_written last.numbers.items lists.now)) ⊎ IsOneOf (system_change (n, None)) last.changes.items) (list_numbers (lists_then lists.now))) }
    ensures unwritten { IfOk result (λ last. Each (λ c. IsOneOf c.id.number (unchanged_of lists.now) → ⊥) last.changes.items) }
    ensures count { IfOk result (λ last. length last.numbers.items ≡ numberless_of lists.now) }
    ensures rising { IfOk result (λ last. AreRising last.numbers.items) }
    ensures range { IfOk result (λ last. Each IsSegmentNumber last.numbers.items) }
    ensures unused { IfOk result (λ last. Each (λ n. committed_place slots.now (system_slot n) ≡ None) last.numbers.items) }
    ensures least { IfOk result (λ last. (m n : ℕ) → IsOneOf n last.numbers.items → 2 ≤ m → m < n → IsTrue (is_some (committed_place slots.now (system_slot m))) ⊎ IsOneOf m last.numbers.items) }
{
    schema.keeps_rules();
    let numbers = numbers_for(alloc, slots, lists)?;
    let changes = changes_of(alloc, lists, &numbers, next, schema)?;
    Ok(Last { changes, numbers })
}

// The numbers that the chunks without one get.
fn numbers_for(alloc: Global, slots: &SlotStore, lists: &Indexes) -> Result<Vec<u32>, AllocError>
    requires { AreRising (map (λ f. f.0) lists.now.fields) }
    ensures count { IfOk result (λ v. length v.items ≡ numberless_of lists.now) }
    ensures rising { IfOk result (λ v. AreRising v.items) }
    ensures range { IfOk result (λ v. Each IsSegmentNumber v.items) }
    ensures unused { IfOk result (λ v. Each (λ n. committed_place slots.now (system_slot n) ≡ None) v.items) }
    ensures least { IfOk result (λ v. (m n : ℕ) → IsOneOf n v.items → 2 ≤ m → m < n → IsTrue (is_some (committed_place slots.now (system_slot m))) ⊎ IsOneOf m v.items) }
{
    let used = slots.numbers(Side::Committed, Space::System)?;
    let count = count_numberless(alloc, lists)?;
    let numbers = new_numbers(alloc, &used, count)?;
    Ok(numbers)
}

// The changes, where the chunks without a number get these.
fn changes_of(
    alloc: Global,
    lists: &Indexes,
    numbers: &[u32],
    next: u32,
    schema: &Schema,
) -> Result<Vec<SlotChange>, AllocError>
    requires next { IsNext next }
    requires ids { AreRising (map (λ f. f.0) lists.now.fields) }
    requires writable { AreWritable lists.now }
    requires lists { AreLists schema.now (named_lists (lists_written numbers.now lists.now)) }
    ensures chunks { OnOk result (AreInChunks lists.now) }
    ensures changes { IfOk result (λ v. (catalog : List ℕ)
        × SpellsCatalog (record { next = next; schema = schema.now; lists = named_lists (lists_written numbers.now lists.now) }) catalog
        × (v.items ≡ map system_change (last_changes numbers.now lists.now catalog))) }
{
    let mut changes = Vec::new(alloc);
    let entries = write_lists(alloc, lists, numbers, &mut changes)?;
    put_gone(alloc, lists, &entries, &mut changes)?;
    put_catalog(alloc, next, schema, &entries, &mut changes)?;
    Ok(changes)
}

// Adds the segments of the last commit whose numbers aren't among those of the entries: they are gone.
fn put_gone(
    alloc: Global,
    lists: &Indexes,
    entries: &[ListEntry],
    changes: &mut Vec<SlotChange>,
) -> Result<(), AllocError>
    ensures { OnOk result (changes.new.items ≡ changes.old.items ++ map system_change (gone_segments (numbers_off (segments_in entries.now) (list_numbers (lists_then lists.now))))) }
{
    let marked = lists.marked_numbers(alloc)?;
    let numbers = segments_of(alloc, entries)?;
    if stand_in_order(&marked, &numbers) {
        return Ok(());
    }
    let kept = ascending(alloc, numbers)?;
    for number in &marked {
        put_if_gone(&kept, *number, changes)?;
    }
    Ok(())
}

// Whether all of the first numbers are found among the others in one go, in their order. Where a list lost no chunk, the
// numbers that it had are.
fn stand_in_order(numbers: &[u32], others: &[u32]) -> bool
    ensures { OnTrue result (Each (λ n. IsOneOf n others.now) numbers.now) }
{
    let mut from = 0;
    for number in numbers {
        match place_from(others, from, *number) {
            Some(place) => from = place + 1,
            None => return false,
        }
    }
    true
}

// The place of the number, from that place on.
fn place_from(numbers: &[u32], from: usize, number: u32) -> Option<usize>
    ensures place { IfSome result (λ p. p < length numbers.now) }
    ensures one { IfSome result (λ _. IsOneOf number numbers.now) }
{
    for place in from..numbers.len() {
        if numbers[place] == number {
            return Some(place);
        }
    }
    None
}

// The numbers of all segments of the entries.
fn segments_of(alloc: Global, entries: &[ListEntry]) -> Result<Vec<u32>, AllocError>
    ensures { IfOk result (λ v. v.items ≡ segments_in entries.now) }
{
    let mut numbers = Vec::new(alloc);
    for entry in entries {
        numbers.extend_from_slice(entry.segments.as_slice())?;
    }
    Ok(numbers)
}

// Adds that the segment of this number is gone, unless the number is among those that are kept.
fn put_if_gone(kept: &[u32], number: u32, changes: &mut Vec<SlotChange>) -> Result<(), AllocError>
    requires { AreRising kept.now }
    ensures { OnOk result (changes.new.items ≡ changes.old.items ++ map system_change (gone_segments (numbers_off kept.now (number ∷ [])))) }
{
    if !is_among(kept, number) {
        changes.push(SlotChange {
            id: system_slot(number),
            bytes: None,
        })?;
    }
    Ok(())
}

// Adds the catalog of these parts.
fn put_catalog(
    alloc: Global,
    next: u32,
    schema: &Schema,
    lists: &[ListEntry],
    changes: &mut Vec<SlotChange>,
) -> Result<(), AllocError>
    requires next { IsNext next }
    requires lists { AreLists schema.now lists.now }
    ensures { OnOk result ((catalog : List ℕ)
        × SpellsCatalog (record { next = next; schema = schema.now; lists = lists.now }) catalog
        × (changes.new.items ≡ changes.old.items ++ system_change (1, Some catalog) ∷ [])) }
{
    let bytes = write_catalog_of(alloc, next, schema, lists)?;
    changes.push(SlotChange {
        id: system_slot(CATALOG),
        bytes: Some(Bytes::of(bytes)),
    })?;
    Ok(())
}
