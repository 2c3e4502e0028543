//! Whether the objects that have a slot are just those of the extents.

ghost use Rattle.std.specs.Prelude.{◌≡◌, ◌<◌, ◌++◌, ℕ, map, is_some, AllPairs, IfOk, OnOk};
ghost use Rattle.std.specs.Bool.{OnTrue, OnFalse};
ghost use Rattle.oc_model.specs.Maps.{same};
ghost use Rattle.oc_chunks.specs.Ascending.{Each, IsAscending};
ghost use Rattle.oc_chunks.specs.Chunks.{joined};
ghost use Rattle.oc_index.specs.Items.{extent_cmp};
ghost use Rattle.oc_slots.specs.Stores.{committed_place};
ghost use Rattle.oc_store.specs.Outlines.{HasJust};
ghost use Rattle.oc_store.specs.Stands.{object_slot};

use oc_index::{ExtentItem, Extents};
use oc_slots::{Side, SlotStore, Space};
use std::alloc::{AllocError, Global};

/// Whether the committed side has slots for just the objects of the extents, and their numbers are below the next one.
pub(crate) fn has_just(
    alloc: Global,
    slots: &SlotStore,
    extents: &Extents,
    next: u32,
) -> Result<bool, AllocError>
    ensures yes { IfOk result (λ b. OnTrue b (HasJust (λ n. is_some (committed_place slots.now (object_slot n))) (joined extents.now.chunks) next)) }
    ensures no { IfOk result (λ b. OnFalse b (HasJust (λ n. is_some (committed_place slots.now (object_slot n))) (joined extents.now.chunks) next → ⊥)) }
{
    let numbers = slots.numbers(Side::Committed, Space::Objects)?;
    let listed = numbers_of(alloc, extents)?;
    if !are_same(&listed, &numbers) {
        return Ok(false);
    }
    Ok(are_below(&numbers, next))
}

// The numbers of the objects of the extents, in their order.
fn numbers_of(alloc: Global, extents: &Extents) -> Result<Vec<u32>, AllocError>
    ensures numbers { IfOk result (λ v. v.items ≡ map (λ e. e.number) (joined extents.now.chunks)) }
    ensures ascending { IsAscending extent_cmp (joined extents.now.chunks) }
{
    let chunks = extents.chunks(alloc)?;
    let mut numbers = Vec::new(alloc);
    for chunk in &chunks {
        push_numbers(&mut numbers, chunk.entries)?;
    }
    Ok(numbers)
}

fn push_numbers(numbers: &mut Vec<u32>, entries: &[ExtentItem]) -> Result<(), AllocError>
    ensures { OnOk result (numbers.new.items ≡ numbers.old.items ++ map (λ e. e.number) entries.now) }
{
    for entry in entries {
        numbers.push(entry.number)?;
    }
    Ok(())
}

fn are_same(a: &[u32], b: &[u32]) -> bool
    ensures { result ≡ same a.now b.now }
{
    a == b
}

// Whether the last of the numbers, and so each, is below this one.
fn are_below(numbers: &[u32], next: u32) -> bool
    requires { AllPairs (λ m n. m < n) numbers.now }
    ensures yes { OnTrue result (Each (λ n. n < next) numbers.now) }
    ensures no { OnFalse result (Each (λ n. n < next) numbers.now → ⊥) }
{
    match numbers.last() {
        Some(last) => *last < next,
        None => true,
    }
}
