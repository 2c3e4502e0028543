//! An object is made in memory.

ghost use Rattle.std.specs.Prelude.{◌≡◌, ◌+◌, ◌-◌, ◌^◌, ◌<◌, length, true, is_some, IfOk, OnOk, OnErr};
ghost use Rattle.oc_model.specs.Schemas.{class_at};
ghost use Rattle.oc_live.specs.Memories.{with_new};
ghost use Rattle.oc_container.specs.Givens.{fields_given, numbers_named};
ghost use Rattle.oc_container.specs.Made.{made_in, unsaved_with, IsChecked};
ghost use Rattle.oc_container.specs.Outlined.{outlined, session_listed};
ghost use Rattle.oc_container.specs.Woken.{HasMore};

use crate::entering::{all_entries, given_entries};
use crate::numbers::numbers_in;
use crate::waking::wake_all;
use oc_live::{Entries, LiveObjects};
use oc_model::command::Given;
use oc_model::value::Entry;
use oc_store::{Side, Store};
use std::alloc::{AllocError, Global};

/// Makes an object of the class with these values, which pass the check, and the defaults elsewhere, and answers its handle. What they
/// name by number is live before it. Where memory ends, memory is as before.
pub(crate) fn make_given(
    alloc: Global,
    store: &Store,
    live: &mut LiveObjects,
    class: u32,
    givens: &[Given],
) -> Result<u64, AllocError>
    requires class { is_some (class_at ((store.now).session).schema class) ≡ true }
    requires checked { IsChecked (outlined store.now live.old) class givens.now }
    requires room { live.old.next_handle + length (numbers_named givens.now) < 2 ^ 64 - 1 }
    ensures made { IfOk result (λ h. (live.new, h) ≡ made_in (session_listed store.now) live.old class (fields_given ((store.now).session).schema class givens.now)) }
    ensures settings { live.new.settings ≡ live.old.settings }
    ensures unchanged { OnErr result (live.new ≡ live.old) }
{
    // Handles stand in one run, which this call tells, so all from `next` on can be taken back.
    let _ = live.first_handle();
    let next = live.next_handle();
    match wake_and_make(alloc, store, live, class, givens) {
        Ok(handle) => Ok(handle),
        Err(fault) => {
            live.undo_to(next);
            Err(fault)
        }
    }
}

// The same, but where memory ends, objects may have been made already.
fn wake_and_make(
    alloc: Global,
    store: &Store,
    live: &mut LiveObjects,
    class: u32,
    givens: &[Given],
) -> Result<u64, AllocError>
    requires class { is_some (class_at ((store.now).session).schema class) ≡ true }
    requires checked { IsChecked (outlined store.now live.old) class givens.now }
    requires room { live.old.next_handle + length (numbers_named givens.now) < 2 ^ 64 - 1 }
    ensures made { IfOk result (λ h. (live.new, h) ≡ made_in (session_listed store.now) live.old class (fields_given ((store.now).session).schema class givens.now)) }
    ensures more { HasMore live.old live.new }
{
    let numbers = numbers_in(alloc, givens)?;
    wake_all(store, live, &numbers)?;
    let schema = store.schema(Side::Session);
    let values = given_entries(alloc, schema, live, class, givens)?;
    let entries = all_entries(alloc, schema, class, &values)?;
    make_object(live, class, entries)
}

// Makes an unsaved object with these entries.
fn make_object(live: &mut LiveObjects, class: u32, entries: Vec<Entry>) -> Result<u64, AllocError>
    requires room { live.old.next_handle < 2 ^ 64 - 1 }
    ensures handle { IfOk result (λ h. h ≡ live.old.next_handle) }
    ensures made { OnOk result (live.new ≡ with_new live.old (unsaved_with class entries.items)) }
    ensures more { HasMore live.old live.new }
{
    let handle = live.make(class)?;
    live.fill(handle, Entries::from_vec(entries));
    Ok(handle)
}
