//! Numbers get objects in memory.

ghost use Rattle.std.specs.Prelude.{◌≡◌, ◌+◌, ◌-◌, ◌^◌, ◌<◌, ◌≤◌, length, Some, OnOk};
ghost use Rattle.oc_model.specs.Stores.{class_of as class_in};
ghost use Rattle.oc_container.specs.Outlined.{session_listed};
ghost use Rattle.oc_container.specs.Woken.{with_each_woken, with_woken, HasMore};

use crate::values::class_of;
use oc_live::LiveObjects;
use oc_store::Store;
use std::alloc::AllocError;

/// Each of these numbers that the session has gets an inactive object in memory where it had none, in this order. Where memory ends,
/// those made so far are there.
pub(crate) fn wake_all(
    store: &Store,
    live: &mut LiveObjects,
    numbers: &[u128],
) -> Result<(), AllocError>
    requires room { live.old.next_handle + length numbers.now < 2 ^ 64 - 1 }
    ensures woken { OnOk result (live.new ≡ with_each_woken (class_in (session_listed store.now)) live.old numbers.now) }
    ensures next { live.new.next_handle ≤ live.old.next_handle + length numbers.now }
    ensures more { HasMore live.old live.new }
{
    for number in numbers {
        wake(store, live, *number)?;
    }
    Ok(())
}

fn wake(store: &Store, live: &mut LiveObjects, number: u128) -> Result<(), AllocError>
    requires room { live.old.next_handle < 2 ^ 64 - 1 }
    ensures woken { OnOk result (live.new ≡ with_woken live.old number (class_in (session_listed store.now) number)) }
    ensures next { live.new.next_handle ≤ live.old.next_handle + 1 }
    ensures more { HasMore live.old live.new }
{
    match class_of(store, number) {
        Some(class) => wake_number(live, number as u32, class),
        None => Ok(()),
    }
}

// Makes an inactive object for the number of an object of the class, where there was none.
fn wake_number(live: &mut LiveObjects, number: u32, class: u32) -> Result<(), AllocError>
    requires room { live.old.next_handle < 2 ^ 64 - 1 }
    ensures woken { OnOk result (live.new ≡ with_woken live.old number (Some class)) }
    ensures next { live.new.next_handle ≤ live.old.next_handle + 1 }
    ensures more { HasMore live.old live.new }
{
    if live.handle_of(number).is_some() {
        return Ok(());
    }
    let handle = live.make(class)?;
    live.enlist(handle, number, false)?;
    Ok(())
}
