//! Objects in memory get their numbers.

ghost use Rattle.std.specs.Prelude.{◌≡◌, ◌≤◌, ◌+◌, ℕ, true, None, is_some, length, OnErr, OnOk};
ghost use Rattle.std.specs.List.{All};
ghost use Rattle.oc_model.specs.Maps.{at};
ghost use Rattle.oc_machine.specs.Memory.{number_at};
ghost use Rattle.oc_live.specs.Memories.{handle_in, with_changed};
ghost use Rattle.oc_store.specs.Numbering.{AreRising};
ghost use Rattle.oc_container.specs.Enlisted.{enlisted, given, IsUnsaved};

use oc_live::LiveObjects;
use std::alloc::AllocError;

/// Gives these unsaved objects the next numbers, in their order. Where memory ends, some of them may have got theirs.
pub(crate) fn enlist_all(
    live: &mut LiveObjects,
    handles: &[u64],
    next: u32,
) -> Result<(), AllocError>
    requires unsaved { All (IsUnsaved live.old) handles.now }
    requires rising { AreRising handles.now }
    requires free { (n : ℕ) → next ≤ n → handle_in live.old.live n ≡ None }
    requires small { next + length handles.now ≤ 2147483647 }
    ensures { OnOk result (live.new ≡ enlisted live.old next handles.now) }
{
    let mut number = next;
    for handle in handles {
        enlist(live, *handle, number)?;
        number += 1;
    }
    Ok(())
}

// Gives the unsaved object a number that no live object has.
fn enlist(live: &mut LiveObjects, handle: u64, number: u32) -> Result<(), AllocError>
    requires unsaved { IsUnsaved live.old handle }
    requires free { handle_in live.old.live number ≡ None }
    ensures ok { OnOk result (live.new ≡ with_changed live.old handle (given number)) }
    ensures err { OnErr result (live.new ≡ live.old) }
{
    let active = live.is_active(handle);
    live.enlist(handle, number, active)
}
