//! The records that objects have in the session before they change.

ghost use Rattle.std.specs.Prelude.{◌≡◌, ◌≤◌, ◌+◌, ℕ, Option, is_some, map, IsTrue, IsErrOf, IfOk, IfSome};
ghost use Rattle.oc_host.specs.Counts.{Rose};
ghost use Rattle.oc_host.specs.Disk.{Looks};
ghost use Rattle.oc_layout.specs.declared.cells.Space.{Space as SpaceOf};
ghost use Rattle.oc_layout.specs.declared.cells.Space.TheVariants.{Objects};
ghost use Rattle.oc_model.specs.declared.value.Rec.{Rec as RecOf};
ghost use Rattle.oc_model.specs.Lists.{IsOneOf};
ghost use Rattle.oc_model.specs.Maps.{at, Map};
ghost use Rattle.oc_model.specs.StoreRules.{Suits};
ghost use Rattle.oc_chunks.specs.Ascending.{Each};
ghost use Rattle.oc_chunks.specs.Chunks.{joined};
ghost use Rattle.oc_lists.specs.Changing.{AreOld};
ghost use Rattle.oc_lists.specs.Lists.{class_in};
ghost use Rattle.oc_slots.specs.Stores.{session, session_place, Agrees};
ghost use Rattle.oc_store.specs.declared.fault.ReadFault.TheVariants as read_fault;
ghost use Rattle.oc_store.specs.Changed.{old_len, AreOfClasses};
ghost use Rattle.oc_store.specs.Filed.{IsRead};
ghost use Rattle.oc_store.specs.Stands.{object_slot, SpellsObject};

use crate::fault::ReadFault;
use crate::fetching::fetch_record;
use oc_host::Host;
use oc_index::Extents;
use oc_lists::RecChange;
use oc_marshal::Rec;
use oc_schema::Schema;
use oc_slots::{Side, SlotStore};
use std::alloc::Global;

/// The records that these objects have in the session, which has this schema and these extents: `None` for each that isn't
/// there. `Damaged` tells the first that is damaged.
pub(crate) fn fetch_olds<H: Host>(
    alloc: Global,
    slots: &mut SlotStore,
    host: &mut H,
    schema: &Schema,
    extents: &Extents,
    changes: &[RecChange],
) -> Result<Vec<Option<Rec>>, ReadFault>
    requires agrees { IsTrue H.tells → Agrees slots.old (H.disk host.old) }
    requires listed { (n : ℕ) → is_some (session_place slots.old (object_slot n)) ≡ is_some (class_in (joined extents.now.chunks) n) }
    ensures olds { IfOk result (λ v. IsTrue H.tells → (m : Map RecOf) →
        ((n : ℕ) → SpellsObject (session slots.old (H.disk host.old) (object_slot n)) (at m n)) → AreOld m changes.now v.items) }
    ensures classes { IfOk result (λ v. AreOfClasses (class_in (joined extents.now.chunks)) changes.now v.items) }
    ensures suit { IfOk result (λ v. Each (λ o. IfSome o (Suits schema.now)) v.items) }
    ensures damaged { (space : SpaceOf) (n : ℕ) → IsErrOf result (read_fault.Damaged space n) → (space ≡ Objects) × IsOneOf n (map (λ c. c.number) changes.now) × (IsTrue H.tells → (found : Option RecOf) →
        IsRead schema.now (class_in (joined extents.now.chunks) n) (session slots.old (H.disk host.old) (object_slot n)) found → ⊥) }
    ensures same { slots.new ≡ record slots.old { cached = slots.new.cached } }
    ensures agrees { IsTrue H.tells → Agrees slots.new (H.disk host.new) }
    ensures looks { IsTrue H.tells → Looks (H.disk host.old) (H.disk host.new) }
    ensures later { H.faults host.old ≤ H.faults host.new }
    ensures cause { IsErrOf result read_fault.Host → Rose (H.faults host.old) (H.faults host.new) }
    ensures taken { H.taken host.new ≤ H.taken host.old + old_len slots.old changes.now }
{
    let mut olds = Vec::new(alloc);
    for change in changes {
        let number = change.number;
        let class = extents.class_of(number);
        let old = fetch_record(alloc, slots, host, schema, class, Side::Session, number)?;
        olds.push(old)?;
    }
    Ok(olds)
}
