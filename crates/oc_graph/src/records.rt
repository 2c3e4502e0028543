//! What nodes name, by records and by values in memory.

ghost use Rattle.std.specs.Prelude.{◌≡◌, ◌≤◌, ◌+◌, ◌∷◌, [], ℕ, Some, filter_map, IsTrue, IsErrOf, IfOk};
ghost use Rattle.std.specs.List.{All};
ghost use Rattle.oc_host.specs.Counts.{Rose};
ghost use Rattle.oc_host.specs.Disk.{Looks};
ghost use Rattle.oc_layout.specs.declared.cells.Space.{Space as SpaceOf};
ghost use Rattle.oc_layout.specs.declared.cells.Space.TheVariants.{Objects};
ghost use Rattle.oc_model.specs.Lists.{IsOneOf};
ghost use Rattle.oc_model.specs.Nodes.{named_in as names};
ghost use Rattle.oc_slots.specs.declared.slot.Side.TheVariants.{Session};
ghost use Rattle.oc_slots.specs.Stores.{length_on};
ghost use Rattle.oc_store.specs.declared.fault.ReadFault.TheVariants as read_fault;
ghost use Rattle.oc_store.specs.Filed.{Agrees};
ghost use Rattle.oc_store.specs.Reindexing.{objects_len};
ghost use Rattle.oc_store.specs.Stands.{object_slot};
ghost use Rattle.oc_graph.specs.Objects.{extents_in, keeping, sight, IsDamagedRecord};
ghost use Rattle.oc_graph.specs.Sights.{next_in, node_in, nodes_in, record_next_in, records_of};

use crate::memory::{record_of, values_next};
use crate::naming::named_in;
use crate::nodes::stored_nodes;
use oc_host::Host;
use oc_live::LiveObjects;
use oc_model::reach::Node;
use oc_model::value::Rec;
use oc_store::{ReadFault, Side, Store};
use std::alloc::{AllocError, Global};

/// What the node names: by its values where they are in memory, else by its record in the session.
pub(crate) fn next<H: Host>(
    alloc: Global,
    live: &LiveObjects,
    store: &mut Store,
    host: &mut H,
    node: Node,
) -> Result<Vec<Node>, ReadFault>
    requires { IsTrue H.tells → Agrees store.old (H.disk host.old) }
    ensures value { IfOk result (λ v. IsTrue H.tells → v.items ≡ next_in (sight live.now store.old (H.disk host.old)) node) }
    ensures inside { IfOk result (λ v. All (λ y. IsOneOf y (nodes_in live.now.live (extents_in store.old))) v.items) }
    ensures damaged { (space : SpaceOf) (n : ℕ) → IsErrOf result (read_fault.Damaged space n) → (space ≡ Objects)
        × IsOneOf n (records_of live.now.live (node ∷ [])) × (IsTrue H.tells → IsDamagedRecord store.old (H.disk host.old) n) }
    ensures same { store.new ≡ keeping ((store.new).slots).cached store.old }
    ensures agrees { IsTrue H.tells → Agrees store.new (H.disk host.new) }
    ensures looks { IsTrue H.tells → Looks (H.disk host.old) (H.disk host.new) }
    ensures later { H.faults host.old ≤ H.faults host.new }
    ensures cause { IsErrOf result read_fault.Host → Rose (H.faults host.old) (H.faults host.new) }
    ensures taken { H.taken host.new ≤ H.taken host.old + objects_len (store.old).slots (records_of live.now.live (node ∷ [])) }
{
    let Some(number) = record_of(live, node) else {
        let named = values_next(alloc, live, store.schema(Side::Session), node)?;
        return Ok(named);
    };
    record_next(alloc, live, store, host, number)
}

// What the session's record of the object names.
fn record_next<H: Host>(
    alloc: Global,
    live: &LiveObjects,
    store: &mut Store,
    host: &mut H,
    number: u32,
) -> Result<Vec<Node>, ReadFault>
    requires { IsTrue H.tells → Agrees store.old (H.disk host.old) }
    ensures value { IfOk result (λ v. IsTrue H.tells → v.items ≡ record_next_in (sight live.now store.old (H.disk host.old)) (Some number)) }
    ensures inside { IfOk result (λ v. All (λ y. IsOneOf y (nodes_in live.now.live (extents_in store.old))) v.items) }
    ensures damaged { (space : SpaceOf) (n : ℕ) → IsErrOf result (read_fault.Damaged space n) → (space ≡ Objects)
        × (n ≡ number) × (IsTrue H.tells → IsDamagedRecord store.old (H.disk host.old) n) }
    ensures same { store.new ≡ keeping ((store.new).slots).cached store.old }
    ensures agrees { IsTrue H.tells → Agrees store.new (H.disk host.new) }
    ensures looks { IsTrue H.tells → Looks (H.disk host.old) (H.disk host.new) }
    ensures later { H.faults host.old ≤ H.faults host.new }
    ensures cause { IsErrOf result read_fault.Host → Rose (H.faults host.old) (H.faults host.new) }
    ensures taken { H.taken host.new ≤ H.taken host.old + length_on Session (store.old).slots (object_slot number) }
{
    let Some(rec) = store.fetch(host, Side::Session, number)? else {
        return Ok(Vec::new(alloc));
    };
    let named = named_nodes(alloc, live, store, &rec)?;
    Ok(named)
}

// The nodes that the record names.
fn named_nodes(
    alloc: Global,
    live: &LiveObjects,
    store: &Store,
    rec: &Rec,
) -> Result<Vec<Node>, AllocError>
    ensures { IfOk result (λ v. v.items ≡ filter_map (node_in live.now.live (extents_in store.now)) (names ((store.now).session).schema rec.now.class rec.now.entries)) }
{
    let schema = store.schema(Side::Session);
    let numbers = named_in(alloc, schema, rec.class, rec.entries.as_slice())?;
    stored_nodes(alloc, live, store, &numbers)
}
