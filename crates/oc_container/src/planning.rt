//! Which objects in memory a store reaches.

ghost use Rattle.std.specs.Prelude.{◌≡◌, ◌≤◌, ◌+◌, ◌++◌, ℕ, List, true, is_some, filter_map, option_to_list, IsTrue, IsErrOf, IfOk, OnOk};
ghost use Rattle.std.specs.FinMap.{is_sorted};
ghost use Rattle.std.specs.List.{All};
ghost use Rattle.oc_host.specs.Counts.{Rose};
ghost use Rattle.oc_host.specs.Disk.{Looks};
ghost use Rattle.oc_layout.specs.declared.cells.Space.{Space as SpaceOf};
ghost use Rattle.oc_layout.specs.declared.cells.Space.TheVariants.{Objects as ObjectSpace};
ghost use Rattle.oc_model.specs.declared.reach.Node.{Node as NodeOf};
ghost use Rattle.oc_model.specs.declared.reach.Node.TheVariants as node;
ghost use Rattle.oc_model.specs.Lists.{IsOneOf};
ghost use Rattle.oc_model.specs.Maps.{at};
ghost use Rattle.oc_model.specs.StateWalks.{store_walk};
ghost use Rattle.oc_model.specs.States.{State};
ghost use Rattle.oc_model.specs.Walks.{best, node_cmp, IsBest};
ghost use Rattle.oc_machine.specs.Memory.{handle_in, handles_in};
ghost use Rattle.oc_live.specs.Memories.{memory_of};
ghost use Rattle.oc_reach.specs.Graphs.{store_over};
ghost use Rattle.oc_graph.specs.Objects.{extents_in, sight, IsDamagedRecord};
ghost use Rattle.oc_graph.specs.Sights.{graph_in, nodes_in, records_of};
ghost use Rattle.oc_graph.specs.States.{NamesLive};
ghost use Rattle.oc_store.specs.Filed.{Agrees, Shows};
ghost use Rattle.oc_store.specs.Numbering.{AreRising};
ghost use Rattle.oc_store.specs.Reindexing.{objects_len};
ghost use Rattle.oc_store.specs.declared.fault.ReadFault.TheVariants as read_fault;
ghost use Rattle.oc_container.specs.declared.fault.Fault.TheVariants as line_fault;
ghost use Rattle.oc_container.specs.Contained.{keeping};
ghost use Rattle.oc_container.specs.Planned.{AskedFor};

use crate::fault::Fault;
use oc_graph::Objects;
use oc_host::Host;
use oc_live::LiveObjects;
use oc_model::reach::Node;
use oc_store::{ReadFault, Store};
use oc_update::plan_store;
use std::alloc::{AllocError, Global};

/// The handles of the objects in memory that a store reaches from the object of this handle with this depth, ascending.
///
/// It reads the records of what it reaches where values aren't in memory, each once, and changes nothing but which slots are kept.
pub(crate) fn reached_by_store<H: Host>(
    alloc: Global,
    store: &mut Store,
    host: &mut H,
    live: &LiveObjects,
    handle: u64,
    depth: u32,
) -> Result<Vec<u64>, Fault>
    requires agrees { IsTrue H.tells → Agrees store.old (H.disk host.old) }
    requires live { is_some (at live.now.live handle) ≡ true }
    requires small { depth ≤ 65535 }
    ensures handles { IfOk result (λ v. IsTrue H.tells → (m : State) → Shows store.old (H.disk host.old) m.committed m.session → live.now ≡ memory_of m → NamesLive m →
        v.items ≡ handles_in (best (store_walk m) (node.Live handle) depth)) }
    ensures live { IfOk result (λ v. All (λ h. is_some (at live.now.live h) ≡ true) v.items) }
    ensures rising { IfOk result (λ v. AreRising v.items) }
    ensures unchanged { store.new ≡ keeping ((store.new).slots).cached store.old }
    ensures agrees { IsTrue H.tells → Agrees store.new (H.disk host.new) }
    ensures looks { IsTrue H.tells → Looks (H.disk host.old) (H.disk host.new) }
    ensures later { H.faults host.old ≤ H.faults host.new }
    ensures cause { IsErrOf result line_fault.Host → Rose (H.faults host.old) (H.faults host.new) }
    ensures asked { (asked : List NodeOf) × AskedFor H.tells live.now store.old (H.disk host.old) handle depth asked
        × (H.taken host.new ≤ H.taken host.old + objects_len (store.old).slots (records_of live.now.live asked))
        × ((space : SpaceOf) (n : ℕ) → IsErrOf result (line_fault.Damaged space n) → (space ≡ ObjectSpace)
        × IsOneOf n (records_of live.now.live asked) × (IsTrue H.tells → IsDamagedRecord store.old (H.disk host.old) n)) }
{
    let nodes = planned(alloc, store, host, live, handle, depth)?;
    let handles = handles_of(alloc, &nodes)?;
    Ok(handles)
}

// The nodes that the store reaches.
fn planned<H: Host>(
    alloc: Global,
    store: &mut Store,
    host: &mut H,
    live: &LiveObjects,
    handle: u64,
    depth: u32,
) -> Result<Vec<(Node, u32)>, ReadFault>
    requires agrees { IsTrue H.tells → Agrees store.old (H.disk host.old) }
    requires live { is_some (at live.now.live handle) ≡ true }
    requires small { depth ≤ 65535 }
    ensures best { IfOk result (λ v. IsTrue H.tells → IsBest (store_over live.now.settings (graph_in H.tells (sight live.now store.old (H.disk host.old)))) (node.Live handle) depth v.items) }
    ensures order { IfOk result (λ v. is_sorted node_cmp v.items ≡ true) }
    ensures nodes { IfOk result (λ v. All (λ e. IsOneOf e.0 (nodes_in live.now.live (extents_in store.old))) v.items) }
    ensures unchanged { store.new ≡ keeping ((store.new).slots).cached store.old }
    ensures agrees { IsTrue H.tells → Agrees store.new (H.disk host.new) }
    ensures looks { IsTrue H.tells → Looks (H.disk host.old) (H.disk host.new) }
    ensures later { H.faults host.old ≤ H.faults host.new }
    ensures cause { IsErrOf result read_fault.Host → Rose (H.faults host.old) (H.faults host.new) }
    ensures asked { (asked : List NodeOf) × AskedFor H.tells live.now store.old (H.disk host.old) handle depth asked
        × (H.taken host.new ≤ H.taken host.old + objects_len (store.old).slots (records_of live.now.live asked))
        × ((space : SpaceOf) (n : ℕ) → IsErrOf result (read_fault.Damaged space n) → (space ≡ ObjectSpace)
        × IsOneOf n (records_of live.now.live asked) × (IsTrue H.tells → IsDamagedRecord store.old (H.disk host.old) n)) }
{
    let mut objects = Objects::over(alloc, live, store, host);
    let settings = live.settings();
    let nodes = plan_store(alloc, &mut objects, settings, Node::Live(handle), depth);
    let (store, host) = objects.into_parts();
    give_back(store, host);
    nodes
}

// The handles among the nodes.
fn handles_of(alloc: Global, reached: &[(Node, u32)]) -> Result<Vec<u64>, AllocError>
    ensures { IfOk result (λ v. v.items ≡ handles_in reached.now) }
{
    let mut handles = Vec::new(alloc);
    for (node, _) in reached {
        push_if_live(&mut handles, *node)?;
    }
    Ok(handles)
}

// Adds the handle, if the node is a live object.
fn push_if_live(handles: &mut Vec<u64>, node: Node) -> Result<(), AllocError>
    ensures { OnOk result (handles.new.items ≡ handles.old.items ++ option_to_list (handle_in node)) }
{
    if let Node::Live(handle) = node {
        handles.push(handle)?;
    }
    Ok(())
}

// Both stay as they are.
fn give_back<H>(store: &mut Store, host: &mut H)
    ensures store { store.new ≡ store.old }
    ensures host { host.new ≡ host.old }
{}
