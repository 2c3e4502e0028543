//! Nodes: those of numbers, the class of a node, and which of them are unsaved.

ghost use Rattle.std.specs.Prelude.{◌≡◌, ◌++◌, true, Some, filter_map, is_some, option_to_list, IfOk, OnOk};
ghost use Rattle.oc_model.specs.Lists.{IsOneOf};
ghost use Rattle.oc_model.specs.Maps.{at};
ghost use Rattle.oc_model.specs.Nodes.{is_unsaved_at, live_class, node_for as node_by};
ghost use Rattle.oc_lists.specs.Lists.{class_in};
ghost use Rattle.oc_live.specs.Memories.{handle_in};
ghost use Rattle.oc_graph.specs.Objects.{extents_in};
ghost use Rattle.oc_graph.specs.Sights.{is_unsaved_in, node_class_in, node_in, nodes_in};

use oc_live::LiveObjects;
use oc_model::reach::Node;
use oc_store::{Side, Store};
use std::alloc::{AllocError, Global};

/// The nodes of the session's objects that have these numbers. A number that the session hasn't has no node.
pub(crate) fn stored_nodes(
    alloc: Global,
    live: &LiveObjects,
    store: &Store,
    numbers: &[u64],
) -> Result<Vec<Node>, AllocError>
    ensures { IfOk result (λ v. v.items ≡ filter_map (node_in live.now.live (extents_in store.now)) numbers.now) }
{
    let mut nodes = Vec::new(alloc);
    for number in numbers {
        push_some(&mut nodes, node_of(live, store, *number))?;
    }
    Ok(nodes)
}

// Adds the node, if there is one.
fn push_some(nodes: &mut Vec<Node>, node: Option<Node>) -> Result<(), AllocError>
    ensures { OnOk result (nodes.new.items ≡ nodes.old.items ++ option_to_list node) }
{
    if let Some(node) = node {
        nodes.push(node)?;
    }
    Ok(())
}

fn node_of(live: &LiveObjects, store: &Store, number: u64) -> Option<Node>
    ensures { result ≡ node_in live.now.live (extents_in store.now) number }
{
    if number <= u64::from(u32::MAX) && store.class_of(Side::Session, number as u32).is_some() {
        Some(node_for(live, number as u32))
    } else {
        None
    }
}

// The live object that has the number, or the number where none has it.
fn node_for(live: &LiveObjects, number: u32) -> Node
    ensures { result ≡ node_by number (handle_in live.now.live number) }
{
    match live.handle_of(number) {
        Some(handle) => Node::Live(handle),
        None => Node::Number(number),
    }
}

/// The class of the node.
pub(crate) fn class_of(live: &LiveObjects, store: &Store, node: Node) -> u32
    requires { IsOneOf node (nodes_in live.now.live (extents_in store.now)) }
    ensures { node_class_in live.now.live (extents_in store.now) node ≡ Some result }
{
    match node {
        Node::Live(handle) => live_class(live, handle),
        Node::Number(number) => stored_class(store, number),
    }
}

fn live_class(live: &LiveObjects, handle: u64) -> u32
    requires { is_some (at live.now.live handle) ≡ true }
    ensures { live_class (at live.now.live handle) ≡ Some result }
{
    match live.get(handle) {
        Some(object) => object.class,
        None => 0,
    }
}

fn stored_class(store: &Store, number: u32) -> u32
    requires { is_some (class_in (extents_in store.now) number) ≡ true }
    ensures { class_in (extents_in store.now) number ≡ Some result }
{
    store.class_of(Side::Session, number).unwrap_or(0)
}

/// Whether the node is a live object without a number.
pub(crate) fn is_unsaved(live: &LiveObjects, store: &Store, node: Node) -> bool
    requires { IsOneOf node (nodes_in live.now.live (extents_in store.now)) }
    ensures { result ≡ is_unsaved_in live.now.live node }
{
    match node {
        Node::Live(handle) => is_unsaved_at(live, handle),
        Node::Number(_) => false,
    }
}

fn is_unsaved_at(live: &LiveObjects, handle: u64) -> bool
    requires { is_some (at live.now.live handle) ≡ true }
    ensures { result ≡ is_unsaved_at (at live.now.live handle) }
{
    live.number_of(handle).is_none()
}
