//! Nodes that are live objects.

ghost use Rattle.std.specs.Prelude.{◌≡◌, ◌++◌, ◌∷◌, [], if◌then◌else◌, IfOk, OnOk};
ghost use Rattle.oc_model.specs.declared.reach.Node.TheVariants as node_of;
ghost use Rattle.oc_model.specs.Maps.{at};
ghost use Rattle.oc_graph.specs.Sights.{live_nodes_in, record_of as read_for, record_of_live, values_at, values_next_in};

use crate::naming::named_in;
use oc_live::LiveObjects;
use oc_model::reach::Node;
use oc_schema::Schema;
use std::alloc::{AllocError, Global};

/// The number of the record that is read to tell what a node names, none where its values are in memory.
pub(crate) fn record_of(live: &LiveObjects, node: Node) -> Option<u32>
    ensures { result ≡ read_for live.now.live node }
{
    match node {
        Node::Live(handle) => record_of_live(live, handle),
        Node::Number(number) => Some(number),
    }
}

fn record_of_live(live: &LiveObjects, handle: u64) -> Option<u32>
    ensures { result ≡ record_of_live (at live.now.live handle) }
{
    let number = live.number_of(handle)?;
    if live.is_active(handle) {
        return None;
    }
    Some(number)
}

/// What the values in memory of the node's live object name. A handle that isn't live names nothing.
pub(crate) fn values_next(
    alloc: Global,
    live: &LiveObjects,
    schema: &Schema,
    node: Node,
) -> Result<Vec<Node>, AllocError>
    ensures { IfOk result (λ v. v.items ≡ values_at live.now.live schema.now node) }
{
    match node {
        Node::Live(handle) => live_next(alloc, live, schema, handle),
        Node::Number(_) => Ok(Vec::new(alloc)),
    }
}

fn live_next(
    alloc: Global,
    live: &LiveObjects,
    schema: &Schema,
    handle: u64,
) -> Result<Vec<Node>, AllocError>
    ensures { IfOk result (λ v. v.items ≡ values_next_in live.now.live schema.now (at live.now.live handle)) }
{
    let Some(object) = live.get(handle) else {
        return Ok(Vec::new(alloc));
    };
    let handles = named_in(alloc, schema, object.class, object.entries.as_slice())?;
    live_nodes(alloc, live, &handles)
}

fn live_nodes(alloc: Global, live: &LiveObjects, handles: &[u64]) -> Result<Vec<Node>, AllocError>
    ensures { IfOk result (λ v. v.items ≡ live_nodes_in live.now.live handles.now) }
{
    let mut nodes = Vec::new(alloc);
    for handle in handles {
        push_if(&mut nodes, *handle, live.is_live(*handle))?;
    }
    Ok(nodes)
}

// Adds the node of the handle, if it is live.
fn push_if(nodes: &mut Vec<Node>, handle: u64, is_live: bool) -> Result<(), AllocError>
    ensures { OnOk result (nodes.new.items ≡ nodes.old.items ++ (if is_live then node_of.Live handle ∷ [] else [])) }
{
    if is_live {
        nodes.push(Node::Live(handle))?;
    }
    Ok(())
}
