//! The plans.

ghost use Rattle.std.specs.Prelude.{ℕ, ◌≡◌, ◌≤◌, true, List, IfOk, OnOk, IfErr, IsTrue};
ghost use Rattle.std.specs.FinMap.{is_sorted};
ghost use Rattle.std.specs.List.{All};
ghost use Rattle.oc_model.specs.declared.reach.Node.{Node};
ghost use Rattle.oc_model.specs.Lists.{IsOneOf};
ghost use Rattle.oc_model.specs.Walks.{IsBest, node_cmp};
ghost use Rattle.oc_reach.specs.Asking.{AskedOnce};
ghost use Rattle.oc_reach.specs.Graphs.{store_over, delete_over};

use crate::deleting::Deleting;
use crate::storing::Storing;
use oc_reach::{Graph, Node, Settings, reached};
use std::alloc::Global;

/// The nodes that a store reaches from the root with this depth, each once with its greatest budget: live objects by handle, and then numbers.
///
/// It asks of no node twice, and of none that isn't reached.
pub fn plan_store<G: Graph>(
    alloc: Global,
    graph: &mut G,
    settings: &Settings,
    root: Node,
    depth: u32,
) -> Result<Vec<(Node, u32)>, G::Fault>
    requires root { IsOneOf root (G.shown graph.old).nodes }
    requires small { depth ≤ 65535 }
    ensures best { IfOk result (λ v. IsTrue G.tells → IsBest (store_over settings.now (G.shown graph.old)) root depth v.items) }
    ensures order { IfOk result (λ v. is_sorted node_cmp v.items ≡ true) }
    ensures nodes { IfOk result (λ v. All (λ e. IsOneOf e.0 (G.shown graph.old).nodes) v.items) }
    ensures goes { OnOk result ((asked : List Node) × G.Goes graph.old graph.new asked × AskedOnce (store_over settings.now (G.shown graph.old)) G.tells root depth asked) }
    ensures caused { IfErr result (λ f. (asked : List Node) × G.Caused graph.old f graph.new asked × AskedOnce (store_over settings.now (G.shown graph.old)) G.tells root depth asked) }
{
    let mut storing = Storing { graph, settings };
    reached(alloc, &mut storing, root, depth)
}

/// The nodes that a delete reaches from the root, each once: live objects by handle, and then numbers.
///
/// It asks of no node twice, and of none that isn't reached.
pub fn plan_delete<G: Graph>(
    alloc: Global,
    graph: &mut G,
    settings: &Settings,
    root: Node,
) -> Result<Vec<(Node, u32)>, G::Fault>
    requires { IsOneOf root (G.shown graph.old).nodes }
    ensures best { IfOk result (λ v. IsTrue G.tells → IsBest (delete_over settings.now (G.shown graph.old)) root 1 v.items) }
    ensures order { IfOk result (λ v. is_sorted node_cmp v.items ≡ true) }
    ensures nodes { IfOk result (λ v. All (λ e. IsOneOf e.0 (G.shown graph.old).nodes) v.items) }
    ensures goes { OnOk result ((asked : List Node) × G.Goes graph.old graph.new asked × AskedOnce (delete_over settings.now (G.shown graph.old)) G.tells root 1 asked) }
    ensures caused { IfErr result (λ f. (asked : List Node) × G.Caused graph.old f graph.new asked × AskedOnce (delete_over settings.now (G.shown graph.old)) G.tells root 1 asked) }
{
    let mut deleting = Deleting { graph, settings };
    reached(alloc, &mut deleting, root, 1)
}
