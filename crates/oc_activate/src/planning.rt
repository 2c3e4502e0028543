//! The plans.

ghost use Rattle.std.specs.Prelude.{ℕ, ◌≡◌, ◌≤◌, true, List, IfOk, OnOk, IfErr, IsTrue};
ghost use Rattle.std.specs.FinMap.{is_sorted};
ghost use Rattle.std.specs.List.{All};
ghost use Rattle.oc_model.specs.declared.reach.Node.{Node};
ghost use Rattle.oc_model.specs.Lists.{IsOneOf};
ghost use Rattle.oc_model.specs.Walks.{IsBest, node_cmp};
ghost use Rattle.oc_reach.specs.Asking.{AskedOnce};
ghost use Rattle.oc_reach.specs.Graphs.{AreInRange};
ghost use Rattle.oc_activate.specs.Plans.{walk_over, begins_with};

use crate::walking::Walking;
use oc_reach::{Graph, Node, Settings, reached};
use std::alloc::Global;

/// Which walk a plan is for. What the walk sees is what the graph names.
#[derive(Clone, Copy, PartialEq, Eq)]
pub enum Walk {
    Activate,
    Deactivate,
    Refresh,
    Peek,
    /// It begins with depth 1, whatever depth is given.
    Show,
}

/// The depth with which the walk begins.
fn begins_with(walk: Walk, depth: u32) -> u32
    ensures { result ≡ begins_with walk depth }
{
    match walk {
        Walk::Show => 1,
        _ => depth,
    }
}

/// The nodes that the walk reaches from the root with this depth, each once with its greatest budget: live objects by handle, and then numbers.
///
/// It asks of no node twice, and of none that isn't reached.
pub fn plan<G: Graph>(
    alloc: Global,
    graph: &mut G,
    settings: &Settings,
    walk: Walk,
    root: Node,
    depth: u32,
) -> Result<Vec<(Node, u32)>, G::Fault>
    requires root { IsOneOf root (G.shown graph.old).nodes }
    requires small { depth ≤ 65535 }
    requires settings { AreInRange settings.now }
    ensures best { IfOk result (λ v. IsTrue G.tells → IsBest (walk_over walk settings.now (G.shown graph.old)) root (begins_with walk depth) v.items) }
    ensures order { IfOk result (λ v. is_sorted node_cmp v.items ≡ true) }
    ensures nodes { IfOk result (λ v. All (λ e. IsOneOf e.0 (G.shown graph.old).nodes) v.items) }
    ensures goes { OnOk result ((asked : List Node) × G.Goes graph.old graph.new asked × AskedOnce (walk_over walk settings.now (G.shown graph.old)) G.tells root (begins_with walk depth) asked) }
    ensures caused { IfErr result (λ f. (asked : List Node) × G.Caused graph.old f graph.new asked × AskedOnce (walk_over walk settings.now (G.shown graph.old)) G.tells root (begins_with walk depth) asked) }
{
    let depth = begins_with(walk, depth);
    let mut walking = Walking {
        graph,
        settings,
        walk,
    };
    reached(alloc, &mut walking, root, depth)
}
