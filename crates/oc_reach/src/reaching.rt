//! What a walk reaches.

ghost use Rattle.std.specs.Prelude.{ℕ, ◌≡◌, ◌≤◌, true, List, [], ◌∷◌, IfSome, IfNone, IfOk, OnOk, IfErr, IsTrue};
ghost use Rattle.std.specs.BinaryHeap.{heap_items};
ghost use Rattle.std.specs.FinMap.{is_sorted};
ghost use Rattle.std.specs.List.{All};
ghost use Rattle.std.specs.List.Sorted.{IsPermutation};
ghost use Rattle.oc_model.specs.declared.reach.Node.{Node};
ghost use Rattle.oc_model.specs.Lists.{IsOneOf};
ghost use Rattle.oc_model.specs.Walks.{IsBest, node_cmp, raised};
ghost use Rattle.oc_reach.specs.Asking.{AskedOnce};
ghost use Rattle.oc_reach.specs.Work.{IsRaised};

use crate::Spread;
use crate::key::Key;
use crate::progress::{Progress, offer, turn};
use oc_model::reach::Node;
use std::alloc::{AllocError, Global};
use std::collections::{BTreeMap, BinaryHeap};

/// The root, with the budget with which it arrives.
fn start(alloc: Global, root: Node, budget: u32) -> Result<Progress, AllocError>
    ensures table { IfOk result (λ p. p.budgets.entries ≡ raised [] (root, budget)) }
    ensures answers { IfOk result (λ p. p.answers.entries ≡ []) }
    ensures raises { IfOk result (λ p. (ns : List Node) → IsOneOf root ns → IsRaised ns [] [] p.budgets.entries (heap_items p.work)) }
{
    let mut budgets = BTreeMap::new(alloc);
    let mut work = BinaryHeap::new(alloc);
    offer(&mut budgets, &mut work, root, budget)?;
    Ok(Progress {
        budgets,
        answers: BTreeMap::new(alloc),
        work,
    })
}

/// Takes an entry with the greatest budget.
fn next_entry(work: &mut BinaryHeap<(u32, Key)>) -> Option<(u32, Node)>
    ensures some { IfSome result (λ e. IsPermutation (heap_items work.old) (e ∷ heap_items work.new)) }
    ensures none { IfNone result (heap_items work.old ≡ []) }
{
    let (budget, key) = work.pop()?;
    Some((budget, key.node()))
}

/// The nodes in their order, with their budgets.
fn listed(alloc: Global, budgets: &BTreeMap<Key, u32>) -> Result<Vec<(Node, u32)>, AllocError>
    ensures { IfOk result (λ v. v.items ≡ budgets.now.entries) }
{
    let mut list = Vec::new(alloc);
    for (key, budget) in budgets {
        list.push((key.node(), *budget))?;
    }
    Ok(list)
}

/// The nodes that the walk reaches from the root with this depth, each once with the greatest budget with which it arrives: live objects by handle, and then numbers.
///
/// It asks of no node twice, and of none that isn't reached.
pub fn reached<P: Spread>(
    alloc: Global,
    spread: &mut P,
    root: Node,
    depth: u32,
) -> Result<Vec<(Node, u32)>, P::Fault>
    requires root { IsOneOf root (P.walk spread.old).nodes }
    requires small { depth ≤ 65535 }
    ensures best { IfOk result (λ v. IsTrue P.tells → IsBest (P.walk spread.old) root depth v.items) }
    ensures order { IfOk result (λ v. is_sorted node_cmp v.items ≡ true) }
    ensures nodes { IfOk result (λ v. All (λ e. IsOneOf e.0 (P.walk spread.old).nodes) v.items) }
    ensures goes { OnOk result ((asked : List Node) × P.Goes spread.old spread.new asked × AskedOnce (P.walk spread.old) P.tells root depth asked) }
    ensures caused { IfErr result (λ f. (asked : List Node) × P.Caused spread.old f spread.new asked × AskedOnce (P.walk spread.old) P.tells root depth asked) }
{
    let first = spread.arrive(root, depth);
    let mut progress = start(alloc, root, first)?;
    while let Some((budget, node)) = next_entry(&mut progress.work) {
        turn(spread, &mut progress, node, budget)?;
    }
    Ok(listed(alloc, &progress.budgets)?)
}
