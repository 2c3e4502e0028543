//! How far a walk has come.

ghost use Rattle.std.specs.Prelude.{ℕ, ◌≡◌, ◌≤◌, ◌+◌, length, OnOk, IfOk, OnErr, IfErr, List, [], ◌∷◌, fold, None, Some, is_some};
ghost use Rattle.std.specs.FinMap.{find, put};
ghost use Rattle.std.specs.Option.{option_copied};
ghost use Rattle.std.specs.BinaryHeap.{heap_items};
ghost use Rattle.std.specs.List.{All};
ghost use Rattle.oc_model.specs.declared.reach.Node.{Node};
ghost use Rattle.oc_model.specs.Lists.{IsOneOf};
ghost use Rattle.oc_model.specs.Walks.{Walk, budget, node_cmp, raised};
ghost use Rattle.oc_reach.specs.Work.{IsRaised, arrivals, answers_of, newly, IsAsked, IsUnderWay, AreNew, Adds, all_budgets};

use crate::Spread;
use crate::key::Key;
use oc_model::reach::Node;
use std::alloc::{AllocError, Global};
use std::collections::{BTreeMap, BinaryHeap};

/// The best budgets so far, what was answered for the nodes that were asked for, and the budgets that are left to hand on, each with its node.
#[derive(Drop)]
pub(crate) struct Progress {
    pub(crate) budgets: BTreeMap<Key, u32>,
    pub(crate) answers: BTreeMap<Key, Vec<Node>>,
    pub(crate) work: BinaryHeap<(u32, Key)>,
}

/// The budget of the node, 0 where it isn't there.
#[tactic(auto, using(crate::proofs::Tables::node_found))]
pub(crate) fn budget_of(budgets: &BTreeMap<Key, u32>, node: Node) -> u32
    ensures { result ≡ budget budgets.now.entries node }
{
    budgets.get(&Key::of(node)).copied().unwrap_or(0)
}

/// Raises the budget of the node to this one, where it is smaller, and puts the node on the list of work.
pub(crate) fn offer(
    budgets: &mut BTreeMap<Key, u32>,
    work: &mut BinaryHeap<(u32, Key)>,
    node: Node,
    budget: u32,
) -> Result<(), AllocError>
    ensures table { OnOk result (budgets.new.entries ≡ raised budgets.old.entries (node, budget)) }
    ensures raises { OnOk result ((ns : List Node) → IsOneOf node ns → IsRaised ns budgets.old.entries (heap_items work.old) budgets.new.entries (heap_items work.new)) }
{
    if budget_of(budgets, node) < budget {
        let key = Key::of(node);
        budgets.insert(key, budget)?;
        work.push((budget, key))?;
    }
    Ok(())
}

/// Offers the nodes the budgets with which they arrive where this one is handed to them.
pub(crate) fn hand_on<P: Spread>(
    spread: &P,
    budgets: &mut BTreeMap<Key, u32>,
    work: &mut BinaryHeap<(u32, Key)>,
    nodes: &[Node],
    handed: u32,
) -> Result<(), AllocError>
    requires inside { All (λ y. IsOneOf y (P.walk spread.now).nodes) nodes.now }
    requires small { handed ≤ 65535 }
    ensures table { OnOk result (budgets.new.entries ≡ fold raised budgets.old.entries (arrivals (P.walk spread.now) handed nodes.now)) }
    ensures raises { OnOk result (IsRaised (P.walk spread.now).nodes budgets.old.entries (heap_items work.old) budgets.new.entries (heap_items work.new)) }
{
    for node in nodes {
        let budget = spread.arrive(*node, handed);
        offer(budgets, work, *node, budget)?;
    }
    Ok(())
}

/// Whether an answer is kept for the node.
#[tactic(auto, using(crate::proofs::Tables::known_is))]
fn is_known(answers: &BTreeMap<Key, Vec<Node>>, node: Node) -> bool
    ensures { result ≡ is_some (answers_of (λ v. v.items) answers.now.entries node) }
{
    answers.contains_key(&Key::of(node))
}

/// The answer that is kept for the node.
#[tactic(auto, using(crate::proofs::Tables::node_found))]
fn answer_of(answers: &BTreeMap<Key, Vec<Node>>, node: Node) -> Option<&Vec<Node>>
    ensures { option_copied result ≡ find node_cmp node answers.now.entries }
{
    answers.get(&Key::of(node))
}

/// Keeps the answer for the node.
#[tactic(auto, using(crate::proofs::Tables::entered))]
fn keep(
    answers: &mut BTreeMap<Key, Vec<Node>>,
    node: Node,
    named: Vec<Node>,
) -> Result<(), AllocError>
    ensures { OnOk result (answers.new.entries ≡ put node_cmp node named answers.old.entries) }
{
    answers.insert(Key::of(node), named)?;
    Ok(())
}

/// Asks what the node names, where that isn't known.
pub(crate) fn ask<P: Spread>(
    spread: &mut P,
    answers: &mut BTreeMap<Key, Vec<Node>>,
    node: Node,
) -> Result<(), P::Fault>
    requires { IsOneOf node (P.walk spread.old).nodes }
    ensures asked { OnOk result (IsAsked (P.walk spread.old) P.tells node (answers_of (λ v. v.items) answers.old.entries) (answers_of (λ v. v.items) answers.new.entries)) }
    ensures goes { OnOk result (P.Goes spread.old spread.new (newly (answers_of (λ v. v.items) answers.old.entries) node)) }
    ensures caused { IfErr result (λ f. P.Caused spread.old f spread.new (node ∷ [])) }
    ensures unknown { OnErr result (answers_of (λ v. v.items) answers.old.entries node ≡ None) }
{
    if is_known(answers, node) {
        return Ok(());
    }
    let named = spread.next(node)?;
    keep(answers, node, named)?;
    Ok(())
}

/// Hands this budget on to the nodes that the node names.
fn pass_on<P: Spread>(
    spread: &P,
    progress: &mut Progress,
    node: Node,
    handed: u32,
) -> Result<(), AllocError>
    requires inside { (ys : List Node) → answers_of (λ v. v.items) progress.old.answers.entries node ≡ Some ys → All (λ y. IsOneOf y (P.walk spread.now).nodes) ys }
    requires small { handed ≤ 65535 }
    ensures table { OnOk result ((ys : List Node) → answers_of (λ v. v.items) progress.old.answers.entries node ≡ Some ys → progress.new.budgets.entries ≡ fold raised progress.old.budgets.entries (arrivals (P.walk spread.now) handed ys)) }
    ensures raises { OnOk result (IsRaised (P.walk spread.now).nodes progress.old.budgets.entries (heap_items progress.old.work) progress.new.budgets.entries (heap_items progress.new.work)) }
    ensures answers { progress.new.answers.entries ≡ progress.old.answers.entries }
{
    if let Some(named) = answer_of(&progress.answers, node) {
        hand_on(
            spread,
            &mut progress.budgets,
            &mut progress.work,
            named,
            handed,
        )?;
    }
    Ok(())
}

/// Takes up a node with a budget, which it hands on if no greater one was found since.
pub(crate) fn turn<P: Spread>(
    spread: &mut P,
    progress: &mut Progress,
    node: Node,
    budget: u32,
) -> Result<(), P::Fault>
    requires { (root : Node) × (depth : ℕ) × IsUnderWay (P.walk spread.old) P.tells root depth (answers_of (λ v. v.items) progress.old.answers.entries) progress.old.budgets.entries ((budget, node) ∷ heap_items progress.old.work) }
    ensures under_way { OnOk result ((root : Node) (depth : ℕ) → IsUnderWay (P.walk spread.old) P.tells root depth (answers_of (λ v. v.items) progress.old.answers.entries) progress.old.budgets.entries ((budget, node) ∷ heap_items progress.old.work)
        → IsUnderWay (P.walk spread.old) P.tells root depth (answers_of (λ v. v.items) progress.new.answers.entries) progress.new.budgets.entries (heap_items progress.new.work)) }
    ensures paid { OnOk result (length (heap_items progress.new.work) + all_budgets progress.old.budgets.entries (P.walk spread.old).nodes ≤ length (heap_items progress.old.work) + all_budgets progress.new.budgets.entries (P.walk spread.old).nodes) }
    ensures goes { OnOk result ((asked : List Node) × P.Goes spread.old spread.new asked × Adds (answers_of (λ v. v.items) progress.old.answers.entries) (answers_of (λ v. v.items) progress.new.answers.entries) progress.old.budgets.entries asked) }
    ensures caused { IfErr result (λ f. (asked : List Node) × P.Caused spread.old f spread.new asked × AreNew (answers_of (λ v. v.items) progress.old.answers.entries) progress.old.budgets.entries asked) }
{
    if budget_of(&progress.budgets, node) != budget {
        return Ok(());
    }
    ask(spread, &mut progress.answers, node)?;
    let handed = spread.hand(node, budget);
    pass_on(spread, progress, node, handed)?;
    Ok(())
}
