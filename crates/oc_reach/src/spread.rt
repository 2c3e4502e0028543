//! What a walk needs of its graph and of its rule for budgets.

ghost use Rattle.std.specs.Prelude.{ℕ, Bool, List, [], ◌∷◌, ◌++◌, ◌≡◌, ◌≤◌, IsTrue, IfOk, OnOk, IfErr, alloc_error};
ghost use Rattle.std.specs.List.{All};
ghost use Rattle.oc_model.specs.Lists.{IsOneOf};
ghost use Rattle.oc_model.specs.Walks.{Walk, IsLawful};
ghost use Rattle.oc_model.specs.declared.reach.Node.{Node};

use oc_model::reach::Node;
use std::alloc::AllocError;

/// A graph whose edges are asked for, and a rule for budgets.
pub trait Spread {
    type Fault: From<AllocError> + Drop;

    /// Whether the clauses tell what a node names.
    ghost tells: { Bool };

    /// The nodes, the rule for budgets, and what a node names. The last means something only where `tells` is true.
    ghost walk: { Self → Walk };

    /// Calls that succeed have led from the first state to the second, and these nodes were asked for.
    ghost Goes: { Self → Self → List Node → Type 0 };

    /// The fault may come on the way from the first state to the second, when these nodes were asked for.
    ghost Caused: { Self → Self.Fault → Self → List Node → Type 0 };

    /// What the node names.
    fn next(&mut self, node: Node) -> Result<Vec<Node>, Self::Fault>
        requires { IsOneOf node (walk self.old).nodes }
        ensures value { IfOk result (λ v. IsTrue tells → v.items ≡ (walk self.old).next node) }
        ensures inside { IfOk result (λ v. All (λ y. IsOneOf y (walk self.old).nodes) v.items) }
        ensures goes { OnOk result (Goes self.old self.new (node ∷ [])) }
        ensures caused { IfErr result (λ f. Caused self.old f self.new (node ∷ [])) };

    /// The budget with which the node arrives, by the one that is handed to it.
    fn arrive(&self, node: Node, handed: u32) -> u32
        requires node { IsOneOf node (walk self.now).nodes }
        requires small { handed ≤ 65535 }
        ensures { result ≡ (walk self.now).arrive node handed };

    /// The budget that the node hands on, by the one with which it arrives.
    fn hand(&self, node: Node, budget: u32) -> u32
        requires node { IsOneOf node (walk self.now).nodes }
        requires some { 1 ≤ budget }
        requires small { budget ≤ 65535 }
        ensures { result ≡ (walk self.now).hand node budget };

    /// The walk keeps the laws of walks.
    ghost lawful: { (s : Self) → IsLawful (walk s) };

    /// No call changes the walk.
    ghost same: { (s t : Self) (xs : List Node) → Goes s t xs → walk s ≡ walk t };

    /// Nor does one that answers a fault.
    ghost same_at_fault: { (s t : Self) (f : Self.Fault) (xs : List Node) → Caused s f t xs → walk s ≡ walk t };

    /// With no call the state is the same.
    ghost stays: { (s : Self) → Goes s s [] };

    /// Calls after calls.
    ghost joins: { (s t u : Self) (xs ys : List Node) → Goes s t xs → Goes t u ys → Goes s u (xs ++ ys) };

    /// Memory may run out at any time.
    ghost memory: { (s : Self) (f : Self.Fault) → Self.Fault.from_gives alloc_error f → Caused s f s [] };

    /// A fault after calls.
    ghost fails: { (s t u : Self) (f : Self.Fault) (xs ys : List Node) → Goes s t xs → Caused t f u ys → Caused s f u (xs ++ ys) };
}
