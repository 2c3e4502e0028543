//! The graphs that walks go over.

ghost use Rattle.std.specs.Prelude.{ℕ, Bool, List, [], ◌∷◌, ◌++◌, ◌≡◌, Some, IsTrue, IfOk, OnOk, IfErr, alloc_error};
ghost use Rattle.std.specs.List.{All};
ghost use Rattle.oc_model.specs.Lists.{IsOneOf};
ghost use Rattle.oc_model.specs.declared.reach.Node.{Node};
ghost use Rattle.oc_reach.specs.Graphs.{Shown, IsClosed};

use oc_model::reach::Node;
use std::alloc::AllocError;

/// A graph of objects, whose edges are asked for.
pub trait Graph {
    type Fault: From<AllocError> + Drop;

    /// Whether the clauses tell what a node names.
    ghost tells: { Bool };

    /// The nodes, with their classes, which of them are unsaved, and what each names. The last means something only where `tells` is true.
    ghost shown: { Self → Shown };

    /// Calls that succeed have led from the first state to the second, and these nodes were asked for.
    ghost Goes: { Self → Self → List Node → Type 0 };

    /// The fault may come on the way from the first state to the second, when these nodes were asked for.
    ghost Caused: { Self → Self.Fault → Self → List Node → Type 0 };

    /// What the node names.
    fn next(&mut self, node: Node) -> Result<Vec<Node>, Self::Fault>
        requires { IsOneOf node (shown self.old).nodes }
        ensures value { IfOk result (λ v. IsTrue tells → v.items ≡ (shown self.old).next node) }
        ensures inside { IfOk result (λ v. All (λ y. IsOneOf y (shown self.old).nodes) v.items) }
        ensures goes { OnOk result (Goes self.old self.new (node ∷ [])) }
        ensures caused { IfErr result (λ f. Caused self.old f self.new (node ∷ [])) };

    /// The class of the node.
    fn class_of(&self, node: Node) -> u32
        requires { IsOneOf node (shown self.now).nodes }
        ensures { (shown self.now).class node ≡ Some result };

    /// Whether the node is a live object without a number.
    fn unsaved(&self, node: Node) -> bool
        requires { IsOneOf node (shown self.now).nodes }
        ensures { result ≡ (shown self.now).unsaved node };

    /// What a node names is a node.
    ghost closed: { (s : Self) → IsClosed (shown s) };

    /// No call changes the graph.
    ghost same: { (s t : Self) (xs : List Node) → Goes s t xs → shown s ≡ shown t };

    /// Nor does one that answers a fault.
    ghost same_at_fault: { (s t : Self) (f : Self.Fault) (xs : List Node) → Caused s f t xs → shown s ≡ shown t };

    /// With no call the state is the same.
    ghost stays: { (s : Self) → Goes s s [] };

    /// Calls after calls.
    ghost joins: { (s t u : Self) (xs ys : List Node) → Goes s t xs → Goes t u ys → Goes s u (xs ++ ys) };

    /// Memory may run out at any time.
    ghost memory: { (s : Self) (f : Self.Fault) → Self.Fault.from_gives alloc_error f → Caused s f s [] };

    /// A fault after calls.
    ghost fails: { (s t u : Self) (f : Self.Fault) (xs ys : List Node) → Goes s t xs → Caused t f u ys → Caused s f u (xs ++ ys) };
}
