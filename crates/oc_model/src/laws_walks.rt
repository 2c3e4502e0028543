//! Laws of walks.

ghost use Rattle.std.specs.Prelude.{ℕ, ◌≤◌, ◌≡◌, ◌↔◌, Bool, List, Some};
ghost use Rattle.std.specs.FinMap.{find};
ghost use Rattle.oc_model.specs.declared.reach.ClassSettings.{ClassSettings};
ghost use Rattle.oc_model.specs.declared.reach.Node.{Node};
ghost use Rattle.oc_model.specs.Lists.{IsOneOf};
ghost use Rattle.oc_model.specs.Stores.{Store};
ghost use Rattle.oc_model.specs.States.{State};
ghost use Rattle.oc_model.specs.StateRules.{IsState};
ghost use Rattle.oc_model.specs.StateWalks.{activate_walk, deactivate_walk, refresh_walk, peek_walk, store_walk, delete_walk, show_walk};
ghost use Rattle.oc_model.specs.Walks.{Walk, IsLawful, IsBest, Reached, Table, at_least_if, best, clamped, node_cmp, plain_walk};

/// What is computed round by round is what the paths say: the reached nodes with their greatest budgets. There is one such table, and it has the reached nodes and no others.
pub fn best_is_by_paths()
    ensures is { (w : Walk) (root : Node) (depth : ℕ) → IsLawful w → IsOneOf root w.nodes → depth ≤ 65535
        → IsBest w root depth (best w root depth) }
    ensures only { (w : Walk) (root : Node) (depth : ℕ) (t u : Table)
        → IsBest w root depth t → IsBest w root depth u → t ≡ u }
    ensures reached { (w : Walk) (root : Node) (depth : ℕ) (t : Table) → IsBest w root depth t
        → (x : Node) → Reached w root depth x ↔ ((k : ℕ) × (find node_cmp x t ≡ Some k)) }
{}

/// A minimum and a maximum, and at least 1 under a test, keep budgets up to 65,535 there and rise with them. A plain walk whose nodes name nodes alone is lawful.
pub fn budget_rules_are_lawful()
    ensures clamped_small { (s : ClassSettings) (k : ℕ) → clamped s k ≤ s.maximum }
    ensures clamped_rises { (s : ClassSettings) (j k : ℕ) → j ≤ k → clamped s j ≤ clamped s k }
    ensures at_least_small { (b : Bool) (k : ℕ) → k ≤ 65535 → at_least_if b k ≤ 65535 }
    ensures at_least_rises { (b : Bool) (j k : ℕ) → j ≤ k → at_least_if b j ≤ at_least_if b k }
    ensures plain { (nodes : List Node) (next : Node → List Node)
        → ((x y : Node) → IsOneOf y (next x) → IsOneOf y nodes) → IsLawful (plain_walk nodes next) }
{}

/// Each of the seven walks is lawful in every state that keeps its rules, and a peek at any store.
pub fn state_walks_are_lawful()
    ensures activate { (m : State) → IsState m → IsLawful (activate_walk m) }
    ensures deactivate { (m : State) → IsState m → IsLawful (deactivate_walk m) }
    ensures refresh { (m : State) → IsState m → IsLawful (refresh_walk m) }
    ensures peek { (s : Store) → IsLawful (peek_walk s) }
    ensures store { (m : State) → IsState m → IsLawful (store_walk m) }
    ensures delete { (m : State) → IsState m → IsLawful (delete_walk m) }
    ensures show { (m : State) → IsState m → IsLawful (show_walk m) }
{}
