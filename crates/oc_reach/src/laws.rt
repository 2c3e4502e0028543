//! Laws of the walks over graphs.

ghost use Rattle.std.specs.Prelude.{◌≡◌, List, map, None, false};
ghost use Rattle.oc_model.specs.declared.reach.Node.{Node};
ghost use Rattle.oc_model.specs.declared.reach.Node.TheVariants as node;
ghost use Rattle.oc_model.specs.Maps.{keys};
ghost use Rattle.oc_model.specs.Nodes.{view_next, refresh_next, memory_next, side_next};
ghost use Rattle.oc_model.specs.Stores.{Store};
ghost use Rattle.oc_model.specs.States.{State, Settings};
ghost use Rattle.oc_model.specs.StateRules.{IsState};
ghost use Rattle.oc_model.specs.StateWalks.{activate_walk, deactivate_walk, refresh_walk, peek_walk, store_walk, delete_walk, show_walk};
ghost use Rattle.oc_model.specs.Walks.{IsLawful};
ghost use Rattle.oc_reach.specs.Graphs.{Shown, IsClosed, AreInRange, activate_over, plain_over, store_over, delete_over, show_over, graph_of, side_of};

/// Over the graph of a state, with its settings, the walks are those of the state.
pub fn graph_walks_are_the_states()
    ensures activate { (m : State) → activate_over m.settings (graph_of m (view_next m)) ≡ activate_walk m }
    ensures deactivate { (m : State) → plain_over (graph_of m (view_next m)) ≡ deactivate_walk m }
    ensures refresh { (m : State) → plain_over (graph_of m (refresh_next m)) ≡ refresh_walk m }
    ensures peek { (s : Store) → plain_over (side_of s) ≡ peek_walk s }
    ensures store { (m : State) → store_over m.settings (graph_of m (view_next m)) ≡ store_walk m }
    ensures delete { (m : State) → delete_over m.settings (graph_of m (view_next m)) ≡ delete_walk m }
    ensures show { (m : State) → show_over (graph_of m (memory_next m)) ≡ show_walk m }
    ensures settings { (m : State) → IsState m → AreInRange m.settings }
{}

/// The walks over a graph are lawful, where no depth in the settings is over 65,535.
pub fn graph_walks_are_lawful()
    ensures activate { (s : Settings) (g : Shown) → AreInRange s → IsClosed g → IsLawful (activate_over s g) }
    ensures plain { (g : Shown) → IsClosed g → IsLawful (plain_over g) }
    ensures store { (s : Settings) (g : Shown) → IsClosed g → IsLawful (store_over s g) }
    ensures delete { (s : Settings) (g : Shown) → IsClosed g → IsLawful (delete_over s g) }
    ensures show { (g : Shown) → IsClosed g → IsLawful (show_over g) }
{}
