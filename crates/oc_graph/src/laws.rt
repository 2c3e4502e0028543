//! The graph of the objects of a run is that of the state that the run is in.

ghost use Rattle.std.specs.Prelude.{◌≡◌, Bool, IsTrue};
ghost use Rattle.oc_host.specs.Disk.{Disk};
ghost use Rattle.oc_model.specs.Nodes.{view_next};
ghost use Rattle.oc_model.specs.States.{State};
ghost use Rattle.oc_model.specs.StateRules.{IsState};
ghost use Rattle.oc_live.specs.Memories.{memory_of, Memory};
ghost use Rattle.oc_reach.specs.Graphs.{graph_of};
ghost use Rattle.oc_store.specs.Filed.{FiledStore, Shows};
ghost use Rattle.oc_graph.specs.Objects.{sight};
ghost use Rattle.oc_graph.specs.Sights.{graph_in};
ghost use Rattle.oc_graph.specs.States.{NamesLive};

/// Where the file is told, and the store in it and the memory are those of a state, the graph is that of the state, where a node names
/// what a walk sees.
pub fn graph_is_the_states()
    ensures graph { (told : Bool) (k : Memory) (v : FiledStore) (d : Disk) (m : State) → IsTrue told → Shows v d m.committed m.session → k ≡ memory_of m → NamesLive m
        → graph_in told (sight k v d) ≡ graph_of m (view_next m) }
    ensures named { (m : State) → IsState m → NamesLive m }
{}
