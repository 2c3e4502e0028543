//! Laws of states.

ghost use Rattle.oc_model.specs.Stores.{Store};
ghost use Rattle.oc_model.specs.StoreRules.{KeepsStore};
ghost use Rattle.oc_model.specs.States.{start};
ghost use Rattle.oc_model.specs.StateRules.{IsState};

/// The state in which a run over a store begins keeps the rules of states, where the store keeps those of stores.
pub fn start_is_a_state()
    ensures { (s : Store) → KeepsStore s → IsState (start s) }
{}
