//! The live part is the part of a state beside its two stores.

ghost use Rattle.std.specs.Prelude.{◌≡◌, ◌+◌, ℕ, Some, if◌then◌else◌};
ghost use Rattle.oc_model.specs.declared.reach.ClassSettings.{ClassSettings as OfClass};
ghost use Rattle.oc_model.specs.Maps.{Text, at};
ghost use Rattle.oc_model.specs.Nodes.{handle_of, is_stored};
ghost use Rattle.oc_model.specs.SchemaEquality.{differs};
ghost use Rattle.oc_model.specs.States.{State, Live, start, settings_of};
ghost use Rattle.oc_model.specs.Stores.{Store};
ghost use Rattle.oc_machine.specs.Memory.{with_new as with_new_live, with_live, with_bound};
ghost use Rattle.oc_machine.specs.ObjectLines.{with_name, with_class_settings};
ghost use Rattle.oc_machine.specs.CommitLines.{committed, rollback_step, settings_in};
ghost use Rattle.oc_live.specs.Memories.{Memory, memory_of, with_memory, start_memory, handle_in, with_new, with_changed, cleared, with_class};
ghost use Rattle.oc_live.specs.Kept.{with_kept};

/// A state is its two stores and the live part.
pub fn memory_is_a_part()
    ensures whole { (m : State) → with_memory m (memory_of m) ≡ m }
    ensures part { (m : State) (k : Memory) → memory_of (with_memory m k) ≡ k }
    ensures start { (s : Store) → memory_of (start s) ≡ start_memory }
    ensures handle { (m : State) (n : ℕ) → handle_of m n ≡ handle_in m.live n }
{}

/// What the lines do to live objects, names and settings is what the calls do to the live part.
pub fn changes_are_the_states()
    ensures made { (m : State) (o : Live) → with_new_live m o ≡ with_memory m (with_new (memory_of m) o) }
    ensures changed { (m : State) (h : ℕ) (o : Live) (change : Live → Live) → at m.live h ≡ Some o → with_live m h (change o) ≡ with_memory m (with_changed (memory_of m) h change) }
    ensures named { (m : State) (name : Text) (h : ℕ) → with_name m name h ≡ with_memory m (record (memory_of m) { names = with_bound m.names name h }) }
    ensures settings { (m : State) (c : ℕ) (change : OfClass → OfClass) → with_class_settings m c change ≡ with_memory m (record (memory_of m) { settings = with_class m.settings c (change (settings_of m.settings c)) }) }
{}

/// A commit counts, and a rollback keeps the numbers that are committed, or forgets all where the schema has changed.
pub fn ends_are_the_states()
    ensures committed { (m : State) → memory_of (committed m) ≡ record (memory_of m) { commits = m.commits + 1 } }
    ensures rolled_back { (m : State) → memory_of ((rollback_step m).0) ≡ (if differs m.session.schema m.committed.schema then record (cleared (memory_of m)) { settings = settings_in m.committed.schema m.settings } else with_kept (is_stored m.committed) (memory_of m)) }
{}
