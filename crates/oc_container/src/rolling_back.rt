//! The line `rollback`: the session is given up.

ghost use Rattle.std.specs.Prelude.{◌≡◌, is_some, if◌then◌else◌};
ghost use Rattle.oc_host.specs.Disk.{Disk};
ghost use Rattle.oc_model.specs.declared.answer.Answer.TheVariants as answer;
ghost use Rattle.oc_model.specs.Nodes.{is_stored};
ghost use Rattle.oc_model.specs.SchemaEquality.{differs};
ghost use Rattle.oc_model.specs.States.{State};
ghost use Rattle.oc_model.specs.Stores.{Store as StoreOf};
ghost use Rattle.oc_machine.specs.CommitLines.{rollback_step, settings_in};
ghost use Rattle.oc_live.specs.Kept.{with_kept};
ghost use Rattle.oc_live.specs.Memories.{cleared};
ghost use Rattle.oc_slots.specs.declared.slot.Side.TheVariants.{Committed};
ghost use Rattle.oc_store.specs.Filed.{class_on, Agrees, IsFresh, Shows};
ghost use Rattle.oc_container.specs.Contained.{AreOfClasses, Holds, Meets};

use crate::container::Container;
use crate::schemas::differ;
use oc_live::LiveObjects;
use oc_live::laws::ends_are_the_states;
use oc_model::answer::Answer;
use oc_schema::Schema;
use oc_store::{Side, Store};

impl Container {
    /// Gives the session up: it is the committed store again. Where the schema has changed since the last commit, all objects
    /// in memory and all names are forgotten, with the settings of classes that are gone; else the objects whose number isn't
    /// committed are detached. It reads nothing and takes no memory, and the file is as before.
    pub fn rollback(&mut self) -> Answer
        ensures step { (disk : Disk) (m : State) → Holds self.old disk m → Meets self.new disk result (rollback_step m) }
        ensures answer { result ≡ answer.RolledBack }
        ensures agrees { (disk : Disk) → Agrees self.old.store disk → Agrees self.new.store disk }
        ensures fresh { IsFresh self.new.store }
    {
        ends_are_the_states();
        forget_lost(&self.store, &mut self.live);
        self.store.rollback();
        Answer::RolledBack
    }
}

// Memory is as after a rollback of these stores.
fn forget_lost(store: &Store, live: &mut LiveObjects)
    requires { AreOfClasses live.old.settings }
    ensures memory { (disk : Disk) (c s : StoreOf) → Shows store.now disk c s → live.new ≡ (if differs s.schema c.schema then record (cleared live.old) { settings = settings_in c.schema live.old.settings } else with_kept (is_stored c) live.old) }
    ensures classes { AreOfClasses live.new.settings }
{
    let committed = store.schema(Side::Committed);
    if differ(store.schema(Side::Session), committed) {
        forget_all(committed, live);
    } else {
        detach_lost(store, live);
    }
}

// All objects and names are forgotten, and the settings of classes that this schema hasn't.
fn forget_all(schema: &Schema, live: &mut LiveObjects)
    requires { AreOfClasses live.old.settings }
    ensures memory { live.new ≡ record (cleared live.old) { settings = settings_in schema.now live.old.settings } }
    ensures classes { AreOfClasses live.new.settings }
{
    live.clear();
    live.drop_classes_above(schema.len());
}

// Objects whose number isn't committed are detached.
fn detach_lost(store: &Store, live: &mut LiveObjects)
    ensures memory { (disk : Disk) (c s : StoreOf) → Shows store.now disk c s → live.new ≡ with_kept (is_stored c) live.old }
    ensures settings { live.new.settings ≡ live.old.settings }
{
    live.keep_numbers(|number| is_committed(store, number));
}

// Whether the committed store has the object.
fn is_committed(store: &Store, number: u32) -> bool
    ensures { result ≡ is_some (class_on Committed store.now number) }
{
    store.class_of(Side::Committed, number).is_some()
}
