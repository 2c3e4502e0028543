//! The line `class` for a name that isn't a class yet.

ghost use Rattle.std.specs.Prelude.{◌≡◌, ◌⊎◌, ◌≤◌, ◌+◌, ℕ, true, false, Option, IsTrue, IsErrOf, IfErr, IfOk, OnErr, Err, Some};
ghost use Rattle.std.specs.List.{list_all};
ghost use Rattle.std.specs.Option.{option_copied};
ghost use Rattle.oc_host.specs.Counts.{Rose};
ghost use Rattle.oc_host.specs.Disk.{Disk, Looks};
ghost use Rattle.oc_layout.specs.declared.cells.Space.{Space as SpaceOf};
ghost use Rattle.oc_layout.specs.declared.cells.Space.TheVariants.{Objects};
ghost use Rattle.oc_model.specs.declared.answer.Answer.TheVariants as answer;
ghost use Rattle.oc_model.specs.declared.command.Command.TheVariants.{Class};
ghost use Rattle.oc_model.specs.declared.value.Rec.{Rec as RecOf};
ghost use Rattle.oc_model.specs.Lists.{IsOneOf};
ghost use Rattle.oc_model.specs.Schemas.{Schema as SchemaOf, class_named};
ghost use Rattle.oc_model.specs.SchemaRules.{is_name};
ghost use Rattle.oc_model.specs.SchemaSteps.{declared};
ghost use Rattle.oc_model.specs.States.{State};
ghost use Rattle.oc_machine.specs.Runs.{is_full};
ghost use Rattle.oc_machine.specs.SchemaLines.{set_schema};
ghost use Rattle.oc_chunks.specs.Chunks.{joined};
ghost use Rattle.oc_lists.specs.Following.{reindexed, MayFollow};
ghost use Rattle.oc_slots.specs.declared.slot.Side.TheVariants.{Session};
ghost use Rattle.oc_slots.specs.Stores.{session};
ghost use Rattle.oc_refactor.specs.Answers.{declare_told};
ghost use Rattle.oc_store.specs.Filed.{class_on, Agrees, IsRead};
ghost use Rattle.oc_store.specs.Reindexing.{objects_len};
ghost use Rattle.oc_store.specs.Stands.{object_slot};
ghost use Rattle.oc_container.specs.declared.fault.Fault.TheVariants as line_fault;
ghost use Rattle.oc_container.specs.Built.{class_outcome, refusal};
ghost use Rattle.oc_container.specs.Contained.{Holds, IsSpent, Meets};

use crate::container::Container;
use crate::fault::Fault;
use oc_following::laws_of_following;
use oc_host::Host;
use oc_model::answer::{Answer, Word};
use oc_model::value::Txt;
use oc_refactor::{DeclareFault, declare};
use oc_schema::{FieldTexts, Schema};
use oc_store::Side;

impl Container {
    /// Declares the class, a new one: it gets the next number, and its fields the next ids. A name that is a class's is refused as
    /// no command, since a declaration of a class that is there isn't built yet.
    ///
    /// Nothing is read and nothing is written: no object is of the new class. So no record is found damaged. After a fault the
    /// container is spent: it is as before, or its session is given up.
    pub fn declare<H: Host>(
        &mut self,
        host: &mut H,
        name: &Txt,
        parent: Option<&Txt>,
        fields: &FieldTexts,
    ) -> Result<Answer, Fault>
        requires agrees { IsTrue H.tells → Agrees self.old.store (H.disk host.old) }
        requires name { is_name name.now ≡ true }
        requires fields { list_all (λ d. is_name d.name) fields.now ≡ true }
        ensures step { IfOk result (λ a. IsTrue H.tells → (m : State) → Holds self.old (H.disk host.old) m →
            Meets self.new (H.disk host.new) a (class_outcome m name.now (option_copied parent.entry) fields.now)) }
        ensures room { IfOk result (λ a. is_full (Some a) ≡ false) }
        ensures agrees { IsTrue H.tells → Agrees self.new.store (H.disk host.new) }
        ensures spent { OnErr result (IsTrue H.tells → (m : State) → Holds self.old (H.disk host.old) m → IsSpent self.new (H.disk host.new) m) }
        ensures undamaged { (space : SpaceOf) (n : ℕ) → IsErrOf result (line_fault.Damaged space n) → ⊥ }
        ensures looks { IsTrue H.tells → Looks (H.disk host.old) (H.disk host.new) }
        ensures later { H.faults host.old ≤ H.faults host.new }
        ensures cause { IsErrOf result line_fault.Host → Rose (H.faults host.old) (H.faults host.new) }
        ensures taken { H.taken host.new ≤ H.taken host.old }
    {
        laws_of_following();
        let schema = self.store.schema(Side::Session);
        if schema.class_named(name.as_slice()).is_some() {
            return Ok(Answer::Refused(Word::Syntax));
        }
        schema.keeps_rules();
        let declared = match declare(self.alloc, schema, name, parent, fields) {
            Ok(declared) => declared,
            Err(reason) => return refused(reason),
        };
        self.take_schema(host, declared)
    }

    // The session's schema is this one, which no object in memory notices.
    fn take_schema<H: Host>(&mut self, host: &mut H, schema: Schema) -> Result<Answer, Fault>
        requires agrees { IsTrue H.tells → Agrees self.old.store (H.disk host.old) }
        requires follows { MayFollow ((self.old.store).session).schema schema }
        ensures step { IfOk result (λ a. IsTrue H.tells → (m : State) → Holds self.old (H.disk host.old) m →
            Meets self.new (H.disk host.new) a (set_schema m schema, answer.Done)) }
        ensures room { IfOk result (λ a. is_full (Some a) ≡ false) }
        ensures agrees { IsTrue H.tells → Agrees self.new.store (H.disk host.new) }
        ensures spent { OnErr result (IsTrue H.tells → (m : State) → Holds self.old (H.disk host.old) m → IsSpent self.new (H.disk host.new) m) }
        ensures damaged { (space : SpaceOf) (n : ℕ) → IsErrOf result (line_fault.Damaged space n) → (space ≡ Objects)
            × IsOneOf n (reindexed ((self.old.store).session).schema schema (joined (((self.old.store).lists).extents).chunks)) × (IsTrue H.tells → (found : Option RecOf) →
            IsRead ((self.old.store).session).schema (class_on Session self.old.store n) (session (self.old.store).slots (H.disk host.old) (object_slot n)) found → ⊥) }
        ensures looks { IsTrue H.tells → Looks (H.disk host.old) (H.disk host.new) }
        ensures later { H.faults host.old ≤ H.faults host.new }
        ensures cause { IsErrOf result line_fault.Host → Rose (H.faults host.old) (H.faults host.new) }
        ensures taken { H.taken host.new ≤ H.taken host.old + objects_len (self.old.store).slots
            (reindexed ((self.old.store).session).schema schema (joined (((self.old.store).lists).extents).chunks)) }
    {
        self.store.set_schema(host, schema)?;
        Ok(Answer::Done)
    }
}

// The refusal, or want of memory.
fn refused(reason: DeclareFault) -> Result<Answer, Fault>
    ensures refused { IfOk result (λ a. refusal (declare_told (Err reason)) ≡ Some a) }
    ensures room { IfOk result (λ a. is_full (Some a) ≡ false) }
    ensures memory { IfErr result (λ gave_up. gave_up ≡ line_fault.Memory) }
{
    match reason {
        DeclareFault::Class => Ok(Answer::Refused(Word::Class)),
        DeclareFault::Parent => Ok(Answer::Refused(Word::Parent)),
        DeclareFault::Exists => Ok(Answer::Refused(Word::Exists)),
        DeclareFault::Size => Ok(Answer::Refused(Word::Size)),
        DeclareFault::Memory => Err(Fault::Memory),
    }
}
