//! Any command: the lines that are built, and the refusal of every other one.

ghost use Rattle.std.specs.Prelude.{◌≡◌, ◌⊎◌, ◌≤◌, ◌<◌, ◌+◌, ◌-◌, ◌^◌, ℕ, false, Some, IsTrue, IsErrOf, IfOk, OnErr};
ghost use Rattle.oc_host.specs.Counts.{Rose};
ghost use Rattle.oc_host.specs.Disk.{LeavesOnly, Looks};
ghost use Rattle.oc_layout.specs.declared.cells.Space.{Space as SpaceOf};
ghost use Rattle.oc_layout.specs.declared.cells.Space.TheVariants.{Objects};
ghost use Rattle.oc_model.specs.declared.answer.Answer.TheVariants as answer;
ghost use Rattle.oc_model.specs.declared.answer.Word.TheVariants as word;
ghost use Rattle.oc_model.specs.declared.command.Command.TheVariants as line;
ghost use Rattle.oc_model.specs.Lists.{IsOneOf};
ghost use Rattle.oc_model.specs.States.{State};
ghost use Rattle.oc_machine.specs.Runs.{is_full};
ghost use Rattle.oc_graph.specs.Objects.{IsDamagedRecord};
ghost use Rattle.oc_store.specs.Filed.{Agrees};
ghost use Rattle.oc_store.specs.Reindexing.{objects_len};
ghost use Rattle.oc_store.specs.Stops.{StandsForEither};
ghost use Rattle.oc_container.specs.declared.fault.Fault.TheVariants as line_fault;
ghost use Rattle.oc_container.specs.Asked.{objects_read};
ghost use Rattle.oc_container.specs.Built.{built_outcome, HasNames};
ghost use Rattle.oc_container.specs.Contained.{Holds, IsSame, IsSpent, Meets};
ghost use Rattle.oc_container.specs.Full.{LacksRoom};

use crate::container::Container;
use crate::fault::Fault;
use oc_host::Host;
use oc_model::answer::{Answer, Word};
use oc_model::command::Command;

impl Container {
    /// Answers the command: one that is built does its step, and every other one is refused as no command.
    ///
    /// Only a commit writes, and only it is refused as `Full`: where something finds no room in the file, and then nothing has
    /// changed. Only a query reads, and just the records of the objects that it asks for. Whatever a stop leaves stands for the
    /// store of the last commit, or, in a commit, for that or the session's. After `Memory` and `Damaged` the container is spent:
    /// it is as before, or its session is given up.
    pub fn execute<H: Host>(&mut self, host: &mut H, command: &Command) -> Result<Answer, Fault>
        requires agrees { IsTrue H.tells → Agrees self.old.store (H.disk host.old) }
        requires count { (self.old.memory).commits < 2 ^ 64 - 1 }
        requires names { HasNames command.now }
        ensures step { IfOk result (λ a. is_full (Some a) ≡ false → IsTrue H.tells → (m : State) → Holds self.old (H.disk host.old) m →
            Meets self.new (H.disk host.new) a (built_outcome m command.now)) }
        ensures full { IfOk result (λ a. (need len limit : ℕ) → a ≡ answer.Refused (word.Full need len limit) →
            (command.now ≡ line.Commit) × LacksRoom self.old.store need len limit × (host.new ≡ host.old) × IsSame self.old self.new) }
        ensures agrees { IsTrue H.tells → IsErrOf result line_fault.Host ⊎ Agrees self.new.store (H.disk host.new) }
        ensures spent { OnErr result (IsErrOf result line_fault.Host ⊎ (IsTrue H.tells → (m : State) → Holds self.old (H.disk host.old) m →
            IsSpent self.new (H.disk host.new) m)) }
        ensures damaged { (space : SpaceOf) (n : ℕ) → IsErrOf result (line_fault.Damaged space n) →
            ((command.now ≡ line.Commit) × (host.new ≡ host.old) × IsSame self.old self.new)
            ⊎ ((space ≡ Objects) × IsOneOf n (objects_read self.old.store command.now) × (IsTrue H.tells → IsDamagedRecord self.old.store (H.disk host.old) n)) }
        ensures any_moment { IsTrue H.tells → (m : State) → Holds self.old (H.disk host.old) m →
            LeavesOnly (H.disk host.old) (H.disk host.new) (StandsForEither m.committed m.session (H.disk host.old)) }
        ensures said { IsTrue H.tells → (H.disk host.new).said ≡ (H.disk host.old).said }
        ensures later { H.faults host.old ≤ H.faults host.new }
        ensures cause { IsErrOf result line_fault.Host → Rose (H.faults host.old) (H.faults host.new) }
        ensures taken { H.taken host.new ≤ H.taken host.old + objects_len (self.old.store).slots (objects_read self.old.store command.now) }
    {
        match command {
            Command::Commit => self.commit(host),
            _ => self.look(host, command),
        }
    }

    // Answers a command that isn't a commit: what it does it does in memory, and of the file it only reads.
    fn look<H: Host>(&mut self, host: &mut H, command: &Command) -> Result<Answer, Fault>
        requires agrees { IsTrue H.tells → Agrees self.old.store (H.disk host.old) }
        requires names { HasNames command.now }
        requires other { command.now ≡ line.Commit → ⊥ }
        ensures step { IfOk result (λ a. IsTrue H.tells → (m : State) → Holds self.old (H.disk host.old) m →
            Meets self.new (H.disk host.new) a (built_outcome m command.now)) }
        ensures room { IfOk result (λ a. is_full (Some a) ≡ false) }
        ensures agrees { IsTrue H.tells → Agrees self.new.store (H.disk host.new) }
        ensures spent { OnErr result (IsTrue H.tells → (m : State) → Holds self.old (H.disk host.old) m → IsSpent self.new (H.disk host.new) m) }
        ensures damaged { (space : SpaceOf) (n : ℕ) → IsErrOf result (line_fault.Damaged space n) →
            (space ≡ Objects) × IsOneOf n (objects_read self.old.store command.now) × (IsTrue H.tells → IsDamagedRecord self.old.store (H.disk host.old) n) }
        ensures looks { IsTrue H.tells → Looks (H.disk host.old) (H.disk host.new) }
        ensures later { H.faults host.old ≤ H.faults host.new }
        ensures cause { IsErrOf result line_fault.Host → Rose (H.faults host.old) (H.faults host.new) }
        ensures taken { H.taken host.new ≤ H.taken host.old + objects_len (self.old.store).slots (objects_read self.old.store command.now) }
    {
        match command {
            Command::Class {
                name,
                parent,
                fields,
            } => self.declare(host, name, parent.as_ref(), fields),
            Command::Query {
                class,
                filter: None,
                criteria,
            } if criteria.as_slice().is_empty() => self.query(host, class),
            Command::Rollback => Ok(self.rollback()),
            _ => Ok(Answer::Refused(Word::Syntax)),
        }
    }
}
