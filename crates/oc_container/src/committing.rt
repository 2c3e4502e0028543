//! The line `commit`: the session is committed.

ghost use Rattle.std.specs.Prelude.{◌≡◌, ◌⊎◌, ◌≤◌, ◌<◌, ◌-◌, ◌^◌, ℕ, false, Some, IsTrue, IsErrOf, IfOk, OnErr};
ghost use Rattle.oc_host.specs.Counts.{Rose};
ghost use Rattle.oc_host.specs.Disk.{LeavesOnly};
ghost use Rattle.oc_model.specs.declared.answer.Answer.TheVariants as answer;
ghost use Rattle.oc_model.specs.declared.answer.Word.TheVariants as word;
ghost use Rattle.oc_model.specs.States.{State};
ghost use Rattle.oc_machine.specs.CommitLines.{commit_step};
ghost use Rattle.oc_machine.specs.Runs.{is_full};
ghost use Rattle.oc_store.specs.Filed.{Agrees};
ghost use Rattle.oc_store.specs.Stops.{StandsForEither};
ghost use Rattle.oc_container.specs.declared.fault.Fault.TheVariants as fault;
ghost use Rattle.oc_container.specs.Contained.{Holds, IsSame, Meets};
ghost use Rattle.oc_container.specs.Full.{LacksRoom};

use crate::container::Container;
use crate::fault::Fault;
use oc_host::Host;
use oc_model::answer::{Answer, Word};
use oc_store::ChangeFault;

impl Container {
    /// Commits the session: both stores are that then, and one commit more is counted. Whatever a stop leaves stands for the
    /// store of the last commit or for that of the session.
    ///
    /// It is refused as `Full` only where something finds no room in the file; after that and after `Memory` nothing has
    /// changed. After `Host` the container is spent.
    pub fn commit<H: Host>(&mut self, host: &mut H) -> Result<Answer, Fault>
        requires agrees { IsTrue H.tells → Agrees self.old.store (H.disk host.old) }
        requires count { (self.old.memory).commits < 2 ^ 64 - 1 }
        ensures step { IfOk result (λ a. is_full (Some a) ≡ false → IsTrue H.tells → (m : State) → Holds self.old (H.disk host.old) m →
            Meets self.new (H.disk host.new) a (commit_step m)) }
        ensures full { IfOk result (λ a. (need len limit : ℕ) → a ≡ answer.Refused (word.Full need len limit) →
            LacksRoom self.old.store need len limit × (host.new ≡ host.old) × IsSame self.old self.new) }
        ensures agrees { IsTrue H.tells → IsErrOf result fault.Host ⊎ Agrees self.new.store (H.disk host.new) }
        ensures unchanged { OnErr result (IsErrOf result fault.Host ⊎ ((host.new ≡ host.old) × IsSame self.old self.new)) }
        ensures any_moment { IsTrue H.tells → (m : State) → Holds self.old (H.disk host.old) m →
            LeavesOnly (H.disk host.old) (H.disk host.new) (StandsForEither m.committed m.session (H.disk host.old)) }
        ensures said { IsTrue H.tells → (H.disk host.new).said ≡ (H.disk host.old).said }
        ensures later { H.faults host.old ≤ H.faults host.new }
        ensures cause { IsErrOf result fault.Host → Rose (H.faults host.old) (H.faults host.new) }
        ensures taken { H.taken host.new ≡ H.taken host.old }
    {
        match self.store.commit(host) {
            Ok(()) => {
                self.live.count_commit();
                Ok(Answer::Committed(self.live.commits()))
            }
            Err(ChangeFault::Full { need, len, limit }) => {
                Ok(Answer::Refused(Word::Full { need, len, limit }))
            }
            Err(ChangeFault::Host) => Err(Fault::Host),
            Err(ChangeFault::Memory) => Err(Fault::Memory),
            Err(ChangeFault::Damaged { space, number }) => Err(Fault::Damaged { space, number }),
        }
    }
}
