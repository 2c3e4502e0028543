// A text that is read once, from its start to its end.
ghost use Rattle.std.specs.Prelude.{◌≡◌, ◌≤◌, ◌<◌, ◌+◌, ◌-◌, ◌^◌, ℕ, Bool, List, [], ◌++◌, length, take, min, IsTrue, IfOk, OnErr};
ghost use Rattle.oc_host.specs.Counts.{HasCause};

use crate::Failed;

/// Where a text comes from.
pub trait Source {
    /// Whether the clauses tell the bytes: those of a text in memory do, and those of the standard input do not.
    ghost tells: { Bool };

    /// The bytes that are still to come. It means something only where `tells` is true.
    ghost left: { Self → List ℕ };

    /// How many calls failed.
    ghost faults: { Self → ℕ };

    /// How many bytes were given.
    ghost taken: { Self → ℕ };

    /// Gives the next bytes: so many as it answers, at the start of the buffer. It answers 0 at the end of the text,
    /// or where the buffer has no room. A call that fails gives nothing.
    fn read(&mut self, into: &mut [u8]) -> Result<usize, Failed>
        ensures bound { IfOk result (λ n. n ≤ length into.old) }
        ensures value { IfOk result (λ n. IsTrue tells → left self.old ≡ take n into.new ++ left self.new) }
        ensures end { IfOk result (λ n. IsTrue tells → n ≡ 0 → 0 < length into.old → left self.old ≡ []) }
        ensures err { OnErr result (IsTrue tells → left self.new ≡ left self.old) }
        ensures taken { IfOk result (λ n. taken self.new ≡ min (taken self.old + n) (2 ^ 64 - 1)) }
        ensures taken_err { OnErr result (taken self.new ≡ taken self.old) }
        ensures cause { HasCause result (faults self.old) (faults self.new) };
}
