// One file, and what is said.
ghost use Rattle.std.specs.Prelude.{◌≡◌, ◌≤◌, ◌+◌, ℕ, Bool, List, length, take, drop, IsTrue, IfOk, OnOk};
ghost use Rattle.oc_host.specs.Counts.{HasCause, Ticks, Takes};
ghost use Rattle.oc_host.specs.Disk.{Disk, AfterLook, AfterWrite, AfterSync, AfterSay, IsDisk};

/// A call on the outside failed. What was called has counted the fault.
#[derive(Clone, Copy, Debug, PartialEq, Eq)]
pub struct Failed;

/// A file of bytes, with a place where bytes are said.
///
/// Places and lengths are in bytes. A call that fails may have changed nothing, or what it was to change in part: a
/// write leaves any bytes in its range, and of what was to be said the first few may be said.
pub trait Host {
    /// Whether the clauses tell the bytes of the file and what was said: those of a file in memory do, and those of a
    /// file of the runtime do not.
    ghost tells: { Bool };

    /// The file, what was said, and what a stop may have left. It means something only where `tells` is true.
    ghost disk: { Self → Disk };

    /// Counts calls: each that succeeds, and each failed one that may have changed something.
    ghost clock: { Self → ℕ };

    /// How many calls failed.
    ghost faults: { Self → ℕ };

    /// How many bytes were read.
    ghost taken: { Self → ℕ };

    /// The length of the file.
    fn len(&mut self) -> Result<u64, Failed>
        ensures len { IfOk result (λ n. IsTrue tells → n ≡ length (disk self.old).bytes) }
        ensures disk { IsTrue tells → AfterLook result (disk self.old) (disk self.new) }
        ensures clock { Ticks result (clock self.old) (clock self.new) }
        ensures cause { HasCause result (faults self.old) (faults self.new) }
        ensures taken { taken self.new ≡ taken self.old };

    /// Fills the buffer with the bytes from `at` on. After a call that fails the buffer holds any bytes.
    fn read(&mut self, at: u64, into: &mut [u8]) -> Result<(), Failed>
        requires { IsTrue tells → at + length into.old ≤ length (disk self.old).bytes }
        ensures bytes { OnOk result
            (IsTrue tells → into.new ≡ take (length into.old) (drop at (disk self.old).bytes)) }
        ensures disk { IsTrue tells → AfterLook result (disk self.old) (disk self.new) }
        ensures clock { Ticks result (clock self.old) (clock self.new) }
        ensures cause { HasCause result (faults self.old) (faults self.new) }
        ensures taken { Takes (length into.old) result (taken self.old) (taken self.new) };

    /// Writes these bytes over those from `at` on. The file grows where they reach past its end.
    fn write_at(&mut self, at: u64, bytes: &[u8]) -> Result<(), Failed>
        requires { IsTrue tells → at ≤ length (disk self.old).bytes }
        ensures disk { IsTrue tells → AfterWrite at bytes.now result (disk self.old) (disk self.new) }
        ensures clock { Ticks result (clock self.old) (clock self.new) }
        ensures cause { HasCause result (faults self.old) (faults self.new) }
        ensures taken { taken self.new ≡ taken self.old };

    /// Makes what was written last through a stop.
    fn sync(&mut self) -> Result<(), Failed>
        ensures disk { IsTrue tells → AfterSync result (disk self.old) (disk self.new) }
        ensures clock { Ticks result (clock self.old) (clock self.new) }
        ensures cause { HasCause result (faults self.old) (faults self.new) }
        ensures taken { taken self.new ≡ taken self.old };

    /// Says these bytes after what was said before.
    fn say(&mut self, bytes: &[u8]) -> Result<(), Failed>
        ensures disk { IsTrue tells → AfterSay bytes.now result (disk self.old) (disk self.new) }
        ensures clock { Ticks result (clock self.old) (clock self.new) }
        ensures cause { HasCause result (faults self.old) (faults self.new) }
        ensures taken { taken self.new ≡ taken self.old };

    /// The disk has a stop for each tick of the clock.
    ghost counted: { (host : Self) → IsTrue tells → clock host ≡ length (disk host).past };

    /// A stop now may leave just the bytes that a read gives.
    ghost sound: { (host : Self) → IsTrue tells → IsDisk (disk host) };
}
