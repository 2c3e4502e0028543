//! A script, read in pieces from its source.

ghost use Rattle.std.specs.Prelude.{◌≡◌, ◌≤◌, ◌<◌, ◌+◌, ◌-◌, ◌||◌, ◌++◌, ◌∷◌, [], List, ℕ, length, take, drop, true, false, IsTrue, IfOk, IfErr, OnOk, OnErr};
ghost use Rattle.oc_host.specs.Disk.{Says, SaysFront};
ghost use Rattle.oc_run.specs.Rest.{Advances, Fronts, IsSameFile};
ghost use Rattle.oc_run.specs.Causes.{HostFaults, SourceFaults, Took, TakesScript};

use crate::answering::Stop;
use crate::lines::Reader;
use oc_host::{Host, Source};

/// How many bytes a script may have.
const LIMIT: usize = 268_435_456;

/// Reads a piece of at most so many bytes into the buffer, and says how many they are: none at the end alone.
fn read_piece<S: Source>(script: &mut S, buffer: &mut [u8], most: usize) -> Result<usize, Stop>
    requires room { 0 < length buffer.old }
    requires some { 0 < most }
    ensures within { IfOk result (λ n. n ≤ length buffer.new) }
    ensures at_most { IfOk result (λ n. n ≤ most) }
    ensures piece { IfOk result (λ n. IsTrue S.tells → S.left script.old ≡ take n buffer.new ++ S.left script.new) }
    ensures end { IfOk result (λ n. IsTrue S.tells → n ≡ 0 → S.left script.old ≡ []) }
    ensures unread { OnErr result (IsTrue S.tells → S.left script.new ≡ S.left script.old) }
    ensures took { IfOk result (λ n. Took n (S.taken script.old) (S.taken script.new)) }
    ensures took_none { OnErr result (S.taken script.new ≡ S.taken script.old) }
    ensures only { IfErr result (λ stop. stop ≡ Stop.Source) }
    ensures cause { SourceFaults result (S.faults script.old) (S.faults script.new) }
{
    let size = most.min(buffer.len());
    match script.read(&mut buffer[..size]) {
        Ok(n) => Ok(n),
        Err(_) => Err(Stop::Source),
    }
}

/// Reads a script to its end, and answers each line that LF ends.
pub fn read_script<S: Source, H: Host>(
    script: &mut S,
    host: &mut H,
    reader: &mut Reader,
    buffer: &mut [u8],
) -> Result<(), Stop>
    requires { 0 < length buffer.old }
    ensures goes { OnOk result (IsTrue S.tells → Advances H.tells (H.disk host.old) (H.disk host.new) reader.old.store (λ _. reader.old.line.items ++ S.left script.old) reader.old.refusals reader.new.store (λ _. reader.new.line.items) reader.new.refusals) }
    ensures end { OnOk result (IsTrue S.tells → S.left script.new ≡ []) }
    ensures front { OnErr result (IsTrue S.tells → Fronts H.tells (H.disk host.old) (H.disk host.new) reader.old.store (λ _. reader.old.line.items ++ S.left script.old)) }
    ensures file { IsTrue H.tells → IsSameFile (H.disk host.old) (H.disk host.new) }
    ensures host_faults { HostFaults result (H.faults host.old) (H.faults host.new) }
    ensures host_taken { H.taken host.new ≡ H.taken host.old }
    ensures faults { SourceFaults result (S.faults script.old) (S.faults script.new) }
    ensures taken { TakesScript result (S.taken script.old) (S.taken script.new) }
{
    let mut left = LIMIT + 1;
    loop {
        let n = read_piece(script, buffer, left)?;
        if n == 0 {
            return Ok(());
        }
        if n == left {
            return Err(Stop::TooLong);
        }
        left -= n;
        reader.feed(host, &buffer[..n])?;
    }
}
