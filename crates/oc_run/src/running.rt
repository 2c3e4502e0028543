//! The top call: from the words of a command line and a script to all that is said.

ghost use Rattle.std.specs.Prelude.{◌≡◌, ◌↔◌, ◌||◌, ◌++◌, [], List, ℕ, length, map, true, false, None, IsTrue, IfOk, OnOk, OnErr, codes};
ghost use Rattle.std.specs.String.{string_bytes};
ghost use Rattle.oc_host.specs.Disk.{Says, SaysFront};
ghost use Rattle.oc_run.specs.Causes as causes;
ghost use Rattle.oc_run.specs.Rest.{IsSameFile};
ghost use Rattle.oc_run.specs.Outcomes.{text, has_error, HasSaid, HasRead, HostFaults, SourceFaults, TakesScript};
ghost use Rattle.oc_run.specs.Words.{words_of};

use crate::answering::{Stop, speak};
use crate::lines::Reader;
use crate::script::read_script;
use crate::status::Status;
use crate::words::is_form;
use oc_host::{Host, Source};
use std::alloc::{AllocError, Global};

/// How many bytes of a script are read at once.
const PIECE: usize = 65_536;

/// A buffer of so many bytes.
fn zeros(alloc: Global, size: usize) -> Result<Vec<u8>, AllocError>
    ensures { IfOk result (λ buffer. length buffer.items ≡ size) }
{
    vec![in alloc; 0u8; size]
}

/// Says `ready`, the answers of a script over the empty store, and the closing. It says whether a line was refused.
fn answer_script<S: Source, H: Host>(
    alloc: Global,
    script: &mut S,
    host: &mut H,
) -> Result<bool, Stop>
    ensures said { OnOk result (IsTrue S.tells → IsTrue H.tells → Says (H.disk host.old) (H.disk host.new) (text (S.left script.old))) }
    ensures errors { IfOk result (λ bad. IsTrue S.tells → has_error (S.left script.old) ≡ bad) }
    ensures end { OnOk result (IsTrue S.tells → S.left script.new ≡ []) }
    ensures front { OnErr result (IsTrue S.tells → IsTrue H.tells → SaysFront (H.disk host.old) (H.disk host.new) (text (S.left script.old))) }
    ensures file { IsTrue H.tells → IsSameFile (H.disk host.old) (H.disk host.new) }
    ensures host_faults { causes.HostFaults result (H.faults host.old) (H.faults host.new) }
    ensures host_taken { H.taken host.new ≡ H.taken host.old }
    ensures faults { causes.SourceFaults result (S.faults script.old) (S.faults script.new) }
    ensures taken { causes.TakesScript result (S.taken script.old) (S.taken script.new) }
{
    let mut buffer = zeros(alloc, PIECE)?;
    let mut reader = Reader::new(alloc);
    speak(host, b"ready\n")?;
    read_script(script, host, &mut reader, &mut buffer)?;
    let refusals = reader.finish(host)?;
    Ok(refusals)
}

/// Runs a script over the empty store.
///
/// The words have the form where they are one word that doesn't begin with `-`; else nothing is called. Of the host `say`
/// alone is called: `ready`, the answer of each line that has one, and `closed`, each in one call. The script is read in
/// pieces, and at most 268,435,457 bytes of it. Neither the host's file nor `other` is touched.
///
/// Want of memory is the one status that no clause ties to a cause.
pub fn run<S: Source, H: Host, O: Host>(
    alloc: Global,
    words: &[String],
    script: &mut S,
    host: &mut H,
    other: &mut O,
) -> Status
    ensures words { (result ≡ Status.Words) ↔ (words_of (map string_bytes words.now) ≡ None) }
    ensures not_called { result ≡ Status.Words → (script.new ≡ script.old) × (host.new ≡ host.old) }
    ensures said { IsTrue S.tells → IsTrue H.tells → HasSaid result (S.left script.old) (H.disk host.old) (H.disk host.new) }
    ensures read { IsTrue S.tells → HasRead result (S.left script.old) (S.left script.new) }

    // Each failure has its cause.
    ensures host { HostFaults result (H.faults host.old) (H.faults host.new) }
    ensures source { SourceFaults result (S.faults script.old) (S.faults script.new) }
    ensures taken { TakesScript result (S.taken script.old) (S.taken script.new) }

    // The files stay.
    ensures file { IsTrue H.tells → IsSameFile (H.disk host.old) (H.disk host.new) }
    ensures host_taken { H.taken host.new ≡ H.taken host.old }
    ensures other { other.new ≡ other.old }
{
    let _ = other;
    if !is_form(words) {
        return Status::Words;
    }
    match answer_script(alloc, script, host) {
        Ok(false) => Status::Done,
        Ok(true) => Status::Refusals,
        Err(Stop::Memory) => Status::Memory,
        Err(Stop::Host) => Status::Host,
        Err(Stop::Source) => Status::Source,
        Err(Stop::TooLong) => Status::TooLong,
    }
}
