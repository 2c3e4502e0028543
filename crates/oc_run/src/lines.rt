//! The lines of a script, which comes in pieces.

ghost use Rattle.std.specs.Prelude.{◌≡◌, ◌≤◌, ◌<◌, ◌+◌, ◌-◌, ◌||◌, ◌++◌, ◌∷◌, [], List, ℕ, length, take, drop, slice_index, true, false, Some, None, IsTrue, IfOk, IfErr, OnOk, OnErr};
ghost use Rattle.oc_host.specs.Disk.{Says, SaysFront};
ghost use Rattle.oc_run.specs.Rest.{is_in_one_line, rest, errs, Advances, Fronts};
ghost use Rattle.oc_model.specs.States.{start};
ghost use Rattle.oc_model.specs.Stores.{empty_store};
ghost use Rattle.oc_run.specs.Causes.{SpeakFaults};

use crate::answering::{Stop, is_refusal, respond, speak};
use crate::list_store::ListStore;
use oc_host::Host;
use oc_print::answer_text;
use std::alloc::{AllocError, Global};

/// How many bytes of a line are kept: one more than a line may have.
const ENOUGH: usize = 65_536;

/// A run between two pieces of its script: the store, the line that is under way, and whether a line was refused.
#[derive(Drop)]
pub struct Reader {
    pub alloc: Global,
    pub store: ListStore,
    pub line: Vec<u8>,
    pub refusals: bool,
    ghost one_line: { IsTrue (is_in_one_line line.items) },
}

/// The place of the first LF, or the length where there is none.
fn line_len(bytes: &[u8]) -> usize
    ensures within { result ≤ length bytes.now }
    ensures one_line { IsTrue (is_in_one_line (take result bytes.now)) }
    ensures ended { result < length bytes.now → drop result bytes.now ≡ 10 ∷ drop (result + 1) bytes.now }
{
    for (at, byte) in bytes.iter().enumerate() {
        if *byte == b'\n' {
            return at;
        }
    }
    bytes.len()
}

/// Appends a piece to a line. What is beyond the bytes that are kept is left out.
#[tactic(auto, using(crate::proofs::LineByLine::one_line_append, crate::proofs::LineByLine::one_line_take))]
fn append(line: &mut Vec<u8>, piece: &[u8]) -> Result<(), AllocError>
    ensures ok { OnOk result (line.new.items ≡ line.old.items ++ take (ENOUGH - length line.old.items) piece.now) }
    ensures err { OnErr result (line.new.items ≡ line.old.items) }
    ensures one_line { IsTrue (is_in_one_line line.old.items) → IsTrue (is_in_one_line piece.now) → IsTrue (is_in_one_line line.new.items) }
{
    let room = ENOUGH.saturating_sub(line.len());
    let (kept, _) = piece.split_at(room.min(piece.len()));
    line.extend_from_slice(kept)?;
    Ok(())
}

impl Reader {
    pub fn new(alloc: Global) -> Reader
        ensures store { result.store ≡ start (empty_store 1) }
        ensures line { result.line.items ≡ [] }
        ensures refusals { result.refusals ≡ false }
    {
        Reader {
            alloc,
            store: ListStore::new(alloc),
            line: Vec::new(alloc),
            refusals: false,
        }
    }

    /// Answers the line, which is whole, and begins the next.
    fn answer<H: Host>(&mut self, host: &mut H) -> Result<(), Stop>
        ensures line { OnOk result (self.new.line.items ≡ []) }
        ensures goes { OnOk result (Advances H.tells (H.disk host.old) (H.disk host.new) self.old.store (λ u. self.old.line.items ++ 10 ∷ u) self.old.refusals self.new.store (λ u. u) self.new.refusals) }
        ensures front { OnErr result (Fronts H.tells (H.disk host.old) (H.disk host.new) self.old.store (λ u. self.old.line.items ++ 10 ∷ u)) }
        ensures cause { SpeakFaults result (H.faults host.old) (H.faults host.new) }
        ensures taken { H.taken host.new ≡ H.taken host.old }
    {
        let reply = respond(self.alloc, &mut self.store, &self.line)?;
        self.line.clear();
        let Some(answer) = reply else {
            return Ok(());
        };
        self.refusals |= is_refusal(&answer);
        let text = answer_text(self.alloc, &answer)?;
        speak(host, &text)?;
        Ok(())
    }

    /// Takes the bytes up to the first LF and answers the line that it ends, or keeps all of them. It says how many it took.
    fn feed_line<H: Host>(&mut self, host: &mut H, bytes: &[u8]) -> Result<usize, Stop>
        requires { 0 < length bytes.now }
        ensures some { IfOk result (λ n. 0 < n) }
        ensures within { IfOk result (λ n. n ≤ length bytes.now) }
        ensures goes { IfOk result (λ n. Advances H.tells (H.disk host.old) (H.disk host.new) self.old.store (λ u. self.old.line.items ++ (bytes.now ++ u)) self.old.refusals self.new.store (λ u. self.new.line.items ++ (drop n bytes.now ++ u)) self.new.refusals) }
        ensures front { OnErr result (Fronts H.tells (H.disk host.old) (H.disk host.new) self.old.store (λ u. self.old.line.items ++ (bytes.now ++ u))) }
        ensures cause { SpeakFaults result (H.faults host.old) (H.faults host.new) }
        ensures taken { H.taken host.new ≡ H.taken host.old }
    {
        let end = line_len(bytes);
        append(&mut self.line, &bytes[..end])?;
        if end == bytes.len() {
            return Ok(end);
        }
        self.answer(host)?;
        Ok(end + 1)
    }

    /// Takes a piece of the script: answers the lines that end in it, and keeps what is behind the last LF.
    pub fn feed<H: Host>(&mut self, host: &mut H, bytes: &[u8]) -> Result<(), Stop>
        ensures goes { OnOk result (Advances H.tells (H.disk host.old) (H.disk host.new) self.old.store (λ u. self.old.line.items ++ (bytes.now ++ u)) self.old.refusals self.new.store (λ u. self.new.line.items ++ u) self.new.refusals) }
        ensures front { OnErr result (Fronts H.tells (H.disk host.old) (H.disk host.new) self.old.store (λ u. self.old.line.items ++ (bytes.now ++ u))) }
        ensures cause { SpeakFaults result (H.faults host.old) (H.faults host.new) }
        ensures taken { H.taken host.new ≡ H.taken host.old }
    {
        let mut at = 0;
        while at < bytes.len() {
            at += self.feed_line(host, &bytes[at..])?;
        }
        Ok(())
    }

    /// Answers the last line of a script, where no LF ended it.
    fn answer_last<H: Host>(&mut self, host: &mut H) -> Result<(), Stop>
        ensures goes { OnOk result (Advances H.tells (H.disk host.old) (H.disk host.new) self.old.store (λ _. self.old.line.items) self.old.refusals self.new.store (λ _. []) self.new.refusals) }
        ensures front { OnErr result (Fronts H.tells (H.disk host.old) (H.disk host.new) self.old.store (λ _. self.old.line.items)) }
        ensures cause { SpeakFaults result (H.faults host.old) (H.faults host.new) }
        ensures taken { H.taken host.new ≡ H.taken host.old }
    {
        if self.line.is_empty() {
            return Ok(());
        }
        self.answer(host)?;
        Ok(())
    }

    /// Ends a script: answers its last line and says the closing. It says whether a line was refused.
    pub fn finish<H: Host>(&mut self, host: &mut H) -> Result<bool, Stop>
        ensures said { OnOk result (IsTrue H.tells → Says (H.disk host.old) (H.disk host.new) (rest self.old.store self.old.line.items)) }
        ensures errors { IfOk result (λ bad. self.old.refusals || errs self.old.store self.old.line.items ≡ bad) }
        ensures front { OnErr result (IsTrue H.tells → SaysFront (H.disk host.old) (H.disk host.new) (rest self.old.store self.old.line.items)) }
        ensures cause { SpeakFaults result (H.faults host.old) (H.faults host.new) }
        ensures taken { H.taken host.new ≡ H.taken host.old }
    {
        self.answer_last(host)?;
        speak(host, b"closed\n")?;
        Ok(self.refusals)
    }
}
