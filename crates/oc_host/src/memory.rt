// A file in memory. It notes the bytes that it began with and each call, so that what a stop may have left is told.
ghost use Rattle.std.specs.Prelude.{◌≡◌, ◌≤◌, ◌+◌, ◌-◌, List, ℕ, if◌then◌else◌, true, [], ◌∷◌, ◌++◌, length, IsTrue, ◌↔◌, Contains, IfOk, OnOk, OnErr};
ghost use Rattle.oc_host.specs.Counts.{Rose};
ghost use Rattle.oc_host.specs.Disk.{AfterLook, AfterWrite, AfterSync, AfterSay, over, looked, wrote, wrote_as, synced_now, said_so};
ghost use Rattle.oc_host.specs.Replay.{fresh, replay, after_call};
ghost use Rattle.oc_host.specs.ReplayLaws.{counted_calls, sound_calls};

use crate::images::{Fill, image_in, said_by};
use crate::plan::is_planned;
use crate::{Failed, Host};
use std::alloc::{AllocError, Global};

// What was asked. A call that only looks, or a sync that fails, changes nothing. A write is noted with whether it was
// done, and a piece with how many of its bytes were said.
#[derive(Drop)]
pub(crate) enum Call {
    Looked,
    Wrote(u64, Vec<u8>, bool),
    Synced,
    Said(Vec<u8>, usize),
}

/// A file in memory, for tests. It notes each call with what it wrote or said, and so grows with each.
///
/// A call for whose note there is no memory fails, counts a fault, and changes nothing else. It has no number.
#[derive(Drop)]
pub struct MemHost {
    alloc: Global,
    start: Vec<u8>,
    bytes: Vec<u8>,
    said: Vec<u8>,
    calls: Vec<Call>,
    fail: Vec<u64>,
    faults: u64,
    taken: u64,
    ghost bytes_are: { (replay (fresh start.items) calls.items).bytes ≡ bytes.items },
    ghost said_is: { (replay (fresh start.items) calls.items).said ≡ said.items },
}

impl MemHost {
    ghost use Rattle.oc_host.specs.Disk.{In};
    ghost use Rattle.oc_host.specs.MemHost.{disk_of, disk_before, image_of, planned_failures, IsNextToFail, NotesCall, NotesNothing, KeepsCounts, Answers};

    /// A synced file with these bytes. `fail` names the calls that are to fail, by their numbers from 1.
    pub fn new(alloc: Global, bytes: Vec<u8>, fail: Vec<u64>) -> Result<MemHost, AllocError>
        ensures disk { IfOk result (λ host. ⟦<MemHost as Host>⟧.disk host ≡ fresh bytes.items) }
        ensures plan { IfOk result (λ host. planned_failures host ≡ fail.items) }
        ensures clock { IfOk result (λ host. ⟦<MemHost as Host>⟧.clock host ≡ 0) }
        ensures faults { IfOk result (λ host. ⟦<MemHost as Host>⟧.faults host ≡ 0) }
        ensures taken { IfOk result (λ host. ⟦<MemHost as Host>⟧.taken host ≡ 0) }
    {
        let start = bytes.to_vec(alloc)?;
        Ok(MemHost {
            alloc,
            start,
            bytes,
            said: Vec::new(alloc),
            calls: Vec::new(alloc),
            fail,
            faults: 0,
            taken: 0,
        })
    }

    /// The bytes that a read of the whole file gives.
    pub fn bytes(&self) -> &[u8]
        ensures { result.now ≡ (⟦<MemHost as Host>⟧.disk self.now).bytes }
    {
        &self.bytes
    }

    /// All that was said.
    pub fn said(&self) -> &[u8]
        ensures { result.now ≡ (⟦<MemHost as Host>⟧.disk self.now).said }
    {
        &self.said
    }

    /// How many calls were noted.
    pub fn calls(&self) -> u64
        ensures { result ≡ ⟦<MemHost as Host>⟧.clock self.now }
    {
        self.calls.len() as u64
    }

    /// The file that a stop in this call may leave, with what no sync has covered kept, lost or filled.
    ///
    /// Calls are numbered from 1. What the call itself writes counts as written, also where it failed.
    pub fn image(&self, alloc: Global, call: u64, fill: Fill) -> Result<Vec<u8>, AllocError>
        requires some { 1 ≤ call }
        requires there { call ≤ ⟦<MemHost as Host>⟧.clock self.now }
        ensures bytes { IfOk result (λ v. v.items ≡ image_of fill self.now call) }
        ensures left { IfOk result (λ v.
            In (call - 1)
            (⟦<MemHost as Host>⟧.disk self.now).past v.items (disk_before self.now call).said) }
    {
        image_in(alloc, &self.start, &self.calls, call as usize - 1, fill)
    }

    /// What had been said when this call began. Calls are numbered from 1.
    pub fn said_at(&self, alloc: Global, call: u64) -> Result<Vec<u8>, AllocError>
        requires some { 1 ≤ call }
        requires there { call ≤ ⟦<MemHost as Host>⟧.clock self.now }
        ensures { IfOk result (λ v. v.items ≡ (disk_before self.now call).said) }
    {
        let (earlier, _) = self.calls.split_at(call as usize - 1);
        said_by(alloc, &self.start, earlier)
    }

    fn is_to_fail(&self) -> bool
        ensures { IsTrue result ↔ IsNextToFail self.now }
    {
        is_planned(&self.fail, self.calls.len() as u64 + 1)
    }

    fn fault(&mut self) -> Failed
        ensures rose { Rose self.old.faults self.new.faults }
        ensures later { self.old.faults ≤ self.new.faults }
        ensures noted { NotesNothing self.old self.new }
        ensures taken { self.new.taken ≡ self.old.taken }
    {
        self.faults = self.faults.saturating_add(1);
        Failed
    }

    // Notes a call that leaves the bytes and what was said as they are.
    #[tactic(auto, using(crate::specs::ReplayLaws::replay_push))]
    fn note(&mut self, synced: bool) -> Result<(), AllocError>
        ensures ok { OnOk result
            (disk_of self.new
            ≡ (if synced then synced_now (disk_of self.old) else looked (disk_of self.old))) }
        ensures ok_noted { OnOk result (NotesCall self.old self.new) }
        ensures err { OnErr result (NotesNothing self.old self.new) }
        ensures counts { KeepsCounts self.old self.new }
    {
        self.calls
            .push(if synced { Call::Synced } else { Call::Looked })?;
        Ok(())
    }

    // Notes a write, and does it if it is to be done. One that isn't opens its range.
    #[tactic(auto, using(crate::specs::ReplayLaws::replay_push))]
    fn note_write(&mut self, at: u64, bytes: &[u8], done: bool) -> Result<(), AllocError>
        requires { at ≤ length (disk_of self.old).bytes }
        ensures ok { OnOk result
            (disk_of self.new
            ≡ (if done
            then wrote at bytes.now (disk_of self.old)
            else wrote_as at (length bytes.now) (disk_of self.old).bytes (disk_of self.old))) }
        ensures ok_noted { OnOk result (NotesCall self.old self.new) }
        ensures err { OnErr result (NotesNothing self.old self.new) }
        ensures counts { KeepsCounts self.old self.new }
    {
        let noted = bytes.to_vec(self.alloc)?;
        self.calls.push(Call::Wrote(at, noted, done))?;
        if done {
            if let Err(error) = overwrite(&mut self.bytes, at as usize, bytes) {
                self.calls.pop();
                return Err(error);
            }
        }
        Ok(())
    }

    // Notes a piece of which n bytes are said.
    #[tactic(auto, using(crate::specs::ReplayLaws::replay_push))]
    fn note_piece(&mut self, piece: &[u8], n: usize) -> Result<(), AllocError>
        requires { n ≤ length piece.now }
        ensures ok { OnOk result (disk_of self.new ≡ said_so piece.now n (disk_of self.old)) }
        ensures ok_noted { OnOk result (NotesCall self.old self.new) }
        ensures err { OnErr result (NotesNothing self.old self.new) }
        ensures counts { KeepsCounts self.old self.new }
    {
        let noted = piece.to_vec(self.alloc)?;
        self.calls.push(Call::Said(noted, n))?;
        if let Err(error) = self.said.extend_from_slice(&piece[..n]) {
            self.calls.pop();
            return Err(error);
        }
        Ok(())
    }

    // A call that changes nothing.
    fn look(&mut self) -> Result<(), Failed>
        ensures disk { AfterLook result (disk_of self.old) (disk_of self.new) }
        ensures answer { Answers result self.old self.new }
    {
        let fails = self.is_to_fail();
        if let Err(_) = self.note(false) {
            return Err(self.fault());
        }
        if fails {
            return Err(self.fault());
        }
        Ok(())
    }

    // One that is to fail leaves the bytes.
    fn write(&mut self, at: u64, bytes: &[u8]) -> Result<(), Failed>
        requires { at ≤ length (disk_of self.old).bytes }
        ensures disk { AfterWrite at bytes.now result (disk_of self.old) (disk_of self.new) }
        ensures answer { Answers result self.old self.new }
    {
        let fails = self.is_to_fail();
        if let Err(_) = self.note_write(at, bytes, !fails) {
            return Err(self.fault());
        }
        if fails {
            return Err(self.fault());
        }
        Ok(())
    }

    fn keep(&mut self) -> Result<(), Failed>
        ensures disk { AfterSync result (disk_of self.old) (disk_of self.new) }
        ensures answer { Answers result self.old self.new }
    {
        let fails = self.is_to_fail();
        if let Err(_) = self.note(!fails) {
            return Err(self.fault());
        }
        if fails {
            return Err(self.fault());
        }
        Ok(())
    }

    // One that is to fail says nothing.
    fn speak(&mut self, piece: &[u8]) -> Result<(), Failed>
        ensures disk { AfterSay piece.now result (disk_of self.old) (disk_of self.new) }
        ensures answer { Answers result self.old self.new }
    {
        let fails = self.is_to_fail();
        let n = if fails { 0 } else { piece.len() };
        if let Err(_) = self.note_piece(piece, n) {
            return Err(self.fault());
        }
        if fails {
            return Err(self.fault());
        }
        Ok(())
    }
}

// Writes these bytes over those from `at` on.
fn overwrite(file: &mut Vec<u8>, at: usize, bytes: &[u8]) -> Result<(), AllocError>
    requires { at ≤ length file.old.items }
    ensures ok { OnOk result (file.new.items ≡ over at bytes.now file.old.items) }
    ensures err { OnErr result (file.new.items ≡ file.old.items) }
{
    let inside = bytes.len().min(file.len() - at);
    file.extend_from_slice(&bytes[inside..])?;
    file[at..at + inside].copy_from_slice(&bytes[..inside]);
    Ok(())
}

impl Host for MemHost {
    ghost tells = { true };

    ghost disk = { λ host. replay (fresh host.start.items) host.calls.items };

    ghost clock = { λ host. length host.calls.items };

    ghost faults = { λ host. host.faults };

    ghost taken = { λ host. host.taken };

    ghost counted = { λ host told. counted_calls host.start.items host.calls.items };

    ghost sound = { λ host told. sound_calls host.start.items host.calls.items };

    fn len(&mut self) -> Result<u64, Failed> {
        self.look()?;
        Ok(self.bytes.len() as u64)
    }

    fn read(&mut self, at: u64, into: &mut [u8]) -> Result<(), Failed> {
        self.look()?;
        let at = at as usize;
        into.copy_from_slice(&self.bytes[at..at + into.len()]);
        self.taken = self.taken.saturating_add(into.len() as u64);
        Ok(())
    }

    fn write_at(&mut self, at: u64, bytes: &[u8]) -> Result<(), Failed> {
        self.write(at, bytes)?;
        Ok(())
    }

    fn sync(&mut self) -> Result<(), Failed> {
        self.keep()?;
        Ok(())
    }

    fn say(&mut self, bytes: &[u8]) -> Result<(), Failed> {
        self.speak(bytes)?;
        Ok(())
    }
}
