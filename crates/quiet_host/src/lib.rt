//! A host in memory that doesn't tell its bytes, so that a test can hand any file to a call.
#![tactic(auto)]

ghost use Rattle.std.specs.Prelude.{◌≡◌, false, []};
ghost use Rattle.oc_host.specs.Counts.{Ticks, HasCause};
ghost use Rattle.oc_host.specs.Replay.{fresh};

use oc_host::{Failed, Host, MemHost};

/// A host over a file in memory. What it promises is the same whatever the file has.
#[derive(Drop)]
pub struct Quiet {
    /// The file, and what was said.
    pub memory: MemHost,
    clock: u64,
    faults: u64,
    /// How many bytes were read, at most 2^64 - 1.
    pub taken: u64,
}

impl Quiet {
    /// The host over this file, of which nothing was read yet.
    pub fn of(memory: MemHost) -> Quiet
        ensures memory { result.memory ≡ memory }
        ensures taken { result.taken ≡ 0 }
    {
        Quiet {
            memory,
            clock: 0,
            faults: 0,
            taken: 0,
        }
    }
}

// The outcome of a call, which is counted, and so is its failure.
fn counted<T>(outcome: Result<T, Failed>, clock: &mut u64, faults: &mut u64) -> Result<T, Failed>
    ensures clock { Ticks result clock.old clock.new }
    ensures cause { HasCause result faults.old faults.new }
{
    *clock = clock.saturating_add(1);
    match outcome {
        Ok(value) => Ok(value),
        Err(_) => {
            *faults = faults.saturating_add(1);
            Err(Failed)
        }
    }
}

// A call that isn't within the file fails.
fn read_from(memory: &mut MemHost, at: u64, into: &mut [u8]) -> Result<(), Failed> {
    let len = memory.bytes().len() as u64;
    if at > len || into.len() as u64 > len - at {
        return Err(Failed);
    }
    memory.read(at, into)?;
    Ok(())
}

fn write_to(memory: &mut MemHost, at: u64, bytes: &[u8]) -> Result<(), Failed> {
    if at > memory.bytes().len() as u64 {
        return Err(Failed);
    }
    memory.write_at(at, bytes)?;
    Ok(())
}

impl Host for Quiet {
    ghost tells = { false };

    ghost disk = { λ _. fresh [] };

    ghost clock = { λ host. host.clock };

    ghost faults = { λ host. host.faults };

    ghost taken = { λ host. host.taken };

    ghost counted = { λ host told. Prim.cc };

    ghost sound = { λ host told. Prim.cc };

    fn len(&mut self) -> Result<u64, Failed> {
        let outcome = self.memory.len();
        counted(outcome, &mut self.clock, &mut self.faults)
    }

    fn read(&mut self, at: u64, into: &mut [u8]) -> Result<(), Failed> {
        let outcome = read_from(&mut self.memory, at, into);
        counted(outcome, &mut self.clock, &mut self.faults)?;
        self.taken = self.taken.saturating_add(into.len() as u64);
        Ok(())
    }

    fn write_at(&mut self, at: u64, bytes: &[u8]) -> Result<(), Failed> {
        let outcome = write_to(&mut self.memory, at, bytes);
        counted(outcome, &mut self.clock, &mut self.faults)
    }

    fn sync(&mut self) -> Result<(), Failed> {
        let outcome = self.memory.sync();
        counted(outcome, &mut self.clock, &mut self.faults)
    }

    fn say(&mut self, bytes: &[u8]) -> Result<(), Failed> {
        let outcome = self.memory.say(bytes);
        counted(outcome, &mut self.clock, &mut self.faults)
    }
}
