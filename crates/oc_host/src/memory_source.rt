// A text in memory.
ghost use Rattle.std.specs.Prelude.{◌≡◌, ◌≤◌, ◌<◌, ◌+◌, ◌-◌, ◌^◌, ◌++◌, ◌↔◌, min, true, List, ℕ, [], length, take, drop, Contains, IsErr};
ghost use Rattle.oc_host.specs.Counts.{Rose, HasCause};

use crate::plan::is_planned;
use crate::{Failed, Source};

/// A text in memory, of which each read gives as many bytes as the buffer has room for.
#[derive(Drop)]
pub struct MemSource {
    bytes: Vec<u8>,
    at: usize,
    reads: u64,
    fail: Vec<u64>,
    faults: u64,
    taken: u64,
    ghost within: { at ≤ length bytes.items },
}

impl MemSource {
    ghost use Rattle.oc_host.specs.MemSource.{planned_failures, left_of, reads_of};

    /// A source of these bytes. `fail` names the reads that are to fail, by their numbers from 1.
    pub fn new(bytes: Vec<u8>, fail: Vec<u64>) -> MemSource
        ensures left { ⟦<MemSource as Source>⟧.left result ≡ bytes.items }
        ensures plan { planned_failures result ≡ fail.items }
        ensures faults { ⟦<MemSource as Source>⟧.faults result ≡ 0 }
        ensures taken { ⟦<MemSource as Source>⟧.taken result ≡ 0 }
    {
        MemSource {
            bytes,
            at: 0,
            reads: 0,
            fail,
            faults: 0,
            taken: 0,
        }
    }

    // Counts a read, which fails exactly if it is to.
    fn begin(&mut self) -> Result<(), Failed>
        ensures planned { IsErr result ↔ Contains (planned_failures self.old) (reads_of self.new) }
        ensures reads { reads_of self.new ≡ min (reads_of self.old + 1) (2 ^ 64 - 1) }
        ensures left { left_of self.new ≡ left_of self.old }
        ensures cause { HasCause result self.old.faults self.new.faults }
        ensures taken { self.new.taken ≡ self.old.taken }
    {
        self.reads = self.reads.saturating_add(1);
        if is_planned(&self.fail, self.reads) {
            self.faults = self.faults.saturating_add(1);
            return Err(Failed);
        }
        Ok(())
    }

    fn rest(&self) -> &[u8]
        ensures { result.now ≡ left_of self.now }
    {
        &self.bytes[self.at..]
    }
}

// Copies as many bytes as both have room for, and answers how many.
fn copy_start(from: &[u8], into: &mut [u8]) -> usize
    ensures count { result ≡ min (length from.now) (length into.old) }
    ensures value { take result into.new ≡ take result from.now }
{
    let count = from.len().min(into.len());
    into[..count].copy_from_slice(&from[..count]);
    count
}

impl Source for MemSource {
    ghost tells = { true };

    ghost left = { λ source. drop source.at source.bytes.items };

    ghost faults = { λ source. source.faults };

    ghost taken = { λ source. source.taken };

    fn read(&mut self, into: &mut [u8]) -> Result<usize, Failed> {
        self.begin()?;
        let count = copy_start(self.rest(), into);
        self.at += count;
        self.taken = self.taken.saturating_add(count as u64);
        Ok(count)
    }
}
