//! A file that counts what is asked of it.
ghost use Rattle.std.specs.Prelude.{false, []};
ghost use Rattle.oc_host.specs.Replay.{fresh};

use oc_host::{Failed, FileHost, Host};
use std::rt::Files;

/// The calls that write and sync, and the bytes that are written and read.
#[derive(Clone, Copy, Debug, PartialEq, Eq)]
pub struct Counts {
    pub writes: u64,
    pub syncs: u64,
    pub written: u64,
    pub read: u64,
}

/// A file, and what was asked of it.
#[derive(Drop)]
pub struct Counting<'a, R: Files + Print> {
    file: FileHost<'a, R>,
    pub counts: Counts,
}

impl<'a, R: Files + Print> Counting<'a, R> {
    pub fn of(file: FileHost<'a, R>) -> Counting<'a, R> {
        let counts = Counts {
            writes: 0,
            syncs: 0,
            written: 0,
            read: 0,
        };
        Counting { file, counts }
    }
}

fn raise(count: &mut u64, by: usize) {
    *count = count.saturating_add(by as u64);
}

impl<'a, R: Files + Print> Host for Counting<'a, R> {
    ghost tells = { false };

    ghost disk = { λ _. fresh [] };

    ghost clock = { λ counting. ⟦<FileHost<'a, R> as Host>⟧.clock counting.file };

    ghost faults = { λ counting. ⟦<FileHost<'a, R> as Host>⟧.faults counting.file };

    ghost taken = { λ counting. ⟦<FileHost<'a, R> as Host>⟧.taken counting.file };

    ghost counted = { λ counting told. Prim.cc };

    ghost sound = { λ counting told. Prim.cc };

    fn len(&mut self) -> Result<u64, Failed> {
        self.file.len()
    }

    fn read(&mut self, at: u64, into: &mut [u8]) -> Result<(), Failed> {
        raise(&mut self.counts.read, into.len());
        self.file.read(at, into)
    }

    fn write_at(&mut self, at: u64, bytes: &[u8]) -> Result<(), Failed> {
        raise(&mut self.counts.writes, 1);
        raise(&mut self.counts.written, bytes.len());
        self.file.write_at(at, bytes)
    }

    fn sync(&mut self) -> Result<(), Failed> {
        raise(&mut self.counts.syncs, 1);
        self.file.sync()
    }

    fn say(&mut self, bytes: &[u8]) -> Result<(), Failed> {
        self.file.say(bytes)
    }
}
