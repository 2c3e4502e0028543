// The standard input of the runtime.
ghost use Rattle.std.specs.Prelude.{◌≡◌, ◌≤◌, ◌+◌, ◌-◌, ◌^◌, min, false, [], IfOk};

use crate::{Failed, Source};
use std::io::{Input, Read};

/// The standard input. The clauses tell nothing of its bytes.
#[derive(Drop)]
pub struct StdSource<'a, R: Input> {
    rt: &'a R,
    faults: u64,
    taken: u64,
}

impl<'a, R: Input> StdSource<'a, R> {
    /// A source of what the standard input still gives.
    pub fn new(rt: &'a R) -> StdSource<'a, R>
        ensures faults { ⟦<StdSource<'a, R> as Source>⟧.faults result ≡ 0 }
        ensures taken { ⟦<StdSource<'a, R> as Source>⟧.taken result ≡ 0 }
    {
        StdSource {
            rt,
            faults: 0,
            taken: 0,
        }
    }
}

impl<'a, R: Input> Source for StdSource<'a, R> {
    ghost tells = { false };

    ghost left = { λ _. [] };

    ghost faults = { λ source. source.faults };

    ghost taken = { λ source. source.taken };

    fn read(&mut self, into: &mut [u8]) -> Result<usize, Failed> {
        match self.rt.reader().read(into) {
            Ok(count) => {
                self.taken = self.taken.saturating_add(count as u64);
                Ok(count)
            }
            Err(_) => {
                self.faults = self.faults.saturating_add(1);
                Err(Failed)
            }
        }
    }
}
