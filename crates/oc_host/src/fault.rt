// Why a call that takes memory and calls a host gave up.
ghost use Rattle.std.specs.Prelude.{◌≡◌};
ghost use Rattle.oc_host.specs.declared.fault.IoFault.TheVariants as io_fault;

use crate::Failed;
use std::alloc::{AllocError, AllocFailed};

/// A call on the host failed, or there was no memory.
#[derive(Clone, Copy, Debug, PartialEq, Eq)]
pub enum IoFault {
    Host,
    Memory,
}

impl From<Failed> for IoFault {
    ghost from_gives = { λ _ fault. fault ≡ io_fault.Host };

    fn from(_: Failed) -> Self {
        IoFault::Host
    }
}

impl From<AllocError> for IoFault {
    ghost from_gives = { λ _ fault. fault ≡ io_fault.Memory };

    fn from(_: AllocError) -> Self {
        IoFault::Memory
    }
}

impl<T: Drop> From<AllocFailed<T>> for IoFault {
    ghost from_gives = { λ _ fault. fault ≡ io_fault.Memory };

    fn from(_: AllocFailed<T>) -> Self {
        IoFault::Memory
    }
}
