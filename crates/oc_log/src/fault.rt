// Why a recovery gave up.
ghost use Rattle.std.specs.Prelude.{◌≡◌};
ghost use Rattle.oc_log.specs.declared.fault.LogFault.TheVariants as log_fault;

use oc_host::Failed;
use std::alloc::{AllocError, AllocFailed};

/// A call on the host failed, there was no memory, or the gate is open and there is no log.
#[derive(Clone, Copy, Debug, PartialEq, Eq)]
pub enum LogFault {
    Host,
    Memory,
    NotALog,
}

impl From<Failed> for LogFault {
    ghost from_gives = { λ _ fault. fault ≡ log_fault.Host };

    fn from(_: Failed) -> Self {
        LogFault::Host
    }
}

impl From<AllocError> for LogFault {
    ghost from_gives = { λ _ fault. fault ≡ log_fault.Memory };

    fn from(_: AllocError) -> Self {
        LogFault::Memory
    }
}

impl<T: Drop> From<AllocFailed<T>> for LogFault {
    ghost from_gives = { λ _ fault. fault ≡ log_fault.Memory };

    fn from(_: AllocFailed<T>) -> Self {
        LogFault::Memory
    }
}
