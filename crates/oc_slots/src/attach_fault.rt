// Why a file wasn't attached.
ghost use Rattle.std.specs.Prelude.{◌≡◌};
ghost use Rattle.oc_slots.specs.declared.attach_fault.AttachFault.TheVariants as attach_fault;

use oc_host::Failed;
use std::alloc::{AllocError, AllocFailed};

/// A call on the host failed, there was no memory, or the file is no container and isn't to be made one.
#[derive(Clone, Copy, Debug, PartialEq, Eq)]
pub enum AttachFault {
    Host,
    Memory,
    NotAContainer,
}

impl From<Failed> for AttachFault {
    ghost from_gives = { λ _ fault. fault ≡ attach_fault.Host };

    fn from(_: Failed) -> Self {
        AttachFault::Host
    }
}

impl From<AllocError> for AttachFault {
    ghost from_gives = { λ _ fault. fault ≡ attach_fault.Memory };

    fn from(_: AllocError) -> Self {
        AttachFault::Memory
    }
}

impl<T: Drop> From<AllocFailed<T>> for AttachFault {
    ghost from_gives = { λ _ fault. fault ≡ attach_fault.Memory };

    fn from(_: AllocFailed<T>) -> Self {
        AttachFault::Memory
    }
}
