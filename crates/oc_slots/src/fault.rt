// Why a call on slots gave up.
ghost use Rattle.std.specs.Prelude.{◌≡◌};
ghost use Rattle.oc_slots.specs.declared.fault.SpaceFault.TheVariants as space_fault;

use oc_host::Failed;
use oc_room::RoomFault;
use std::alloc::{AllocError, AllocFailed};

/// A call on the host failed, there was no memory, or the file would grow over its limit: the blocks that are needed,
/// those of the file before, and the most that it may have.
#[derive(Clone, Copy, Debug, PartialEq, Eq)]
pub enum SpaceFault {
    Host,
    Memory,
    Full { need: u64, len: u32, limit: u32 },
}

impl From<Failed> for SpaceFault {
    ghost from_gives = { λ _ fault. fault ≡ space_fault.Host };

    fn from(_: Failed) -> Self {
        SpaceFault::Host
    }
}

impl From<AllocError> for SpaceFault {
    ghost from_gives = { λ _ fault. fault ≡ space_fault.Memory };

    fn from(_: AllocError) -> Self {
        SpaceFault::Memory
    }
}

impl<T: Drop> From<AllocFailed<T>> for SpaceFault {
    ghost from_gives = { λ _ fault. fault ≡ space_fault.Memory };

    fn from(_: AllocFailed<T>) -> Self {
        SpaceFault::Memory
    }
}
