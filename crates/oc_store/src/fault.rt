//! Why a call on a store gave up.

ghost use Rattle.std.specs.Prelude.{◌≡◌};
ghost use Rattle.oc_store.specs.declared.fault.ChangeFault.TheVariants as change_fault;
ghost use Rattle.oc_store.specs.declared.fault.ReadFault.TheVariants as read_fault;

use oc_host::IoFault;
use oc_slots::{AttachFault, Space, SpaceFault};
use std::alloc::{AllocError, AllocFailed};
use thiserror::Error;

/// Why something wasn't read: a call on the host failed, there was no memory, or the slot that is named is damaged.
#[derive(Clone, Copy, Debug, PartialEq, Eq, Error)]
pub enum ReadFault {
    #[error("the file can't be reached")]
    Host,
    #[error("out of memory")]
    Memory,
    #[error("slot {number} of {space:?} is damaged")]
    Damaged { space: Space, number: u32 },
}

impl From<IoFault> for ReadFault {
    ghost use Rattle.oc_store.specs.Faults.{read_fault_of};

    ghost from_gives = { λ fault given. given ≡ read_fault_of fault };

    fn from(fault: IoFault) -> Self {
        match fault {
            IoFault::Host => ReadFault::Host,
            IoFault::Memory => ReadFault::Memory,
        }
    }
}

impl From<AllocError> for ReadFault {
    ghost from_gives = { λ _ fault. fault ≡ read_fault.Memory };

    fn from(_: AllocError) -> Self {
        ReadFault::Memory
    }
}

impl<T: Drop> From<AllocFailed<T>> for ReadFault {
    ghost from_gives = { λ _ fault. fault ≡ read_fault.Memory };

    fn from(_: AllocFailed<T>) -> Self {
        ReadFault::Memory
    }
}

/// Why a change or a commit gave up: as for reading, or the file would grow over its limit: the blocks that are needed,
/// those of the file before, and the most that it may have.
#[derive(Clone, Copy, Debug, PartialEq, Eq, Error)]
pub enum ChangeFault {
    #[error("the file can't be reached")]
    Host,
    #[error("out of memory")]
    Memory,
    #[error("slot {number} of {space:?} is damaged")]
    Damaged { space: Space, number: u32 },
    #[error("{need} more than {len} is over the limit of {limit}")]
    Full { need: u64, len: u32, limit: u32 },
}

impl From<ReadFault> for ChangeFault {
    ghost use Rattle.oc_store.specs.Faults.{change_fault_of};

    ghost from_gives = { λ fault given. given ≡ change_fault_of fault };

    fn from(fault: ReadFault) -> Self {
        match fault {
            ReadFault::Host => ChangeFault::Host,
            ReadFault::Memory => ChangeFault::Memory,
            ReadFault::Damaged { space, number } => ChangeFault::Damaged { space, number },
        }
    }
}

impl From<SpaceFault> for ChangeFault {
    ghost use Rattle.oc_store.specs.Faults.{change_fault_of_space};

    ghost from_gives = { λ fault given. given ≡ change_fault_of_space fault };

    fn from(fault: SpaceFault) -> Self {
        match fault {
            SpaceFault::Host => ChangeFault::Host,
            SpaceFault::Memory => ChangeFault::Memory,
            SpaceFault::Full { need, len, limit } => ChangeFault::Full { need, len, limit },
        }
    }
}

impl From<AllocError> for ChangeFault {
    ghost from_gives = { λ _ fault. fault ≡ change_fault.Memory };

    fn from(_: AllocError) -> Self {
        ChangeFault::Memory
    }
}

impl<T: Drop> From<AllocFailed<T>> for ChangeFault {
    ghost from_gives = { λ _ fault. fault ≡ change_fault.Memory };

    fn from(_: AllocFailed<T>) -> Self {
        ChangeFault::Memory
    }
}

/// Why a store wasn't attached: as for reading, or the file is no container and isn't to be made one.
#[derive(Clone, Copy, Debug, PartialEq, Eq, Error)]
pub enum StartFault {
    #[error("the file can't be reached")]
    Host,
    #[error("out of memory")]
    Memory,
    #[error("the file is no container")]
    NotAContainer,
    #[error("slot {number} of {space:?} is damaged")]
    Damaged { space: Space, number: u32 },
}

impl From<AttachFault> for StartFault {
    ghost use Rattle.oc_store.specs.Faults.{start_fault_of_slots};

    ghost from_gives = { λ fault given. given ≡ start_fault_of_slots fault };

    fn from(fault: AttachFault) -> Self {
        match fault {
            AttachFault::Host => StartFault::Host,
            AttachFault::Memory => StartFault::Memory,
            AttachFault::NotAContainer => StartFault::NotAContainer,
        }
    }
}

impl From<ReadFault> for StartFault {
    ghost use Rattle.oc_store.specs.Faults.{start_fault_of};

    ghost from_gives = { λ fault given. given ≡ start_fault_of fault };

    fn from(fault: ReadFault) -> Self {
        match fault {
            ReadFault::Host => StartFault::Host,
            ReadFault::Memory => StartFault::Memory,
            ReadFault::Damaged { space, number } => StartFault::Damaged { space, number },
        }
    }
}
