//! Why a line gave up.

ghost use Rattle.std.specs.Prelude.{◌≡◌};

use oc_store::{ReadFault, Space};
use std::alloc::AllocError;
use thiserror::Error;

/// Why a line wasn't answered: a call on the host failed, there was no memory, or the slot that is named is damaged.
#[derive(Clone, Copy, Debug, PartialEq, Eq, Error)]
pub enum Fault {
    #[error("the file can't be reached")]
    Host,
    #[error("out of memory")]
    Memory,
    #[error("slot {number} of {space:?} is damaged")]
    Damaged { space: Space, number: u32 },
}

impl From<ReadFault> for Fault {
    ghost use Rattle.oc_container.specs.Faults.{fault_of};

    ghost from_gives = { λ fault given. given ≡ fault_of fault };

    fn from(fault: ReadFault) -> Self {
        match fault {
            ReadFault::Host => Fault::Host,
            ReadFault::Memory => Fault::Memory,
            ReadFault::Damaged { space, number } => Fault::Damaged { space, number },
        }
    }
}

impl From<AllocError> for Fault {
    ghost use Rattle.oc_container.specs.declared.fault.Fault.TheVariants.{Memory};

    ghost from_gives = { λ _ fault. fault ≡ Memory };

    fn from(_: AllocError) -> Self {
        Fault::Memory
    }
}
