//! What ends a piece of work before its time.

use oc_host::IoFault;
use oc_slots::{AttachFault, SpaceFault};
use oc_store::{ChangeFault, ReadFault, StartFault};
use std::alloc::{AllocError, AllocFailed};
use std::io;

#[derive(Clone, Copy, Debug, PartialEq, Eq)]
pub enum Fault {
    Memory,
    /// The words can't be had, or nothing can be said.
    Streams,
    /// The file can't be read or written, or is no container.
    File,
    /// The file would be too long.
    Full,
    /// A slot or an object that was written isn't there, or is damaged.
    Lost,
}

impl From<AllocError> for Fault {
    fn from(_error: AllocError) -> Fault {
        Fault::Memory
    }
}

impl<T: Drop> From<AllocFailed<T>> for Fault {
    fn from(_failed: AllocFailed<T>) -> Fault {
        Fault::Memory
    }
}

impl From<io::Error> for Fault {
    fn from(_error: io::Error) -> Fault {
        Fault::Streams
    }
}

impl From<AttachFault> for Fault {
    fn from(fault: AttachFault) -> Fault {
        match fault {
            AttachFault::Memory => Fault::Memory,
            AttachFault::Host | AttachFault::NotAContainer => Fault::File,
        }
    }
}

impl From<SpaceFault> for Fault {
    fn from(fault: SpaceFault) -> Fault {
        match fault {
            SpaceFault::Memory => Fault::Memory,
            SpaceFault::Host => Fault::File,
            SpaceFault::Full { .. } => Fault::Full,
        }
    }
}

impl From<IoFault> for Fault {
    fn from(fault: IoFault) -> Fault {
        match fault {
            IoFault::Memory => Fault::Memory,
            IoFault::Host => Fault::File,
        }
    }
}

impl From<StartFault> for Fault {
    fn from(fault: StartFault) -> Fault {
        match fault {
            StartFault::Memory => Fault::Memory,
            StartFault::Host | StartFault::NotAContainer => Fault::File,
            StartFault::Damaged { .. } => Fault::Lost,
        }
    }
}

impl From<ReadFault> for Fault {
    fn from(fault: ReadFault) -> Fault {
        match fault {
            ReadFault::Memory => Fault::Memory,
            ReadFault::Host => Fault::File,
            ReadFault::Damaged { .. } => Fault::Lost,
        }
    }
}

impl From<ChangeFault> for Fault {
    fn from(fault: ChangeFault) -> Fault {
        match fault {
            ChangeFault::Memory => Fault::Memory,
            ChangeFault::Host => Fault::File,
            ChangeFault::Damaged { .. } => Fault::Lost,
            ChangeFault::Full { .. } => Fault::Full,
        }
    }
}
