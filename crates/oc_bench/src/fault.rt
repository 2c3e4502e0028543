//! What ends a piece of work before its time.

use oc_marshal::DecodeFault;
use oc_refactor::DeclareFault;
use oc_script::LineFault;
use std::alloc::AllocError;
use std::io;

#[derive(Clone, Copy, Debug, PartialEq, Eq)]
pub enum Fault {
    Memory,
    /// The words can't be had, or nothing can be said.
    Streams,
    /// A line or a record that was made here isn't read, or a class is refused.
    Refused,
}

impl From<AllocError> for Fault {
    fn from(_error: AllocError) -> Fault {
        Fault::Memory
    }
}

impl From<io::Error> for Fault {
    fn from(_error: io::Error) -> Fault {
        Fault::Streams
    }
}

impl From<LineFault> for Fault {
    fn from(_fault: LineFault) -> Fault {
        Fault::Refused
    }
}

impl From<DecodeFault> for Fault {
    fn from(_fault: DecodeFault) -> Fault {
        Fault::Refused
    }
}

impl From<DeclareFault> for Fault {
    fn from(fault: DeclareFault) -> Fault {
        match fault {
            DeclareFault::Memory => Fault::Memory,
            _ => Fault::Refused,
        }
    }
}
