// Why something wasn't placed.
ghost use Rattle.std.specs.Prelude.{◌≡◌};
ghost use Rattle.oc_room.specs.declared.fault.RoomFault.TheVariants as room_fault;

use std::alloc::{AllocError, AllocFailed};

/// There was no memory, or the file would grow over its limit: the blocks that are needed, those of the file before,
/// and the most that it may have.
#[derive(Clone, Copy, Debug, PartialEq, Eq)]
pub enum RoomFault {
    Memory,
    Full { need: u64, len: u32, limit: u32 },
}

impl From<AllocError> for RoomFault {
    ghost from_gives = { λ _ fault. fault ≡ room_fault.Memory };

    fn from(_: AllocError) -> Self {
        RoomFault::Memory
    }
}

impl<T: Drop> From<AllocFailed<T>> for RoomFault {
    ghost from_gives = { λ _ fault. fault ≡ room_fault.Memory };

    fn from(_: AllocFailed<T>) -> Self {
        RoomFault::Memory
    }
}
