// Which slot, and what becomes of it.
use crate::Bytes;
use oc_layout::Space;

/// A slot: the space that it is in, and its number there, from 1 to 2,147,483,646.
#[derive(Clone, Copy, Debug, PartialEq, Eq)]
pub struct SlotId {
    pub space: Space,
    pub number: u32,
}

/// One of the two maps.
#[derive(Clone, Copy, Debug, PartialEq, Eq)]
pub enum Side {
    /// What the last commit left.
    Committed,
    /// That with what has changed since.
    Session,
}

/// How a container is made: the most that it may take, in bytes, or in blocks where it has some; the number of its
/// first object; whether it may take the place of a file of at most 128 bytes that is none; and the bytes in a block,
/// where it is to be of block form.
#[derive(Clone, Copy, Debug, PartialEq, Eq)]
pub struct Making {
    pub limit: u32,
    pub first: u32,
    pub anew: bool,
    pub block: Option<u32>,
}

/// A slot with these bytes from now on, or without any.
#[derive(Debug, Drop)]
pub struct SlotChange {
    pub id: SlotId,
    pub bytes: Option<Bytes>,
}
