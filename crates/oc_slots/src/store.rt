// A slot store: two sides of one file.
use crate::SlotId;
use crate::cache::SlotCache;
use crate::overlay::Overlay;
use oc_layout::{Cell, Header};
use oc_pages::Pages;
use oc_room::Room;
use std::alloc::Global;
use std::marker::Model;

/// Slots of bytes in a file: the committed side, which the pages of the file name, and the session, which is that with
/// what has changed since.
///
/// Contracts see the header, the pages, what changed in each space, the room and the length of the file, and the slots
/// whose bytes are kept. What the two maps are is told by these and the file. The session's slots are written through, so
/// their bytes stand in the file.
#[derive(Drop)]
pub struct SlotStore {
    pub(crate) alloc: Global,
    pub(crate) header: Header,
    pub(crate) pages: Pages,
    pub(crate) room: Room,
    pub(crate) overlay: Overlay,
    pub(crate) fresh: u32,
    pub(crate) len: u64,
    pub(crate) cache: SlotCache,
}

impl Model for SlotStore {
    ghost use Rattle.std.specs.Prelude.{[]};
    ghost use Rattle.oc_slots.specs.Stores.{Slots, IsWhole, ArePlaces, parts};

    ghost Value = { Slots };

    ghost view = { λ s. parts s.header s.pages s.overlay s.room s.len s.cache };

    ghost invariant = { λ s. IsWhole s.header s.pages s.overlay s.room s.fresh s.len
        × ArePlaces (parts s.header s.pages s.overlay s.room s.len []) s.cache };
}

impl SlotStore {
    ghost use Rattle.std.specs.Prelude.{◌≡◌, true};
    ghost use Rattle.oc_layout.specs.Headers.{is_in_range};
    ghost use Rattle.oc_slots.specs.Stores.{session_place};

    /// What the first 128 bytes of the file spell.
    pub fn header(&self) -> Header
        ensures is { result ≡ self.now.header }
        ensures in_range { is_in_range result ≡ true }
    {
        self.header
    }

    // Where a slot is in the session.
    pub(crate) fn session_place(&self, id: SlotId) -> Option<Cell>
        ensures { result ≡ session_place self.now id }
    {
        match self.overlay.get(id) {
            Some(place) => place,
            None => self.pages.pointer(id.space, id.number),
        }
    }
}
