// A container without slots is made.
ghost use Rattle.std.specs.Prelude.{◌≡◌, ◌≤◌, [], length, true, IsTrue, IfOk, OnOk, IsErrOf};
ghost use Rattle.oc_host.specs.Counts.{Rose};
ghost use Rattle.oc_host.specs.Disk.{IsSynced, LeavesOnly};
ghost use Rattle.oc_layout.specs.Headers.{is_in_range};
ghost use Rattle.oc_layout.specs.Layout.{unit_of, room_of, blocks};
ghost use Rattle.oc_slots.specs.declared.attach_fault.AttachFault.TheVariants as attach_fault;
ghost use Rattle.oc_slots.specs.Attaching.{IsMaking, IsMade, StaysShort, plain_header, with_blocks, made_header};
ghost use Rattle.oc_slots.specs.Stores.{Agrees};

use crate::cache::SlotCache;
use crate::front::HEADER;
use crate::judging::store_with;
use crate::{AttachFault, Making, SlotStore};
use oc_host::Host;
use oc_layout::{Cell, Header, write_header};
use oc_pages::Pages;
use oc_room::Room;
use std::alloc::Global;

const NO_CELL: Cell = Cell { at: 0, len: 0 };

const BLOCKS: u8 = 2;

/// Makes a container without slots of a synced file of at most 128 bytes.
pub fn make<H: Host>(alloc: Global, host: &mut H, making: &Making) -> Result<SlotStore, AttachFault>
    requires making { IsMaking making.now }
    requires synced { IsTrue H.tells → IsSynced (H.disk host.old) }
    requires short { IsTrue H.tells → length (H.disk host.old).bytes ≤ 128 }
    ensures agrees { IfOk result (λ store. IsTrue H.tells → Agrees store (H.disk host.new)) }
    ensures objects { IfOk result (λ store. store.objects ≡ []) }
    ensures system { IfOk result (λ store. store.system ≡ []) }
    ensures kept { IfOk result (λ store. store.cached ≡ []) }
    ensures made { IfOk result (λ store. IsTrue H.tells → IsMade making.now store (H.disk host.new)) }
    ensures not_container { IsErrOf result attach_fault.NotAContainer → IsTrue H.tells → ⊥ }
    ensures any_moment { IsTrue H.tells → LeavesOnly (H.disk host.old) (H.disk host.new) (StaysShort (H.disk host.old)) }
    ensures later { H.faults host.old ≤ H.faults host.new }
    ensures cause { IsErrOf result attach_fault.Host → Rose (H.faults host.old) (H.faults host.new) }
    ensures taken { H.taken host.new ≡ H.taken host.old }
{
    let header = header_of(making);
    let cache = SlotCache::new(alloc)?;
    host.write_at(0, &write_header(&header))?;
    host.sync()?;
    Ok(empty_store(alloc, header, cache))
}

// The header of a container that is made so.
fn header_of(making: &Making) -> Header
    ensures { result ≡ made_header making.now }
{
    let header = plain_header(making.limit, making.first);
    match making.block {
        Some(block) => Header {
            block,
            block_limit: header.limit,
            form: BLOCKS,
            ..header
        },
        None => header,
    }
}

fn plain_header(limit: u32, first: u32) -> Header
    ensures { result ≡ plain_header limit first }
{
    Header {
        limit,
        first,
        root: NO_CELL,
        log: NO_CELL,
        gate: 0,
        block: 0,
        block_limit: 0,
        block_root: NO_CELL,
        spare: NO_CELL,
        form: 0,
    }
}

// The store of a file that has no more than this header.
fn empty_store(alloc: Global, header: Header, cache: SlotCache) -> SlotStore
    requires in_range { is_in_range header ≡ true }
    requires closed { header.gate ≡ 0 }
    requires kept { cache ≡ [] }
    ensures header { result.header ≡ header }
    ensures pages { result.pages ≡ [] }
    ensures len { result.len ≡ 128 }
    ensures objects { result.objects ≡ [] }
    ensures system { result.system ≡ [] }
    ensures kept { result.cached ≡ [] }
{
    let unit = header.unit();
    let end = HEADER.div_ceil(unit);
    let pages = Pages::new(alloc, unit);
    let room = Room::new(alloc, unit, end, header.room());
    store_with(alloc, header, pages, room, HEADER as u64, cache)
}
