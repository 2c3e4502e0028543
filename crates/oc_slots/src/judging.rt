// A file is judged, before anything is written to it.
ghost use Rattle.std.specs.Prelude.{◌≡◌, ◌≢◌, ◌≤◌, ◌+◌, ◌*◌, ℕ, true, List, [], ◌∷◌, length, IsTrue, IfOk, IsErrOf, All, AllPairs};
ghost use Rattle.oc_host.specs.Counts.{Rose};
ghost use Rattle.oc_host.specs.Disk.{Looks};
ghost use Rattle.oc_layout.specs.declared.cells.CellWrite.{CellWrite};
ghost use Rattle.oc_layout.specs.declared.cells.Header.{Header};
ghost use Rattle.oc_layout.specs.Headers.{is_in_range};
ghost use Rattle.oc_layout.specs.Layout.{unit_of, room_of, is_ascending, first_page_of, blocks};
ghost use Rattle.oc_log.specs.Log.{put_cells, AllWithin};
ghost use Rattle.oc_pages.specs.declared.page.Page.{Page};
ghost use Rattle.oc_pages.specs.Pages.{things_of, IsOther};
ghost use Rattle.oc_pages.specs.Chains.{HasPages};
ghost use Rattle.oc_room.specs.Rooms.{Tiles, IsRoom};
ghost use Rattle.oc_slots.specs.declared.attach_fault.AttachFault.TheVariants as attach_fault;
ghost use Rattle.oc_slots.specs.Attaching.{SuitsTarget, HasThings, IsJudged, with_cells, with_closed, open_len};
ghost use Rattle.oc_slots.specs.Forms.{HasForm, LiesIn, header_cell, log_things};

use crate::cache::SlotCache;
use crate::front::{Front, OPEN, read_front, with_cells};
use crate::ground::judge_things;
use crate::overlay::Overlay;
use crate::{AttachFault, SlotStore};
use oc_host::Host;
use oc_layout::{CellWrite, Header};
use oc_pages::{Pages, PagesFault};
use oc_room::Room;
use std::alloc::Global;

const PAGE: u64 = 1024;

/// A file of the form: its header, and the store that it gives once its open log is put in.
#[derive(Drop)]
pub struct Judged {
    pub header: Header,
    pub store: SlotStore,
}

/// Judges a file of so many bytes. Nothing is written.
pub fn judge<H: Host>(alloc: Global, host: &mut H, len: u64) -> Result<Judged, AttachFault>
    requires { IsTrue H.tells → len ≡ length (H.disk host.old).bytes }
    ensures objects { IfOk result (λ judged. judged.store.objects ≡ []) }
    ensures system { IfOk result (λ judged. judged.store.system ≡ []) }
    ensures kept { IfOk result (λ judged. judged.store.cached ≡ []) }
    ensures ok { IfOk result (λ judged. IsTrue H.tells →
        (ws : List CellWrite) × IsJudged judged.header ws judged.store (H.disk host.old).bytes) }
    ensures not_container { IsErrOf result attach_fault.NotAContainer → IsTrue H.tells →
        (h : Header) (ws : List CellWrite) (pages : List Page) → HasForm h ws pages (H.disk host.old).bytes → ⊥ }
    ensures looks { IsTrue H.tells → Looks (H.disk host.old) (H.disk host.new) }
    ensures later { H.faults host.old ≤ H.faults host.new }
    ensures cause { IsErrOf result attach_fault.Host → Rose (H.faults host.old) (H.faults host.new) }
    ensures taken { IsTrue H.tells → (h : Header) (ws : List CellWrite) (pages : List Page) →
        HasForm h ws pages (H.disk host.old).bytes →
        H.taken host.new ≤ H.taken host.old + 128 + open_len h + 1024 * length pages }
    ensures short { len ≤ 128 → H.taken host.new ≤ H.taken host.old + 128 }
{
    let front = read_front(alloc, host, len)?;
    let header = with_cells(&front.header, &front.writes);
    let pages = read_pages(alloc, host, &header, &front.writes, len)?;
    let store = store_of(alloc, &front, header, pages, len)?;
    Ok(Judged {
        header: front.header,
        store,
    })
}

// Reads the pages of the file as it is with these writes put in.
fn read_pages<H: Host>(
    alloc: Global,
    host: &mut H,
    header: &Header,
    writes: &[CellWrite],
    len: u64,
) -> Result<Pages, AttachFault>
    requires len { IsTrue H.tells → len ≡ length (H.disk host.old).bytes }
    requires within { IsTrue H.tells → AllWithin (length (H.disk host.old).bytes) writes.now }
    ensures chain { IfOk result (λ pages. IsTrue H.tells →
        HasPages (unit_of header.now) (put_cells writes.now (H.disk host.old).bytes) (first_page_of header.now) pages.pages) }
    ensures unit { IfOk result (λ pages. pages.unit ≡ unit_of header.now) }
    ensures distinct { IfOk result (λ pages. AllPairs IsOther pages.pages) }
    ensures not_container { IsErrOf result attach_fault.NotAContainer → IsTrue H.tells → (pages : List Page) →
        HasPages (unit_of header.now) (put_cells writes.now (H.disk host.old).bytes) (first_page_of header.now) pages → ⊥ }
    ensures looks { IsTrue H.tells → Looks (H.disk host.old) (H.disk host.new) }
    ensures later { H.faults host.old ≤ H.faults host.new }
    ensures cause { IsErrOf result attach_fault.Host → Rose (H.faults host.old) (H.faults host.new) }
    ensures taken { IsTrue H.tells → (pages : List Page) →
        HasPages (unit_of header.now) (put_cells writes.now (H.disk host.old).bytes) (first_page_of header.now) pages →
        H.taken host.new ≤ H.taken host.old + 1024 * length pages }
    ensures short { len ≤ 128 → H.taken host.new ≤ H.taken host.old }
{
    if len < PAGE {
        return no_pages(alloc, header);
    }
    match Pages::load_with(alloc, host, header.first_page(), header.unit(), writes) {
        Ok(pages) => Ok(pages),
        Err(PagesFault::Host) => Err(AttachFault::Host),
        Err(PagesFault::Memory) => Err(AttachFault::Memory),
        Err(PagesFault::NotAPage) => Err(AttachFault::NotAContainer),
    }
}

// The pages of a file that holds none.
fn no_pages(alloc: Global, header: &Header) -> Result<Pages, AttachFault>
    ensures root { IfOk result (λ pages. first_page_of header.now ≡ record { at = 0; len = 0 }) }
    ensures pages { IfOk result (λ pages. pages.pages ≡ []) }
    ensures unit { IfOk result (λ pages. pages.unit ≡ unit_of header.now) }
    ensures not_container { IsErrOf result attach_fault.NotAContainer → first_page_of header.now ≢ record { at = 0; len = 0 } }
    ensures host { IsErrOf result attach_fault.Host → ⊥ }
    ensures memory { IsErrOf result attach_fault.Memory → ⊥ }
{
    let root = header.first_page();
    if root.at == 0 && root.len == 0 {
        Ok(Pages::new(alloc, header.unit()))
    } else {
        Err(AttachFault::NotAContainer)
    }
}

// The store of these pages, if their things can lie in the file.
fn store_of(
    alloc: Global,
    front: &Front,
    header: Header,
    pages: Pages,
    len: u64,
) -> Result<SlotStore, AttachFault>
    requires in_range { is_in_range front.now.header ≡ true }
    requires room { blocks (unit_of front.now.header) len ≤ room_of front.now.header }
    requires long { 128 ≤ len }
    requires log { All (LiesIn (unit_of front.now.header) len) (log_things front.now.header front.now.writes.items) }
    requires suit { All (SuitsTarget front.now.header len) front.now.writes.items }
    requires ascends { IsTrue (is_ascending front.now.writes.items) }
    requires unit { pages.unit ≡ unit_of front.now.header }
    requires distinct { AllPairs IsOther pages.pages }
    requires header { header ≡ with_cells front.now.header front.now.writes.items }
    ensures ok { IfOk result (λ store. HasThings front.now.header front.now.writes.items store.pages len) }
    ensures header { IfOk result (λ store. store.header ≡ with_closed header) }
    ensures pages { IfOk result (λ store. store.pages ≡ pages.pages) }
    ensures len { IfOk result (λ store. store.len ≡ len) }
    ensures objects { IfOk result (λ store. store.objects ≡ []) }
    ensures system { IfOk result (λ store. store.system ≡ []) }
    ensures kept { IfOk result (λ store. store.cached ≡ []) }
    ensures not_container { IsErrOf result attach_fault.NotAContainer →
        HasThings front.now.header front.now.writes.items pages.pages len → ⊥ }
    ensures host { IsErrOf result attach_fault.Host → ⊥ }
{
    let room = judge_things(alloc, front, &pages, len)?;
    let cache = SlotCache::new(alloc)?;
    Ok(store_with(alloc, closed(header), pages, room, len, cache))
}

fn closed(header: Header) -> Header
    ensures { result ≡ with_closed header }
{
    if header.gate == OPEN {
        Header { gate: 0, ..header }
    } else {
        header
    }
}

/// The store of these pages, in which nothing has changed.
pub fn store_with(
    alloc: Global,
    header: Header,
    pages: Pages,
    room: Room,
    len: u64,
    cache: SlotCache,
) -> SlotStore
    requires in_range { is_in_range header ≡ true }
    requires closed { header.gate ≢ 1 }
    requires page_unit { pages.unit ≡ unit_of header }
    requires distinct { AllPairs IsOther pages.pages }
    requires is_room { IsRoom room }
    requires unit { room.unit ≡ unit_of header }
    requires limit { room.limit ≡ room_of header }
    requires end { room.end ≡ blocks (unit_of header) len }
    requires tiles { Tiles room (header_cell ∷ things_of pages.pages) }
    requires some { All (λ c. 1 ≤ c.len) (things_of pages.pages) }
    requires kept { cache ≡ [] }
    ensures header { result.header ≡ header }
    ensures pages { result.pages ≡ pages.pages }
    ensures len { result.len ≡ len }
    ensures objects { result.objects ≡ [] }
    ensures system { result.system ≡ [] }
    ensures kept { result.cached ≡ [] }
{
    let overlay = Overlay::new(alloc);
    SlotStore {
        alloc,
        header,
        pages,
        room,
        overlay,
        fresh: 0,
        len,
        cache,
    }
}
