// The pages that a commit adds are written.
ghost use Rattle.std.specs.Prelude.{◌≡◌, ◌≤◌, ◌<◌, ◌∷◌, ◌-◌, ◌*◌, ◌++◌, ℕ, List, length, replicate, IsTrue, OnOk, IsSome, Some, All};
ghost use Rattle.oc_host.specs.Counts.{HasCause};
ghost use Rattle.oc_host.specs.Disk.{LeavesOnly, AfterWrite};
ghost use Rattle.oc_layout.specs.declared.cells.Header.{Header};
ghost use Rattle.oc_layout.specs.Layout.{blocks};
ghost use Rattle.oc_pages.specs.declared.page.Page.{Page};
ghost use Rattle.oc_pages.specs.Chains.{FitsPage};
ghost use Rattle.oc_pages.specs.Pages.{page_of};
ghost use Rattle.oc_room.specs.Rooms.{AreInOrder};
ghost use Rattle.oc_slots.specs.Held.{Holds};
ghost use Rattle.oc_slots.specs.Pieces.{from, pieces_of, over_all, Fit};
ghost use Rattle.oc_slots.specs.Turnovers.{bytes_of, page_slots, places_of};
ghost use Rattle.oc_slots.specs.Writing.{AreFree, Keeps, Before};

use crate::new_pages::NewPage;
use crate::run::from;
use oc_host::{Failed, Host};
use oc_layout::Cell;
use oc_pages::Pages;

const PAGE: usize = 1024;

// The most zeros that are written before a page: a block has at most 127 bytes.
const PADDING: usize = 127;

/// Writes the added pages behind a thing at the cell `before`, if any, in a file of `end` bytes: each by one write, with
/// zeros before it where it goes on in the next block or begins behind the end of the file. It doesn't sync.
pub fn write_pages<H: Host>(
    host: &mut H,
    pages: &Pages,
    added: &[NewPage],
    unit: u32,
    end: u64,
    before: Option<Cell>,
) -> Result<(), Failed>
    requires unit { 0 < unit }
    requires block { unit ≤ 127 }
    requires there { All (λ a. IsSome (page_of pages.now.pages a.space a.index)) added.now }
    requires order { (last : ℕ) × AreInOrder unit (blocks unit end) (places_of added.now) last }
    requires end { IsTrue H.tells → length (H.disk host.old).bytes ≡ end }
    ensures bytes { OnOk result (IsTrue H.tells →
        (H.disk host.new).bytes ≡ over_all (pieces_of unit end before (page_slots pages.now.pages added.now)) (H.disk host.old).bytes) }
    ensures fits { OnOk result (All (λ a. (q : Page) → page_of pages.now.pages a.space a.index ≡ Some q → FitsPage q) added.now) }
    ensures keeps { OnOk result (IsTrue H.tells → (header : Header) (held : List Page) →
        AreFree header held (pieces_of unit end before (page_slots pages.now.pages added.now)) → Keeps header held (H.disk host.old) (H.disk host.new)) }
    ensures any_moment { IsTrue H.tells → (header : Header) (held : List Page) →
        AreFree header held (pieces_of unit end before (page_slots pages.now.pages added.now)) → Holds header held (H.disk host.old) →
        LeavesOnly (H.disk host.old) (H.disk host.new) (Before header held (H.disk host.old)) }
    ensures cause { HasCause result (H.faults host.old) (H.faults host.new) }
    ensures taken { H.taken host.new ≡ H.taken host.old }
{
    let mut end = end;
    let mut before = before;
    for page in added {
        let start = page.at as u64 * unit as u64;
        let cell = page.place();
        let at = from(unit, end, before, cell);
        write_padded(host, at, start - at, &bytes_of(pages, page))?;
        end = end.max(start + PAGE as u64);
        before = Some(cell);
    }
    Ok(())
}

// The bytes of a page that is there.
fn bytes_of(pages: &Pages, page: &NewPage) -> [u8; 1024]
    requires { IsSome (page_of pages.now.pages page.now.space page.now.index) }
    ensures value { result ≡ bytes_of pages.now.pages page.now }
    ensures len { length (bytes_of pages.now.pages page.now) ≡ 1024 }
    ensures fits { (q : Page) → page_of pages.now.pages page.now.space page.now.index ≡ Some q → FitsPage q }
{
    pages.page(page.space, page.index).unwrap_or([0; PAGE])
}

// Writes a page with so many zeros before it.
fn write_padded<H: Host>(host: &mut H, at: u64, zeros: u64, page: &[u8; 1024]) -> Result<(), Failed>
    requires few { zeros ≤ 127 }
    requires fits { IsTrue H.tells → at ≤ length (H.disk host.old).bytes }
    ensures disk { IsTrue H.tells → AfterWrite at (replicate zeros 0 ++ page.now) result (H.disk host.old) (H.disk host.new) }
    ensures cause { HasCause result (H.faults host.old) (H.faults host.new) }
    ensures taken { H.taken host.new ≡ H.taken host.old }
{
    let mut bytes = [0; PADDING + PAGE];
    let (_, place) = bytes.split_at_mut(PADDING);
    place.copy_from_slice(page);
    let (_, padded) = bytes.split_at(PADDING - zeros as usize);
    host.write_at(at, padded)
}
