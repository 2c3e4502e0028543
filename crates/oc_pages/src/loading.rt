// The chain of pages of a file is read.
ghost use Rattle.std.specs.Prelude.{◌≡◌, ◌<◌, ◌≤◌, ◌^◌, ◌+◌, ◌*◌, ℕ, true, [], ◌∷◌, ◌++◌, List, length, IsTrue, IfOk, OnOk, IsErrOf, All, AllPairs, Any};
ghost use Rattle.oc_host.specs.Counts.{HasCause, Rose};
ghost use Rattle.oc_host.specs.Disk.{Looks};
ghost use Rattle.oc_log.specs.Log.{slice, put_cells, AllWithin};
ghost use Rattle.oc_pages.specs.declared.fault.PagesFault.TheVariants as pages_fault;
ghost use Rattle.oc_pages.specs.declared.page.Page.{Page};
ghost use Rattle.oc_pages.specs.Chains.{StandsAt, Chain, HasPages};
ghost use Rattle.oc_pages.specs.Pages.{is_page, first_of, IsInRange, IsOther};

use crate::PagesFault;
use crate::laying::lay;
use crate::page::{PAGE, Page, is_empty, is_in_range, read_page};
use crate::table::PageTable;
use oc_host::{Failed, Host};
use oc_layout::{Cell, CellWrite};
use std::alloc::Global;

/// Reads the pages from the root cell on, of the file as it is with these cells put in. It ends at the first page that comes twice.
pub fn walk<H: Host>(
    alloc: Global,
    host: &mut H,
    root: Cell,
    unit: u32,
    cells: &[CellWrite],
) -> Result<PageTable, PagesFault>
    requires { IsTrue H.tells → AllWithin (length (H.disk host.old).bytes) cells.now }
    ensures chain { IfOk result (λ table. IsTrue H.tells →
        HasPages unit (put_cells cells.now (H.disk host.old).bytes) root table.pages) }
    ensures in_range { IfOk result (λ table. All IsInRange table.pages) }
    ensures full { IfOk result (λ table. All (λ p. length p.cells ≡ 126) table.pages) }
    ensures distinct { IfOk result (λ table. AllPairs IsOther table.pages) }
    ensures first { IfOk result (λ table. first_of table.pages ≡ root) }
    ensures no_page { IsErrOf result pages_fault.NotAPage → IsTrue H.tells →
        (pages : List Page) → HasPages unit (put_cells cells.now (H.disk host.old).bytes) root pages → ⊥ }
    ensures looks { IsTrue H.tells → Looks (H.disk host.old) (H.disk host.new) }
    ensures later { H.faults host.old ≤ H.faults host.new }
    ensures cause { IsErrOf result pages_fault.Host → Rose (H.faults host.old) (H.faults host.new) }
    ensures taken { IfOk result (λ table.
        H.taken host.new ≤ H.taken host.old + 1024 * length table.pages) }
    ensures taken_along { IsTrue H.tells → (pages : List Page) →
        Chain unit (put_cells cells.now (H.disk host.old).bytes) root pages →
        H.taken host.new ≤ H.taken host.old + 1024 * length pages }
{
    let len = host.len()?;
    let mut table = PageTable::new(alloc);
    let mut next = root;
    while !is_empty(next) {
        let page = read_at(host, next, unit, len, cells)?;
        next = page.link;
        take_in(&mut table, page)?;
    }
    Ok(table)
}

// Reads the page that a cell names.
fn read_at<H: Host>(
    host: &mut H,
    place: Cell,
    unit: u32,
    len: u64,
    cells: &[CellWrite],
) -> Result<Page, PagesFault>
    requires len { IsTrue H.tells → len ≡ length (H.disk host.old).bytes }
    requires within { IsTrue H.tells → AllWithin (length (H.disk host.old).bytes) cells.now }
    ensures ok { IfOk result (λ page. IsTrue H.tells →
        StandsAt unit (put_cells cells.now (H.disk host.old).bytes) place page) }
    ensures at { IfOk result (λ page. first_of (page ∷ []) ≡ place) }
    ensures in_range { IfOk result IsInRange }
    ensures no_page { IsErrOf result pages_fault.NotAPage → IsTrue H.tells →
        (page : Page) → StandsAt unit (put_cells cells.now (H.disk host.old).bytes) place page →
        IsInRange page → ⊥ }
    ensures memory { IsErrOf result pages_fault.Memory → ⊥ }
    ensures looks { IsTrue H.tells → Looks (H.disk host.old) (H.disk host.new) }
    ensures later { H.faults host.old ≤ H.faults host.new }
    ensures cause { IsErrOf result pages_fault.Host → Rose (H.faults host.old) (H.faults host.new) }
    ensures taken { H.taken host.new ≤ H.taken host.old + 1024 }
{
    let at = place.at as u64 * unit as u64;
    if place.len != PAGE || at + PAGE as u64 > len {
        return Err(PagesFault::NotAPage);
    }
    let bytes = read_bytes(host, at, cells)?;
    match read_page(place.at, &bytes) {
        Some(page) if is_in_range(&page) => Ok(page),
        _ => Err(PagesFault::NotAPage),
    }
}

// The 1,024 bytes from this one on, of the file as it is with the cells put in.
fn read_bytes<H: Host>(host: &mut H, at: u64, cells: &[CellWrite]) -> Result<[u8; 1024], Failed>
    requires room { at + 1024 < 2 ^ 64 }
    requires inside { IsTrue H.tells → at + 1024 ≤ length (H.disk host.old).bytes }
    requires within { IsTrue H.tells → AllWithin (length (H.disk host.old).bytes) cells.now }
    ensures bytes { IfOk result (λ bytes. IsTrue H.tells →
        bytes ≡ slice at 1024 (put_cells cells.now (H.disk host.old).bytes)) }
    ensures looks { IsTrue H.tells → Looks (H.disk host.old) (H.disk host.new) }
    ensures cause { HasCause result (H.faults host.old) (H.faults host.new) }
    ensures taken { H.taken host.new ≤ H.taken host.old + 1024 }
{
    let mut bytes = [0; 1024];
    host.read(at, &mut bytes)?;
    lay(&mut bytes, at, cells);
    Ok(bytes)
}

// Keeps a page, unless there is one of its space and index.
fn take_in(table: &mut PageTable, page: Page) -> Result<(), PagesFault>
    ensures ok { OnOk result (table.new.pages ≡ table.old.pages ++ page ∷ []) }
    ensures few { OnOk result (length table.old.pages < 2 ^ 64) }
    ensures distinct { OnOk result (AllPairs IsOther table.new.pages) }
    ensures twice { IsErrOf result pages_fault.NotAPage →
        Any (λ p. is_page page.space page.index p ≡ true) table.old.pages }
    ensures host { IsErrOf result pages_fault.Host → ⊥ }
{
    if table.place(page.space, page.index).is_some() {
        return Err(PagesFault::NotAPage);
    }
    table.reserve(1)?;
    table.push(page);
    Ok(())
}
