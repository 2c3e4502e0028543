// One page, and its bytes.
ghost use Rattle.std.specs.Prelude.{◌≡◌, ◌≢◌, ◌<◌, ◌≤◌, ◌+◌, ◌-◌, ◌*◌, true, false, ℕ, length, drop, replicate, set, slice_index_or, IfSome, IfNone, IsTrue, MatchOption};
ghost use Rattle.oc_host.specs.Disk.{over};
ghost use Rattle.oc_layout.specs.Layout.{cell_bytes, first_cell, FitsCell};
ghost use Rattle.oc_layout.specs.declared.cells.Space.{Space};
ghost use Rattle.oc_pages.specs.declared.page.Page.{Page};
ghost use Rattle.oc_pages.specs.Pages.{no_cell, is_empty, space_number, empty_page, has_number, cell_in, slot_in, IsInRange};
ghost use Rattle.oc_pages.specs.Chains.{cells_from, ReadsAs, SpellsPage};

use oc_layout::{Cell, Space, read_cell, write_cell};

/// The bytes of a page.
pub const PAGE: u32 = 1024;

const CELL: usize = 8;

const CELLS: usize = 126;
/// The numbers of a page.
pub const NUMBERS: u32 = 126;

const FIRST_CELL: usize = 16;

const LAST_ADDRESS: u32 = 2_147_483_647;

const LAST_NUMBER: u64 = 2_147_483_646;

/// A page where it stands: its block, the space and the index, the cell that names the next page,
/// and the cells of its numbers.
#[derive(Clone, Copy)]
pub struct Page {
    pub at: u32,
    pub space: Space,
    pub index: u32,
    pub link: Cell,
    pub cells: [Cell; 126],
}

/// The cell that names nothing.
pub const NO_CELL: Cell = Cell { at: 0, len: 0 };

/// Whether the cell names nothing.
pub fn is_empty(cell: Cell) -> bool
    ensures { result ≡ is_empty cell }
{
    cell.at == 0 && cell.len == 0
}

/// How a page names its space.
pub fn number_of(space: Space) -> u32
    ensures { result ≡ space_number space }
{
    match space {
        Space::Objects => 1,
        Space::System => 2,
    }
}

fn space_of(number: u32) -> Option<Space>
    ensures some { IfSome result (λ space. space_number space ≡ number) }
    ensures none { IfNone result ((space : Space) → space_number space ≢ number) }
{
    match number {
        1 => Some(Space::Objects),
        2 => Some(Space::System),
        _ => None,
    }
}

/// The index of the page that holds a number of at least 1.
pub fn index_of(number: u32) -> u32
    requires { 1 ≤ number }
    ensures { has_number result number ≡ true }
{
    (number - 1) / NUMBERS
}

/// The place of a number among those of its page.
pub fn slot_of(number: u32) -> usize
    requires { 1 ≤ number }
    ensures within { result < 126 }
    ensures slot { (p : Page) → has_number p.index number ≡ true → result ≡ slot_in p number }
{
    ((number - 1) % NUMBERS) as usize
}

/// A page without pointers.
pub fn empty_page(space: Space, index: u32, at: u32, link: Cell) -> Page
    ensures { result ≡ empty_page space index at link }
{
    Page {
        at,
        space,
        index,
        link,
        cells: [NO_CELL; 126],
    }
}

/// The page that these bytes are, or `None` where they name no space.
pub fn read_page(at: u32, bytes: &[u8; 1024]) -> Option<Page>
    ensures at { IfSome result (λ p. p.at ≡ at) }
    ensures read { IfSome result (λ p. ReadsAs p bytes.now) }
    ensures none { IfNone result ((p : Page) → ReadsAs p bytes.now → ⊥) }
{
    let head = cell_at(bytes, CELL);
    let space = space_of(head.at)?;
    Some(Page {
        at,
        space,
        index: head.len,
        link: cell_at(bytes, 0),
        cells: cells_of(bytes),
    })
}

fn cell_at(bytes: &[u8], at: usize) -> Cell
    requires { at + 8 ≤ length bytes.now }
    ensures { result ≡ first_cell (drop at bytes.now) }
{
    first_of(&bytes[at..])
}

fn first_of(bytes: &[u8]) -> Cell
    requires { 8 ≤ length bytes.now }
    ensures { result ≡ first_cell bytes.now }
{
    read_cell(&[
        bytes[0], bytes[1], bytes[2], bytes[3], bytes[4], bytes[5], bytes[6], bytes[7],
    ])
}

fn cells_of(bytes: &[u8; 1024]) -> [Cell; 126]
    ensures { result ≡ cells_from 126 (drop 16 bytes.now) }
{
    let mut cells = [NO_CELL; 126];
    let (_, after) = bytes.split_at(FIRST_CELL);
    let mut rest = after;
    for k in 0..CELLS {
        cells[k] = first_of(rest);
        let (_, after) = rest.split_at(CELL);
        rest = after;
    }
    cells
}

/// The 1,024 bytes of a page.
pub fn write_page(page: &Page) -> [u8; 1024]
    ensures { SpellsPage page.now result }
{
    let mut bytes = [0; 1024];
    put_cell(&mut bytes, 0, page.link);
    let head = Cell {
        at: number_of(page.space),
        len: page.index,
    };
    put_cell(&mut bytes, CELL, head);
    for k in 0..CELLS {
        put_cell(&mut bytes, FIRST_CELL + CELL * k, page.cells[k]);
    }
    bytes
}

fn put_cell(bytes: &mut [u8], at: usize, cell: Cell)
    requires { at + 8 ≤ length bytes.old }
    ensures bytes { bytes.new ≡ over at (cell_bytes cell) bytes.old }
    ensures fits { FitsCell cell }
{
    bytes[at..at + CELL].copy_from_slice(&write_cell(cell));
}

/// Whether the page's address and the numbers of its pointers are in range.
pub fn is_in_range(page: &Page) -> bool
    ensures yes { IsTrue result → IsInRange page.now }
    ensures no { result ≡ false → IsInRange page.now → ⊥ }
{
    if page.at > LAST_ADDRESS {
        return false;
    }
    for k in 0..CELLS {
        let number = page.index as u64 * NUMBERS as u64 + k as u64 + 1;
        if number > LAST_NUMBER && !is_empty(page.cells[k]) {
            return false;
        }
    }
    true
}
