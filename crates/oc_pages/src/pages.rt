use crate::PagesFault;
use crate::listing::{put_numbers, put_things};
use crate::loading::walk;
use crate::order::ascending;
use crate::page::{NO_CELL, PAGE, empty_page, index_of, is_empty, slot_of, write_page};
use crate::table::PageTable;
use crate::targets::{CELL, FIRST_CELL, are_cells, starts_of};
use oc_host::Host;
use oc_layout::{Cell, CellWrite, Space};
use std::alloc::{AllocError, Global};
use std::marker::Model;

/// The pages of a file, which say which number of which space has which cell.
///
/// Contracts see the pages in the order of the chain, the bytes in a block, and `spare`: how many
/// pages can be added before memory has to be reserved again. No two pages are of one space and index.
#[derive(Drop)]
pub struct Pages {
    unit: u32,
    first: Cell,
    loaded: usize,
    table: PageTable,
}

impl Model for Pages {
    ghost use Rattle.oc_pages.specs.Pages.{Paged};

    ghost Value = { Paged };

    ghost use Rattle.oc_pages.specs.Places.{chained, IsOrdered};

    ghost view = { λ s. record {
      unit = s.unit;
      pages = chained s.loaded s.table.pages;
      spare = s.table.spare;
    } };

    ghost invariant = { λ s. IsOrdered s.first s.loaded s.table.pages };
}

impl Pages {
    ghost use Rattle.std.specs.Prelude.{◌≡◌, ◌<◌, ◌≤◌, ◌^◌, ◌+◌, ◌*◌, ℕ, true, false, None, [], ◌∷◌, ◌++◌, List, length, All, AllPairs, Any, Contains, IfOk, IfSome, IfNone, IsSome, IsTrue, IsErrOf, OnOk, MatchOption, option_map, slice_index_or};
    ghost use Rattle.std.specs.Option.{option_copied};
    ghost use Rattle.oc_host.specs.Counts.{Rose};
    ghost use Rattle.oc_host.specs.Disk.{Looks};
    ghost use Rattle.oc_layout.specs.declared.cells.Cell.{Cell};
    ghost use Rattle.oc_log.specs.Log.{put_cells, AllWithin};
    ghost use Rattle.oc_pages.specs.declared.fault.PagesFault.TheVariants as pages_fault;
    ghost use Rattle.oc_pages.specs.declared.page.Page.{Page};
    ghost use Rattle.oc_pages.specs.Chains.{Chain, HasPages, SpellsPage};
    ghost use Rattle.oc_pages.specs.Order.{AreAscending};
    ghost use Rattle.oc_pages.specs.Targets.{IsTargetIn};
    ghost use Rattle.oc_pages.specs.Pages.{is_page, page_of, page_holding, pointer_of, target_of, first_of, empty_page, with_pointer, things_of, IsOther, IsMissing};

    /// No pages, as a file has them that is being made. `unit` is the bytes in a block.
    pub fn new(alloc: Global, unit: u32) -> Pages
        ensures pages { result.pages ≡ [] }
        ensures unit { result.unit ≡ unit }
    {
        Pages {
            unit,
            first: NO_CELL,
            loaded: 0,
            table: PageTable::new(alloc),
        }
    }

    /// Reads the pages of a file from the root cell on. `unit` is the bytes in a block.
    ///
    /// `NotAPage` comes exactly where the file has no chain of pages from there, an endless one
    /// among them; where a page doesn't lie within the file or has an address over 2,147,483,647;
    /// where a pointer that isn't empty belongs to a number over 2,147,483,646; or where two pages
    /// are of one space and index. Nothing is written.
    pub fn load<H: Host>(
        alloc: Global,
        host: &mut H,
        root: Cell,
        unit: u32,
    ) -> Result<Pages, PagesFault>
        ensures chain { IfOk result (λ pages. IsTrue H.tells →
            HasPages unit (H.disk host.old).bytes root pages.pages) }
        ensures no_page { IsErrOf result pages_fault.NotAPage → IsTrue H.tells →
            (pages : List Page) → HasPages unit (H.disk host.old).bytes root pages → ⊥ }
        ensures unit { IfOk result (λ pages. pages.unit ≡ unit) }
        ensures first { IfOk result (λ pages. first_of pages.pages ≡ root) }
        ensures distinct { IfOk result (λ pages. AllPairs IsOther pages.pages) }
        ensures looks { IsTrue H.tells → Looks (H.disk host.old) (H.disk host.new) }
        ensures later { H.faults host.old ≤ H.faults host.new }
        ensures cause { IsErrOf result pages_fault.Host → Rose (H.faults host.old) (H.faults host.new) }
        ensures taken { IfOk result (λ pages.
            H.taken host.new ≤ H.taken host.old + 1024 * length pages.pages) }
        ensures taken_along { IsTrue H.tells → (pages : List Page) →
            Chain unit (H.disk host.old).bytes root pages →
            H.taken host.new ≤ H.taken host.old + 1024 * length pages }
    {
        let table = walk(alloc, host, root, unit, &[])?;
        Ok(Pages {
            unit,
            first: root,
            loaded: table.len(),
            table,
        })
    }

    /// Reads the pages of a file, as `load`, but of the file as it is with these cells put in, one after another. It
    /// is for a file whose log is open: nothing is written.
    pub fn load_with<H: Host>(
        alloc: Global,
        host: &mut H,
        root: Cell,
        unit: u32,
        cells: &[CellWrite],
    ) -> Result<Pages, PagesFault>
        requires within { IsTrue H.tells → AllWithin (length (H.disk host.old).bytes) cells.now }
        ensures chain { IfOk result (λ pages. IsTrue H.tells →
            HasPages unit (put_cells cells.now (H.disk host.old).bytes) root pages.pages) }
        ensures no_page { IsErrOf result pages_fault.NotAPage → IsTrue H.tells →
            (pages : List Page) →
            HasPages unit (put_cells cells.now (H.disk host.old).bytes) root pages → ⊥ }
        ensures unit { IfOk result (λ pages. pages.unit ≡ unit) }
        ensures first { IfOk result (λ pages. first_of pages.pages ≡ root) }
        ensures distinct { IfOk result (λ pages. AllPairs IsOther pages.pages) }
        ensures looks { IsTrue H.tells → Looks (H.disk host.old) (H.disk host.new) }
        ensures later { H.faults host.old ≤ H.faults host.new }
        ensures cause { IsErrOf result pages_fault.Host → Rose (H.faults host.old) (H.faults host.new) }
        ensures taken { IfOk result (λ pages.
            H.taken host.new ≤ H.taken host.old + 1024 * length pages.pages) }
        ensures taken_along { IsTrue H.tells → (pages : List Page) →
            Chain unit (put_cells cells.now (H.disk host.old).bytes) root pages →
            H.taken host.new ≤ H.taken host.old + 1024 * length pages }
    {
        let table = walk(alloc, host, root, unit, cells)?;
        Ok(Pages {
            unit,
            first: root,
            loaded: table.len(),
            table,
        })
    }

    /// The bytes in a block.
    ///
    /// With it comes that each page is counted as full: it has all of its 126 cells, the empty ones among them.
    pub fn unit(&self) -> u32
        ensures value { result ≡ self.now.unit }
        ensures full { All (λ p. length p.cells ≡ 126) self.now.pages }
    {
        self.unit
    }

    /// The cell of a number, or `None` where no page holds the number or its cell is empty.
    pub fn pointer(&self, space: Space, number: u32) -> Option<Cell>
        ensures { result ≡ pointer_of self.now.pages space number }
    {
        let place = self.table.holding(space, number)?;
        let cell = self.table.page(place).cells[slot_of(number)];
        if is_empty(cell) { None } else { Some(cell) }
    }

    /// The byte of the file where the cell of a number stands, or `None` where no page holds it.
    pub fn target(&self, space: Space, number: u32) -> Option<u64>
        ensures { result ≡ target_of self.now.unit self.now.pages space number }
    {
        let place = self.table.holding(space, number)?;
        let start = self.table.page(place).at as u64 * self.unit as u64;
        Some(start + FIRST_CELL + CELL * slot_of(number) as u64)
    }

    /// Whether each of these cells is to stand where the cell of some number does.
    pub fn are_targets(&self, alloc: Global, cells: &[CellWrite]) -> Result<bool, AllocError>
        ensures yes { IfOk result (λ are. IsTrue are →
            All (λ w. IsTargetIn self.now.unit self.now.pages w.target) cells.now) }
        ensures no { IfOk result (λ are. are ≡ false →
            Any (λ w. ¬ IsTargetIn self.now.unit self.now.pages w.target) cells.now) }
    {
        let starts = starts_of(alloc, &self.table, self.unit)?;
        Ok(are_cells(&starts, cells))
    }

    /// The indexes of the pages that have to be added to hold these numbers, ascending, each once.
    pub fn missing(
        &self,
        alloc: Global,
        space: Space,
        numbers: &[u32],
    ) -> Result<Vec<u32>, AllocError>
        requires { All (λ n. 1 ≤ n) numbers.now }
        ensures { IfOk result (λ v.
            AreAscending (IsMissing self.now.pages space numbers.now) v.items) }
    {
        let mut indexes = Vec::new(alloc);
        for number in numbers {
            let index = index_of(*number);
            if self.table.place(space, index).is_none() {
                indexes.push(index)?;
            }
        }
        let once = ascending(alloc, indexes)?;
        Ok(once)
    }

    /// Makes room for so many pages more.
    pub fn reserve(&mut self, n: u32) -> Result<(), AllocError>
        ensures room { OnOk result (n ≤ self.new.spare) }
        ensures pages { self.new.pages ≡ self.old.pages }
        ensures unit { self.new.unit ≡ self.old.unit }
        ensures spare { self.old.spare ≤ self.new.spare }
    {
        self.table.reserve(n as usize)?;
        Ok(())
    }

    /// Adds a page without pointers at the front of the chain. It takes no memory.
    pub fn add(&mut self, space: Space, index: u32, at: u32)
        requires spare { 1 ≤ self.old.spare }
        requires address { at ≤ 2147483647 }
        requires no_page { page_of self.old.pages space index ≡ None }
        ensures pages { self.new.pages ≡
            empty_page space index at (first_of self.old.pages) ∷ self.old.pages }
        ensures unit { self.new.unit ≡ self.old.unit }
        ensures distinct { AllPairs IsOther self.new.pages }
        ensures spare { self.old.spare ≤ self.new.spare + 1 }
    {
        self.table.push(empty_page(space, index, at, self.first));
        self.first = Cell { at, len: PAGE };
    }

    /// Gives a number another cell; an empty one takes its pointer away. It takes no memory.
    pub fn set(&mut self, space: Space, number: u32, cell: Cell)
        requires { IsSome (page_holding self.old.pages space number) }
        ensures pages { self.new.pages ≡ with_pointer space number cell self.old.pages }
        ensures unit { self.new.unit ≡ self.old.unit }
        ensures distinct { AllPairs IsOther self.new.pages }
        ensures spare { self.new.spare ≡ self.old.spare }
    {
        if let Some(place) = self.table.holding(space, number) {
            self.table.set(place, slot_of(number), cell);
        }
    }

    /// The 1,024 bytes of a page, or `None` where there is no page of this space and index.
    pub fn page(&self, space: Space, index: u32) -> Option<[u8; 1024]>
        ensures { MatchOption result
            (page_of self.now.pages space index ≡ None)
            (λ bytes. (page : Page) × (page_of self.now.pages space index ≡ Some page)
            × SpellsPage page bytes) }
    {
        let place = self.table.place(space, index)?;
        Some(write_page(self.table.page(place)))
    }

    /// The root cell of the chain.
    pub fn first(&self) -> Cell
        ensures { result ≡ first_of self.now.pages }
    {
        self.first
    }

    /// The places of all pages, and those that all pointers name.
    pub fn used(&self, alloc: Global) -> Result<Vec<Cell>, AllocError>
        ensures { IfOk result (λ v. v.items ≡ things_of self.now.pages) }
    {
        let mut used = Vec::new(alloc);
        for place in (self.loaded..self.table.len()).rev() {
            put_things(&mut used, self.table.page(place))?;
        }
        for place in 0..self.loaded {
            put_things(&mut used, self.table.page(place))?;
        }
        Ok(used)
    }

    /// The numbers that have a pointer, ascending.
    pub fn numbers(&self, alloc: Global, space: Space) -> Result<Vec<u32>, AllocError>
        ensures { IfOk result (λ v.
            AreAscending (λ n. IsSome (pointer_of self.now.pages space n)) v.items) }
    {
        let mut numbers = Vec::new(alloc);
        for place in 0..self.table.len() {
            put_numbers(&mut numbers, self.table.page(place), space)?;
        }
        let once = ascending(alloc, numbers)?;
        Ok(once)
    }
}
