// Pages in the order in which they came, each found by its space and index.
use crate::page::{Page, index_of};
use crate::places::Places;
use oc_layout::{Cell, Space};
use std::alloc::{AllocError, Global};
use std::marker::Model;

/// Pages, no two of one space and index. Contracts see them in the order in which they came, and
/// how many more can be kept without memory.
#[derive(Drop)]
pub struct PageTable {
    kept: Vec<Page>,
    places: Places,
}

impl Model for PageTable {
    ghost use Rattle.oc_pages.specs.Places.{Kept};

    ghost Value = { Kept };

    ghost use Rattle.std.specs.Prelude.{◌-◌, min, vec_len, vec_capacity};
    ghost use Rattle.oc_pages.specs.Places.{IsIndexed, spare_in};

    ghost view = { λ t. record {
      pages = t.kept.items;
      spare = min (vec_capacity t.kept - vec_len t.kept) (spare_in t.places);
    } };

    ghost invariant = { λ t. IsIndexed t.kept.items t.places };
}

impl PageTable {
    ghost use Rattle.std.specs.Prelude.{◌≡◌, ◌<◌, ◌≤◌, ◌^◌, ◌+◌, ℕ, true, false, [], ◌∷◌, ◌++◌, length, set, All, AllPairs, IfSome, IfNone, OnOk, option_map};
    ghost use Rattle.oc_pages.specs.declared.page.Page.{Page};
    ghost use Rattle.oc_pages.specs.Pages.{is_page, holds, IsOther};
    ghost use Rattle.oc_pages.specs.Places.{page_in};

    pub fn new(alloc: Global) -> PageTable
        ensures { result.pages ≡ [] }
    {
        PageTable {
            kept: Vec::new(alloc),
            places: Places::new(alloc),
        }
    }

    pub fn len(&self) -> usize
        ensures len { result ≡ length self.now.pages }
        ensures distinct { AllPairs IsOther self.now.pages }
    {
        self.kept.len()
    }

    /// Where the page of this space and index is kept.
    pub fn place(&self, space: Space, index: u32) -> Option<usize>
        ensures some { IfSome result (λ place. (place < length self.now.pages)
            × (is_page space index (page_in self.now.pages place) ≡ true)) }
        ensures none { IfNone result (All (λ p. is_page space index p ≡ false) self.now.pages) }
        ensures distinct { AllPairs IsOther self.now.pages }
    {
        self.places.place(space, index)
    }

    /// Where the page that holds a number is kept.
    pub fn holding(&self, space: Space, number: u32) -> Option<usize>
        ensures within { IfSome result (λ place. place < length self.now.pages) }
        ensures some { IfSome result (λ place.
            holds space number (page_in self.now.pages place) ≡ true) }
        ensures number { IfSome result (λ place. 1 ≤ number) }
        ensures none { IfNone result (All (λ p. holds space number p ≡ false) self.now.pages) }
        ensures distinct { IfSome result (λ place. AllPairs IsOther self.now.pages) }
    {
        if number == 0 {
            return None;
        }
        self.place(space, index_of(number))
    }

    pub fn page(&self, place: usize) -> &Page
        requires { place < length self.now.pages }
        ensures { result.now ≡ page_in self.now.pages place }
    {
        &self.kept[place]
    }

    pub fn reserve(&mut self, n: usize) -> Result<(), AllocError>
        ensures room { OnOk result (n ≤ self.new.spare) }
        ensures pages { self.new.pages ≡ self.old.pages }
        ensures spare { self.old.spare ≤ self.new.spare }
    {
        self.kept.reserve(n)?;
        self.places.reserve(n)?;
        Ok(())
    }

    /// Keeps a page more, which is of another space or index than all others.
    pub fn push(&mut self, page: Page)
        requires spare { 1 ≤ self.old.spare }
        requires other { All (λ p. is_page page.space page.index p ≡ false) self.old.pages }
        ensures pages { self.new.pages ≡ self.old.pages ++ page ∷ [] }
        ensures few { length self.old.pages < 2 ^ 64 }
        ensures distinct { AllPairs IsOther self.new.pages }
        ensures spare { self.old.spare ≤ self.new.spare + 1 }
    {
        self.places.put(page.space, page.index, self.kept.len());
        let _room = self.kept.push(page);
    }

    /// Gives the page another cell at this slot.
    pub fn set(&mut self, place: usize, slot: usize, cell: Cell)
        requires place { place < length self.old.pages }
        requires slot { slot < 126 }
        ensures pages { self.new.pages ≡ set self.old.pages place
            (record (page_in self.old.pages place) { cells = set (page_in self.old.pages place).cells slot cell }) }
        ensures distinct { AllPairs IsOther self.new.pages }
        ensures spare { self.new.spare ≡ self.old.spare }
    {
        let page = &mut self.kept[place];
        page.cells[slot] = cell;
    }
}
