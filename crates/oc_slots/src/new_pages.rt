// The pages that a commit adds.
ghost use Rattle.std.specs.Prelude.{◌≡◌, ◌≤◌, ◌+◌, ◌++◌, length, map, take, All, AllPairs, IfOk, OnOk};
ghost use Rattle.std.specs.Option.{option_to_list};
ghost use Rattle.oc_layout.specs.declared.cells.Space.TheVariants as space;
ghost use Rattle.oc_pages.specs.Order.{AreAscending};
ghost use Rattle.oc_pages.specs.Pages.{IsOther, IsMissing, first_of};
ghost use Rattle.oc_slots.specs.Pointings.{write_of, writes_of, set_all, AreHeld};
ghost use Rattle.oc_slots.specs.Turnovers.{numbers_in, keys_of, with_added, root_writes, AreNew, AreMissing};

use crate::front::root_place;
use crate::turnover::Pointing;
use oc_layout::{Cell, CellWrite, Header, Space};
use oc_pages::Pages;
use std::alloc::{AllocError, Global};

const PAGE: u32 = 1024;

/// A page that is added: its space and index, and the block where it stands.
#[derive(Clone, Copy, Debug)]
pub struct NewPage {
    pub space: Space,
    pub index: u32,
    pub at: u32,
}

impl NewPage {
    /// Where the page stands.
    pub fn place(&self) -> Cell
        ensures { result ≡ record { at = self.now.at; len = 1024 } }
    {
        Cell {
            at: self.at,
            len: PAGE,
        }
    }
}

/// The indexes of the pages that are to be added, in each of the two spaces, ascending.
#[derive(Debug, Drop)]
pub struct Missing {
    pub objects: Vec<u32>,
    pub system: Vec<u32>,
}

impl Missing {
    /// The pages that have to be added so that each of the pointings has one.
    pub fn of(alloc: Global, pages: &Pages, pointings: &[Pointing]) -> Result<Missing, AllocError>
        requires { All (λ p. (1 ≤ p.id.number) × (p.id.number ≤ 2147483646)) pointings.now }
        ensures objects { IfOk result (λ m. AreAscending (IsMissing pages.now.pages space.Objects (numbers_in space.Objects pointings.now)) m.objects.items) }
        ensures system { IfOk result (λ m. AreAscending (IsMissing pages.now.pages space.System (numbers_in space.System pointings.now)) m.system.items) }
    {
        let objects = numbers_in(alloc, Space::Objects, pointings)?;
        let system = numbers_in(alloc, Space::System, pointings)?;
        Ok(Missing {
            objects: pages.missing(alloc, Space::Objects, &objects)?,
            system: pages.missing(alloc, Space::System, &system)?,
        })
    }

    /// How many pages these are.
    pub fn len(&self) -> usize
        ensures { result ≡ length self.now.objects.items + length self.now.system.items }
    {
        self.objects.len() + self.system.len()
    }

    /// The pages at the first of these cells, those of objects first.
    pub fn at(&self, alloc: Global, cells: &[Cell]) -> Result<Vec<NewPage>, AllocError>
        requires { length self.now.objects.items + length self.now.system.items ≤ length cells.now }
        ensures { IfOk result (λ added. AreNew self.now.objects.items self.now.system.items cells.now added.items) }
    {
        let mut added = Vec::with_capacity(alloc, self.len())?;
        let (objects, system) = cells.split_at(self.objects.len());
        put_at(&mut added, Space::Objects, &self.objects, objects)?;
        put_at(&mut added, Space::System, &self.system, system)?;
        Ok(added)
    }
}

// The numbers of this space that are pointed.
fn numbers_in(alloc: Global, space: Space, pointings: &[Pointing]) -> Result<Vec<u32>, AllocError>
    ensures { IfOk result (λ v. v.items ≡ numbers_in space pointings.now) }
{
    let mut numbers = Vec::new(alloc);
    for pointing in pointings {
        if pointing.id.space == space {
            numbers.push(pointing.id.number)?;
        }
    }
    Ok(numbers)
}

// Puts pages of this space and these indexes behind the others, at the first of these cells.
fn put_at(
    added: &mut Vec<NewPage>,
    space: Space,
    indexes: &[u32],
    cells: &[Cell],
) -> Result<(), AllocError>
    requires { length indexes.now ≤ length cells.now }
    ensures keys { OnOk result (keys_of added.new.items ≡ keys_of added.old.items ++ map (λ index. (space, index)) indexes.now) }
    ensures places { OnOk result (map (λ a. a.at) added.new.items ≡ map (λ a. a.at) added.old.items ++ map (λ c. c.at) (take (length indexes.now) cells.now)) }
{
    for place in 0..indexes.len() {
        added.push(NewPage {
            space,
            index: indexes[place],
            at: cells[place].at,
        })?;
    }
    Ok(())
}

/// Adds these pages in front of the others, and sets the pointers. It takes no memory.
pub fn point(pages: &mut Pages, added: &[NewPage], pointings: &[Pointing])
    requires spare { length added.now ≤ pages.old.spare }
    requires addresses { All (λ a. a.at ≤ 2147483647) added.now }
    requires missing { AreMissing pages.old.pages added.now }
    requires held { AreHeld (with_added added.now pages.old.pages) pointings.now }
    requires others { AllPairs IsOther pages.old.pages }
    ensures pages { pages.new.pages ≡ set_all pointings.now (with_added added.now pages.old.pages) }
    ensures unit { pages.new.unit ≡ pages.old.unit }
    ensures others { AllPairs IsOther pages.new.pages }
{
    for page in added {
        pages.add(page.space, page.index, page.at);
    }
    for pointing in pointings {
        pages.set(pointing.id.space, pointing.id.number, pointing.cell);
    }
}

/// The cells that the log of a commit puts in: the root cell where pages are added, and those of the numbers that had a
/// page.
pub fn log_cells(
    alloc: Global,
    header: &Header,
    added: &[NewPage],
    pointings: &[Pointing],
) -> Result<Vec<CellWrite>, AllocError>
    ensures { IfOk result (λ v. v.items ≡ root_writes header.now added.now ++ writes_of pointings.now) }
{
    let mut cells = Vec::new(alloc);
    put_root(&mut cells, header, added)?;
    for pointing in pointings {
        put_write(&mut cells, pointing)?;
    }
    Ok(cells)
}

// The write of the root cell, where pages are added.
fn put_root(
    cells: &mut Vec<CellWrite>,
    header: &Header,
    added: &[NewPage],
) -> Result<(), AllocError>
    ensures { OnOk result (cells.new.items ≡ cells.old.items ++ root_writes header.now added.now) }
{
    if let Some(first) = added.last() {
        cells.push(CellWrite {
            target: root_place(header),
            cell: Cell {
                at: first.at,
                len: PAGE,
            },
        })?;
    }
    Ok(())
}

// The write of a number that has a page.
fn put_write(cells: &mut Vec<CellWrite>, pointing: &Pointing) -> Result<(), AllocError>
    ensures { OnOk result (cells.new.items ≡ cells.old.items ++ option_to_list (write_of pointing.now)) }
{
    if let Some(target) = pointing.target {
        cells.push(CellWrite {
            target,
            cell: pointing.cell,
        })?;
    }
    Ok(())
}
