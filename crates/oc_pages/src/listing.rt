// What a page names.
ghost use Rattle.std.specs.Prelude.{◌≡◌, ◌⊎◌, ◌↔◌, ℕ, ◌++◌, Contains, OnOk};
ghost use Rattle.oc_pages.specs.Pages.{things_in, IsPointed};
ghost use Rattle.oc_pages.specs.Places.{IsNamed};

use crate::page::{NUMBERS, PAGE, Page, is_empty, number_of};
use oc_layout::{Cell, Space};
use std::alloc::AllocError;

/// The page's place, and those that its pointers name.
pub fn put_things(things: &mut Vec<Cell>, page: &Page) -> Result<(), AllocError>
    ensures { OnOk result (things.new.items ≡ things.old.items ++ things_in page.now) }
{
    things.push(Cell {
        at: page.at,
        len: PAGE,
    })?;
    for cell in &page.cells {
        if !is_empty(*cell) {
            things.push(*cell)?;
        }
    }
    Ok(())
}

/// The numbers that have a pointer in the page, if it is of this space.
pub fn put_numbers(numbers: &mut Vec<u32>, page: &Page, space: Space) -> Result<(), AllocError>
    requires { IsNamed page.now }
    ensures { OnOk result ((number : ℕ) → Contains numbers.new.items number
        ↔ (Contains numbers.old.items number ⊎ IsPointed space number page.now)) }
{
    if number_of(page.space) != number_of(space) {
        return Ok(());
    }
    for k in 0..page.cells.len() {
        let number = page.index as u64 * NUMBERS as u64 + k as u64 + 1;
        if !is_empty(page.cells[k]) {
            numbers.push(number as u32)?;
        }
    }
    Ok(())
}
