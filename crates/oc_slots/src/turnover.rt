// What a commit does to the pointers.
ghost use Rattle.std.specs.Prelude.{◌≡◌, ◌≤◌, ◌<◌, false, nat_eq, ◌++◌, length, map, flat_map, slice_index_or, None, unwrap_or, All, AllPairs, IfOk, OnOk};
ghost use Rattle.std.specs.List.{IsDistinct};
ghost use Rattle.std.specs.List.Sorted.{IsPermutation, IsNonDecreasingBy};
ghost use Rattle.std.specs.Option.{option_to_list};
ghost use Rattle.oc_pages.specs.Chains.{AreApart};
ghost use Rattle.oc_pages.specs.Pages.{no_cell, pointer_of, IsOther};
ghost use Rattle.oc_layout.specs.declared.cells.Space.TheVariants as space;
ghost use Rattle.oc_layout.specs.Layout.{FitsCell};
ghost use Rattle.oc_slots.specs.Maps.{is_same};
ghost use Rattle.oc_slots.specs.Slots.{changes_of, cells_of};
ghost use Rattle.oc_slots.specs.Stores.{AreNumbers, fresh_of};
ghost use Rattle.oc_slots.specs.Turnovers.{slot_at, pointed, other_pointed, other_freed, AreFitting, IsTurnover};

use crate::SlotId;
use crate::overlay::Overlay;
use crate::placed::PlacedChange;
use indexmap::IndexMap;
use oc_layout::{Cell, Space};
use oc_pages::Pages;
use std::alloc::{AllocError, Global};

const NO_CELL: Cell = Cell { at: 0, len: 0 };

/// A slot, the cell that its number gets, and the byte of the file where that stands, if a page has the number.
#[derive(Clone, Copy, Debug)]
pub struct Pointing {
    pub id: SlotId,
    pub cell: Cell,
    pub target: Option<u64>,
}

/// What becomes of the pointers: those that are set, in the order of their targets, and the places that come free by it.
#[derive(Debug, Drop)]
pub struct Turnover {
    pub pointings: Vec<Pointing>,
    pub freed: Vec<Cell>,
}

/// What becomes of the pointers of these pages by what the overlay has and by these changes.
pub fn turn_over(
    alloc: Global,
    pages: &Pages,
    overlay: &Overlay,
    placed: &[PlacedChange],
) -> Result<Turnover, AllocError>
    requires distinct { AllPairs (λ p q. is_same p.id q.id ≡ false) placed.now }
    requires numbers { All (λ p. (1 ≤ p.id.number) × (p.id.number ≤ 2147483646)) placed.now }
    requires objects { AreNumbers (changes_of overlay.now space.Objects) }
    requires system { AreNumbers (changes_of overlay.now space.System) }
    requires some { All (λ c. 1 ≤ c.len) (fresh_of overlay.now ++ cells_of placed.now) }
    requires others { AllPairs IsOther pages.now.pages }
    requires apart { AllPairs (AreApart pages.now.unit) pages.now.pages }
    requires full { All (λ p. length p.cells ≡ 126) pages.now.pages }
    ensures { IfOk result (λ t. IsTurnover pages.now.unit pages.now.pages overlay.now placed.now t.pointings.items t.freed.items) }
{
    let mut turnover = Turnover {
        pointings: Vec::new(alloc),
        freed: Vec::new(alloc),
    };
    let mut named = Overlay::new(alloc);
    named.reserve(placed.len())?;
    for change in placed {
        named.put(change.id, change.place());
        turnover.point(pages, change.id, change.place())?;
    }
    turnover.point_others(pages, overlay, &named, Space::Objects)?;
    turnover.point_others(pages, overlay, &named, Space::System)?;
    sort_by_target(&mut turnover.pointings);
    Ok(turnover)
}

// Those that no page has a cell for come first.
fn sort_by_target(pointings: &mut Vec<Pointing>)
    ensures same { IsPermutation pointings.old.items pointings.new.items }
    ensures ascending { IsNonDecreasingBy (λ p. unwrap_or p.target 0) pointings.new.items }
{
    pointings.sort_unstable_by_key(|pointing| pointing.target.unwrap_or(0));
}

impl Turnover {
    // The slot is here from now on, or gone.
    fn point(&mut self, pages: &Pages, id: SlotId, place: Option<Cell>) -> Result<(), AllocError>
        ensures pointings { OnOk result (self.new.pointings.items ≡ self.old.pointings.items ++ pointed pages.now.unit pages.now.pages id place) }
        ensures freed { OnOk result (self.new.freed.items ≡ self.old.freed.items ++ option_to_list (pointer_of pages.now.pages id.space id.number)) }
        ensures fits { OnOk result (AreFitting self.old.pointings.items → AreFitting self.new.pointings.items) }
    {
        let before = pages.pointer(id.space, id.number);
        if let Some(old) = before {
            self.freed.push(old)?;
        }
        if place.is_some() || before.is_some() {
            self.pointings.push(Pointing {
                id,
                cell: cell_of(place),
                target: pages.target(id.space, id.number),
            })?;
        }
        Ok(())
    }

    // The slots of a space that the overlay has are where it has them, but for those that are named: where it has these
    // comes free.
    fn point_others(
        &mut self,
        pages: &Pages,
        overlay: &Overlay,
        named: &Overlay,
        space: Space,
    ) -> Result<(), AllocError>
        ensures pointings { OnOk result (self.new.pointings.items ≡ self.old.pointings.items
            ++ flat_map (λ e. other_pointed pages.now.unit pages.now.pages named.now (slot_at space e.0) e.1) (changes_of overlay.now space)) }
        ensures freed { OnOk result (self.new.freed.items ≡ self.old.freed.items
            ++ flat_map (λ e. other_freed pages.now.pages named.now (slot_at space e.0) e.1) (changes_of overlay.now space)) }
        ensures fits { OnOk result (AreFitting self.old.pointings.items → AreFitting self.new.pointings.items) }
        ensures distinct { IsDistinct nat_eq (map (λ e. e.0) (changes_of overlay.now space)) }
    {
        let changes = overlay.of(space);
        for index in 0..changes.len() {
            let (number, place) = change_at(changes, index);
            self.point_other(pages, named, SlotId { space, number }, place)?;
        }
        Ok(())
    }

    fn point_other(
        &mut self,
        pages: &Pages,
        named: &Overlay,
        id: SlotId,
        place: Option<Cell>,
    ) -> Result<(), AllocError>
        ensures pointings { OnOk result (self.new.pointings.items ≡ self.old.pointings.items ++ other_pointed pages.now.unit pages.now.pages named.now id place) }
        ensures freed { OnOk result (self.new.freed.items ≡ self.old.freed.items ++ other_freed pages.now.pages named.now id place) }
        ensures fits { OnOk result (AreFitting self.old.pointings.items → AreFitting self.new.pointings.items) }
    {
        if named.get(id).is_none() {
            return self.point(pages, id, place);
        }
        if let Some(given_up) = place {
            self.freed.push(given_up)?;
        }
        Ok(())
    }
}

// What a number's cell is, where its slot is here or gone.
fn cell_of(place: Option<Cell>) -> Cell
    ensures cell { result ≡ unwrap_or place no_cell }
    ensures fits { FitsCell result }
{
    match place {
        Some(cell) => cell,
        None => NO_CELL,
    }
}

// The change at this index: the number, and where the slot is then.
fn change_at(changes: &IndexMap<u32, Option<Cell>>, index: usize) -> (u32, Option<Cell>)
    requires { index < length changes.now.entries }
    ensures { result ≡ slice_index_or changes.now.entries index (0, None) }
{
    match changes.get_index(index) {
        Some((number, place)) => (*number, *place),
        None => (0, None),
    }
}
