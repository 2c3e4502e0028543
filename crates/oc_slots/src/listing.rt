// Which slots there are.
ghost use Rattle.std.specs.Prelude.{◌≡◌, ◌⊎◌, ◌<◌, ◌↔◌, ℕ, List, ◌++◌, length, map, take, slice_index_or, Contains, IsSome, IfOk, OnOk, None};
ghost use Rattle.oc_pages.specs.Pages.{pointer_of};
ghost use Rattle.oc_pages.specs.Order.{AreAscending};
ghost use Rattle.oc_slots.specs.Slots.{changes_of};
ghost use Rattle.oc_slots.specs.Stores.{place_on, session_place};

use crate::overlay::Overlay;
use crate::{Side, SlotId, SlotStore};
use indexmap::IndexMap;
use oc_layout::{Cell, Space};
use oc_pages::ascending;
use std::alloc::{AllocError, Global};

impl SlotStore {
    /// The numbers of the slots that this side has in a space, ascending.
    pub fn numbers(&self, side: Side, space: Space) -> Result<Vec<u32>, AllocError>
        ensures { IfOk result (λ v. AreAscending
            (λ n. IsSome (place_on side self.now (record { space = space; number = n }))) v.items) }
    {
        let committed = self.pages.numbers(self.alloc, space)?;
        match side {
            Side::Committed => Ok(committed),
            Side::Session => self.session_numbers(space, committed),
        }
    }

    fn session_numbers(&self, space: Space, committed: Vec<u32>) -> Result<Vec<u32>, AllocError>
        requires { AreAscending (λ n. IsSome (pointer_of self.now.pages space n)) committed.items }
        ensures { IfOk result (λ v. AreAscending
            (λ n. IsSome (session_place self.now (record { space = space; number = n }))) v.items) }
    {
        let mut numbers = committed;
        self.overlay.put_numbers(&mut numbers, space)?;
        let there = self.only_there(space, &numbers)?;
        let once = ascending(self.alloc, there)?;
        Ok(once)
    }

    // Those of the numbers that the session has a slot of.
    fn only_there(&self, space: Space, numbers: &[u32]) -> Result<Vec<u32>, AllocError>
        ensures { IfOk result (λ v. (n : ℕ) → Contains v.items n
            ↔ (Contains numbers.now n × IsSome (session_place self.now (record { space = space; number = n })))) }
    {
        let mut there = Vec::new(self.alloc);
        for number in numbers {
            self.put_if_there(&mut there, space, *number)?;
        }
        Ok(there)
    }

    fn put_if_there(
        &self,
        there: &mut Vec<u32>,
        space: Space,
        number: u32,
    ) -> Result<(), AllocError>
        ensures { OnOk result ((n : ℕ) → Contains there.new.items n
            ↔ (Contains there.old.items n ⊎ ((number ≡ n) × IsSome (session_place self.now (record { space = space; number = n }))))) }
    {
        if self.session_place(SlotId { space, number }).is_some() {
            there.push(number)?;
        }
        Ok(())
    }
}

impl Overlay {
    /// Adds the numbers of the slots of a space that changed.
    pub fn put_numbers(&self, numbers: &mut Vec<u32>, space: Space) -> Result<(), AllocError>
        ensures { OnOk result (numbers.new.items ≡ numbers.old.items ++ map (λ e. e.0) (changes_of self.now space)) }
    {
        match space {
            Space::Objects => put_keys(numbers, &self.objects),
            Space::System => put_keys(numbers, &self.system),
        }
    }
}

fn put_keys(numbers: &mut Vec<u32>, changes: &IndexMap<u32, Option<Cell>>) -> Result<(), AllocError>
    ensures { OnOk result (numbers.new.items ≡ numbers.old.items ++ map (λ e. e.0) changes.now.entries) }
{
    for index in 0..changes.len() {
        numbers.push(key_at(changes, index))?;
    }
    Ok(())
}

// The number of the change at this index.
fn key_at(changes: &IndexMap<u32, Option<Cell>>, index: usize) -> u32
    requires { index < length changes.now.entries }
    ensures { result ≡ (slice_index_or changes.now.entries index (0, None)).0 }
{
    match changes.get_index(index) {
        Some((number, _)) => *number,
        None => 0,
    }
}
