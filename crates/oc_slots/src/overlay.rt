// What changed since the last commit.
ghost use Rattle.std.specs.Prelude.{◌≡◌, ◌≤◌, ◌+◌, ℕ, [], nat_eq, OnOk};
ghost use Rattle.std.specs.HashMap.{IsUnique, spare};
ghost use Rattle.std.specs.Map.{lookup};
ghost use Rattle.indexmap.specs.IndexMap.{insert_entry};
ghost use Rattle.oc_layout.specs.declared.cells.Space.{Space};
ghost use Rattle.oc_slots.specs.Slots.{changes_of, spare_of, put_change};

use crate::SlotId;
use indexmap::IndexMap;
use oc_layout::{Cell, Space};
use std::alloc::{AllocError, Global};

/// The slots that changed since the last commit, by number, in each of the two spaces: where they are now, or that
/// they are gone.
#[derive(Drop)]
pub struct Overlay {
    pub objects: IndexMap<u32, Option<Cell>>,
    pub system: IndexMap<u32, Option<Cell>>,
}

impl Overlay {
    pub fn new(alloc: Global) -> Overlay
        ensures { (space : Space) → changes_of result space ≡ [] }
    {
        Overlay {
            objects: IndexMap::new(alloc),
            system: IndexMap::new(alloc),
        }
    }

    /// What changed in this space.
    pub fn of(&self, space: Space) -> &IndexMap<u32, Option<Cell>>
        ensures { result.now.entries ≡ changes_of self.now space }
    {
        match space {
            Space::Objects => &self.objects,
            Space::System => &self.system,
        }
    }

    /// What became of a slot, if it changed.
    pub fn get(&self, id: SlotId) -> Option<Option<Cell>>
        ensures { result ≡ lookup (nat_eq id.number) (changes_of self.now id.space) }
    {
        match id.space {
            Space::Objects => self.objects.get(&id.number).copied(),
            Space::System => self.system.get(&id.number).copied(),
        }
    }

    /// Makes room for so many slots more, in each space.
    pub fn reserve(&mut self, n: usize) -> Result<(), AllocError>
        ensures room { OnOk result (n ≤ spare_of self.new) }
        ensures same { (space : Space) → changes_of self.new space ≡ changes_of self.old space }
        ensures spare { spare_of self.old ≤ spare_of self.new }
    {
        self.objects.reserve(n)?;
        self.system.reserve(n)?;
        Ok(())
    }

    /// Notes what became of a slot, and tells what was noted of it before. It takes no memory.
    pub fn put(&mut self, id: SlotId, cell: Option<Cell>) -> Option<Option<Cell>>
        requires { 1 ≤ spare_of self.old }
        ensures was { result ≡ lookup (nat_eq id.number) (changes_of self.old id.space) }
        ensures changes { (space : Space) → changes_of self.new space ≡ put_change id cell space (changes_of self.old space) }
        ensures spare { spare_of self.old ≤ spare_of self.new + 1 }
    {
        let was = match id.space {
            Space::Objects => self.objects.insert(id.number, cell),
            Space::System => self.system.insert(id.number, cell),
        };
        was.unwrap_or(None)
    }
}
