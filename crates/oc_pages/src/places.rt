// Where the page of a space and an index is kept.
ghost use Rattle.std.specs.Prelude.{◌≡◌, ◌≤◌, ◌<◌, ◌+◌, ℕ, nat_eq, Some, None, OnOk, if◌then◌else◌};
ghost use Rattle.std.specs.HashMap.{IsUnique};
ghost use Rattle.oc_layout.specs.declared.cells.Space.{Space};
ghost use Rattle.oc_pages.specs.Pages.{space_number};
ghost use Rattle.oc_pages.specs.Places.{place_in, spare_in};

use oc_layout::Space;
use std::alloc::{AllocError, Global};
use std::collections::HashMap;

/// The places of pages, by index, in each of the two spaces.
#[derive(Drop)]
pub struct Places {
    pub objects: HashMap<u32, usize>,
    pub system: HashMap<u32, usize>,
}

impl Places {
    pub fn new(alloc: Global) -> Places
        ensures { (space : Space) (index : ℕ) → place_in result space index ≡ None }
    {
        Places {
            objects: HashMap::new(alloc),
            system: HashMap::new(alloc),
        }
    }

    pub fn place(&self, space: Space, index: u32) -> Option<usize>
        ensures { result ≡ place_in self.now space index }
    {
        match space {
            Space::Objects => self.objects.get(&index).copied(),
            Space::System => self.system.get(&index).copied(),
        }
    }

    pub fn reserve(&mut self, n: usize) -> Result<(), AllocError>
        ensures room { OnOk result (n ≤ spare_in self.new) }
        ensures same { (space : Space) (index : ℕ) →
            place_in self.new space index ≡ place_in self.old space index }
        ensures spare { spare_in self.old ≤ spare_in self.new }
    {
        self.objects.reserve(n)?;
        self.system.reserve(n)?;
        Ok(())
    }

    pub fn put(&mut self, space: Space, index: u32, place: usize)
        requires { 1 ≤ spare_in self.old }
        ensures here { place_in self.new space index ≡ Some place }
        ensures others { (other : Space) (number : ℕ) → (space_number other ≡ space_number space → number ≡ index → ⊥) →
            place_in self.new other number ≡ place_in self.old other number }
        ensures spare { spare_in self.old ≤ spare_in self.new + 1 }
    {
        let _old = match space {
            Space::Objects => self.objects.insert(index, place),
            Space::System => self.system.insert(index, place),
        };
    }
}
