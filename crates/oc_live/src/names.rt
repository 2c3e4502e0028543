//! The names that are bound to live objects.

ghost use Rattle.std.specs.Prelude.{◌≡◌, slice_get, option_map, [], OnOk, OnErr};
ghost use Rattle.oc_machine.specs.Memory.{bound, with_bound, without_name};

use indexmap::IndexMap;
use oc_model::value::Txt;
use std::alloc::{AllocError, Global};
use std::marker::Model;

/// The bound names with the handles of their objects, in the order in which they were first bound.
#[derive(Drop)]
pub struct Names {
    handles: IndexMap<Vec<u8>, u64>,
}

impl Model for Names {
    ghost use Rattle.std.specs.Prelude.{List, ℕ, map};

    ghost Value = { List (List ℕ × ℕ) };

    ghost view = { λ n. map (λ e. (e.0.items, e.1)) n.handles.entries };
}

impl Names {
    /// No name.
    pub fn new(alloc: Global) -> Names
        ensures { result ≡ [] }
    {
        Names {
            handles: IndexMap::new(alloc),
        }
    }

    /// Binds the name to the handle. A bound name keeps its place.
    pub fn bind(&mut self, name: &Txt, handle: u64) -> Result<(), AllocError>
        ensures ok { OnOk result (self.new ≡ with_bound self.old name.now handle) }
        ensures err { OnErr result (self.new ≡ self.old) }
    {
        let key = Vec::from_slice(*self.handles.allocator(), name.as_slice())?;
        self.handles.insert(key, handle)?;
        Ok(())
    }

    /// The handle that the name is bound to.
    pub fn handle(&self, name: &Txt) -> Option<u64>
        ensures { result ≡ bound self.now name.now }
    {
        self.handles.get(name.as_slice()).copied()
    }

    /// The name at this place in the order, with its handle.
    pub fn get(&self, index: usize) -> Option<(&[u8], u64)>
        ensures { option_map (λ e. (e.0.now, e.1)) result ≡ slice_get self.now index }
    {
        let (name, handle) = self.handles.get_index(index)?;
        Some((name.as_slice(), *handle))
    }

    /// Unbinds the name. The others keep their order.
    pub fn unbind(&mut self, name: &Txt)
        ensures { self.new ≡ without_name self.old name.now }
    {
        let name = name.as_slice();
        self.handles.retain(|key, _| key.as_slice() != name);
    }

    /// Unbinds all names.
    pub fn clear(&mut self)
        ensures { self.new ≡ [] }
    {
        self.handles.clear();
    }
}
