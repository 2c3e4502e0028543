//! The heap.

ghost use Rattle.std.specs.Prelude.{◌≡◌, ◌+◌, ◌-◌, length, ◌^◌, ◌<◌, ◌≤◌, ℕ, true, is_some, filter, IfOk, OnOk, OnErr, []};
ghost use Rattle.std.specs.Option.{option_copied};
ghost use Rattle.std.specs.List.{enumerate_from};
ghost use Rattle.oc_model.specs.Maps.{at, is_in};
ghost use Rattle.oc_model.specs.Stores.{entered};
ghost use Rattle.oc_heap.specs.Heaps.{HasHandles, empty_from, with_new, with_entries, back_to};

use crate::entries::{enter, keep};
use oc_model::value::{Entries, Entry};
use sqlite_items::at;
use std::alloc::{AllocError, Global};
use std::marker::Model;

/// An object in memory. A reference in an entry is a handle, or 0 for null. A field without an entry has its default.
#[derive(Drop)]
pub struct Live {
    /// The number of its class.
    pub class: u32,
    pub entries: Entries,
}

/// The live objects of a run. An object is found by its handle alone, without a search: the handles of live objects have no gap.
#[derive(Drop)]
pub struct Heap {
    first: u64,
    objects: Vec<Live>,
}

impl Model for Heap {
    ghost use Rattle.oc_heap.specs.Heaps.{Objects};

    ghost Value = { Objects };

    ghost use Rattle.oc_heap.specs.Rows.{objects_of, KeepsHandles};

    ghost view = { λ h. objects_of h.first h.objects.items };

    ghost invariant = { λ h. KeepsHandles h.first h.objects.items };
}

impl Heap {
    /// The heap without objects; the first one gets handle 1.
    pub fn new(alloc: Global) -> Heap
        ensures { result ≡ empty_from 1 }
    {
        Heap {
            first: 1,
            objects: Vec::new(alloc),
        }
    }

    /// The first live handle, or the next one where nothing is live. The live handles are those from here on and below the next.
    pub fn first(&self) -> u64
        ensures value { result ≡ self.now.first }
        ensures handles { HasHandles self.now }
    {
        self.first
    }

    /// The handle that the next object gets.
    pub fn next(&self) -> u64
        ensures value { result ≡ self.now.next }
        ensures handles { HasHandles self.now }
    {
        self.first + self.objects.len() as u64
    }

    /// Makes an object of this class without entries, and answers its handle.
    pub fn make(&mut self, class: u32) -> Result<u64, AllocError>
        requires { self.old.next < 2 ^ 64 - 1 }
        ensures handle { IfOk result (λ h. h ≡ self.old.next) }
        ensures ok { OnOk result (self.new ≡ with_new self.old class) }
        ensures err { OnErr result (self.new ≡ self.old) }
    {
        let handle = self.first + self.objects.len() as u64;
        let entries = Entries::new(*self.objects.allocator());
        self.objects.push(Live { class, entries })?;
        Ok(handle)
    }

    /// The object under the handle; `None` where it isn't live.
    pub fn get(&self, handle: u64) -> Option<&Live>
        ensures { option_copied result ≡ at self.now.live handle }
    {
        if handle < self.first {
            return None;
        }
        at(self.objects.as_slice(), (handle - self.first) as usize)
    }

    /// Enters the entry in its place by id, instead of one with its id.
    pub fn set_field(&mut self, handle: u64, entry: Entry) -> Result<(), AllocError>
        requires { is_some (at self.old.live handle) ≡ true }
        ensures ok { OnOk result (self.new ≡ with_entries self.old handle (entered entry)) }
        ensures err { OnErr result (self.new ≡ self.old) }
    {
        let alloc = *self.objects.allocator();
        let place = place_of(self.first, self.objects.as_slice(), handle);
        enter(alloc, &mut self.objects[place].entries, entry)?;
        Ok(())
    }

    /// Makes these the object's entries.
    pub fn fill(&mut self, handle: u64, entries: Entries)
        requires { is_some (at self.old.live handle) ≡ true }
        ensures { self.new ≡ with_entries self.old handle (λ _. entries) }
    {
        let place = place_of(self.first, self.objects.as_slice(), handle);
        self.objects[place].entries = entries;
    }

    /// Takes away all entries of the object.
    pub fn empty(&mut self, handle: u64)
        requires { is_some (at self.old.live handle) ≡ true }
        ensures { self.new ≡ with_entries self.old handle (λ _. []) }
    {
        let none = Entries::new(*self.objects.allocator());
        self.fill(handle, none);
    }

    /// Takes away the object's entries whose id isn't one of these.
    pub fn keep_fields(&mut self, handle: u64, ids: &[u32])
        requires { is_some (at self.old.live handle) ≡ true }
        ensures { self.new ≡ with_entries self.old handle (filter (λ e. is_in ids.now e.id)) }
    {
        let place = place_of(self.first, self.objects.as_slice(), handle);
        keep(&mut self.objects[place].entries, ids);
    }

    /// Takes away all objects. The next handle stays.
    pub fn clear(&mut self)
        ensures { self.new ≡ empty_from self.old.next }
    {
        self.first += self.objects.len() as u64;
        self.objects.clear();
    }

    /// Takes away the objects from this handle on, which is the next one again.
    pub fn undo_to(&mut self, handle: u64)
        requires from { self.old.first ≤ handle }
        requires to { handle ≤ self.old.next }
        ensures { self.new ≡ back_to self.old handle }
    {
        let kept = (handle - self.first) as usize;
        self.objects.truncate(kept);
    }
}

/// The place of a live object in the row.
#[tactic(auto, using(crate::proofs::Handles::live_place))]
fn place_of(first: u64, objects: &[Live], handle: u64) -> usize
    requires { is_some (at (enumerate_from first objects.now) handle) ≡ true }
    ensures place { first + result ≡ handle }
    ensures within { result < length objects.now }
{
    (handle - first) as usize
}
