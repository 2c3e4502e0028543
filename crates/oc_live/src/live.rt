//! The live part.

ghost use Rattle.std.specs.Prelude.{◌≡◌, ℕ, Bool, slice_get, if◌then◌else◌, ◌+◌, ◌-◌, ◌^◌, ◌<◌, ◌≤◌, true, is_some, filter, option_map, IfOk, OnOk, OnErr, None, Some, []};
ghost use Rattle.std.specs.Option.{option_copied};
ghost use Rattle.oc_model.specs.Maps.{at, is_in};
ghost use Rattle.oc_model.specs.Stores.{entered};
ghost use Rattle.oc_machine.specs.Memory.{number_at, detached, bound, with_bound, without_name};
ghost use Rattle.oc_machine.specs.ObjectLines.{run_depth};
ghost use Rattle.oc_live.specs.Memories.{start_memory, unsaved, with_new, with_changed, refilled, numbered, turned, held_of, handle_in, LiveFrom, cleared, back_to, with_class, with_classes_to};
ghost use Rattle.oc_live.specs.Joined.{ListsAll, released};
ghost use Rattle.oc_live.specs.Kept.{is_lost, with_kept, Tells};

use crate::finding::{by_handle, by_number};
use crate::names::Names;
use oc_heap::{Entries, Entry, Heap, Live};
use oc_model::command::RunDepth;
use oc_model::value::Txt;
use oc_reach::{ClassSettings, Settings};
use oc_refs::RefTable;
use std::alloc::{AllocError, Global};
use std::marker::Model;

/// What a container has in memory beside its stores. An object's class and entries stand in the heap under its handle. Its number and whether it is active stand in the reference table; an object that isn't there is unsaved, and active.
#[derive(Drop)]
pub struct LiveObjects {
    heap: Heap,
    refs: RefTable,
    names: Names,
    settings: Settings,
    commits: u64,
}

impl Model for LiveObjects {
    ghost use Rattle.oc_live.specs.Memories.{Memory};
    ghost use Rattle.oc_live.specs.Joined.{memory_in, AreJoined};

    ghost Value = { Memory };

    ghost view = { λ m. memory_in m.heap m.refs m.names m.settings m.commits };

    ghost invariant = { λ m. AreJoined m.heap m.refs };
}

impl LiveObjects {
    /// As a run begins: nothing is live and nothing is set.
    pub fn new(alloc: Global) -> LiveObjects
        ensures { result ≡ start_memory }
    {
        LiveObjects {
            heap: Heap::new(alloc),
            refs: RefTable::new(alloc),
            names: Names::new(alloc),
            settings: Settings::new(alloc),
            commits: 0,
        }
    }

    /// The first live handle, or the next one where nothing is live.
    pub fn first_handle(&self) -> u64
        ensures { LiveFrom self.now result }
    {
        self.heap.first()
    }

    /// The handle that the next object gets.
    pub fn next_handle(&self) -> u64
        ensures { result ≡ self.now.next_handle }
    {
        self.heap.next()
    }

    /// Makes an unsaved object of this class without entries, and answers its handle.
    pub fn make(&mut self, class: u32) -> Result<u64, AllocError>
        requires { self.old.next_handle < 2 ^ 64 - 1 }
        ensures handle { IfOk result (λ h. h ≡ self.old.next_handle) }
        ensures ok { OnOk result (self.new ≡ with_new self.old (unsaved class)) }
        ensures err { OnErr result (self.new ≡ self.old) }
    {
        let handle = self.heap.make(class)?;
        Ok(handle)
    }

    /// Whether there is a live object under the handle.
    pub fn is_live(&self, handle: u64) -> bool
        ensures { result ≡ is_some (at self.now.live handle) }
    {
        self.heap.get(handle).is_some()
    }

    /// The class and the entries of the object under the handle; `None` where it isn't live.
    pub fn get(&self, handle: u64) -> Option<&Live>
        ensures { option_copied result ≡ option_map held_of (at self.now.live handle) }
    {
        self.heap.get(handle)
    }

    /// Enters the entry in its place by id, instead of one with its id.
    pub fn set_field(&mut self, handle: u64, entry: Entry) -> Result<(), AllocError>
        requires { is_some (at self.old.live handle) ≡ true }
        ensures ok { OnOk result (self.new ≡ with_changed self.old handle (refilled (entered entry))) }
        ensures err { OnErr result (self.new ≡ self.old) }
    {
        self.heap.set_field(handle, entry)?;
        Ok(())
    }

    /// Makes these the object's entries.
    pub fn fill(&mut self, handle: u64, entries: Entries)
        requires { is_some (at self.old.live handle) ≡ true }
        ensures { self.new ≡ with_changed self.old handle (refilled (λ _. entries)) }
    {
        self.heap.fill(handle, entries);
    }

    /// Takes away all entries of the object.
    pub fn empty(&mut self, handle: u64)
        requires { is_some (at self.old.live handle) ≡ true }
        ensures { self.new ≡ with_changed self.old handle (refilled (λ _. [])) }
    {
        self.heap.empty(handle);
    }

    /// Takes away the object's entries whose id isn't one of these.
    pub fn keep_fields(&mut self, handle: u64, ids: &[u32])
        requires { is_some (at self.old.live handle) ≡ true }
        ensures { self.new ≡ with_changed self.old handle (refilled (filter (λ e. is_in ids.now e.id))) }
    {
        self.heap.keep_fields(handle, ids);
    }

    /// The number of the object under the handle; `None` where it is unsaved or isn't live.
    pub fn number_of(&self, handle: u64) -> Option<u32>
        ensures { result ≡ number_at (at self.now.live handle) }
    {
        by_handle(&self.refs, handle).map(|triple| triple.number)
    }

    /// The handle of the live object with the number.
    pub fn handle_of(&self, number: u32) -> Option<u64>
        ensures { result ≡ handle_in self.now.live number }
    {
        by_number(&self.refs, number).map(|triple| triple.handle)
    }

    /// Whether the live object is active, as each unsaved one is.
    pub fn is_active(&self, handle: u64) -> bool
        requires { is_some (at self.now.live handle) ≡ true }
        ensures { Some result ≡ option_map (λ o. o.active) (at self.now.live handle) }
    {
        match by_handle(&self.refs, handle) {
            Some(triple) => triple.active,
            None => true,
        }
    }

    /// Gives an unsaved object a number that no live object has, and notes whether it is active.
    pub fn enlist(&mut self, handle: u64, number: u32, active: bool) -> Result<(), AllocError>
        requires live { is_some (at self.old.live handle) ≡ true }
        requires unsaved { number_at (at self.old.live handle) ≡ None }
        requires free { handle_in self.old.live number ≡ None }
        ensures ok { OnOk result (self.new ≡ with_changed self.old handle (numbered number active)) }
        ensures err { OnErr result (self.new ≡ self.old) }
    {
        self.refs.insert(number, handle, active)?;
        Ok(())
    }

    /// Makes an object that has a number active or inactive.
    pub fn set_active(&mut self, handle: u64, active: bool)
        requires { is_some (number_at (at self.old.live handle)) ≡ true }
        ensures { self.new ≡ with_changed self.old handle (turned active) }
    {
        if let Some(triple) = by_handle(&self.refs, handle) {
            self.refs.set_active(triple.number, active);
        }
    }

    /// Takes the object's number away, if it has one. It keeps its entries, and is unsaved and active from then on.
    pub fn detach(&mut self, handle: u64)
        requires { is_some (at self.old.live handle) ≡ true }
        ensures { self.new ≡ with_changed self.old handle detached }
    {
        release(&mut self.refs, handle);
    }

    /// Takes away the objects from this handle on, which is the next one again. Names aren't looked at.
    pub fn undo_to(&mut self, handle: u64)
        requires from { (first : ℕ) × LiveFrom self.old first × (first ≤ handle) }
        requires to { handle ≤ self.old.next_handle }
        ensures { self.new ≡ back_to self.old handle }
    {
        let next = self.heap.next();
        for undone in handle..next {
            release(&mut self.refs, undone);
        }
        self.heap.undo_to(handle);
    }

    /// Detaches each object whose number isn't kept.
    pub fn keep_numbers<F: Fn(u32) -> bool>(&mut self, is_kept: F)
        requires { F.IsAlwaysCallable is_kept }
        ensures { (kept : ℕ → Bool) → Tells (F.post is_kept) kept → self.new ≡ with_kept kept self.old }
    {
        let first = self.first_handle();
        let next = self.next_handle();
        for handle in first..next {
            self.keep_number(handle, &is_kept);
        }
    }

    /// Detaches the object under the handle, if it has a number and the number isn't kept.
    fn keep_number<F: Fn(u32) -> bool>(&mut self, handle: u64, is_kept: &F)
        requires { F.IsAlwaysCallable is_kept.now }
        ensures { (kept : ℕ → Bool) → Tells (F.post is_kept.now) kept → self.new ≡ (if is_lost kept (number_at (at self.old.live handle)) then with_changed self.old handle detached else self.old) }
    {
        let Some(number) = self.number_of(handle) else {
            return;
        };
        if !is_kept(number) {
            self.detach(handle);
        }
    }

    /// The numbers, handles and active states of the live objects that have a number.
    pub fn refs(&self) -> &RefTable
        ensures { ListsAll result.now self.now.live }
    {
        &self.refs
    }

    /// Takes away all objects and all names. The next handle stays.
    pub fn clear(&mut self)
        ensures { self.new ≡ cleared self.old }
    {
        self.heap.clear();
        self.refs.clear();
        self.names.clear();
    }

    /// Binds the name to the handle. A bound name keeps its place.
    pub fn bind(&mut self, name: &Txt, handle: u64) -> Result<(), AllocError>
        ensures ok { OnOk result (self.new ≡ record self.old { names = with_bound self.old.names name.now handle }) }
        ensures err { OnErr result (self.new ≡ self.old) }
    {
        self.names.bind(name, handle)?;
        Ok(())
    }

    /// The handle that the name is bound to.
    pub fn handle_named(&self, name: &Txt) -> Option<u64>
        ensures { result ≡ bound self.now.names name.now }
    {
        self.names.handle(name)
    }

    /// The name at this place in the order of the first bindings, with its handle.
    pub fn name_at(&self, index: usize) -> Option<(&[u8], u64)>
        ensures { option_map (λ e. (e.0.now, e.1)) result ≡ slice_get self.now.names index }
    {
        self.names.get(index)
    }

    /// Unbinds the name. The others keep their order.
    pub fn unbind(&mut self, name: &Txt)
        ensures { self.new ≡ record self.old { names = without_name self.old.names name.now } }
    {
        self.names.unbind(name);
    }

    /// What a run sets.
    pub fn settings(&self) -> &Settings
        ensures { result.now ≡ self.now.settings }
    {
        &self.settings
    }

    /// Sets a depth of the run.
    pub fn set_depth(&mut self, which: RunDepth, depth: u32)
        ensures { self.new ≡ record self.old { settings = run_depth which depth self.old.settings } }
    {
        match which {
            RunDepth::Activation => self.settings.activation = depth,
            RunDepth::Update => self.settings.update = depth,
        }
    }

    /// Enters the settings of the class, in place of those that it had.
    pub fn set_class(&mut self, class: u32, to: ClassSettings) -> Result<(), AllocError>
        ensures ok { OnOk result (self.new ≡ record self.old { settings = with_class self.old.settings class to }) }
        ensures err { OnErr result (self.new ≡ self.old) }
    {
        self.settings.set(class, to)?;
        Ok(())
    }

    /// Takes away the settings of the classes with a greater number.
    pub fn drop_classes_above(&mut self, classes: u32)
        ensures { self.new ≡ record self.old { settings = with_classes_to self.old.settings classes } }
    {
        self.settings.drop_above(classes);
    }

    /// How many commits the run has made.
    pub fn commits(&self) -> u64
        ensures { result ≡ self.now.commits }
    {
        self.commits
    }

    /// Counts one commit more.
    pub fn count_commit(&mut self)
        requires { self.old.commits < 2 ^ 64 - 1 }
        ensures { self.new ≡ record self.old { commits = self.old.commits + 1 } }
    {
        self.commits += 1;
    }
}

/// Takes the triple of the handle out, if there is one.
fn release(refs: &mut RefTable, handle: u64)
    ensures { refs.new ≡ released refs.old handle }
{
    if let Some(triple) = by_handle(refs, handle) {
        let _ = refs.remove(triple.number);
    }
}
