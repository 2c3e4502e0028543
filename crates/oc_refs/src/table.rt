//! The table.

ghost use Rattle.std.specs.Prelude.{◌≡◌, ◌+◌, ◌-◌, ◌*◌, ◌^◌, ◌≤◌, ◌↔◌, nat_eq, [], length, is_some, true, if◌then◌else◌, Option, None, Some, OnOk, OnErr};
ghost use Rattle.std.specs.Map.{lookup};
ghost use Rattle.oc_refs.specs.Triples.{AreDistinct, by_number, by_handle, with_ref, without, with_active};

use crate::steps::Steps;
use std::alloc::{AllocError, Global};
use std::collections::HashMap;
use std::marker::Model;
use std::sync::ledger::Ledger;

/// A live object that has a number: the number, its handle, and whether it is active.
#[derive(Clone, Copy, Debug, PartialEq, Eq)]
pub struct Ref {
    pub number: u32,
    pub handle: u64,
    pub active: bool,
}

/// The live objects that have a number, by ascending number. No number and no handle comes twice. Only `insert` takes memory.
#[derive(Drop)]
pub struct RefTable {
    refs: HashMap<u32, Ref>,
    numbers: HashMap<u64, u32>,
}

impl Model for RefTable {
    ghost use Rattle.std.specs.Prelude.{List};
    ghost use Rattle.oc_refs.specs.declared.table.Ref.{Ref as Triple};

    ghost Value = { List Triple };

    ghost use Rattle.oc_refs.specs.Kept.{triples, Agree};

    ghost view = { λ t. triples t.refs.entries };

    ghost invariant = { λ t. Agree t.refs.entries t.numbers.entries };
}

impl RefTable {
    /// The table without triples.
    pub fn new(alloc: Global) -> RefTable
        ensures { result ≡ [] }
    {
        RefTable {
            refs: HashMap::new(alloc),
            numbers: HashMap::new(alloc),
        }
    }

    /// Enters a triple. Neither the number nor the handle is there.
    pub fn insert(&mut self, number: u32, handle: u64, active: bool) -> Result<(), AllocError>
        requires number { by_number self.old number ≡ None }
        requires handle { by_handle self.old handle ≡ None }
        ensures ok { OnOk result (self.new ≡ with_ref (record { number = number; handle = handle; active = active }) self.old) }
        ensures err { OnErr result (self.new ≡ self.old) }
    {
        let triple = Ref {
            number,
            handle,
            active,
        };
        self.numbers.insert(handle, number)?;
        match self.refs.insert(number, triple) {
            Ok(_) => Ok(()),
            Err(full) => {
                self.numbers.remove(&handle);
                Err(AllocError::from(full))
            }
        }
    }

    /// The triple of the number.
    pub fn by_number<L: Ledger>(&self, number: u32, steps: &mut Steps<L>) -> Option<Ref>
        ensures value { result ≡ by_number self.now number }
        ensures more { steps.old ≤ steps.new }
        ensures cost { 2 ^ (steps.new - steps.old) ≤ (length self.now + 1) ^ 2 }
    {
        visit(&self.refs, number, steps)
    }

    /// The triple of the handle.
    pub fn by_handle<L: Ledger>(&self, handle: u64, steps: &mut Steps<L>) -> Option<Ref>
        ensures value { result ≡ by_handle self.now handle }
        ensures more { steps.old ≤ steps.new }
        ensures cost { 2 ^ (steps.new - steps.old) ≤ (length self.now + 1) ^ 2 }
    {
        let Some(number) = self.numbers.get(&handle) else {
            return None;
        };
        steps.tick();
        visit(&self.refs, *number, steps)
    }

    /// Makes the triple of a number that is there active or inactive.
    pub fn set_active(&mut self, number: u32, active: bool)
        requires { is_some (by_number self.old number) ≡ true }
        ensures { self.new ≡ with_active number active self.old }
    {
        let Some(triple) = self.refs.get_mut(&number) else {
            return;
        };
        triple.active = active;
    }

    /// Takes the triple of the number out.
    pub fn remove(&mut self, number: u32) -> Option<Ref>
        ensures value { result ≡ by_number self.old number }
        ensures rest { self.new ≡ without number self.old }
    {
        let Some(triple) = self.refs.remove(&number) else {
            return None;
        };
        self.numbers.remove(&triple.handle);
        Some(triple)
    }

    /// Takes all triples out.
    pub fn clear(&mut self)
        ensures { self.new ≡ [] }
    {
        self.refs.clear();
        self.numbers.clear();
    }

    /// How many triples there are.
    pub fn len(&self) -> u64
        ensures value { result ≡ length self.now }
        ensures distinct { AreDistinct self.now }
    {
        self.refs.len() as u64
    }
}

/// The triple of the number, whose visit is a step.
fn visit<L: Ledger>(refs: &HashMap<u32, Ref>, number: u32, steps: &mut Steps<L>) -> Option<Ref>
    ensures value { result ≡ lookup (nat_eq number) refs.now.entries }
    ensures cost { steps.new ≡ steps.old + (if is_some result then 1 else 0) }
{
    let triple = *refs.get(&number)?;
    steps.tick();
    Some(triple)
}
