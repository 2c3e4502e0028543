//! The entries of lists.

ghost use Rattle.std.specs.Prelude.{◌≡◌, ◌≤◌, IfOk};
ghost use Rattle.oc_index.specs.Items.{extent_cmp, index_cmp, key_bytes, index_bytes};

use oc_chunks::Entry;
use oc_value::{Atom, compare};
use std::alloc::{AllocError, Global};
use std::cmp::Ordering;

/// An object in the list of all objects: its number and its class.
#[derive(Clone, Copy, PartialEq, Eq)]
pub struct ExtentItem {
    pub number: u32,
    pub class: u32,
}

/// An object in the list of a field: its value of the field, and its number.
#[derive(Drop)]
pub struct IndexItem {
    pub key: Atom,
    pub number: u32,
}

impl Entry for ExtentItem {
    ghost use Rattle.std.specs.Cmp.{nat_cmp_total};
    ghost use Rattle.std.proofs.lemmas.Cmp.{on_total};
    ghost use Rattle.std.proofs.Common.{arith};

    ghost order = { extent_cmp };

    ghost bytes = { λ _. 8 };

    ghost MOST = { 512 };

    const MOST: usize = 512;

    fn compare(&self, other: &Self) -> Ordering {
        self.number.cmp(&other.number)
    }

    fn len(&self) -> usize {
        8
    }

    fn copy(&self, _alloc: Global) -> Result<Self, AllocError> {
        Ok(*self)
    }

    ghost total = { on_total (λ e. e.number) nat_cmp_total };

    ghost few = { Prim.omega arith };
}

impl Entry for IndexItem {
    ghost use Rattle.std.proofs.Common.{arith};
    ghost use Rattle.oc_index.specs.Totals.{index_total};

    ghost order = { index_cmp };

    ghost bytes = { index_bytes };

    ghost MOST = { 128 };

    const MOST: usize = 128;

    fn compare(&self, other: &Self) -> Ordering {
        compare(&self.key, &other.key).then(self.number.cmp(&other.number))
    }

    fn len(&self) -> usize {
        key_len(&self.key) + 4
    }

    fn copy(&self, alloc: Global) -> Result<Self, AllocError> {
        Ok(IndexItem {
            key: key_copy(alloc, &self.key)?,
            number: self.number,
        })
    }

    ghost total = { index_total };

    ghost few = { Prim.omega arith };
}

/// The bytes that the value takes in a segment, at most.
fn key_len(key: &Atom) -> usize
    ensures value { result ≡ key_bytes key.now }
    ensures small { result ≤ 9223372036854775812 }
{
    match key {
        Atom::Bool(_) | Atom::Text(None) => 1,
        Atom::Int(_) => 16,
        Atom::Text(Some(text)) => 5 + text.as_slice().len(),
        Atom::Ref(_) => 4,
    }
}

/// The same value.
pub fn key_copy(alloc: Global, key: &Atom) -> Result<Atom, AllocError>
    ensures { IfOk result (λ copy. copy ≡ key.now) }
{
    Ok(match key {
        Atom::Bool(value) => Atom::Bool(*value),
        Atom::Int(value) => Atom::Int(*value),
        Atom::Text(None) => Atom::Text(None),
        Atom::Text(Some(text)) => Atom::Text(Some(text.copy(alloc)?)),
        Atom::Ref(number) => Atom::Ref(*number),
    })
}
