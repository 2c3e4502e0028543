//! Tables from keys to values, of which a changed copy shares nearly all with the table that it came from.

ghost use Rattle.std.specs.Prelude.{◌≡◌, ◌<◌, ◌^◌, [], length, slice_get, IfOk};
ghost use Rattle.std.specs.Ordering.{nat_cmp, is_gt};
ghost use Rattle.std.specs.Option.{option_copied};
ghost use Rattle.std.specs.Cmp.Lexicographic.{slice_cmp};
ghost use Rattle.oc_shared.specs.Tables.{IsAscending, is_same as same_bytes, value_at, with_value, without_key, count_before, has_key as row_has_key, value_in};

use crate::sequence::Sequence;
use sqlite_items::Items;
use std::alloc::{AllocError, Global};
use std::cmp::Ordering;
use std::marker::Model;

/// Values by their keys, which are bytes. The rows ascend by their keys, so a chosen key costs no more than another.
#[derive(Drop)]
pub struct Table<V> {
    rows: Sequence<(Items<u8>, V)>,
}

impl<V> Model for Table<V> {
    ghost use Rattle.oc_shared.specs.Tables.{Rows, IsAscending};

    ghost Value = { Rows V };

    ghost view = { λ t. t.rows };

    ghost invariant = { λ t. IsAscending t.rows };
}

impl<V: Drop> Table<V> {
    /// No keys.
    pub fn new() -> Table<V>
        ensures { result ≡ [] }
    {
        Table {
            rows: Sequence::new(),
        }
    }

    /// The value at this key.
    #[tactic(auto, using(crate::proofs::Rows::value_read))]
    pub fn get(&self, key: &[u8]) -> Option<&V>
        ensures { option_copied result ≡ value_at self.now key.now }
    {
        let place = self.place(key);
        self.value_in(place, key)
    }

    /// The value in this place, where its row has this key.
    fn value_in(&self, place: usize, key: &[u8]) -> Option<&V>
        ensures { option_copied result ≡ value_in key.now (slice_get self.now place) }
    {
        match self.rows.get(place) {
            Some(row) if is_same(key, row.0.as_slice()) => Some(&row.1),
            _ => None,
        }
    }

    /// The same table once more, which shares all.
    pub fn share(&self) -> Result<Table<V>, AllocError>
        ensures { IfOk result (λ t. t ≡ self.now) }
    {
        let rows = self.rows.share()?;
        Ok(Table { rows })
    }

    /// With this value at this key, in place of the one that stood there.
    pub fn with(&self, alloc: Global, key: &[u8], value: V) -> Result<Table<V>, AllocError>
        ensures { IfOk result (λ t. t ≡ with_value self.now key.now value) }
    {
        let rows = self.rows_with(alloc, key, value)?;
        Ok(Table { rows })
    }

    #[tactic(auto, using(crate::proofs::Rows::count_within, crate::proofs::Rows::there_within, crate::proofs::Rows::put_new, crate::proofs::Rows::put_there, crate::proofs::Rows::ascending_put))]
    fn rows_with(
        &self,
        alloc: Global,
        key: &[u8],
        value: V,
    ) -> Result<Sequence<(Items<u8>, V)>, AllocError>
        ensures rows { IfOk result (λ r. r ≡ with_value self.now key.now value) }
        ensures ascending { IfOk result (λ r. IsAscending r) }
    {
        let place = self.place(key);
        let row = (Items::from_slice(alloc, key)?, value);
        if self.has_key(place, key) {
            let rows = self.rows.with_at(alloc, place, row)?;
            Ok(rows)
        } else {
            let rows = self.rows.with(alloc, place, row)?;
            Ok(rows)
        }
    }

    /// Without this key and its value.
    pub fn without(&self, alloc: Global, key: &[u8]) -> Result<Table<V>, AllocError>
        ensures { IfOk result (λ t. t ≡ without_key self.now key.now) }
    {
        let rows = self.rows_without(alloc, key)?;
        Ok(Table { rows })
    }

    #[tactic(auto, using(crate::proofs::Rows::there_within, crate::proofs::Rows::removed_none, crate::proofs::Rows::ascending_without))]
    fn rows_without(
        &self,
        alloc: Global,
        key: &[u8],
    ) -> Result<Sequence<(Items<u8>, V)>, AllocError>
        ensures rows { IfOk result (λ r. r ≡ without_key self.now key.now) }
        ensures ascending { IfOk result (λ r. IsAscending r) }
    {
        let place = self.place(key);
        if self.has_key(place, key) {
            let rows = self.rows.without(alloc, place)?;
            Ok(rows)
        } else {
            let rows = self.rows.share()?;
            Ok(rows)
        }
    }

    /// How many rows have keys before this one.
    fn place(&self, key: &[u8]) -> usize
        ensures count { result ≡ count_before key.now self.now }
        ensures ascending { IsAscending self.now }
    {
        let mut at = &self.rows;
        let mut place = self.rows.len();
        while let Some(parts) = at.parts() {
            if is_behind(key, parts.item.0.as_slice()) {
                at = parts.after;
            } else {
                place -= parts.after.len() + 1;
                at = parts.before;
            }
        }
        place
    }

    /// Whether the row in this place has this key.
    fn has_key(&self, place: usize, key: &[u8]) -> bool
        ensures { result ≡ row_has_key key.now (slice_get self.now place) }
    {
        match self.rows.get(place) {
            Some(row) => is_same(key, row.0.as_slice()),
            None => false,
        }
    }
}

fn is_behind(a: &[u8], b: &[u8]) -> bool
    ensures { result ≡ is_gt (slice_cmp nat_cmp a.now b.now) }
{
    matches!(a.cmp(&b), Ordering::Greater)
}

fn is_same(a: &[u8], b: &[u8]) -> bool
    ensures { result ≡ same_bytes a.now b.now }
{
    matches!(a.cmp(&b), Ordering::Equal)
}
