//! The place of an entry in an index.

use crate::items::IndexItem;
use oc_chunks::Cut;
use oc_value::{Atom, compare};
use std::cmp::Ordering;

/// The place of the entry of this value and this number.
#[derive(Drop)]
pub(crate) struct Place<'a> {
    pub(crate) key: &'a Atom,
    pub(crate) number: u32,
}

impl<'a> Cut<IndexItem> for Place<'a> {
    ghost use Rattle.oc_chunks.specs.Places.{at_parts};
    ghost use Rattle.oc_index.specs.Items.{index_cmp};
    ghost use Rattle.oc_index.specs.Totals.{index_total};

    ghost side = { λ s e. index_cmp e (record { key = s.key.now; number = s.number }) };

    fn side(&self, entry: &IndexItem) -> Ordering {
        compare(&entry.key, self.key).then(entry.number.cmp(&self.number))
    }

    ghost parts = { λ s x y below. at_parts index_cmp index_total (record { key = s.key.now; number = s.number }) x y below };
}
