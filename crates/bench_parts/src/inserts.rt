//! Entries put into a list in an order without a pattern.

use crate::fault::Fault;
use oc_index::{End, FieldIndex};
use oc_value::{Atom, Base};
use std::alloc::Global;
use std::collections::BTreeMap;

/// The value of the entry with this number: the numbers of 31 bits in an order that looks like chance.
fn value_of(number: u32) -> u32 {
    number
        .wrapping_mul(2_654_435_761)
        .rotate_left(13)
        .wrapping_mul(2_246_822_519)
        >> 1
}

/// How many entries an index of i32 has after so many were added.
pub fn into_index(alloc: Global, count: u32) -> Result<u64, Fault> {
    let mut index = FieldIndex::new(alloc, Base::I32);
    for number in 0..count {
        index.add(alloc, Atom::Int(value_of(number).into()), number)?;
    }
    Ok(index.count(&End::Free, &End::Free))
}

/// How many keys a map of std has after so many were put in.
pub fn into_map(alloc: Global, count: u32) -> Result<u64, Fault> {
    let mut map = BTreeMap::new(alloc);
    for number in 0..count {
        map.insert((value_of(number), number), ())?;
    }
    Ok(map.len() as u64)
}
