//! Look-ups in the reference table whose steps nobody counts.

ghost use Rattle.std.specs.Prelude.{◌≡◌, ◌<◌};
ghost use Rattle.oc_refs.specs.Triples.{by_number, by_handle};

use oc_refs::{Ref, RefTable, Steps};
use std::marker::Brand;
use std::sync::ledger::{Blank, Ledger};

/// The triple of the handle.
pub fn by_handle(table: &RefTable, handle: u64) -> Option<Ref>
    ensures { result ≡ by_handle table.now handle }
{
    counted_by_handle::<Brand>(table, handle, Blank::new(1))
}

/// The triple of the number.
pub fn by_number(table: &RefTable, number: u32) -> Option<Ref>
    ensures { result ≡ by_number table.now number }
{
    counted_by_number::<Brand>(table, number, Blank::new(1))
}

fn counted_by_handle<L: Ledger>(table: &RefTable, handle: u64, blank: Blank) -> Option<Ref>
    requires name { blank.name ≡ L.name }
    requires parts { blank.parts ≡ L.parts }
    requires some { 0 < L.parts }
    ensures { result ≡ by_handle table.now handle }
{
    let mut steps = Steps::<L>::new(blank);
    table.by_handle(handle, &mut steps)
}

fn counted_by_number<L: Ledger>(table: &RefTable, number: u32, blank: Blank) -> Option<Ref>
    requires name { blank.name ≡ L.name }
    requires parts { blank.parts ≡ L.parts }
    requires some { 0 < L.parts }
    ensures { result ≡ by_number table.now number }
{
    let mut steps = Steps::<L>::new(blank);
    table.by_number(number, &mut steps)
}
