//! A segment as its bytes.

ghost use Rattle.std.specs.Prelude.{◌≡◌, ◌++◌, IsTrue, IfOk, OnOk, flat_map};
ghost use Rattle.std.specs.List.{list_all};
ghost use Rattle.oc_model.specs.Spelling.{segment_bytes};
ghost use Rattle.oc_segments.specs.Segments.{AreEntries};

use crate::items::Item;
use oc_value::Base;
use std::alloc::{AllocError, Global};

/// The bytes of a segment of 1 to 512 entries in ascending order. In a field's list each value is of
/// the field's base kind, a text has fewer than 2^32 bytes, and a reference is at most 2,147,483,646.
pub fn write_segment<E: Item>(
    alloc: Global,
    items: &[E],
    base: Option<Base>,
) -> Result<Vec<u8>, AllocError>
    requires { AreEntries E.order (E.fits base) items.now }
    ensures { IfOk result (λ v. v.items ≡ segment_bytes (E.spell base) items.now) }
{
    let count = items.len() as u16;
    let mut out = Vec::new(alloc);
    out.extend_from_slice(&count.to_be_bytes())?;
    put_items(items, base, &mut out)?;
    Ok(out)
}

fn put_items<E: Item>(items: &[E], base: Option<Base>, out: &mut Vec<u8>) -> Result<(), AllocError>
    requires { IsTrue (list_all (E.fits base) items.now) }
    ensures { OnOk result (out.new.items ≡ out.old.items ++ flat_map (E.spell base) items.now) }
{
    for item in items {
        item.put(base, out)?;
    }
    Ok(())
}
