//! What a commit asks of the indexes of fields, and what it leaves of them.

ghost use Rattle.std.specs.Prelude.{◌≡◌, ◌++◌, map, flat_map, IfOk, OnOk};
ghost use Rattle.oc_chunks.specs.Ascending.{Each};
ghost use Rattle.oc_chunks.specs.Chunks.{numbers as segments_of};
ghost use Rattle.oc_index.specs.Indexed.{ids_of, now_of, spare_over, then_of, written_fields, IsJoined, JoinsFields};

use crate::indexes::Field;
use oc_value::Base;
use std::alloc::{AllocError, Global};

/// The fields that have an index, each with the kind of its values.
pub(crate) fn indexed_in(alloc: Global, fields: &[Field]) -> Result<Vec<(u32, Base)>, AllocError>
    ensures { IfOk result (λ v. v.items ≡ map (λ f. (f.0, f.1.base)) (flat_map now_of fields.now)) }
{
    let mut indexed = Vec::new(alloc);
    for field in fields {
        push_indexed(&mut indexed, field)?;
    }
    Ok(indexed)
}

fn push_indexed(indexed: &mut Vec<(u32, Base)>, field: &Field) -> Result<(), AllocError>
    ensures { OnOk result (indexed.new.items ≡ indexed.old.items ++ map (λ f. (f.0, f.1.base)) (now_of field.now)) }
{
    if field.is_here {
        indexed.push((field.id, field.index.base()))?;
    }
    Ok(())
}

/// These numbers, and then those that the chunks of each index had at the mark.
pub(crate) fn marked_numbers_in(
    alloc: Global,
    fields: &[Field],
    mut numbers: Vec<u32>,
) -> Result<Vec<u32>, AllocError>
    ensures { IfOk result (λ v. v.items ≡ numbers.items ++ flat_map (λ f. segments_of f.1.chunks) (flat_map then_of fields.now)) }
{
    for field in fields {
        push_marked(alloc, &mut numbers, field)?;
    }
    Ok(numbers)
}

fn push_marked(alloc: Global, numbers: &mut Vec<u32>, field: &Field) -> Result<(), AllocError>
    ensures { OnOk result (numbers.new.items ≡ numbers.old.items ++ flat_map (λ f. segments_of f.1.chunks) (then_of field.now)) }
{
    if field.was_there {
        let mut marked = field.index.marked_numbers(alloc)?;
        numbers.append(&mut marked)?;
    }
    Ok(())
}

/// Joins small neighbours of each index that is there.
pub(crate) fn join_in(alloc: Global, fields: &mut Vec<Field>) -> Result<(), AllocError>
    ensures fields { JoinsFields (flat_map now_of fields.old.items) (flat_map now_of fields.new.items) }
    ensures marked { flat_map then_of fields.new.items ≡ flat_map then_of fields.old.items }
    ensures ids { ids_of fields.new.items ≡ ids_of fields.old.items }
    ensures none { OnOk result (Each IsJoined (flat_map now_of fields.new.items)) }
{
    for at in 0..fields.len() {
        join_one(alloc, &mut fields[at])?;
    }
    Ok(())
}

/// Joins small neighbours if the index is there.
fn join_one(alloc: Global, field: &mut Field) -> Result<(), AllocError>
    ensures now { JoinsFields (now_of field.old) (now_of field.new) }
    ensures then { then_of field.new ≡ then_of field.old }
    ensures id { field.new.id ≡ field.old.id }
    ensures none { OnOk result (Each IsJoined (now_of field.new)) }
{
    if !field.is_here {
        return Ok(());
    }
    field.index.join_small(alloc)
}

/// Marks the chunks of each index that is there as written. Those without a number get the next of these.
pub(crate) fn write_in(fields: &mut Vec<Field>, numbers: &[u32])
    ensures fields { flat_map now_of fields.new.items ≡ written_fields numbers.now (flat_map now_of fields.old.items) }
    ensures ids { ids_of fields.new.items ≡ ids_of fields.old.items }
{
    let mut spare = numbers;
    for at in 0..fields.len() {
        spare = write_one(&mut fields[at], spare);
    }
}

/// Marks the chunks as written if the index is there, and gives the numbers that are left.
fn write_one<'a>(field: &mut Field, spare: &'a [u32]) -> &'a [u32]
    ensures now { now_of field.new ≡ written_fields spare.now (now_of field.old) }
    ensures rest { result.now ≡ spare_over spare.now (now_of field.old) }
    ensures id { field.new.id ≡ field.old.id }
{
    if field.is_here {
        field.index.set_written(spare)
    } else {
        spare
    }
}
