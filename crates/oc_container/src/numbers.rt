//! The numbers that the values of a line name.

ghost use Rattle.std.specs.Prelude.{◌≡◌, ◌++◌, flat_map, IfOk, OnOk};
ghost use Rattle.std.specs.Ordering.{nat_cmp};
ghost use Rattle.oc_model.specs.Lists.{sorted};
ghost use Rattle.oc_machine.specs.Values.{numbers_in_single, numbers_in_value};
ghost use Rattle.oc_container.specs.Givens.{numbers_named};

use oc_model::command::{Given, Single, ValueText};
use std::alloc::{AllocError, Global};

/// The numbers, ascending. One that is named more than once comes as often.
pub(crate) fn numbers_in(alloc: Global, givens: &[Given]) -> Result<Vec<u128>, AllocError>
    ensures { IfOk result (λ v. v.items ≡ sorted nat_cmp (numbers_named givens.now)) }
{
    let mut numbers = numbers_as_written(alloc, givens)?;
    numbers.sort_unstable();
    Ok(numbers)
}

fn numbers_as_written(alloc: Global, givens: &[Given]) -> Result<Vec<u128>, AllocError>
    ensures { IfOk result (λ v. v.items ≡ numbers_named givens.now) }
{
    let mut numbers = Vec::new(alloc);
    for given in givens {
        push_value(&mut numbers, &given.value)?;
    }
    Ok(numbers)
}

fn push_value(numbers: &mut Vec<u128>, value: &ValueText) -> Result<(), AllocError>
    ensures { OnOk result (numbers.new.items ≡ numbers.old.items ++ numbers_in_value value.now) }
{
    match value {
        ValueText::One(single) => push_single(numbers, single),
        ValueText::Many(singles) => push_singles(numbers, singles.as_slice()),
    }
}

fn push_singles(numbers: &mut Vec<u128>, singles: &[Single]) -> Result<(), AllocError>
    ensures { OnOk result (numbers.new.items ≡ numbers.old.items ++ flat_map numbers_in_single singles.now) }
{
    for single in singles {
        push_single(numbers, single)?;
    }
    Ok(())
}

fn push_single(numbers: &mut Vec<u128>, single: &Single) -> Result<(), AllocError>
    ensures { OnOk result (numbers.new.items ≡ numbers.old.items ++ numbers_in_single single.now) }
{
    match single {
        Single::Num(number) => {
            numbers.push(*number)?;
        }
        Single::Null | Single::Bool(_) | Single::Int(_) | Single::Text(_) | Single::Name(_) => {}
    }
    Ok(())
}
