//! The numbers that new segments get.

ghost use Rattle.std.specs.Prelude.{◌≡◌, ◌⊎◌, ◌+◌, ◌++◌, ◌∷◌, [], ℕ, length, IfOk, OnOk};
ghost use Rattle.std.specs.Bool.{OnTrue, OnFalse};
ghost use Rattle.oc_model.specs.Lists.{IsOneOf};
ghost use Rattle.oc_chunks.specs.Ascending.{Each};
ghost use Rattle.oc_store.specs.Numbering.{AreLeast, AreRising, IsSegmentNumber, SplitAt};

use std::alloc::{AllocError, Global};

/// The number behind the last one that a slot may have.
const END: u32 = 2_147_483_647;

/// So many numbers for segments, the least that aren't used. The used ones ascend. Where the numbers
/// run out it answers that memory ran out: no memory holds so many chunks.
pub(crate) fn new_numbers(alloc: Global, used: &[u32], count: usize) -> Result<Vec<u32>, AllocError>
    requires { AreRising used.now }
    ensures count { IfOk result (λ v. length v.items ≡ count) }
    ensures rising { IfOk result (λ v. AreRising v.items) }
    ensures range { IfOk result (λ v. Each IsSegmentNumber v.items) }
    ensures unused { IfOk result (λ v. Each (λ n. IsOneOf n used.now → ⊥) v.items) }
    ensures least { IfOk result (λ v. AreLeast used.now v.items) }
{
    let mut numbers = Vec::new(alloc);
    let mut place = first_from(used, 2);
    for number in 2..END {
        if numbers.len() == count {
            return Ok(numbers);
        }
        place = push_free(&mut numbers, used, place, number)?;
    }
    if numbers.len() < count {
        return Err(AllocError);
    }
    Ok(numbers)
}

// The place of the first of the numbers, which ascend, that is this one or greater.
fn first_from(numbers: &[u32], number: u32) -> usize
    requires { AreRising numbers.now }
    ensures { SplitAt numbers.now number result }
{
    match numbers.binary_search(&number) {
        Ok(place) | Err(place) => place,
    }
}

// Adds the number if it isn't used, and gives the place of the first that is used and greater. The place that is given is
// that of the first that is the number or greater.
fn push_free(
    numbers: &mut Vec<u32>,
    used: &[u32],
    place: usize,
    number: u32,
) -> Result<usize, AllocError>
    requires rising { AreRising used.now }
    requires place { SplitAt used.now number place }
    ensures place { IfOk result (λ place. SplitAt used.now (number + 1) place) }
    ensures numbers { OnOk result (((numbers.new.items ≡ numbers.old.items) × IsOneOf number used.now)
        ⊎ ((numbers.new.items ≡ numbers.old.items ++ number ∷ []) × (IsOneOf number used.now → ⊥))) }
{
    if place < used.len() && used[place] == number {
        return Ok(place + 1);
    }
    numbers.push(number)?;
    Ok(place)
}

/// Whether the number is one of these, which ascend.
pub(crate) fn is_among(numbers: &[u32], number: u32) -> bool
    requires { AreRising numbers.now }
    ensures yes { OnTrue result (IsOneOf number numbers.now) }
    ensures no { OnFalse result (IsOneOf number numbers.now → ⊥) }
{
    numbers.binary_search(&number).is_ok()
}
