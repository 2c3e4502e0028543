// Numbers in order, each once.
ghost use Rattle.std.specs.Prelude.{◌≡◌, ◌<◌, ◌≤◌, ◌-◌, ℕ, true, false, length, slice_index, Contains, IfOk};
ghost use Rattle.std.specs.List.Sorted.{IsNonDecreasing};
ghost use Rattle.oc_pages.specs.Order.{AreAscending};

use std::alloc::{AllocError, Global};

/// These numbers in ascending order, each once.
pub fn ascending(alloc: Global, mut numbers: Vec<u32>) -> Result<Vec<u32>, AllocError>
    ensures { IfOk result (λ v. AreAscending (Contains numbers.items) v.items) }
{
    numbers.sort_unstable();
    let once = each_once(alloc, &numbers)?;
    Ok(once)
}

fn each_once(alloc: Global, numbers: &[u32]) -> Result<Vec<u32>, AllocError>
    requires { IsNonDecreasing numbers.now }
    ensures { IfOk result (λ v. AreAscending (Contains numbers.now) v.items) }
{
    let mut once = Vec::new(alloc);
    for number in numbers {
        if !ends_in(&once, *number) {
            once.push(*number)?;
        }
    }
    Ok(once)
}

fn ends_in(numbers: &[u32], number: u32) -> bool
    ensures yes { result ≡ true → Contains numbers.now number }
    ensures no { result ≡ false → 0 < length numbers.now →
        slice_index numbers.now (length numbers.now - 1) ≡ number → ⊥ }
{
    match numbers.last() {
        Some(last) => *last == number,
        None => false,
    }
}
