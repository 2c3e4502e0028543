//! What a list in chunks asks of its entries, and places in their order.

ghost use Rattle.std.specs.Prelude.{◌≡◌, ◌⊎◌, ℕ, ◌≤◌, IfOk};
ghost use Rattle.std.specs.Cmp.{IsTotalOrder};
ghost use Rattle.std.specs.declared.cmp.Ordering.{Ordering as OrderingOf};
ghost use Rattle.std.specs.declared.cmp.Ordering.TheVariants.{Less, Greater};

use std::alloc::{AllocError, Global};
use std::cmp::Ordering;

/// An entry of a list in chunks.
pub trait Entry: Drop {
    ghost order: { Self → Self → OrderingOf };

    ghost bytes: { Self → ℕ };

    ghost MOST: { ℕ };

    /// How many entries a chunk has at most once a change has cut it.
    const MOST: usize;

    /// The order of the list.
    fn compare(&self, other: &Self) -> Ordering
        ensures { result ≡ order self.now other.now };

    /// The bytes that the entry takes in a segment.
    fn len(&self) -> usize
        ensures { result ≡ bytes self.now };

    /// The same entry once more.
    fn copy(&self, alloc: Global) -> Result<Self, AllocError>
        ensures { IfOk result (λ e. e ≡ self.now) };

    ghost total: { IsTotalOrder order };

    ghost few: { MOST ≤ 512 };
}

/// A place in the order of the entries.
pub trait Cut<E: Entry> {
    ghost side: { Self → E → OrderingOf };

    /// Less for an entry before the place, greater for one behind it, equal for the entry there.
    fn side(&self, entry: &E) -> Ordering
        ensures { result ≡ side self.now entry.now };

    ghost parts: { (s : Self) (x y : E) → E.order x y ≡ Less → (side s x ≡ Less) ⊎ (side s y ≡ Greater) };
}

/// The place of an entry.
#[derive(Drop)]
pub struct At<'a, E> {
    pub entry: &'a E,
}

impl<'a, E: Entry> Cut<E> for At<'a, E> {
    ghost use Rattle.oc_chunks.specs.Places.{at_parts};

    ghost side = { λ s e. E.order e s.entry.now };

    fn side(&self, entry: &E) -> Ordering {
        entry.compare(self.entry)
    }

    ghost parts = { λ s x y below. at_parts E.order E.total s.entry.now x y below };
}
