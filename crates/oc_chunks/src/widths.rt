//! The bytes of the widest entry.

ghost use Rattle.std.specs.Prelude.{map, ◌≤◌};
ghost use Rattle.oc_chunks.specs.Chunks.{joined};
ghost use Rattle.oc_chunks.specs.Cutting.{IsWide};
ghost use Rattle.oc_chunks.specs.Opening.{chunk_read};

use crate::entry::Entry;
use crate::opening::Written;

/// The bytes of the widest entry of the chunks.
pub(crate) fn widest_of<E: Entry>(chunks: &[Written<E>]) -> usize
    ensures { IsWide E.bytes result (joined (map chunk_read chunks.now)) }
{
    let mut widest = 0;
    for chunk in chunks {
        widest = widest_in(chunk.entries.as_slice(), widest);
    }
    widest
}

/// The bytes of the widest of the entries, or these if they are more.
fn widest_in<E: Entry>(entries: &[E], before: usize) -> usize
    ensures wide { IsWide E.bytes result entries.now }
    ensures more { before ≤ result }
{
    let mut widest = before;
    for entry in entries {
        widest = widest.max(entry.len());
    }
    widest
}
