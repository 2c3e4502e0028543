//! A segment read from its bytes.

ghost use Rattle.std.specs.Prelude.{◌≡◌, ◌≤◌, List, length, Err, IfOk, IfSome, IfNone};
ghost use Rattle.std.specs.Int.{w16, to_be_bytes};
ghost use Rattle.oc_marshal.specs.Places.{StandsAt, NothingAt, StandInRow, NoRowAt};
ghost use Rattle.oc_segments.specs.declared.reading.SegmentFault.TheVariants as fault;
ghost use Rattle.oc_segments.specs.Segments.{is_rising, is_size, AreEntries, SpellsSegment};

use crate::items::Item;
use oc_catalog::places::short_at;
use oc_value::Base;
use std::alloc::{AllocError, Global};

/// Why bytes give no segment.
#[derive(Clone, Copy, Debug, PartialEq, Eq)]
pub enum SegmentFault {
    /// The bytes are no segment's.
    NotASegment,
    /// There is no memory for the entries.
    Memory,
}

impl From<AllocError> for SegmentFault {
    ghost use Rattle.std.specs.Prelude.{◌≡◌};
    ghost use Rattle.oc_segments.specs.declared.reading.SegmentFault.TheVariants.{Memory};

    ghost from_gives = { λ _ e. e ≡ Memory };

    fn from(_error: AllocError) -> SegmentFault {
        SegmentFault::Memory
    }
}

/// The entries of the segment whose bytes these are, with nothing behind them. The base kind is the
/// field's, and `None` for the list of all objects.
pub fn read_segment<E: Item>(
    alloc: Global,
    bytes: &[u8],
    base: Option<Base>,
) -> Result<Vec<E>, SegmentFault>
    ensures spelled { IfOk result (λ v. SpellsSegment E.order (E.stands base) (E.spell base) v.items bytes.now) }
    ensures writable { IfOk result (λ v. AreEntries E.order (E.fits base) v.items) }
    ensures only { IfOk result (λ v. (other : List E) → SpellsSegment E.order (E.stands base) (E.spell base) other bytes.now → other ≡ v.items) }
    ensures none { result ≡ Err fault.NotASegment → (entries : List E) → ¬ SpellsSegment E.order (E.stands base) (E.spell base) entries bytes.now }
{
    match segment_in(alloc, bytes, base)? {
        Some(items) => Ok(items),
        None => Err(SegmentFault::NotASegment),
    }
}

fn segment_in<E: Item>(
    alloc: Global,
    bytes: &[u8],
    base: Option<Base>,
) -> Result<Option<Vec<E>>, AllocError>
    ensures spelled { IfOk result (λ f. IfSome f (λ v. SpellsSegment E.order (E.stands base) (E.spell base) v.items bytes.now)) }
    ensures writable { IfOk result (λ f. IfSome f (λ v. AreEntries E.order (E.fits base) v.items)) }
    ensures only { IfOk result (λ f. IfSome f (λ v. (other : List E) → SpellsSegment E.order (E.stands base) (E.spell base) other bytes.now → other ≡ v.items)) }
    ensures none { IfOk result (λ f. IfNone f ((entries : List E) → ¬ SpellsSegment E.order (E.stands base) (E.spell base) entries bytes.now)) }
{
    let Some((count, from)) = size_of(bytes) else {
        return Ok(None);
    };
    let Some((items, to)) = items_at::<E>(alloc, count, bytes, from, base)? else {
        return Ok(None);
    };
    if to < bytes.len() {
        return Ok(None);
    }
    if !ascends(items.as_slice()) {
        return Ok(None);
    }
    Ok(Some(items))
}

// How many entries there are.
fn size_of(bytes: &[u8]) -> Option<(u16, usize)>
    ensures found { IfSome result (λ p. StandsAt is_size (to_be_bytes w16) bytes.now 0 p.0 p.1) }
    ensures none { IfNone result (NothingAt is_size (to_be_bytes w16) bytes.now 0) }
{
    let (count, from) = short_at(bytes, 0)?;
    if count < 1 || count > 512 {
        return None;
    }
    Some((count, from))
}

fn items_at<E: Item>(
    alloc: Global,
    count: u16,
    bytes: &[u8],
    at: usize,
    base: Option<Base>,
) -> Result<Option<(Vec<E>, usize)>, AllocError>
    requires { at ≤ length bytes.now }
    ensures found { IfOk result (λ f. IfSome f (λ p. StandInRow (E.stands base) (E.spell base) bytes.now at (p.0).items p.1)) }
    ensures count { IfOk result (λ f. IfSome f (λ p. length (p.0).items ≡ count)) }
    ensures none { IfOk result (λ f. IfNone f (NoRowAt (E.stands base) (E.spell base) bytes.now at count)) }
{
    let mut items = Vec::new(alloc);
    let mut place = at;
    for _ in 0..count {
        let Some((item, to)) = E::get(alloc, bytes, place, base)? else {
            return Ok(None);
        };
        items.push(item)?;
        place = to;
    }
    Ok(Some((items, place)))
}

fn ascends<E: Item>(items: &[E]) -> bool
    ensures { result ≡ is_rising E.order items.now }
{
    let mut rest = items;
    while let [first, after @ ..] = rest {
        if let [second, ..] = after {
            if !first.before(second) {
                return false;
            }
        }
        rest = after;
    }
    true
}
