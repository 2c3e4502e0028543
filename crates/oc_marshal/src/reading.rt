//! Values, entries and records read from their bytes.

ghost use Rattle.std.specs.Prelude.{◌≡◌, ◌≤◌, length, Err, IfOk, IfSome, IfNone};
ghost use Rattle.std.specs.Int.{w16, w32, to_be_bytes};
ghost use Rattle.oc_model.specs.declared.value.Rec.{Rec as RecOf};
ghost use Rattle.oc_model.specs.declared.value.Base.TheVariants as base;
ghost use Rattle.oc_marshal.specs.declared.reading.DecodeFault.TheVariants as fault;
ghost use Rattle.oc_marshal.specs.Spelling.{atom_bytes, counted, entry_bytes, value_bytes, is_id};
ghost use Rattle.oc_marshal.specs.Places.{StandsAt, NothingAt, StandInRow, NoRowAt, any, is_optional, is_pair, is_short, optional_bytes, pair_bytes};
ghost use Rattle.oc_marshal.specs.Records.{are_items, is_ascending, is_atom, is_entry, is_string, is_value, kind_bytes, string_bytes, SpellsRecord, IsWhole};

use crate::places::{flag_at, kind_at, number_at, short_at, string_at, word_at};
use oc_model::laws_spelling::record_bytes_tell;
use oc_value::{Atom, Atoms, Base, Entries, Entry, Kind, Rec, Txt, Value};
use std::alloc::{AllocError, Global};

/// Why bytes give no record.
#[derive(Clone, Copy, Debug, PartialEq, Eq)]
pub enum DecodeFault {
    /// The bytes are no record's.
    NotARecord,
    /// There is no memory for the record.
    Memory,
}

impl From<AllocError> for DecodeFault {
    ghost use Rattle.std.specs.Prelude.{◌≡◌};
    ghost use Rattle.oc_marshal.specs.declared.reading.DecodeFault.TheVariants.{Memory};

    ghost from_gives = { λ _ e. e ≡ Memory };

    fn from(_error: AllocError) -> DecodeFault {
        DecodeFault::Memory
    }
}

/// The record whose bytes these are, with nothing behind them.
pub fn decode(alloc: Global, bytes: &[u8]) -> Result<Rec, DecodeFault>
    ensures spelled { IfOk result (λ r. SpellsRecord r bytes.now) }
    ensures only { IfOk result (λ r. (other : RecOf) → SpellsRecord other bytes.now → other ≡ r) }
    ensures none { result ≡ Err fault.NotARecord → (r : RecOf) → ¬ SpellsRecord r bytes.now }
{
    match record_in(alloc, bytes)? {
        Some(rec) => Ok(rec),
        None => Err(DecodeFault::NotARecord),
    }
}

fn record_in(alloc: Global, bytes: &[u8]) -> Result<Option<Rec>, AllocError>
    ensures spelled { IfOk result (λ found. IfSome found (λ r. SpellsRecord r bytes.now)) }
    ensures only { IfOk result (λ found. IfSome found (λ r. (other : RecOf) → SpellsRecord other bytes.now → other ≡ r)) }
    ensures none { IfOk result (λ found. IfNone found ((r : RecOf) → ¬ SpellsRecord r bytes.now)) }
{
    record_bytes_tell();
    let Some((class, count, from)) = head_of(bytes) else {
        return Ok(None);
    };
    let Some((entries, to)) = entries_at(alloc, count, bytes, from)? else {
        return Ok(None);
    };
    if to < bytes.len() {
        return Ok(None);
    }
    if !ascends(entries.as_slice()) {
        return Ok(None);
    }
    Ok(Some(Rec {
        class,
        entries: Entries::from_vec(entries),
    }))
}

// The class and how many entries there are.
fn head_of(bytes: &[u8]) -> Option<(u32, u16, usize)>
    ensures found { IfSome result (λ p. StandsAt (is_pair is_id is_short) (pair_bytes (to_be_bytes w32) (to_be_bytes w16)) bytes.now 0 (p.0, p.1) p.2) }
    ensures none { IfNone result (NothingAt (is_pair is_id is_short) (pair_bytes (to_be_bytes w32) (to_be_bytes w16)) bytes.now 0) }
{
    let (class, from) = id_at(bytes, 0)?;
    let (count, to) = short_at(bytes, from)?;
    Some((class, count, to))
}

fn id_at(bytes: &[u8], at: usize) -> Option<(u32, usize)>
    requires { at ≤ length bytes.now }
    ensures found { IfSome result (λ p. StandsAt is_id (to_be_bytes w32) bytes.now at p.0 p.1) }
    ensures none { IfNone result (NothingAt is_id (to_be_bytes w32) bytes.now at) }
{
    let (id, to) = word_at(bytes, at)?;
    if id == 0 {
        return None;
    }
    Some((id, to))
}

fn ascends(entries: &[Entry]) -> bool
    ensures { result ≡ is_ascending entries.now }
{
    let mut rest = entries;
    while let [first, after @ ..] = rest {
        if let [second, ..] = after {
            if first.id >= second.id {
                return false;
            }
        }
        rest = after;
    }
    true
}

fn entries_at(
    alloc: Global,
    count: u16,
    bytes: &[u8],
    at: usize,
) -> Result<Option<(Vec<Entry>, usize)>, AllocError>
    requires { at ≤ length bytes.now }
    ensures found { IfOk result (λ f. IfSome f (λ p. StandInRow is_entry entry_bytes bytes.now at (p.0).items p.1)) }
    ensures count { IfOk result (λ f. IfSome f (λ p. length (p.0).items ≡ count)) }
    ensures none { IfOk result (λ f. IfNone f (NoRowAt is_entry entry_bytes bytes.now at count)) }
{
    record_bytes_tell();
    let mut entries = Vec::new(alloc);
    let mut place = at;
    for _ in 0..count {
        let Some((entry, to)) = entry_at(alloc, bytes, place)? else {
            return Ok(None);
        };
        entries.push(entry)?;
        place = to;
    }
    Ok(Some((entries, place)))
}

fn entry_at(alloc: Global, bytes: &[u8], at: usize) -> Result<Option<(Entry, usize)>, AllocError>
    requires { at ≤ length bytes.now }
    ensures found { IfOk result (λ f. IfSome f (λ p. StandsAt is_entry entry_bytes bytes.now at p.0 p.1)) }
    ensures none { IfOk result (λ f. IfNone f (NothingAt is_entry entry_bytes bytes.now at)) }
{
    let Some((id, kind, from)) = label_at(bytes, at) else {
        return Ok(None);
    };
    let Some((value, to)) = value_at(alloc, kind, bytes, from)? else {
        return Ok(None);
    };
    Ok(Some((Entry { id, value, kind }, to)))
}

// The id and the kind of an entry.
fn label_at(bytes: &[u8], at: usize) -> Option<(u32, Kind, usize)>
    requires { at ≤ length bytes.now }
    ensures found { IfSome result (λ p. StandsAt (is_pair is_id any) (pair_bytes (to_be_bytes w32) kind_bytes) bytes.now at (p.0, p.1) p.2) }
    ensures none { IfNone result (NothingAt (is_pair is_id any) (pair_bytes (to_be_bytes w32) kind_bytes) bytes.now at) }
{
    let (id, from) = id_at(bytes, at)?;
    let (kind, to) = kind_at(bytes, from)?;
    Some((id, kind, to))
}

fn value_at(
    alloc: Global,
    kind: Kind,
    bytes: &[u8],
    at: usize,
) -> Result<Option<(Value, usize)>, AllocError>
    requires { at ≤ length bytes.now }
    ensures found { IfOk result (λ f. IfSome f (λ p. StandsAt (is_value kind) (value_bytes kind) bytes.now at p.0 p.1)) }
    ensures none { IfOk result (λ f. IfNone f (NothingAt (is_value kind) (value_bytes kind) bytes.now at)) }
{
    match kind {
        Kind::One(base) => {
            let Some((atom, to)) = atom_at(alloc, base, bytes, at)? else {
                return Ok(None);
            };
            Ok(Some((Value::One(atom), to)))
        }
        Kind::Many(base) => {
            let Some((atoms, to)) = array_at(alloc, base, bytes, at)? else {
                return Ok(None);
            };
            Ok(Some((Value::Many(atoms), to)))
        }
    }
}

fn array_at(
    alloc: Global,
    base: Base,
    bytes: &[u8],
    at: usize,
) -> Result<Option<(Option<Atoms>, usize)>, AllocError>
    requires { at ≤ length bytes.now }
    ensures found { IfOk result (λ f. IfSome f (λ p. StandsAt (is_optional (are_items base)) (optional_bytes (counted w32 (atom_bytes base))) bytes.now at p.0 p.1)) }
    ensures none { IfOk result (λ f. IfNone f (NothingAt (is_optional (are_items base)) (optional_bytes (counted w32 (atom_bytes base))) bytes.now at)) }
{
    let Some((is_some, from)) = flag_at(bytes, at) else {
        return Ok(None);
    };
    if !is_some {
        return Ok(Some((None, from)));
    }
    let Some((atoms, to)) = items_at(alloc, base, bytes, from)? else {
        return Ok(None);
    };
    Ok(Some((Some(Atoms::from_vec(atoms)), to)))
}

// How many elements there are, and the elements.
fn items_at(
    alloc: Global,
    base: Base,
    bytes: &[u8],
    at: usize,
) -> Result<Option<(Vec<Atom>, usize)>, AllocError>
    requires { at ≤ length bytes.now }
    ensures found { IfOk result (λ f. IfSome f (λ p. StandsAt (are_items base) (counted w32 (atom_bytes base)) bytes.now at (p.0).items p.1)) }
    ensures none { IfOk result (λ f. IfNone f (NothingAt (are_items base) (counted w32 (atom_bytes base)) bytes.now at)) }
{
    let Some((count, from)) = word_at(bytes, at) else {
        return Ok(None);
    };
    atoms_at(alloc, base, count, bytes, from)
}

fn atoms_at(
    alloc: Global,
    base: Base,
    count: u32,
    bytes: &[u8],
    at: usize,
) -> Result<Option<(Vec<Atom>, usize)>, AllocError>
    requires { at ≤ length bytes.now }
    ensures found { IfOk result (λ f. IfSome f (λ p. StandInRow (is_atom base) (atom_bytes base) bytes.now at (p.0).items p.1)) }
    ensures count { IfOk result (λ f. IfSome f (λ p. length (p.0).items ≡ count)) }
    ensures none { IfOk result (λ f. IfNone f (NoRowAt (is_atom base) (atom_bytes base) bytes.now at count)) }
{
    record_bytes_tell();
    let mut atoms = Vec::new(alloc);
    let mut place = at;
    for _ in 0..count {
        let Some((atom, to)) = atom_at(alloc, base, bytes, place)? else {
            return Ok(None);
        };
        atoms.push(atom)?;
        place = to;
    }
    Ok(Some((atoms, place)))
}

// A single value of the kind.
fn atom_at(
    alloc: Global,
    base: Base,
    bytes: &[u8],
    at: usize,
) -> Result<Option<(Atom, usize)>, AllocError>
    requires { at ≤ length bytes.now }
    ensures found { IfOk result (λ f. IfSome f (λ p. StandsAt (is_atom base) (atom_bytes base) bytes.now at p.0 p.1)) }
    ensures none { IfOk result (λ f. IfNone f (NothingAt (is_atom base) (atom_bytes base) bytes.now at)) }
{
    match base {
        Base::Text => {
            let Some((text, to)) = text_at(alloc, bytes, at)? else {
                return Ok(None);
            };
            Ok(Some((Atom::Text(text), to)))
        }
        Base::Bool => Ok(truth_at(bytes, at)),
        Base::Ref => Ok(reference_at(bytes, at)),
        Base::I8 | Base::I16 | Base::I32 | Base::I64 | Base::U64 | Base::I128 => {
            Ok(whole_at(base, bytes, at))
        }
    }
}

fn truth_at(bytes: &[u8], at: usize) -> Option<(Atom, usize)>
    requires { at ≤ length bytes.now }
    ensures found { IfSome result (λ p. StandsAt (is_atom base.Bool) (atom_bytes base.Bool) bytes.now at p.0 p.1) }
    ensures none { IfNone result (NothingAt (is_atom base.Bool) (atom_bytes base.Bool) bytes.now at) }
{
    let (truth, to) = flag_at(bytes, at)?;
    Some((Atom::Bool(truth), to))
}

fn whole_at(base: Base, bytes: &[u8], at: usize) -> Option<(Atom, usize)>
    requires whole { IsWhole base }
    requires there { at ≤ length bytes.now }
    ensures found { IfSome result (λ p. StandsAt (is_atom base) (atom_bytes base) bytes.now at p.0 p.1) }
    ensures none { IfNone result (NothingAt (is_atom base) (atom_bytes base) bytes.now at) }
{
    let (number, to) = number_at(base, bytes, at)?;
    Some((Atom::Int(number), to))
}

#[tactic(auto, using(crate::proofs::Readings::no_reference))]
fn reference_at(bytes: &[u8], at: usize) -> Option<(Atom, usize)>
    requires { at ≤ length bytes.now }
    ensures found { IfSome result (λ p. StandsAt (is_atom base.Ref) (atom_bytes base.Ref) bytes.now at p.0 p.1) }
    ensures none { IfNone result (NothingAt (is_atom base.Ref) (atom_bytes base.Ref) bytes.now at) }
{
    let (number, to) = word_at(bytes, at)?;
    if number > 2_147_483_646 {
        return None;
    }
    Some((Atom::Ref(u64::from(number)), to))
}

#[tactic(auto, using(crate::proofs::Parts::no_flag))]
fn text_at(
    alloc: Global,
    bytes: &[u8],
    at: usize,
) -> Result<Option<(Option<Txt>, usize)>, AllocError>
    requires { at ≤ length bytes.now }
    ensures found { IfOk result (λ f. IfSome f (λ p. StandsAt (is_optional is_string) (optional_bytes string_bytes) bytes.now at p.0 p.1)) }
    ensures none { IfOk result (λ f. IfNone f (NothingAt (is_optional is_string) (optional_bytes string_bytes) bytes.now at)) }
{
    let Some((is_some, from)) = flag_at(bytes, at) else {
        return Ok(None);
    };
    if !is_some {
        return Ok(Some((None, from)));
    }
    let Some((text, to)) = string_at(alloc, bytes, from)? else {
        return Ok(None);
    };
    Ok(Some((Some(text), to)))
}
