//! Entries of segments.

ghost use Rattle.std.specs.Prelude.{◌≡◌, ◌≤◌, ◌++◌, Bool, List, ℕ, Option, None, Some, length, IsTrue, IfOk, OnOk, IfSome, IfNone};
ghost use Rattle.std.specs.Ordering.{is_lt};
ghost use Rattle.oc_model.specs.declared.value.Base.{Base as BaseOf};
ghost use Rattle.oc_model.specs.Spelling.{Tells};
ghost use Rattle.oc_marshal.specs.Places.{StandsAt, NothingAt};
ghost use Rattle.oc_segments.specs.Items.{extent_fits, extent_spelling, index_spelling, index_stands};

use crate::atoms::{atom_at, put_atom};
use oc_catalog::places::word_at;
use oc_chunks::Entry;
use oc_index::{ExtentItem, IndexItem};
use oc_value::Base;
use std::alloc::{AllocError, Global};

/// An entry of a list in segments. A base kind is the field's, and `None` for the list of all objects.
pub trait Item: Entry {
    ghost fits: { Option BaseOf → Self → Bool };

    ghost stands: { Option BaseOf → Self → Bool };

    ghost spell: { Option BaseOf → Self → List ℕ };

    /// Whether it stands before the other one in a list.
    fn before(&self, other: &Self) -> bool
        ensures { result ≡ is_lt (Self.order self.now other.now) };

    /// Appends its bytes.
    fn put(&self, base: Option<Base>, out: &mut Vec<u8>) -> Result<(), AllocError>
        requires { IsTrue (fits base self.now) }
        ensures { OnOk result (out.new.items ≡ out.old.items ++ spell base self.now) };

    /// The entry whose bytes begin at the place, and the place behind them.
    fn get(
        alloc: Global,
        bytes: &[u8],
        at: usize,
        base: Option<Base>,
    ) -> Result<Option<(Self, usize)>, AllocError>
        requires { at ≤ length bytes.now }
        ensures found { IfOk result (λ f. IfSome f (λ p. StandsAt (stands base) (spell base) bytes.now at p.0 p.1)) }
        ensures none { IfOk result (λ f. IfNone f (NothingAt (stands base) (spell base) bytes.now at)) };

    ghost writable: { (b : Option BaseOf) (x : Self) → IsTrue (stands b x) → IsTrue (fits b x) };

    ghost told: { (b : Option BaseOf) → Tells (λ x. IsTrue (stands b x)) (spell b) };
}

impl Item for ExtentItem {
    ghost use Rattle.oc_segments.specs.Items.{extent_fits, extent_spelling};
    ghost use Rattle.oc_segments.specs.Telling.{extents_tell};

    ghost fits = { extent_fits };

    ghost stands = { extent_fits };

    ghost spell = { extent_spelling };

    fn before(&self, other: &Self) -> bool {
        self.number < other.number
    }

    fn put(&self, _base: Option<Base>, out: &mut Vec<u8>) -> Result<(), AllocError> {
        out.extend_from_slice(&self.number.to_be_bytes())?;
        out.extend_from_slice(&self.class.to_be_bytes())?;
        Ok(())
    }

    fn get(
        _alloc: Global,
        bytes: &[u8],
        at: usize,
        base: Option<Base>,
    ) -> Result<Option<(Self, usize)>, AllocError> {
        match base {
            None => Ok(extent_at(bytes, at)),
            Some(_) => Ok(None),
        }
    }

    ghost writable = { λ _ _ stands. stands };

    ghost told = { extents_tell };
}

fn extent_at(bytes: &[u8], at: usize) -> Option<(ExtentItem, usize)>
    requires { at ≤ length bytes.now }
    ensures found { IfSome result (λ p. StandsAt (extent_fits None) (extent_spelling None) bytes.now at p.0 p.1) }
    ensures none { IfNone result (NothingAt (extent_fits None) (extent_spelling None) bytes.now at) }
{
    let (number, from) = word_at(bytes, at)?;
    let (class, to) = word_at(bytes, from)?;
    Some((ExtentItem { number, class }, to))
}

impl Item for IndexItem {
    ghost use Rattle.oc_segments.specs.Items.{index_fits, index_spelling, index_stands};
    ghost use Rattle.oc_segments.specs.Telling.{index_writable, indexes_tell};

    ghost fits = { index_fits };

    ghost stands = { index_stands };

    ghost spell = { index_spelling };

    fn before(&self, other: &Self) -> bool {
        self.compare(other).is_lt()
    }

    fn put(&self, base: Option<Base>, out: &mut Vec<u8>) -> Result<(), AllocError> {
        let Some(base) = base else { unreachable!() };
        put_atom(out, base, &self.key)?;
        out.extend_from_slice(&self.number.to_be_bytes())?;
        Ok(())
    }

    fn get(
        alloc: Global,
        bytes: &[u8],
        at: usize,
        base: Option<Base>,
    ) -> Result<Option<(Self, usize)>, AllocError> {
        match base {
            None => Ok(None),
            Some(base) => indexed_at(alloc, base, bytes, at),
        }
    }

    ghost writable = { index_writable };

    ghost told = { indexes_tell };
}

fn indexed_at(
    alloc: Global,
    base: Base,
    bytes: &[u8],
    at: usize,
) -> Result<Option<(IndexItem, usize)>, AllocError>
    requires { at ≤ length bytes.now }
    ensures found { IfOk result (λ f. IfSome f (λ p. StandsAt (index_stands (Some base)) (index_spelling (Some base)) bytes.now at p.0 p.1)) }
    ensures none { IfOk result (λ f. IfNone f (NothingAt (index_stands (Some base)) (index_spelling (Some base)) bytes.now at)) }
{
    let Some((key, from)) = atom_at(alloc, base, bytes, at)? else {
        return Ok(None);
    };
    let Some((number, to)) = word_at(bytes, from) else {
        return Ok(None);
    };
    Ok(Some((IndexItem { key, number }, to)))
}
