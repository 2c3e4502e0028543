//! A catalog read from its bytes.

ghost use Rattle.std.specs.Prelude.{◌≡◌, Err, IfOk, IfSome, IfNone};
ghost use Rattle.oc_marshal.specs.Places.{StandsAt, NothingAt};
ghost use Rattle.oc_catalog.specs.declared.catalog.Catalog.{Catalog as CatalogOf};
ghost use Rattle.oc_catalog.specs.declared.reading.Draft.{Draft as DraftOf};
ghost use Rattle.oc_catalog.specs.declared.reading.CatalogFault.TheVariants as fault;
ghost use Rattle.oc_catalog.specs.Catalogs.{SpellsCatalog};
ghost use Rattle.oc_catalog.specs.Drafts.{head_bytes, is_head, SpellsDraft};

use crate::catalog::{Catalog, ListEntry, Lists};
use crate::parts::{few_at, many_at};
use crate::places::word_at;
use crate::rules::lists_keep_rules;
use oc_schema::{ClassDef, Classes, Schema};
use std::alloc::{AllocError, Global};

/// Why bytes give no catalog.
#[derive(Clone, Copy, Debug, PartialEq, Eq)]
pub enum CatalogFault {
    /// The bytes are no catalog's.
    NotACatalog,
    /// There is no memory for the catalog.
    Memory,
}

impl From<AllocError> for CatalogFault {
    ghost use Rattle.std.specs.Prelude.{◌≡◌};
    ghost use Rattle.oc_catalog.specs.declared.reading.CatalogFault.TheVariants.{Memory};

    ghost from_gives = { λ _ e. e ≡ Memory };

    fn from(_error: AllocError) -> CatalogFault {
        CatalogFault::Memory
    }
}

/// The catalog whose bytes these are, with nothing behind them.
pub fn read_catalog(alloc: Global, bytes: &[u8]) -> Result<Catalog, CatalogFault>
    ensures spelled { IfOk result (λ c. SpellsCatalog c bytes.now) }
    ensures only { IfOk result (λ c. (other : CatalogOf) → SpellsCatalog other bytes.now → other ≡ c) }
    ensures none { result ≡ Err fault.NotACatalog → (c : CatalogOf) → ¬ SpellsCatalog c bytes.now }
{
    match catalog_in(alloc, bytes)? {
        Some(catalog) => Ok(catalog),
        None => Err(CatalogFault::NotACatalog),
    }
}

fn catalog_in(alloc: Global, bytes: &[u8]) -> Result<Option<Catalog>, AllocError>
    ensures spelled { IfOk result (λ found. IfSome found (λ c. SpellsCatalog c bytes.now)) }
    ensures only { IfOk result (λ found. IfSome found (λ c. (other : CatalogOf) → SpellsCatalog other bytes.now → other ≡ c)) }
    ensures none { IfOk result (λ found. IfNone found ((c : CatalogOf) → ¬ SpellsCatalog c bytes.now)) }
{
    let Some(draft) = draft_in(alloc, bytes)? else {
        return Ok(None);
    };
    if !lists_keep_rules(alloc, draft.classes.as_slice(), draft.lists.as_slice())? {
        return Ok(None);
    }
    let Some(schema) = Schema::of(alloc, draft.classes, draft.next_field)? else {
        return Ok(None);
    };
    Ok(Some(Catalog {
        next: draft.next,
        schema,
        lists: draft.lists,
    }))
}

// The parts of a catalog, before its classes and lists are judged.
#[derive(Drop)]
struct Draft {
    next: u32,
    next_field: u32,
    classes: Classes,
    lists: Lists,
}

fn draft_in(alloc: Global, bytes: &[u8]) -> Result<Option<Draft>, AllocError>
    ensures spelled { IfOk result (λ found. IfSome found (λ d. SpellsDraft d bytes.now)) }
    ensures only { IfOk result (λ found. IfSome found (λ d. (other : DraftOf) → SpellsDraft other bytes.now → other ≡ d)) }
    ensures none { IfOk result (λ found. IfNone found ((d : DraftOf) → ¬ SpellsDraft d bytes.now)) }
{
    let Some((next, next_field, from)) = head_of(bytes) else {
        return Ok(None);
    };
    let Some((classes, mid)) = few_at::<ClassDef>(alloc, bytes, from)? else {
        return Ok(None);
    };
    let Some((lists, to)) = many_at::<ListEntry>(alloc, bytes, mid)? else {
        return Ok(None);
    };
    if to < bytes.len() {
        return Ok(None);
    }
    Ok(Some(Draft {
        next,
        next_field,
        classes,
        lists,
    }))
}

// The numbers that the next object and the next field get.
fn head_of(bytes: &[u8]) -> Option<(u32, u32, usize)>
    ensures found { IfSome result (λ p. StandsAt is_head head_bytes bytes.now 0 (p.0, p.1) p.2) }
    ensures none { IfNone result (NothingAt is_head head_bytes bytes.now 0) }
{
    let [1, ..] = bytes else {
        return None;
    };
    let (next, from) = word_at(bytes, 1)?;
    if next < 1 || next > 2_147_483_647 {
        return None;
    }
    let (next_field, to) = word_at(bytes, from)?;
    Some((next, next_field, to))
}
