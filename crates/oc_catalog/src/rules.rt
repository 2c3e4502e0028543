//! The rules on the lists of a catalog.

ghost use Rattle.std.specs.Prelude.{◌≡◌, ◌∷◌, ◌++◌, nat_le, map, filter, IfOk, OnOk};
ghost use Rattle.std.specs.List.{list_all};
ghost use Rattle.oc_model.specs.Maps.{same};
ghost use Rattle.oc_model.specs.SchemaRules.{are_apart as numbers_are_apart};
ghost use Rattle.oc_catalog.specs.Catalogs.{indexed_ids, list_ids, lists_keep, segments_of};

use crate::catalog::ListEntry;
use oc_schema::{ClassDef, FieldDef};
use std::alloc::{AllocError, Global};
use std::collections::BTreeSet;

/// Whether the lists are those of the classes, by id, and name each segment once.
pub(crate) fn lists_keep_rules(
    alloc: Global,
    classes: &[ClassDef],
    lists: &[ListEntry],
) -> Result<bool, AllocError>
    ensures { IfOk result (λ b. b ≡ lists_keep classes.now lists.now) }
{
    let ids = list_ids(alloc, classes)?;
    let named = ids_of(alloc, lists)?;
    if !are_same(named.as_slice(), ids.as_slice()) {
        return Ok(false);
    }
    let segments = segments_of(alloc, lists)?;
    if !are_from_2(segments.as_slice()) {
        return Ok(false);
    }
    are_apart(alloc, segments.as_slice())
}

fn are_same(a: &[u32], b: &[u32]) -> bool
    ensures { result ≡ same a.now b.now }
{
    a == b
}

/// 0 and the ids of the indexed fields, ascending.
fn list_ids(alloc: Global, classes: &[ClassDef]) -> Result<Vec<u32>, AllocError>
    ensures { IfOk result (λ v. v.items ≡ list_ids classes.now) }
{
    let mut ids = unsorted_ids(alloc, classes)?;
    ids.sort_unstable();
    Ok(ids)
}

fn unsorted_ids(alloc: Global, classes: &[ClassDef]) -> Result<Vec<u32>, AllocError>
    ensures { IfOk result (λ v. v.items ≡ 0 ∷ indexed_ids classes.now) }
{
    let mut ids = Vec::new(alloc);
    ids.push(0)?;
    for class in classes {
        push_indexed(class.fields.as_slice(), &mut ids)?;
    }
    Ok(ids)
}

fn push_indexed(fields: &[FieldDef], ids: &mut Vec<u32>) -> Result<(), AllocError>
    ensures { OnOk result (ids.new.items ≡ ids.old.items ++ map (λ f. f.id) (filter (λ f. f.indexed) fields.now)) }
{
    for field in fields {
        if field.indexed {
            ids.push(field.id)?;
        }
    }
    Ok(())
}

fn ids_of(alloc: Global, lists: &[ListEntry]) -> Result<Vec<u32>, AllocError>
    ensures { IfOk result (λ v. v.items ≡ map (λ l. l.id) lists.now) }
{
    let mut ids = Vec::new(alloc);
    for list in lists {
        ids.push(list.id)?;
    }
    Ok(ids)
}

fn segments_of(alloc: Global, lists: &[ListEntry]) -> Result<Vec<u32>, AllocError>
    ensures { IfOk result (λ v. v.items ≡ segments_of lists.now) }
{
    let mut segments = Vec::new(alloc);
    for list in lists {
        segments.extend_from_slice(list.segments.as_slice())?;
    }
    Ok(segments)
}

fn are_from_2(segments: &[u32]) -> bool
    ensures { result ≡ list_all (nat_le 2) segments.now }
{
    segments.iter().all(|&segment| 2 <= segment)
}

// Whether no number comes twice. The set is a tree, so chosen numbers cost no more than others.
fn are_apart(alloc: Global, numbers: &[u32]) -> Result<bool, AllocError>
    ensures { IfOk result (λ b. b ≡ numbers_are_apart numbers.now) }
{
    let mut later: BTreeSet<u32> = BTreeSet::new(alloc);
    for place in (0..numbers.len()).rev() {
        let number = numbers[place];
        if !later.insert(number)? {
            return Ok(false);
        }
    }
    Ok(true)
}
