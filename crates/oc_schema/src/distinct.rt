//! Whether no name and no number comes twice. The sets are trees, so a chosen name or number costs no more than another.

ghost use Rattle.std.specs.Prelude.{◌≡◌, ◌++◌, map, flat_map, IfOk, OnOk};
ghost use Rattle.oc_model.specs.Maps.{are_distinct};
ghost use Rattle.oc_model.specs.SchemaRules.{are_apart as numbers_are_apart};

use oc_model::schema::{ClassDef, FieldDef};
use std::alloc::{AllocError, Global};
use std::collections::BTreeSet;

/// Whether no two of the fields have one name.
pub fn have_distinct_names(alloc: Global, fields: &[&FieldDef]) -> Result<bool, AllocError>
    ensures { IfOk result (λ b. b ≡ are_distinct (map (λ f. f.now.name) fields.now)) }
{
    let mut later: BTreeSet<&[u8]> = BTreeSet::new(alloc);
    for place in (0..fields.len()).rev() {
        let field: &FieldDef = fields[place];
        if !later.insert(field.name.as_slice())? {
            return Ok(false);
        }
    }
    Ok(true)
}

/// Whether no two of the own fields of the classes have one id.
pub fn have_distinct_ids(alloc: Global, classes: &[ClassDef]) -> Result<bool, AllocError>
    ensures { IfOk result (λ b. b ≡ numbers_are_apart (map (λ f. f.id) (flat_map (λ c. c.fields) classes.now))) }
{
    let mut ids = Vec::new(alloc);
    for class in classes {
        push_ids(class.fields.as_slice(), &mut ids)?;
    }
    let apart = are_apart(alloc, ids.as_slice())?;
    Ok(apart)
}

fn push_ids(fields: &[FieldDef], ids: &mut Vec<u32>) -> Result<(), AllocError>
    ensures { OnOk result (ids.new.items ≡ ids.old.items ++ map (λ f. f.id) fields.now) }
{
    for field in fields {
        ids.push(field.id)?;
    }
    Ok(())
}

/// Whether no number comes twice.
fn are_apart(alloc: Global, numbers: &[u32]) -> Result<bool, AllocError>
    ensures { IfOk result (λ b. b ≡ numbers_are_apart numbers.now) }
{
    let mut later: BTreeSet<u32> = BTreeSet::new(alloc);
    for place in (0..numbers.len()).rev() {
        let number = numbers[place];
        if !later.insert(number)? {
            return Ok(false);
        }
    }
    Ok(true)
}
