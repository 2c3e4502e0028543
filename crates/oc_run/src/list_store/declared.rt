//! The fields of a new class.

ghost use Rattle.std.specs.Prelude.{◌≡◌, ◌+◌, ◌<◌, ◌^◌, length, map, IfOk};
ghost use Rattle.oc_model.specs.Maps.{are_distinct};
ghost use Rattle.oc_run.specs.ListStore.{new_fields};

use oc_model::command::Decl;
use oc_model::schema::{FieldDef, Fields};
use std::alloc::{AllocError, Global};
use std::collections::HashSet;

/// Whether no field name is given twice.
pub fn has_distinct_names(alloc: Global, decls: &[Decl]) -> Result<bool, AllocError>
    ensures { IfOk result (λ b. b ≡ are_distinct (map (λ d. d.name) decls.now)) }
{
    let mut later: HashSet<&[u8]> = HashSet::new(alloc);
    for place in (0..decls.len()).rev() {
        if !later.insert(decls[place].name.as_slice())? {
            return Ok(false);
        }
    }
    Ok(true)
}

/// The fields, with ids from this one on.
pub fn new_fields(alloc: Global, first: u32, decls: &[Decl]) -> Result<Fields, AllocError>
    requires { first + length decls.now < 2 ^ 32 }
    ensures { IfOk result (λ fields. fields ≡ new_fields first decls.now) }
{
    let mut fields = Fields::new(alloc);
    let mut id = first;
    for decl in decls {
        fields.push(FieldDef {
            id,
            name: decl.name.copy(alloc)?,
            kind: decl.kind,
            current: true,
            indexed: false,
        })?;
        id += 1;
    }
    Ok(fields)
}
