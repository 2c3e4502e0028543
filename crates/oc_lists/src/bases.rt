//! The kinds of the values of indexed fields.

ghost use Rattle.std.specs.Prelude.{◌≡◌, ◌++◌, ℕ, map, filter, Some, is_some, IsSome, IfOk, OnOk, IfSome};
ghost use Rattle.std.specs.Ordering.{nat_cmp};
ghost use Rattle.std.specs.BTreeMap.{get};
ghost use Rattle.oc_model.specs.declared.value.Base.{Base as BaseOf};
ghost use Rattle.oc_model.specs.Lists.{IsOneOf};
ghost use Rattle.oc_model.specs.Schemas.{class_at};
ghost use Rattle.oc_model.specs.Stores.{base_of as base_in};
ghost use Rattle.oc_lists.specs.Following.{has_index};
ghost use Rattle.oc_lists.specs.Lists.{bases_in};

use oc_schema::{FieldDef, Schema};
use oc_value::{Base, Kind};
use std::alloc::{AllocError, Global};
use std::collections::BTreeMap;

/// The indexed fields by their ids, each with the kind of its values.
pub fn bases_of(alloc: Global, schema: &Schema) -> Result<BTreeMap<u32, Base>, AllocError>
    ensures right { IfOk result (λ m. (id : ℕ) (b : BaseOf) → get nat_cmp m id ≡ Some b → IsOneOf (id, b) (bases_in schema.now)) }
    ensures there { IfOk result (λ m. (id : ℕ) (b : BaseOf) → IsOneOf (id, b) (bases_in schema.now) → IsSome (get nat_cmp m id)) }
    ensures keys { IfOk result (λ m. (id : ℕ) → is_some (get nat_cmp m id) ≡ has_index schema.now id) }
{
    let pairs = pairs_of(alloc, schema)?;
    let mut bases = BTreeMap::new(alloc);
    for (id, base) in &pairs {
        bases.insert(*id, *base)?;
    }
    Ok(bases)
}

// The indexed fields in the order of the classes.
pub(crate) fn pairs_of(alloc: Global, schema: &Schema) -> Result<Vec<(u32, Base)>, AllocError>
    ensures { IfOk result (λ v. v.items ≡ bases_in schema.now) }
{
    let mut pairs = Vec::new(alloc);
    for place in 0..schema.len() {
        push_class(schema, place + 1, &mut pairs)?;
    }
    Ok(pairs)
}

fn push_class(schema: &Schema, number: u32, pairs: &mut Vec<(u32, Base)>) -> Result<(), AllocError>
    requires { IsSome (class_at schema.now number) }
    ensures { OnOk result (IfSome (class_at schema.now number) (λ c. pairs.new.items ≡ pairs.old.items ++ map (λ f. (f.id, base_in f.kind)) (filter (λ f. f.indexed) c.fields))) }
{
    let Some(class) = schema.class(number) else {
        unreachable!()
    };
    push_fields(class.fields.as_slice(), pairs)
}

fn push_fields(fields: &[FieldDef], pairs: &mut Vec<(u32, Base)>) -> Result<(), AllocError>
    ensures { OnOk result (pairs.new.items ≡ pairs.old.items ++ map (λ f. (f.id, base_in f.kind)) (filter (λ f. f.indexed) fields.now)) }
{
    for field in fields {
        if field.indexed {
            pairs.push((field.id, base_of(field.kind)))?;
        }
    }
    Ok(())
}

// The kind of a single value, or of an array's elements.
fn base_of(kind: Kind) -> Base
    ensures { result ≡ base_in kind }
{
    match kind {
        Kind::One(base) | Kind::Many(base) => base,
    }
}
