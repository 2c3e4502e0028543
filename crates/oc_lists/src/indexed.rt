//! The indexed fields of a class.

ghost use Rattle.std.specs.Prelude.{◌≡◌, ◌++◌, map, filter, true, IfOk, OnOk};
ghost use Rattle.oc_model.specs.Schemas.{current, fields_of};
ghost use Rattle.oc_model.specs.SchemaRules.{keeps_rules};
ghost use Rattle.oc_lists.specs.Refiling.{indexed_in};

use oc_schema::{FieldDef, Schema};
use std::alloc::{AllocError, Global};

/// The fields of an object of this class that have an index: those of the ancestors, and then the
/// class's own.
pub fn indexed_of<'a>(
    alloc: Global,
    schema: &'a Schema,
    class: u32,
) -> Result<Vec<&'a FieldDef>, AllocError>
    ensures { IfOk result (λ v. map (λ f. f.now) v.items ≡ indexed_in schema.now class) }
{
    schema.keeps_rules();
    let mut fields = Vec::new(alloc);
    push_indexed(schema, class, &mut fields)?;
    Ok(fields)
}

#[tactic(auto, using(crate::proofs::ClassFields::smaller_parent, crate::proofs::ClassFields::indexed_pushed, crate::proofs::ClassFields::no_class_pushed))]
fn push_indexed<'a>(
    schema: &'a Schema,
    number: u32,
    fields: &mut Vec<&'a FieldDef>,
) -> Result<(), AllocError>
    requires { keeps_rules schema.now ≡ true }
    ensures { OnOk result (map (λ f. f.now) fields.new.items ≡ map (λ f. f.now) fields.old.items ++ filter (λ f. f.indexed) (fields_of schema.now number)) }
{
    let Some(class) = schema.class(number) else {
        return Ok(());
    };
    push_indexed(schema, class.parent, fields)?;
    push_own(class.fields.as_slice(), fields)?;
    Ok(())
}

// The indexed ones of a class's own current fields.
fn push_own<'a>(own: &'a [FieldDef], fields: &mut Vec<&'a FieldDef>) -> Result<(), AllocError>
    ensures { OnOk result (map (λ f. f.now) fields.new.items ≡ map (λ f. f.now) fields.old.items ++ filter (λ f. f.indexed) (current own.now)) }
{
    for field in own {
        if field.current && field.indexed {
            fields.push(field)?;
        }
    }
    Ok(())
}
