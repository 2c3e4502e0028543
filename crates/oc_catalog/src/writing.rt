//! A catalog as its bytes.

ghost use Rattle.std.specs.Prelude.{◌≡◌, ◌++◌, is_some, true, IsTrue, IfOk, OnOk, IfSome};
ghost use Rattle.std.specs.List.{list_all};
ghost use Rattle.std.specs.Int.{w16};
ghost use Rattle.oc_model.specs.Schemas.{class_at};
ghost use Rattle.oc_model.specs.Spelling.{class_bytes, counted};
ghost use Rattle.oc_catalog.specs.Drafts.{are_few, head_bytes, is_class};
ghost use Rattle.oc_catalog.specs.Catalogs.{AreLists, IsNext, SpellsCatalog};

use crate::catalog::{Catalog, ListEntry};
use crate::parts::{Part, write_many};
use oc_schema::Schema;
use std::alloc::{AllocError, Global};

/// The bytes of a catalog whose next number is 1 to 2,147,483,647 and whose lists are those of its
/// schema.
pub fn write_catalog(alloc: Global, catalog: &Catalog) -> Result<Vec<u8>, AllocError>
    requires next { IsNext catalog.now.next }
    requires lists { AreLists catalog.now.schema catalog.now.lists }
    ensures { IfOk result (λ v. SpellsCatalog catalog.now v.items) }
{
    write_catalog_of(
        alloc,
        catalog.next,
        &catalog.schema,
        catalog.lists.as_slice(),
    )
}

/// The bytes of the catalog of this next number, this schema and these lists.
pub fn write_catalog_of(
    alloc: Global,
    next: u32,
    schema: &Schema,
    lists: &[ListEntry],
) -> Result<Vec<u8>, AllocError>
    requires next { IsNext next }
    requires lists { AreLists schema.now lists.now }
    ensures { IfOk result (λ v. SpellsCatalog (record { next = next; schema = schema.now; lists = lists.now }) v.items) }
{
    schema.keeps_rules();
    let mut out = Vec::new(alloc);
    write_head(next, schema.next_field(), &mut out)?;
    write_classes(schema, &mut out)?;
    write_many(lists, &mut out)?;
    Ok(out)
}

fn write_head(next: u32, next_field: u32, out: &mut Vec<u8>) -> Result<(), AllocError>
    ensures { OnOk result (out.new.items ≡ out.old.items ++ head_bytes (next, next_field)) }
{
    out.push(1)?;
    out.extend_from_slice(&next.to_be_bytes())?;
    out.extend_from_slice(&next_field.to_be_bytes())?;
    Ok(())
}

#[tactic(auto, using(crate::proofs::Numbered::class_there))]
fn write_classes(schema: &Schema, out: &mut Vec<u8>) -> Result<(), AllocError>
    requires { IsTrue (are_few is_class schema.now.classes) }
    ensures { OnOk result (out.new.items ≡ out.old.items ++ counted w16 class_bytes schema.now.classes) }
{
    let count = schema.len() as u16;
    out.extend_from_slice(&count.to_be_bytes())?;
    for place in 0..schema.len() {
        write_class(schema, place + 1, out)?;
    }
    Ok(())
}

fn write_class(schema: &Schema, number: u32, out: &mut Vec<u8>) -> Result<(), AllocError>
    requires classes { IsTrue (list_all is_class schema.now.classes) }
    requires there { is_some (class_at schema.now number) ≡ true }
    ensures { OnOk result (IfSome (class_at schema.now number) (λ c. out.new.items ≡ out.old.items ++ class_bytes c)) }
{
    let Some(class) = schema.class(number) else {
        unreachable!()
    };
    class.write(out)
}
