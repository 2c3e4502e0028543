//! The fields of a store's lists, in the order of their ids.

ghost use Rattle.std.specs.Prelude.{◌≡◌, ◌≤◌, true, false, length, take, drop, OnOk, OnErr};
ghost use Rattle.std.specs.Ordering.{is_lt, nat_cmp};
ghost use Rattle.oc_model.specs.Lists.{placed};
ghost use Rattle.oc_chunks.specs.Ascending.{Each};
ghost use Rattle.oc_index.specs.Indexed.{id_cmp, AreInOrder};

use crate::indexes::Field;
use std::alloc::AllocError;

/// Puts the field before all whose ids are no less.
pub(crate) fn put_in_order(fields: &mut Vec<Field>, field: Field) -> Result<(), AllocError>
    requires { AreInOrder fields.old.items }
    ensures order { AreInOrder fields.new.items }
    ensures ok { OnOk result (fields.new.items ≡ placed id_cmp field fields.old.items) }
    ensures err { OnErr result (fields.new.items ≡ fields.old.items) }
{
    let at = place_for(fields, field.id);
    fields.insert(at, field)?;
    Ok(())
}

/// How many fields have lesser ids.
fn place_for(fields: &[Field], id: u32) -> usize
    requires { AreInOrder fields.now }
    ensures within { result ≤ length fields.now }
    ensures low { Each (λ f. is_lt (nat_cmp f.id id) ≡ true) (take result fields.now) }
    ensures high { Each (λ f. is_lt (nat_cmp f.id id) ≡ false) (drop result fields.now) }
{
    fields.partition_point(|field| field.id.cmp(&id).is_lt())
}
