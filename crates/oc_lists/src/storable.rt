//! Which records a store may take.

ghost use Rattle.std.specs.Prelude.{◌≡◌, ◌≤◌, Ok, None, IfOk, IfSome};
ghost use Rattle.oc_model.specs.declared.value.Rec.{Rec as RecOf};
ghost use Rattle.oc_model.specs.Stores.{record_len};
ghost use Rattle.oc_marshal.specs.Records.{IsRecord, SpellsRecord};
ghost use Rattle.oc_lists.specs.Changing.{IsStorable};

use oc_marshal::{DecodeFault, Rec, decode};
use oc_model::laws_spelling::record_len_is_exact;
use oc_schema::Schema;
use std::alloc::{AllocError, Global};

/// The most bytes of a record.
const LONGEST: usize = 262_144;

/// The record of these bytes, if they are one's that a store of this schema may take: it suits the schema and isn't too long.
pub fn storable_of(alloc: Global, schema: &Schema, bytes: &[u8]) -> Result<Option<Rec>, AllocError>
    ensures spelled { IfOk result (λ o. IfSome o (λ r. SpellsRecord r bytes.now)) }
    ensures storable { IfOk result (λ o. IfSome o (IsStorable schema.now)) }
    ensures none { result ≡ Ok None → (r : RecOf) → SpellsRecord r bytes.now → ¬ IsStorable schema.now r }
{
    record_len_is_exact();
    if bytes.len() > LONGEST {
        return Ok(None);
    }
    match decode(alloc, bytes) {
        Ok(rec) => Ok(storable(schema, rec)),
        Err(DecodeFault::NotARecord) => Ok(None),
        Err(DecodeFault::Memory) => Err(AllocError),
    }
}

// The record, if it suits the schema.
fn storable(schema: &Schema, rec: Rec) -> Option<Rec>
    requires is { IsRecord rec }
    requires short { record_len rec ≤ 262144 }
    ensures same { IfSome result (λ r. r ≡ rec) }
    ensures some { IfSome result (IsStorable schema.now) }
    ensures none { result ≡ None → ¬ IsStorable schema.now rec }
{
    if schema.suits(&rec) { Some(rec) } else { None }
}
