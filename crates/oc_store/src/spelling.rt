//! Changes of objects as changes of slots.

ghost use Rattle.std.specs.Prelude.{◌≡◌, map, All, IfOk, IfSome, option_map};
ghost use Rattle.oc_model.specs.Spelling.{record_bytes};
ghost use Rattle.oc_lists.specs.Changing.{IsStorable};
ghost use Rattle.oc_store.specs.Changed.{slot_change};

use crate::fetching::object_slot;
use oc_lists::RecChange;
use oc_marshal::{Rec, encode};
use oc_model::laws_stores::suited_record_is_spellable;
use oc_schema::Schema;
use oc_slots::{Bytes, SlotChange};
use std::alloc::{AllocError, Global};

/// What becomes of the objects' slots: each has the bytes of the new record, or is gone with the object.
pub(crate) fn slot_changes(
    alloc: Global,
    schema: &Schema,
    changes: &[RecChange],
) -> Result<Vec<SlotChange>, AllocError>
    requires { All (λ c. IfSome c.rec (IsStorable schema.now)) changes.now }
    ensures { IfOk result (λ v. v.items ≡ map slot_change changes.now) }
{
    let mut spelled = Vec::new(alloc);
    for change in changes {
        spelled.push(SlotChange {
            id: object_slot(change.number),
            bytes: bytes_of(alloc, schema, &change.rec)?,
        })?;
    }
    Ok(spelled)
}

fn bytes_of(alloc: Global, schema: &Schema, rec: &Option<Rec>) -> Result<Option<Bytes>, AllocError>
    requires { IfSome rec.now (IsStorable schema.now) }
    ensures { IfOk result (λ bytes. bytes ≡ option_map record_bytes rec.now) }
{
    match rec {
        Some(rec) => Ok(Some(spell(alloc, schema, rec)?)),
        None => Ok(None),
    }
}

fn spell(alloc: Global, schema: &Schema, rec: &Rec) -> Result<Bytes, AllocError>
    requires { IsStorable schema.now rec.now }
    ensures { IfOk result (λ bytes. bytes ≡ record_bytes rec.now) }
{
    schema.keeps_rules();
    suited_record_is_spellable();
    let bytes = encode(alloc, rec)?;
    Ok(Bytes::of(bytes))
}
