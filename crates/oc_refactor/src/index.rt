//! Fields with an index and without one.

ghost use Rattle.std.specs.Prelude.{◌≡◌, ◌&&◌, true, is_some, IfSome};
ghost use Rattle.oc_model.specs.Kinds.{is_array};
ghost use Rattle.oc_model.specs.Schemas.{field_named};
ghost use Rattle.oc_model.specs.SchemaRules.{has_earlier_parents};
ghost use Rattle.oc_model.specs.SchemaSteps.{index_set};
ghost use Rattle.oc_refactor.specs.Answers.{index_told};
ghost use Rattle.oc_refactor.specs.Fields.{declared_by};

use crate::fields::{own_field, with_index};
use oc_model::value::{Kind, Txt};
use oc_schema::{ClassDef, Schema};
use std::alloc::{AllocError, Global};

/// Why a field gets no index and loses none.
#[derive(Clone, Copy, Debug, PartialEq, Eq)]
pub enum IndexFault {
    /// There is no such class.
    Class,
    /// An object of the class has no field of that name.
    Field,
    /// An array has no index.
    Kind,
    /// There is no memory.
    Memory,
}

impl From<AllocError> for IndexFault {
    ghost use Rattle.std.specs.Prelude.{◌≡◌};
    ghost use Rattle.oc_refactor.specs.declared.index.IndexFault.TheVariants.{Memory};

    ghost from_gives = { λ _ e. e ≡ Memory };

    fn from(_error: AllocError) -> IndexFault {
        IndexFault::Memory
    }
}

/// The schema with an index on this field, or without one. It is the field that an object of the class has under the name, wherever it is declared.
#[tactic(auto, using(oc_schema::proofs::Parting::earlier_parents, crate::proofs::Indexing::index_keeps, crate::proofs::Indexing::index_answered), unfolding(oc_model::specs::SchemaSteps::index_set))]
pub fn set_index(
    alloc: Global,
    schema: &Schema,
    class: &Txt,
    field: &Txt,
    on: bool,
) -> Result<Schema, IndexFault>
    ensures { IfSome (index_told result) (λ told. told ≡ index_set schema.now class.now field.now on) }
{
    schema.keeps_rules();
    let name = field.as_slice();
    let Some(number) = schema.class_named(class.as_slice()) else {
        return Err(IndexFault::Class);
    };
    let Some(owner) = owner(schema, number, name) else {
        return Err(IndexFault::Field);
    };
    let Some(class) = schema.class(owner) else {
        return Err(IndexFault::Field);
    };
    let Some(field) = own_field(class.fields.as_slice(), name) else {
        return Err(IndexFault::Field);
    };
    if is_refused(field.kind, on) {
        return Err(IndexFault::Kind);
    }
    let changed = ClassDef {
        name: class.name.copy(alloc)?,
        parent: class.parent,
        fields: with_index(alloc, class.fields.as_slice(), field.id, on)?,
    };
    let schema = schema.with_class_at(alloc, owner, changed, schema.next_field())?;
    Ok(schema)
}

/// An array gets no index.
fn is_refused(kind: Kind, on: bool) -> bool
    ensures { result ≡ (on && is_array kind) }
{
    on && matches!(kind, Kind::Many(_))
}

/// The class that declares the field of this name which an object of this class has.
#[tactic(auto, using(crate::proofs::Indexing::owner_requires, crate::proofs::Indexing::owner_none, crate::proofs::Indexing::owner_above, crate::proofs::Indexing::owner_here, crate::proofs::Indexing::owned))]
fn owner(schema: &Schema, class: u32, name: &[u8]) -> Option<u32>
    requires { has_earlier_parents schema.now ≡ true }
    ensures field { declared_by schema.now name.now result ≡ field_named schema.now class name.now }
    ensures there { is_some result ≡ is_some (field_named schema.now class name.now) }
{
    let Some(found) = schema.class(class) else {
        return None;
    };
    let above = owner(schema, found.parent, name);
    if above.is_some() {
        return above;
    }
    match own_field(found.fields.as_slice(), name) {
        Some(_) => Some(class),
        None => None,
    }
}
