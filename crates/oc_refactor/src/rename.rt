//! Other names for classes and fields.

ghost use Rattle.std.specs.Prelude.{◌≡◌, true, IfSome};
ghost use Rattle.oc_model.specs.SchemaRules.{is_name};
ghost use Rattle.oc_model.specs.SchemaSteps.{class_renamed, field_renamed};
ghost use Rattle.oc_refactor.specs.Answers.{class_rename_told, field_rename_told};

use crate::fields::{copies, own_field, with_name};
use crate::related::is_taken;
use oc_model::value::Txt;
use oc_schema::{ClassDef, Schema};
use std::alloc::{AllocError, Global};

/// Why a class isn't renamed.
#[derive(Clone, Copy, Debug, PartialEq, Eq)]
pub enum RenameClassFault {
    /// There is no such class.
    Class,
    /// A class has the new name.
    Exists,
    /// There is no memory.
    Memory,
}

impl From<AllocError> for RenameClassFault {
    ghost use Rattle.std.specs.Prelude.{◌≡◌};
    ghost use Rattle.oc_refactor.specs.declared.rename.RenameClassFault.TheVariants.{Memory};

    ghost from_gives = { λ _ e. e ≡ Memory };

    fn from(_error: AllocError) -> RenameClassFault {
        RenameClassFault::Memory
    }
}

/// The schema with another name for the class. The class keeps its number, its parent and its fields.
#[tactic(auto, using(crate::proofs::Renaming::renamed_keeps, crate::proofs::Renaming::renamed_told), unfolding(oc_model::specs::SchemaSteps::class_renamed))]
pub fn rename_class(
    alloc: Global,
    schema: &Schema,
    class: &Txt,
    to: &Txt,
) -> Result<Schema, RenameClassFault>
    requires { is_name to.now ≡ true }
    ensures { IfSome (class_rename_told result) (λ told. told ≡ class_renamed schema.now class.now to.now) }
{
    schema.keeps_rules();
    let Some(number) = schema.class_named(class.as_slice()) else {
        return Err(RenameClassFault::Class);
    };
    if schema.class_named(to.as_slice()).is_some() {
        return Err(RenameClassFault::Exists);
    }
    let Some(found) = schema.class(number) else {
        return Err(RenameClassFault::Class);
    };
    let renamed = ClassDef {
        name: to.copy(alloc)?,
        parent: found.parent,
        fields: copies(alloc, found.fields.as_slice())?,
    };
    let schema = schema.with_class_at(alloc, number, renamed, schema.next_field())?;
    Ok(schema)
}

/// Why a field isn't renamed.
#[derive(Clone, Copy, Debug, PartialEq, Eq)]
pub enum RenameFieldFault {
    /// There is no such class.
    Class,
    /// The class has no own current field of that name.
    Field,
    /// The class, an ancestor or a descendant has a current field of the new name.
    Exists,
    /// There is no memory.
    Memory,
}

impl From<AllocError> for RenameFieldFault {
    ghost use Rattle.std.specs.Prelude.{◌≡◌};
    ghost use Rattle.oc_refactor.specs.declared.rename.RenameFieldFault.TheVariants.{Memory};

    ghost from_gives = { λ _ e. e ≡ Memory };

    fn from(_error: AllocError) -> RenameFieldFault {
        RenameFieldFault::Memory
    }
}

/// The schema with another name for the class's own field. The field keeps its id, its kind and its index.
#[tactic(auto, using(crate::proofs::FieldNames::field_name_keeps, crate::proofs::FieldNames::field_name_answered, crate::proofs::Indexing::owned), unfolding(oc_model::specs::SchemaSteps::field_renamed))]
pub fn rename_field(
    alloc: Global,
    schema: &Schema,
    class: &Txt,
    field: &Txt,
    to: &Txt,
) -> Result<Schema, RenameFieldFault>
    requires { is_name to.now ≡ true }
    ensures { IfSome (field_rename_told result) (λ told. told ≡ field_renamed schema.now class.now field.now to.now) }
{
    schema.keeps_rules();
    let Some(owner) = schema.class_named(class.as_slice()) else {
        return Err(RenameFieldFault::Class);
    };
    let Some(class) = schema.class(owner) else {
        return Err(RenameFieldFault::Class);
    };
    let Some(field) = own_field(class.fields.as_slice(), field.as_slice()) else {
        return Err(RenameFieldFault::Field);
    };
    if is_taken(alloc, schema, owner, to.as_slice())? {
        return Err(RenameFieldFault::Exists);
    }
    let renamed = ClassDef {
        name: class.name.copy(alloc)?,
        parent: class.parent,
        fields: with_name(alloc, class.fields.as_slice(), field.id, to)?,
    };
    let schema = schema.with_class_at(alloc, owner, renamed, schema.next_field())?;
    Ok(schema)
}
