//! Classes and their fields, as they are declared.

ghost use Rattle.std.specs.Prelude.{◌≡◌, ◌≤◌, length, true, None, is_some, IfSome};
ghost use Rattle.std.specs.List.{list_all};
ghost use Rattle.std.specs.Option.{option_copied};
ghost use Rattle.oc_model.specs.declared.answer.Word.TheVariants as word;
ghost use Rattle.oc_model.specs.Refusals.{or_refuse};
ghost use Rattle.oc_model.specs.Schemas.{class_at, class_named};
ghost use Rattle.oc_model.specs.SchemaRules.{is_name};
ghost use Rattle.oc_model.specs.SchemaSteps.{parent_number as number_stated, with_declared as with_fields, within_limits, declared_new, declared_again, declared};
ghost use Rattle.oc_refactor.specs.Answers.{declare_told};
ghost use Rattle.oc_refactor.specs.Around.{names_are_free};

use crate::limits::{all_fit_below, has_ids, has_room, parent as parent_of};
use crate::names::are_free;
use crate::past::left;
use crate::related::are_free_around;
use crate::stated::{new_count, stated};
use oc_model::value::Txt;
use oc_schema::{ClassDef, FieldText, FieldTexts, Fields, Schema};
use std::alloc::{AllocError, Global};

/// The most own fields of a class, past ones too.
const OWN_FIELD_LIMIT: usize = 1_000;

/// Why a class isn't declared.
#[derive(Clone, Copy, Debug, PartialEq, Eq)]
pub enum DeclareFault {
    /// The parent isn't a class.
    Class,
    /// The class is there under another parent.
    Parent,
    /// A name is given twice or is taken.
    Exists,
    /// A limit would be passed.
    Size,
    /// There is no memory.
    Memory,
}

impl From<AllocError> for DeclareFault {
    ghost use Rattle.std.specs.Prelude.{◌≡◌};
    ghost use Rattle.oc_refactor.specs.declared.declaration.DeclareFault.TheVariants.{Memory};

    ghost from_gives = { λ _ e. e ≡ Memory };

    fn from(_error: AllocError) -> DeclareFault {
        DeclareFault::Memory
    }
}

/// The schema with the class declared: a new one, or the fields of one that is there, anew. The class keeps its number, and a field that stays or comes back keeps its id.
#[tactic(auto, using(crate::proofs::Declaring::declared_as_new, crate::proofs::Declaring::declared_as_again, crate::proofs::Declaring::without_parent))]
pub fn declare(
    alloc: Global,
    schema: &Schema,
    name: &Txt,
    parent: Option<&Txt>,
    fields: &FieldTexts,
) -> Result<Schema, DeclareFault>
    requires name { is_name name.now ≡ true }
    requires fields { list_all (λ d. is_name d.name) fields.now ≡ true }
    ensures { IfSome (declare_told result) (λ told. told ≡ declared schema.now name.now (option_copied parent.entry) fields.now) }
{
    let Some(parent) = parent_number(schema, parent) else {
        return Err(DeclareFault::Class);
    };
    match schema.class_named(name.as_slice()) {
        Some(number) => declare_again(alloc, schema, number, parent, fields),
        None => declare_new(alloc, schema, name, parent, fields),
    }
}

/// The number of the parent that is stated, 0 for none.
#[tactic(auto, using(oc_schema::proofs::Parting::class_within))]
fn parent_number(schema: &Schema, parent: Option<&Txt>) -> Option<u32>
    ensures value { or_refuse result word.Class ≡ number_stated schema.now (option_copied parent.entry) }
    ensures there { IfSome result (λ p. p ≤ length schema.now.classes) }
{
    match parent {
        Some(name) => schema.class_named(name.as_slice()),
        None => Some(0),
    }
}

/// The schema with a class more, under this parent or under none (0).
#[tactic(auto, using(crate::proofs::AddedClass::added_keeps, crate::proofs::AddedClass::added_told, crate::proofs::AddedClass::names_taken, crate::proofs::AddedClass::no_room, crate::proofs::AddedClass::room_for_ids, crate::proofs::AddedClass::room_for_new))]
fn declare_new(
    alloc: Global,
    schema: &Schema,
    name: &Txt,
    parent: u32,
    fields: &FieldTexts,
) -> Result<Schema, DeclareFault>
    requires name { is_name name.now ≡ true }
    requires fields { list_all (λ d. is_name d.name) fields.now ≡ true }
    requires fresh { class_named schema.now name.now ≡ None }
    requires parent { parent ≤ length schema.now.classes }
    ensures { IfSome (declare_told result) (λ told. told ≡ declared_new schema.now name.now parent fields.now) }
{
    schema.keeps_rules();
    let declared = fields.as_slice();
    if !are_free(alloc, schema, parent, declared)? {
        return Err(DeclareFault::Exists);
    }
    if !has_room(schema, parent, declared.len()) {
        return Err(DeclareFault::Size);
    }
    let class = ClassDef {
        name: name.copy(alloc)?,
        parent,
        fields: Fields::from_vec(stated(alloc, &[], declared, schema.next_field())?),
    };
    let next = schema.next_field() + declared.len() as u32;
    let schema = schema.with_class(alloc, class, next)?;
    Ok(schema)
}

/// The schema with the fields of this class declared anew.
#[tactic(auto, using(crate::proofs::Declaring::other_parent, crate::proofs::Declaring::taken_again, crate::proofs::Declaring::free_again))]
fn declare_again(
    alloc: Global,
    schema: &Schema,
    number: u32,
    parent: u32,
    fields: &FieldTexts,
) -> Result<Schema, DeclareFault>
    requires there { is_some (class_at schema.now number) ≡ true }
    requires fields { list_all (λ d. is_name d.name) fields.now ≡ true }
    ensures { IfSome (declare_told result) (λ told. told ≡ declared_again schema.now number parent fields.now) }
{
    if parent != parent_of(schema, number) {
        return Err(DeclareFault::Parent);
    }
    if !are_free_around(alloc, schema, number, fields.as_slice())? {
        return Err(DeclareFault::Exists);
    }
    with_declared(alloc, schema, number, fields.as_slice())
}

#[tactic(auto, using(crate::proofs::Declaring::again_keeps, crate::proofs::Declaring::again_told, crate::proofs::Declaring::too_wide, crate::proofs::Declaring::too_many_ids, crate::proofs::Declaring::too_long, crate::proofs::Declaring::few_ids))]
fn with_declared(
    alloc: Global,
    schema: &Schema,
    number: u32,
    declared: &[FieldText],
) -> Result<Schema, DeclareFault>
    requires there { is_some (class_at schema.now number) ≡ true }
    requires fields { list_all (λ d. is_name d.name) declared.now ≡ true }
    requires free { names_are_free schema.now number declared.now ≡ true }
    ensures { IfSome (declare_told result) (λ told. told ≡ within_limits (with_fields schema.now number declared.now)) }
{
    schema.keeps_rules();
    let Some(class) = schema.class(number) else {
        return Err(DeclareFault::Class);
    };
    if !all_fit_below(schema, number, declared.len()) {
        return Err(DeclareFault::Size);
    }
    let own = class.fields.as_slice();
    let count = new_count(own, declared);
    if !has_ids(schema.next_field(), count) {
        return Err(DeclareFault::Size);
    }
    let fields = left(alloc, own, declared, schema.next_field())?;
    if fields.len() > OWN_FIELD_LIMIT {
        return Err(DeclareFault::Size);
    }
    let changed = ClassDef {
        name: class.name.copy(alloc)?,
        parent: class.parent,
        fields,
    };
    let next = schema.next_field() + count as u32;
    let schema = schema.with_class_at(alloc, number, changed, next)?;
    Ok(schema)
}
