//! What convert is asked to do.

ghost use Rattle.std.specs.Prelude.{◌≡◌};
ghost use Rattle.oc_model.specs.SchemaSteps.{conversion_of};
ghost use Rattle.oc_refactor.specs.Answers.{conversion_told};

use crate::fields::own_field;
use oc_model::value::{Kind, Txt};
use oc_schema::Schema;

/// The values under the past field's id become values of the current one's kind, for the objects of the class and of those below it.
#[derive(Clone, Copy, PartialEq, Eq)]
pub struct ConvertPlan {
    pub class: u32,
    pub past: u32,
    pub current: u32,
    pub to: Kind,
}

/// Why nothing is converted.
#[derive(Clone, Copy, Debug, PartialEq, Eq)]
pub enum ConvertFault {
    /// There is no such class.
    Class,
    /// The class has no own current field of that name.
    Field,
    /// The class has no own past field of that name and kind.
    Past,
}

/// What converts the class's own field of this name from this kind.
#[tactic(auto, unfolding(oc_model::specs::SchemaSteps::conversion_of))]
pub fn convert_plan(
    schema: &Schema,
    class: &Txt,
    field: &Txt,
    from: Kind,
) -> Result<ConvertPlan, ConvertFault>
    ensures { conversion_told from result ≡ conversion_of schema.now class.now field.now from }
{
    let name = field.as_slice();
    let Some(number) = schema.class_named(class.as_slice()) else {
        return Err(ConvertFault::Class);
    };
    let Some(class) = schema.class(number) else {
        return Err(ConvertFault::Class);
    };
    let Some(field) = own_field(class.fields.as_slice(), name) else {
        return Err(ConvertFault::Field);
    };
    let Some(past) = schema.past_field(number, name, from) else {
        return Err(ConvertFault::Past);
    };
    Ok(ConvertPlan {
        class: number,
        past,
        current: field.id,
        to: field.kind,
    })
}
