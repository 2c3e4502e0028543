//! Whether two schemas differ.

ghost use Rattle.std.specs.Prelude.{◌≡◌};
ghost use lib.Pointwise.{pointwise};
ghost use Rattle.oc_model.specs.Schemas.{class_at};
ghost use Rattle.oc_model.specs.SchemaEquality.{differs, same_class, same_field};
ghost use Rattle.oc_container.specs.Alike.{are_same};

use oc_schema::{ClassDef, FieldDef, Schema};

/// Whether the two aren't the same, the order of their fields, the flags and the next field id included.
#[tactic(auto, unfolding(oc_model::specs::SchemaEquality::differs))]
pub(crate) fn differ(a: &Schema, b: &Schema) -> bool
    ensures { result ≡ differs a.now b.now }
{
    !(have_same_classes(a, b) && a.next_field() == b.next_field())
}

#[tactic(auto, using(crate::proofs::Alike::classes_from, crate::proofs::Alike::at_the_end, crate::proofs::Alike::as_long))]
fn have_same_classes(a: &Schema, b: &Schema) -> bool
    ensures { result ≡ pointwise same_class a.now.classes b.now.classes }
{
    if a.len() != b.len() {
        return false;
    }
    for index in 0..a.len() {
        if !have_same_class(a, b, index + 1) {
            return false;
        }
    }
    true
}

// Whether both have a class of this number, and the same one.
fn have_same_class(a: &Schema, b: &Schema, number: u32) -> bool
    ensures { result ≡ are_same (class_at a.now number) (class_at b.now number) }
{
    let Some(one) = a.class(number) else {
        return false;
    };
    let Some(other) = b.class(number) else {
        return false;
    };
    is_same_class(one, other)
}

fn is_same_class(a: &ClassDef, b: &ClassDef) -> bool
    ensures { result ≡ same_class a.now b.now }
{
    a.name.as_slice() == b.name.as_slice()
        && a.parent == b.parent
        && have_same_fields(a.fields.as_slice(), b.fields.as_slice())
}

#[tactic(auto, using(crate::proofs::Alike::fields_from, crate::proofs::Alike::at_the_end, crate::proofs::Alike::as_long))]
fn have_same_fields(a: &[FieldDef], b: &[FieldDef]) -> bool
    ensures { result ≡ pointwise same_field a.now b.now }
{
    if a.len() != b.len() {
        return false;
    }
    for index in 0..a.len() {
        if !is_same_field(&a[index], &b[index]) {
            return false;
        }
    }
    true
}

fn is_same_field(a: &FieldDef, b: &FieldDef) -> bool
    ensures { result ≡ same_field a.now b.now }
{
    a.id == b.id
        && a.name.as_slice() == b.name.as_slice()
        && a.kind == b.kind
        && a.current == b.current
        && a.indexed == b.indexed
}
