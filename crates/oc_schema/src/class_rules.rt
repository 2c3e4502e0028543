//! The rules that a class keeps by itself.

ghost use Rattle.std.specs.Prelude.{◌≡◌};
ghost use Rattle.std.specs.List.{list_all, list_any, enumerate_from};
ghost use Rattle.oc_model.specs.Maps.{same};
ghost use Rattle.oc_model.specs.Kinds.{is_array as kind_is_array};
ghost use Rattle.oc_model.specs.SchemaRules.{reserved_words, begins_name, is_name as names, may_follow as follows, are_in_order as in_order};
ghost use Rattle.oc_schema.specs.ClassRules.{is_name_byte, field_keeps, fields_keep, class_keeps};

use oc_model::schema::{ClassDef, FieldDef};
use oc_model::value::Kind;

/// The most bytes of a name.
const NAME_LIMIT: usize = 64;

/// The most own fields of a class, past ones too.
const OWN_FIELD_LIMIT: usize = 1_000;

/// Whether each of the classes, of which the first is class 1, keeps the rules that ask for it alone.
pub fn all_keep_rules(classes: &[ClassDef], next_field: u32) -> bool
    ensures { result ≡ list_all (class_keeps next_field) (enumerate_from 1 classes.now) }
{
    let mut number: usize = 1;
    for class in classes {
        if !keeps_rules(number, class, next_field) {
            return false;
        }
        number += 1;
    }
    true
}

fn keeps_rules(number: usize, class: &ClassDef, next_field: u32) -> bool
    ensures { result ≡ class_keeps next_field (number, class.now) }
{
    is_name(class.name.as_slice())
        && (class.parent as usize) < number
        && fields_keep_rules(class.fields.as_slice(), next_field)
}

fn fields_keep_rules(fields: &[FieldDef], next_field: u32) -> bool
    ensures { result ≡ fields_keep next_field fields.now }
{
    fields.len() <= OWN_FIELD_LIMIT && are_in_order(fields) && each_keeps_rules(fields, next_field)
}

fn each_keeps_rules(fields: &[FieldDef], next_field: u32) -> bool
    ensures { result ≡ list_all (field_keeps next_field) fields.now }
{
    fields
        .iter()
        .all(|field| field_keeps_rules(field, next_field))
}

fn field_keeps_rules(field: &FieldDef, next_field: u32) -> bool
    ensures { result ≡ field_keeps next_field field.now }
{
    is_name(field.name.as_slice())
        && 1 <= field.id
        && field.id < next_field
        && (field.current || !field.indexed)
        && !(field.indexed && is_array(field.kind))
}

fn is_array(kind: Kind) -> bool
    ensures { result ≡ kind_is_array kind }
{
    matches!(kind, Kind::Many(_))
}

/// Whether the current fields come first, and then the past ones by id.
fn are_in_order(fields: &[FieldDef]) -> bool
    ensures { result ≡ in_order fields.now }
{
    let [first, rest @ ..] = fields else {
        return true;
    };
    let mut before = first;
    for next in rest {
        if !may_follow(before, next) {
            return false;
        }
        before = next;
    }
    true
}

fn may_follow(first: &FieldDef, next: &FieldDef) -> bool
    ensures { result ≡ follows first.now next.now }
{
    first.current || !next.current && first.id < next.id
}

// ---- names

/// Whether the bytes are a name.
pub fn is_name(name: &[u8]) -> bool
    ensures { result ≡ names name.now }
{
    begins_name(name) && is_of_name(name) && name.len() <= NAME_LIMIT && !is_reserved(name)
}

fn begins_name(name: &[u8]) -> bool
    ensures { result ≡ begins_name name.now }
{
    match name {
        [first, ..] => first.is_ascii_alphabetic() || *first == b'_',
        [] => false,
    }
}

fn is_of_name(name: &[u8]) -> bool
    ensures { result ≡ list_all is_name_byte name.now }
{
    name.iter()
        .all(|byte| byte.is_ascii_alphanumeric() || *byte == b'_')
}

fn is_reserved(word: &[u8]) -> bool
    ensures { result ≡ list_any (same word.now) reserved_words }
{
    is_same(word, b"true")
        || is_same(word, b"false")
        || is_same(word, b"null")
        || is_same(word, b"and")
        || is_same(word, b"or")
        || is_same(word, b"not")
        || is_same(word, b"where")
        || is_same(word, b"order")
        || is_same(word, b"asc")
        || is_same(word, b"desc")
}

/// Whether both have the same bytes.
pub fn is_same(a: &[u8], b: &[u8]) -> bool
    ensures { result ≡ same a.now b.now }
{
    a == b
}
