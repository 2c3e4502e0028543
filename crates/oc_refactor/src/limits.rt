//! What the limits of a schema ask for.

ghost use Rattle.std.specs.Prelude.{◌≡◌, ◌≤◌, ◌<◌, ◌+◌, ◌&&◌, nat_lt, nat_le, true, is_some, length};
ghost use Rattle.oc_model.specs.Schemas.{class_at, parent_of, current, own_fields, fields_of};
ghost use Rattle.oc_refactor.specs.Around.{fits_below as fits, all_fit_below as all_fit};
ghost use Rattle.oc_model.specs.SchemaRules.{ancestors, has_earlier_parents, keeps_rules};

use oc_schema::{FieldDef, Schema};

/// The most classes of a schema.
const CLASS_LIMIT: u32 = 65_535;

/// The most ancestors of a class.
const ANCESTOR_LIMIT: usize = 32;

/// The most current fields of a class, with those of its ancestors.
const FIELD_LIMIT: usize = 255;

/// The greatest id that the next new field may have.
const ID_LIMIT: u64 = 4_294_967_295;

/// Whether there is room for a class more, with so many fields of its own, under this parent or under none (0).
#[tactic(auto, using(oc_schema::proofs::Parting::few_classes))]
pub fn has_room(schema: &Schema, parent: u32, fields: usize) -> bool
    requires { parent ≤ length schema.now.classes }
    ensures { result ≡ (nat_lt (length schema.now.classes) 65535 && nat_lt (length (ancestors schema.now parent)) 32 && nat_le (length (fields_of schema.now parent) + fields) 255 && nat_le (schema.now.next_field + fields) 4294967295) }
{
    schema.keeps_rules();
    schema.len() < CLASS_LIMIT
        && ancestor_count(schema, parent) < ANCESTOR_LIMIT
        && fit_with(field_count(schema, parent), fields)
        && has_ids(schema.next_field(), fields)
}

fn fit_with(inherited: usize, fields: usize) -> bool
    requires { inherited ≤ 255 }
    ensures { result ≡ nat_le (inherited + fields) 255 }
{
    fields <= FIELD_LIMIT - inherited
}

/// Whether so many ids may be drawn.
pub fn has_ids(next: u32, count: usize) -> bool
    ensures { result ≡ nat_le (next + count) 4294967295 }
{
    count as u64 <= ID_LIMIT - u64::from(next)
}

/// Whether each class has at most 255 fields once this one has so many of its own in place of those that are there.
#[tactic(auto, using(crate::proofs::Around::class_in_place))]
pub fn all_fit_below(schema: &Schema, class: u32, count: usize) -> bool
    requires { is_some (class_at schema.now class) ≡ true }
    ensures { result ≡ all_fit schema.now class count }
{
    schema.keeps_rules();
    for place in 0..schema.len() {
        if !fits_below(schema, class, count, place + 1) {
            return false;
        }
    }
    true
}

#[tactic(auto, using(oc_schema::proofs::Parting::class_within, crate::proofs::Counting::few_own))]
fn fits_below(schema: &Schema, class: u32, count: usize, number: u32) -> bool
    requires rules { keeps_rules schema.now ≡ true }
    requires class { is_some (class_at schema.now class) ≡ true }
    requires number { is_some (class_at schema.now number) ≡ true }
    ensures { result ≡ fits schema.now class count number }
{
    !schema.is_sub(number, class)
        || fit_in_place(field_count(schema, number), own_count(schema, class), count)
}

/// Whether so many own fields fit in place of those that are there.
fn fit_in_place(fields: usize, own: usize, count: usize) -> bool
    requires few { fields ≤ 255 }
    requires own { own ≤ 255 }
    ensures { result ≡ nat_le (fields + count) (255 + own) }
{
    count <= FIELD_LIMIT + own - fields
}

/// How many ancestors the class has.
#[tactic(auto, using(oc_schema::proofs::Parting::earlier_parents, oc_schema::proofs::Ancestry::parent_smaller, oc_schema::proofs::Ancestry::ancestors_counted, crate::proofs::Counting::none_above))]
fn ancestor_count(schema: &Schema, class: u32) -> usize
    requires rules { keeps_rules schema.now ≡ true }
    requires there { class ≤ length schema.now.classes }
    ensures { result ≡ length (ancestors schema.now class) }
{
    let mut count: usize = 0;
    let mut above = parent(schema, class);
    while above != 0 {
        count += 1;
        above = parent(schema, above);
    }
    count
}

/// How many current fields an object of the class has.
#[tactic(auto, using(oc_schema::proofs::Parting::earlier_parents, oc_schema::proofs::Ancestry::parent_smaller, crate::proofs::Counting::fields_counted, crate::proofs::Counting::no_fields_counted, crate::proofs::Counting::few_fields))]
fn field_count(schema: &Schema, class: u32) -> usize
    requires rules { keeps_rules schema.now ≡ true }
    requires there { class ≤ length schema.now.classes }
    ensures count { result ≡ length (fields_of schema.now class) }
    ensures few { result ≤ 255 }
{
    let mut count: usize = 0;
    let mut at = class;
    while at != 0 {
        count += own_count(schema, at);
        at = parent(schema, at);
    }
    count
}

fn own_count(schema: &Schema, class: u32) -> usize
    ensures { result ≡ length (own_fields (class_at schema.now class)) }
{
    match schema.class(class) {
        Some(class) => current_count(class.fields.as_slice()),
        None => 0,
    }
}

/// How many of the fields are current.
fn current_count(fields: &[FieldDef]) -> usize
    ensures { result ≡ length (current fields.now) }
{
    let mut count: usize = 0;
    for field in fields {
        if field.current {
            count += 1;
        }
    }
    count
}

/// The number of the class's parent, 0 where it has none or isn't there.
pub fn parent(schema: &Schema, class: u32) -> u32
    ensures { result ≡ parent_of (class_at schema.now class) }
{
    match schema.class(class) {
        Some(class) => class.parent,
        None => 0,
    }
}
