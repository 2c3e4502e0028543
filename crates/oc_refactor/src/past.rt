//! The fields that a declaration makes past.

ghost use Rattle.std.specs.Prelude.{◌≡◌, ◌≤◌, ◌<◌, ◌+◌, length, map, filter, slice_get, IsTrue, IfOk, OnOk};
ghost use Rattle.oc_model.specs.Maps.{with_at, is_in};
ghost use Rattle.oc_model.specs.SchemaSteps.{by_id, made_past as past_again, unstated_fields, declared_fields};
ghost use Rattle.oc_model.specs.SchemaSteps.{is_new as needs_id};
ghost use Rattle.oc_refactor.specs.ById.{keyed, place_in, has_this_id};

use crate::fields::copy;
use crate::stated::stated;
use oc_schema::{FieldDef, FieldText, Fields};
use std::alloc::{AllocError, Global};

/// The fields that the declarations leave of these: those that they state, and behind them the past ones by id.
pub fn left(
    alloc: Global,
    own: &[FieldDef],
    declared: &[FieldText],
    next: u32,
) -> Result<Fields, AllocError>
    requires { next + length (filter (needs_id own.now) declared.now) ≤ 4294967295 }
    ensures { IfOk result (λ fields. fields ≡ declared_fields own.now next declared.now) }
{
    let current = stated(alloc, own, declared, next)?;
    let past = unstated(alloc, own, current.as_slice())?;
    let mut fields = Fields::from_vec(current);
    fields.append(Fields::from_vec(past))?;
    Ok(fields)
}

/// The own fields that aren't among the stated ones, made past, by id.
fn unstated(
    alloc: Global,
    own: &[FieldDef],
    stated: &[FieldDef],
) -> Result<Vec<FieldDef>, AllocError>
    ensures { IfOk result (λ v. v.items ≡ by_id (map past_again (unstated_fields own.now stated.now))) }
{
    let mut past = Vec::new(alloc);
    for field in own {
        if !has_id(stated, field.id) {
            put_by_id(&mut past, made_past(alloc, field)?)?;
        }
    }
    Ok(past)
}

fn has_id(fields: &[FieldDef], id: u32) -> bool
    ensures { result ≡ is_in (map (λ f. f.id) fields.now) id }
{
    for field in fields {
        if id == field.id {
            return true;
        }
    }
    false
}

fn made_past(alloc: Global, field: &FieldDef) -> Result<FieldDef, AllocError>
    ensures { IfOk result (λ f. f ≡ past_again field.now) }
{
    let mut field = copy(alloc, field)?;
    field.current = false;
    field.indexed = false;
    Ok(field)
}

/// Puts the field in its place among these, which stand by id. A field of its id gives way.
#[tactic(auto, using(crate::proofs::Placing::put_in, crate::proofs::Placing::put_over))]
fn put_by_id(fields: &mut Vec<FieldDef>, field: FieldDef) -> Result<(), AllocError>
    ensures { OnOk result (keyed fields.new.items ≡ with_at (keyed fields.old.items) field.id field) }
{
    let place = place_of(fields.as_slice(), field.id);
    if stands_at(fields.as_slice(), place, field.id) {
        fields[place] = field;
        return Ok(());
    }
    fields.insert(place, field)?;
    Ok(())
}

fn stands_at(fields: &[FieldDef], place: usize, id: u32) -> bool
    ensures value { result ≡ has_this_id id (slice_get fields.now place) }
    ensures within { IsTrue result → place < length fields.now }
{
    place < fields.len() && fields[place].id == id
}

/// How many fields stand before the first whose id isn't smaller.
fn place_of(fields: &[FieldDef], id: u32) -> usize
    ensures place { result ≡ place_in id fields.now }
    ensures within { result ≤ length fields.now }
{
    let mut place: usize = 0;
    for field in fields {
        if field.id >= id {
            return place;
        }
        place += 1;
    }
    place
}
