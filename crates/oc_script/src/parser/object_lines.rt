//! Lines on objects.

ghost use Rattle.std.specs.Prelude.{IfOk};
ghost use Rattle.oc_machine.specs.Parsers.{◌>=>◌, pure, expect};
ghost use Rattle.oc_machine.specs.ReadingValues.{a_value};
ghost use Rattle.oc_machine.specs.Reading.{new_line, make_line, let_line, store_line, delete_line, activate_line, deactivate_line, refresh_line, purge_line};
ghost use Rattle.oc_script.specs.Parsed.{Reads};

use crate::cursor::Cursor;
use crate::parser::lists::{in_braces, name};
use crate::parser::values::value;
use oc_machine::token::Sign;
use oc_model::command::{Command, Givens};
use oc_model::value::Txt;
use std::alloc::{AllocError, Global};

#[tactic(auto, unfolding(oc_machine::specs::Reading::new_line))]
pub(crate) fn new_line(alloc: Global, cursor: &mut Cursor) -> Result<Option<Command>, AllocError>
    ensures { IfOk result (λ r. Reads new_line cursor.old r cursor.new) }
{
    let Some(bound) = name(alloc, cursor)? else {
        return Ok(None);
    };
    let Some(class) = name(alloc, cursor)? else {
        return Ok(None);
    };
    let Some(givens) = in_braces(alloc, cursor)? else {
        return Ok(None);
    };
    Ok(Some(Command::New {
        name: bound,
        class,
        givens: Givens::from_vec(givens),
    }))
}

#[tactic(auto, unfolding(oc_machine::specs::Reading::make_line))]
pub(crate) fn make_line(alloc: Global, cursor: &mut Cursor) -> Result<Option<Command>, AllocError>
    ensures { IfOk result (λ r. Reads make_line cursor.old r cursor.new) }
{
    let Some(class) = name(alloc, cursor)? else {
        return Ok(None);
    };
    let Some(givens) = in_braces(alloc, cursor)? else {
        return Ok(None);
    };
    Ok(Some(Command::Make {
        class,
        givens: Givens::from_vec(givens),
    }))
}

/// The value behind a `=`, for a field of a name's object.
fn let_value(
    alloc: Global,
    name: Txt,
    field: Txt,
    cursor: &mut Cursor,
) -> Result<Option<Command>, AllocError>
    ensures { IfOk result (λ r. Reads (expect Sign.Equal >=> λ _. a_value >=> λ v. pure (Command.Let name field v)) cursor.old r cursor.new) }
{
    if !cursor.takes(Sign::Equal) {
        return Ok(None);
    }
    let Some(value) = value(alloc, cursor)? else {
        return Ok(None);
    };
    Ok(Some(Command::Let { name, field, value }))
}

#[tactic(auto, unfolding(oc_machine::specs::Reading::let_line))]
pub(crate) fn let_line(alloc: Global, cursor: &mut Cursor) -> Result<Option<Command>, AllocError>
    ensures { IfOk result (λ r. Reads let_line cursor.old r cursor.new) }
{
    let Some(bound) = name(alloc, cursor)? else {
        return Ok(None);
    };
    if !cursor.takes(Sign::Dot) {
        return Ok(None);
    }
    let Some(field) = name(alloc, cursor)? else {
        return Ok(None);
    };
    let_value(alloc, bound, field, cursor)
}

#[tactic(auto, unfolding(oc_machine::specs::Reading::store_line))]
pub(crate) fn store_line(alloc: Global, cursor: &mut Cursor) -> Result<Option<Command>, AllocError>
    ensures { IfOk result (λ r. Reads store_line cursor.old r cursor.new) }
{
    let Some(name) = name(alloc, cursor)? else {
        return Ok(None);
    };
    let depth = cursor.optional_nat();
    Ok(Some(Command::Store { name, depth }))
}

#[tactic(auto, unfolding(oc_machine::specs::Reading::delete_line))]
pub(crate) fn delete_line(alloc: Global, cursor: &mut Cursor) -> Result<Option<Command>, AllocError>
    ensures { IfOk result (λ r. Reads delete_line cursor.old r cursor.new) }
{
    let Some(name) = name(alloc, cursor)? else {
        return Ok(None);
    };
    Ok(Some(Command::Delete { name }))
}

#[tactic(auto, unfolding(oc_machine::specs::Reading::activate_line))]
pub(crate) fn activate_line(
    alloc: Global,
    cursor: &mut Cursor,
) -> Result<Option<Command>, AllocError>
    ensures { IfOk result (λ r. Reads activate_line cursor.old r cursor.new) }
{
    let Some(name) = name(alloc, cursor)? else {
        return Ok(None);
    };
    let depth = cursor.optional_nat();
    Ok(Some(Command::Activate { name, depth }))
}

#[tactic(auto, unfolding(oc_machine::specs::Reading::deactivate_line))]
pub(crate) fn deactivate_line(
    alloc: Global,
    cursor: &mut Cursor,
) -> Result<Option<Command>, AllocError>
    ensures { IfOk result (λ r. Reads deactivate_line cursor.old r cursor.new) }
{
    let Some(name) = name(alloc, cursor)? else {
        return Ok(None);
    };
    let Some(depth) = cursor.nat() else {
        return Ok(None);
    };
    Ok(Some(Command::Deactivate { name, depth }))
}

#[tactic(auto, unfolding(oc_machine::specs::Reading::refresh_line))]
pub(crate) fn refresh_line(
    alloc: Global,
    cursor: &mut Cursor,
) -> Result<Option<Command>, AllocError>
    ensures { IfOk result (λ r. Reads refresh_line cursor.old r cursor.new) }
{
    let Some(name) = name(alloc, cursor)? else {
        return Ok(None);
    };
    let Some(depth) = cursor.nat() else {
        return Ok(None);
    };
    Ok(Some(Command::Refresh { name, depth }))
}

#[tactic(auto, unfolding(oc_machine::specs::Reading::purge_line))]
pub(crate) fn purge_line(alloc: Global, cursor: &mut Cursor) -> Result<Option<Command>, AllocError>
    ensures { IfOk result (λ r. Reads purge_line cursor.old r cursor.new) }
{
    let Some(name) = name(alloc, cursor)? else {
        return Ok(None);
    };
    Ok(Some(Command::Purge { name }))
}
