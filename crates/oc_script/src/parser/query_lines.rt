//! Lines that ask for objects.

ghost use Rattle.std.specs.Prelude.{◌≡◌, IfOk};
ghost use Rattle.std.specs.Option.{option_map};
ghost use Rattle.oc_machine.specs.Parsers.{next_says, optional};
ghost use Rattle.oc_machine.specs.ReadingExpressions.{an_expr};
ghost use Rattle.oc_machine.specs.Reading.{criteria, query_line, example_line};
ghost use Rattle.std.specs.Prelude.{codes};
ghost use Rattle.oc_script.specs.Parsed.{Reads};

use crate::cursor::Cursor;
use crate::parser::expressions::expression;
use crate::parser::lists::{name, separated_by};
use oc_machine::token::Sign;
use oc_model::command::{Command, CritText, CritTexts, ExprText};
use std::alloc::{AllocError, Global};

/// The expression behind `where`, if that comes next.
fn filter(alloc: Global, cursor: &mut Cursor) -> Result<Option<Option<ExprText>>, AllocError>
    ensures { IfOk result (λ r. Reads (optional (next_says (codes "where")) an_expr) cursor.old r cursor.new) }
{
    if !cursor.takes_word(b"where") {
        return Ok(Some(None));
    }
    let Some(filter) = expression(alloc, cursor)? else {
        return Ok(None);
    };
    Ok(Some(Some(filter)))
}

/// The criteria behind `order`, or none.
#[tactic(auto, unfolding(oc_machine::specs::Reading::criteria))]
fn criteria(alloc: Global, cursor: &mut Cursor) -> Result<Option<Vec<CritText>>, AllocError>
    ensures { IfOk result (λ r. Reads criteria cursor.old (option_map (λ v. v.items) r) cursor.new) }
{
    if !cursor.takes_word(b"order") {
        return Ok(Some(Vec::new(alloc)));
    }
    separated_by(alloc, cursor, Sign::Comma)
}

#[tactic(auto, unfolding(oc_machine::specs::Reading::query_line))]
pub(crate) fn query_line(alloc: Global, cursor: &mut Cursor) -> Result<Option<Command>, AllocError>
    ensures { IfOk result (λ r. Reads query_line cursor.old r cursor.new) }
{
    let Some(class) = name(alloc, cursor)? else {
        return Ok(None);
    };
    let Some(filter) = filter(alloc, cursor)? else {
        return Ok(None);
    };
    let Some(criteria) = criteria(alloc, cursor)? else {
        return Ok(None);
    };
    Ok(Some(Command::Query {
        class,
        filter,
        criteria: CritTexts::from_vec(criteria),
    }))
}

#[tactic(auto, unfolding(oc_machine::specs::Reading::example_line))]
pub(crate) fn example_line(
    alloc: Global,
    cursor: &mut Cursor,
) -> Result<Option<Command>, AllocError>
    ensures { IfOk result (λ r. Reads example_line cursor.old r cursor.new) }
{
    let Some(name) = name(alloc, cursor)? else {
        return Ok(None);
    };
    Ok(Some(Command::Example { name }))
}
