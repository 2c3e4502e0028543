//! Lines on names and on what is stored.

ghost use Rattle.std.specs.Prelude.{◌≡◌, IfOk};
ghost use Rattle.oc_machine.specs.Reading.{bind_line, forget_line, show_line, side_named, a_side, peek_line};
ghost use Rattle.oc_script.specs.Parsed.{Reads};

use crate::cursor::Cursor;
use crate::parser::lists::name;
use crate::words::{is_reserved, is_same};
use oc_machine::token::{Sign, Token};
use oc_model::command::{Command, SideText};
use std::alloc::{AllocError, Global};

/// A name is bound to the object of a number, or to that of a name's field.
#[tactic(auto, unfolding(oc_machine::specs::Reading::bind_line))]
pub(crate) fn bind_line(alloc: Global, cursor: &mut Cursor) -> Result<Option<Command>, AllocError>
    ensures { IfOk result (λ r. Reads bind_line cursor.old r cursor.new) }
{
    let Some(bound) = name(alloc, cursor)? else {
        return Ok(None);
    };
    match cursor.next() {
        Some(Token::Num(number)) => Ok(Some(Command::BindNumber {
            name: bound,
            number: *number,
        })),
        Some(Token::Word(word)) => {
            if is_reserved(word.as_slice()) || !cursor.takes(Sign::Dot) {
                return Ok(None);
            }
            let source = word.copy(alloc)?;
            let Some(field) = name(alloc, cursor)? else {
                return Ok(None);
            };
            Ok(Some(Command::BindField {
                name: bound,
                source,
                field,
            }))
        }
        _ => Ok(None),
    }
}

#[tactic(auto, unfolding(oc_machine::specs::Reading::forget_line))]
pub(crate) fn forget_line(alloc: Global, cursor: &mut Cursor) -> Result<Option<Command>, AllocError>
    ensures { IfOk result (λ r. Reads forget_line cursor.old r cursor.new) }
{
    let Some(name) = name(alloc, cursor)? else {
        return Ok(None);
    };
    Ok(Some(Command::Forget { name }))
}

#[tactic(auto, unfolding(oc_machine::specs::Reading::show_line))]
pub(crate) fn show_line(alloc: Global, cursor: &mut Cursor) -> Result<Option<Command>, AllocError>
    ensures { IfOk result (λ r. Reads show_line cursor.old r cursor.new) }
{
    let Some(name) = name(alloc, cursor)? else {
        return Ok(None);
    };
    Ok(Some(Command::Show { name }))
}

fn side_named(word: &[u8]) -> Option<SideText>
    ensures { result ≡ side_named word.now }
{
    if is_same(word, b"committed") {
        return Some(SideText::Committed);
    }
    if is_same(word, b"session") {
        return Some(SideText::Session);
    }
    None
}

fn side(cursor: &mut Cursor) -> Option<SideText>
    ensures { Reads a_side cursor.old result cursor.new }
{
    let Some(Token::Word(word)) = cursor.next() else {
        return None;
    };
    side_named(word.as_slice())
}

/// A name or a number, a depth, and a side.
#[tactic(auto, unfolding(oc_machine::specs::Reading::peek_line))]
pub(crate) fn peek_line(alloc: Global, cursor: &mut Cursor) -> Result<Option<Command>, AllocError>
    ensures { IfOk result (λ r. Reads peek_line cursor.old r cursor.new) }
{
    match cursor.next() {
        Some(Token::Num(number)) => {
            let Some(depth) = cursor.nat() else {
                return Ok(None);
            };
            let Some(side) = side(cursor) else {
                return Ok(None);
            };
            Ok(Some(Command::PeekNumber {
                number: *number,
                depth,
                side,
            }))
        }
        Some(Token::Word(word)) => {
            if is_reserved(word.as_slice()) {
                return Ok(None);
            }
            let Some(depth) = cursor.nat() else {
                return Ok(None);
            };
            let Some(side) = side(cursor) else {
                return Ok(None);
            };
            let name = word.copy(alloc)?;
            Ok(Some(Command::PeekName { name, depth, side }))
        }
        _ => Ok(None),
    }
}
