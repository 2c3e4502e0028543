//! Lines on the schema, and on the settings of classes and of the run.

ghost use Rattle.std.specs.Prelude.{◌≡◌, codes, IfOk};
ghost use Rattle.oc_machine.specs.Parsers.{◌>=>◌, pure, name, expect_word, next_is, optional};
ghost use Rattle.oc_machine.specs.ReadingValues.{a_kind};
ghost use Rattle.oc_machine.specs.Reading.{class_line, to_name, rename_line, convert_line, index_line, unindex_line, run_setting, switch_named, number_setting, flag_setting, class_setting, config_line};
ghost use Rattle.oc_script.specs.Parsed.{Reads};

use crate::cursor::Cursor;
use crate::parser::lists::{in_braces, name};
use crate::parser::values::kind;
use crate::words::is_same;
use oc_machine::token::{Sign, Token};
use oc_model::command::{Command, Decls, FlagSetting, NumberSetting, RunDepth};
use oc_model::value::Txt;
use std::alloc::{AllocError, Global};

/// The parent of a class, which stands behind a colon, if one does.
fn parent(alloc: Global, cursor: &mut Cursor) -> Result<Option<Option<Txt>>, AllocError>
    ensures { IfOk result (λ r. Reads (optional (next_is Sign.Colon) name) cursor.old r cursor.new) }
{
    if !cursor.takes(Sign::Colon) {
        return Ok(Some(None));
    }
    let Some(parent) = name(alloc, cursor)? else {
        return Ok(None);
    };
    Ok(Some(Some(parent)))
}

#[tactic(auto, unfolding(oc_machine::specs::Reading::class_line))]
pub(crate) fn class_line(alloc: Global, cursor: &mut Cursor) -> Result<Option<Command>, AllocError>
    ensures { IfOk result (λ r. Reads class_line cursor.old r cursor.new) }
{
    let Some(name) = name(alloc, cursor)? else {
        return Ok(None);
    };
    let Some(parent) = parent(alloc, cursor)? else {
        return Ok(None);
    };
    let Some(fields) = in_braces(alloc, cursor)? else {
        return Ok(None);
    };
    Ok(Some(Command::Class {
        name,
        parent,
        fields: Decls::from_vec(fields),
    }))
}

/// The name behind `to`.
fn to_name(alloc: Global, cursor: &mut Cursor) -> Result<Option<Txt>, AllocError>
    ensures { IfOk result (λ r. Reads to_name cursor.old r cursor.new) }
{
    if !cursor.takes_word(b"to") {
        return Ok(None);
    }
    name(alloc, cursor)
}

#[tactic(auto, unfolding(oc_machine::specs::Reading::rename_line))]
pub(crate) fn rename_line(alloc: Global, cursor: &mut Cursor) -> Result<Option<Command>, AllocError>
    ensures { IfOk result (λ r. Reads rename_line cursor.old r cursor.new) }
{
    let Some(class) = name(alloc, cursor)? else {
        return Ok(None);
    };
    if !cursor.takes(Sign::Dot) {
        let Some(to) = to_name(alloc, cursor)? else {
            return Ok(None);
        };
        return Ok(Some(Command::RenameClass { class, to }));
    }
    let Some(field) = name(alloc, cursor)? else {
        return Ok(None);
    };
    let Some(to) = to_name(alloc, cursor)? else {
        return Ok(None);
    };
    Ok(Some(Command::RenameField { class, field, to }))
}

/// The kind behind `from`, of a past field.
fn convert_from(class: Txt, field: Txt, cursor: &mut Cursor) -> Option<Command>
    ensures { Reads (expect_word (codes "from") >=> λ _. a_kind >=> λ k. pure (Command.Convert class field k)) cursor.old result cursor.new }
{
    if !cursor.takes_word(b"from") {
        return None;
    }
    let from = kind(cursor)?;
    Some(Command::Convert { class, field, from })
}

#[tactic(auto, unfolding(oc_machine::specs::Reading::convert_line))]
pub(crate) fn convert_line(
    alloc: Global,
    cursor: &mut Cursor,
) -> Result<Option<Command>, AllocError>
    ensures { IfOk result (λ r. Reads convert_line cursor.old r cursor.new) }
{
    let Some(class) = name(alloc, cursor)? else {
        return Ok(None);
    };
    if !cursor.takes(Sign::Dot) {
        return Ok(None);
    }
    let Some(field) = name(alloc, cursor)? else {
        return Ok(None);
    };
    Ok(convert_from(class, field, cursor))
}

#[tactic(auto, unfolding(oc_machine::specs::Reading::index_line))]
pub(crate) fn index_line(alloc: Global, cursor: &mut Cursor) -> Result<Option<Command>, AllocError>
    ensures { IfOk result (λ r. Reads index_line cursor.old r cursor.new) }
{
    let Some(class) = name(alloc, cursor)? else {
        return Ok(None);
    };
    if !cursor.takes(Sign::Dot) {
        return Ok(None);
    }
    let Some(field) = name(alloc, cursor)? else {
        return Ok(None);
    };
    Ok(Some(Command::Index { class, field }))
}

#[tactic(auto, unfolding(oc_machine::specs::Reading::unindex_line))]
pub(crate) fn unindex_line(
    alloc: Global,
    cursor: &mut Cursor,
) -> Result<Option<Command>, AllocError>
    ensures { IfOk result (λ r. Reads unindex_line cursor.old r cursor.new) }
{
    let Some(class) = name(alloc, cursor)? else {
        return Ok(None);
    };
    if !cursor.takes(Sign::Dot) {
        return Ok(None);
    }
    let Some(field) = name(alloc, cursor)? else {
        return Ok(None);
    };
    Ok(Some(Command::Unindex { class, field }))
}

// ---- settings

/// What stands behind the name of a depth of the run.
fn run_setting(word: &[u8], cursor: &mut Cursor) -> Option<Command>
    ensures { Reads (run_setting word.now) cursor.old result cursor.new }
{
    if is_same(word, b"activation") {
        let to = cursor.nat()?;
        return Some(Command::ConfigRun {
            which: RunDepth::Activation,
            to,
        });
    }
    if is_same(word, b"update") {
        let to = cursor.nat()?;
        return Some(Command::ConfigRun {
            which: RunDepth::Update,
            to,
        });
    }
    None
}

fn switch_named(word: &[u8]) -> Option<bool>
    ensures { result ≡ switch_named word.now }
{
    if is_same(word, b"on") {
        return Some(true);
    }
    if is_same(word, b"off") {
        return Some(false);
    }
    None
}

fn number_setting(class: Txt, setting: NumberSetting, cursor: &mut Cursor) -> Option<Command>
    ensures { Reads (number_setting class setting) cursor.old result cursor.new }
{
    let to = cursor.nat()?;
    Some(Command::ConfigNumber { class, setting, to })
}

fn flag_setting(class: Txt, setting: FlagSetting, cursor: &mut Cursor) -> Option<Command>
    ensures { Reads (flag_setting class setting) cursor.old result cursor.new }
{
    let Some(Token::Word(word)) = cursor.next() else {
        return None;
    };
    let on = switch_named(word.as_slice())?;
    Some(Command::ConfigFlag { class, setting, on })
}

/// What stands behind a class and the name of a setting.
fn class_setting(class: Txt, word: &[u8], cursor: &mut Cursor) -> Option<Command>
    ensures { Reads (class_setting class word.now) cursor.old result cursor.new }
{
    if is_same(word, b"minimum") {
        return number_setting(class, NumberSetting::Minimum, cursor);
    }
    if is_same(word, b"maximum") {
        return number_setting(class, NumberSetting::Maximum, cursor);
    }
    if is_same(word, b"update") {
        return number_setting(class, NumberSetting::Update, cursor);
    }
    if is_same(word, b"cascade_activate") {
        return flag_setting(class, FlagSetting::CascadeActivate, cursor);
    }
    if is_same(word, b"cascade_update") {
        return flag_setting(class, FlagSetting::CascadeUpdate, cursor);
    }
    if is_same(word, b"cascade_delete") {
        return flag_setting(class, FlagSetting::CascadeDelete, cursor);
    }
    None
}

/// A class stands before a dot, a depth of the run before a number.
#[tactic(auto, unfolding(oc_machine::specs::Reading::config_line))]
pub(crate) fn config_line(alloc: Global, cursor: &mut Cursor) -> Result<Option<Command>, AllocError>
    ensures { IfOk result (λ r. Reads config_line cursor.old r cursor.new) }
{
    let Some(class) = name(alloc, cursor)? else {
        return Ok(None);
    };
    if !cursor.takes(Sign::Dot) {
        return Ok(run_setting(class.as_slice(), cursor));
    }
    let Some(setting) = name(alloc, cursor)? else {
        return Ok(None);
    };
    Ok(class_setting(class, setting.as_slice(), cursor))
}
