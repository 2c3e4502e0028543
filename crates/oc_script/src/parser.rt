//! The command that tokens spell.

ghost use Rattle.std.specs.Prelude.{◌≡◌, ◌≤◌, IfOk};
ghost use Rattle.oc_machine.specs.Reading.{by_last_words, by_name_words, by_object_words, by_word, command_of, open_behind, is_deep};
ghost use Rattle.oc_script.specs.Lexed.{AreWithin};
ghost use Rattle.oc_script.specs.Parsed.{Reads};

mod expressions;
mod lists;
mod name_lines;
mod object_lines;
mod query_lines;
mod schema_lines;
mod values;

use crate::cursor::Cursor;
use crate::words::is_same;
use name_lines::{bind_line, forget_line, peek_line, show_line};
use object_lines::{
    activate_line, deactivate_line, delete_line, let_line, make_line, new_line, purge_line,
    refresh_line, store_line,
};
use oc_machine::token::{Sign, Token};
use oc_model::command::Command;
use query_lines::{example_line, query_line};
use schema_lines::{class_line, config_line, convert_line, index_line, rename_line, unindex_line};
use std::alloc::{AllocError, Global};

/// The most parentheses that may be open at a place.
const MOST_OPEN: usize = 64;

// ---- the word that a line begins with

fn by_last_words(
    alloc: Global,
    word: &[u8],
    cursor: &mut Cursor,
) -> Result<Option<Command>, AllocError>
    ensures { IfOk result (λ r. Reads (by_last_words word.now) cursor.old r cursor.new) }
{
    if is_same(word, b"query") {
        return query_line(alloc, cursor);
    }
    if is_same(word, b"example") {
        return example_line(alloc, cursor);
    }
    if is_same(word, b"commit") {
        return Ok(Some(Command::Commit));
    }
    if is_same(word, b"rollback") {
        return Ok(Some(Command::Rollback));
    }
    Ok(None)
}

fn by_name_words(
    alloc: Global,
    word: &[u8],
    cursor: &mut Cursor,
) -> Result<Option<Command>, AllocError>
    ensures { IfOk result (λ r. Reads (by_name_words word.now) cursor.old r cursor.new) }
{
    if is_same(word, b"bind") {
        return bind_line(alloc, cursor);
    }
    if is_same(word, b"forget") {
        return forget_line(alloc, cursor);
    }
    if is_same(word, b"names") {
        return Ok(Some(Command::Names));
    }
    if is_same(word, b"show") {
        return show_line(alloc, cursor);
    }
    if is_same(word, b"peek") {
        return peek_line(alloc, cursor);
    }
    by_last_words(alloc, word, cursor)
}

fn by_object_words(
    alloc: Global,
    word: &[u8],
    cursor: &mut Cursor,
) -> Result<Option<Command>, AllocError>
    ensures { IfOk result (λ r. Reads (by_object_words word.now) cursor.old r cursor.new) }
{
    if is_same(word, b"new") {
        return new_line(alloc, cursor);
    }
    if is_same(word, b"make") {
        return make_line(alloc, cursor);
    }
    if is_same(word, b"let") {
        return let_line(alloc, cursor);
    }
    if is_same(word, b"store") {
        return store_line(alloc, cursor);
    }
    if is_same(word, b"delete") {
        return delete_line(alloc, cursor);
    }
    if is_same(word, b"activate") {
        return activate_line(alloc, cursor);
    }
    if is_same(word, b"deactivate") {
        return deactivate_line(alloc, cursor);
    }
    if is_same(word, b"refresh") {
        return refresh_line(alloc, cursor);
    }
    if is_same(word, b"purge") {
        return purge_line(alloc, cursor);
    }
    by_name_words(alloc, word, cursor)
}

/// The command that begins with this word.
fn by_word(alloc: Global, word: &[u8], cursor: &mut Cursor) -> Result<Option<Command>, AllocError>
    ensures { IfOk result (λ r. Reads (by_word word.now) cursor.old r cursor.new) }
{
    if is_same(word, b"class") {
        return class_line(alloc, cursor);
    }
    if is_same(word, b"rename") {
        return rename_line(alloc, cursor);
    }
    if is_same(word, b"convert") {
        return convert_line(alloc, cursor);
    }
    if is_same(word, b"index") {
        return index_line(alloc, cursor);
    }
    if is_same(word, b"unindex") {
        return unindex_line(alloc, cursor);
    }
    if is_same(word, b"config") {
        return config_line(alloc, cursor);
    }
    by_object_words(alloc, word, cursor)
}

/// The command that the tokens of a line spell.
#[tactic(auto, unfolding(oc_machine::specs::Reading::command_of))]
pub(crate) fn command_of(alloc: Global, tokens: &[Token]) -> Result<Option<Command>, AllocError>
    requires { AreWithin tokens.now }
    ensures { IfOk result (λ r. r ≡ command_of tokens.now) }
{
    let mut cursor = Cursor::new(tokens);
    let Some(Token::Word(word)) = cursor.next() else {
        return Ok(None);
    };
    let Some(command) = by_word(alloc, word.as_slice(), &mut cursor)? else {
        return Ok(None);
    };
    if cursor.len() > 0 {
        return Ok(None);
    }
    Ok(Some(command))
}

// ---- parentheses

/// How many parentheses are open behind a token, where so many are before it.
fn open_behind(before: usize, token: &Token) -> usize
    requires { before ≤ MOST_OPEN }
    ensures { result ≡ open_behind before token.now }
{
    match token {
        Token::Sign(Sign::OpenParenthesis) => before + 1,
        Token::Sign(Sign::CloseParenthesis) => before.saturating_sub(1),
        _ => before,
    }
}

/// Whether more than 64 parentheses are open at some place.
#[tactic(auto, unfolding(oc_machine::specs::Reading::is_deep))]
pub(crate) fn is_deep(tokens: &[Token]) -> bool
    ensures { result ≡ is_deep tokens.now }
{
    let mut count = 0;
    for token in tokens {
        count = open_behind(count, token);
        if count > MOST_OPEN {
            return true;
        }
    }
    false
}
