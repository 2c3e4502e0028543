//! Kinds, values, and fields with one or the other.

ghost use Rattle.std.specs.Prelude.{◌≡◌, ◌≤◌, ◌^◌, pos, neg_ℤ, IfOk};
ghost use Rattle.oc_machine.specs.ReadingValues.{base_named, a_base, a_kind, decl, single_named, single_of, a_single, a_value, given};
ghost use Rattle.oc_script.specs.Lexed.{IsWithin};
ghost use Rattle.oc_script.specs.Parsed.{Reads};

use crate::cursor::Cursor;
use crate::parser::lists::{Item, name, up_to};
use crate::words::{is_reserved, is_same};
use oc_machine::token::{Sign, Token};
use oc_model::command::{Decl, Given, Single, Singles, ValueText};
use oc_model::value::{Base, Kind, Txt};
use std::alloc::{AllocError, Global};

// ---- kinds

fn base_named(word: &[u8]) -> Option<Base>
    ensures { result ≡ base_named word.now }
{
    if is_same(word, b"bool") {
        return Some(Base::Bool);
    }
    if is_same(word, b"i8") {
        return Some(Base::I8);
    }
    if is_same(word, b"i16") {
        return Some(Base::I16);
    }
    if is_same(word, b"i32") {
        return Some(Base::I32);
    }
    if is_same(word, b"i64") {
        return Some(Base::I64);
    }
    if is_same(word, b"u64") {
        return Some(Base::U64);
    }
    if is_same(word, b"i128") {
        return Some(Base::I128);
    }
    if is_same(word, b"text") {
        return Some(Base::Text);
    }
    if is_same(word, b"ref") {
        return Some(Base::Ref);
    }
    None
}

fn base(cursor: &mut Cursor) -> Option<Base>
    ensures { Reads a_base cursor.old result cursor.new }
{
    let Some(Token::Word(word)) = cursor.next() else {
        return None;
    };
    base_named(word.as_slice())
}

/// The kind of one value, or in brackets that of an array.
#[tactic(auto, unfolding(oc_machine::specs::ReadingValues::a_kind))]
pub(crate) fn kind(cursor: &mut Cursor) -> Option<Kind>
    ensures { Reads a_kind cursor.old result cursor.new }
{
    if !cursor.takes(Sign::OpenBracket) {
        let base = base(cursor)?;
        return Some(Kind::One(base));
    }
    let base = base(cursor)?;
    if !cursor.takes(Sign::CloseBracket) {
        return None;
    }
    Some(Kind::Many(base))
}

// ---- values

/// The number that a `-` and these digits spell.
pub(crate) fn negative(number: u128) -> i128
    requires { number ≤ 2 ^ 127 }
    ensures { result ≡ neg_ℤ (pos number) }
{
    if number == 1 << 127 {
        return i128::MIN;
    }
    -(number as i128)
}

/// The value that a word spells: null, a truth value, or the object of a name.
fn single_named(alloc: Global, word: &Txt) -> Result<Option<Single>, AllocError>
    ensures { IfOk result (λ r. r ≡ single_named word.now) }
{
    if is_same(word.as_slice(), b"null") {
        return Ok(Some(Single::Null));
    }
    if is_same(word.as_slice(), b"true") {
        return Ok(Some(Single::Bool(true)));
    }
    if is_same(word.as_slice(), b"false") {
        return Ok(Some(Single::Bool(false)));
    }
    if is_reserved(word.as_slice()) {
        return Ok(None);
    }
    let name = word.copy(alloc)?;
    Ok(Some(Single::Name(name)))
}

/// The value that a token spells.
fn single_of(alloc: Global, token: &Token) -> Result<Option<Single>, AllocError>
    requires { IsWithin token.now }
    ensures { IfOk result (λ r. r ≡ single_of token.now) }
{
    match token {
        Token::Word(word) => single_named(alloc, word),
        Token::Nat(number) => Ok(Some(Single::Int(*number as i128))),
        Token::Minus(number) => Ok(Some(Single::Int(negative(*number)))),
        Token::Num(number) => Ok(Some(Single::Num(*number))),
        Token::Text(text) => {
            let text = text.copy(alloc)?;
            Ok(Some(Single::Text(text)))
        }
        Token::Sign(_) => Ok(None),
    }
}

impl Item for Single {
    ghost parser = { a_single };

    fn read(alloc: Global, cursor: &mut Cursor) -> Result<Option<Single>, AllocError> {
        let Some(token) = cursor.next() else {
            return Ok(None);
        };
        single_of(alloc, token)
    }
}

/// A single value, or in brackets the elements of an array.
#[tactic(auto, unfolding(oc_machine::specs::ReadingValues::a_value))]
pub(crate) fn value(alloc: Global, cursor: &mut Cursor) -> Result<Option<ValueText>, AllocError>
    ensures { IfOk result (λ r. Reads a_value cursor.old r cursor.new) }
{
    if !cursor.takes(Sign::OpenBracket) {
        let Some(single) = Single::read(alloc, cursor)? else {
            return Ok(None);
        };
        return Ok(Some(ValueText::One(single)));
    }
    let Some(elements) = up_to(alloc, cursor, Sign::CloseBracket)? else {
        return Ok(None);
    };
    Ok(Some(ValueText::Many(Singles::from_vec(elements))))
}

// ---- fields

impl Item for Decl {
    ghost parser = { decl };

    #[tactic(auto, unfolding(oc_machine::specs::ReadingValues::decl))]
    fn read(alloc: Global, cursor: &mut Cursor) -> Result<Option<Decl>, AllocError> {
        let Some(name) = name(alloc, cursor)? else {
            return Ok(None);
        };
        if !cursor.takes(Sign::Colon) {
            return Ok(None);
        }
        let Some(kind) = kind(cursor) else {
            return Ok(None);
        };
        Ok(Some(Decl { name, kind }))
    }
}

impl Item for Given {
    ghost parser = { given };

    #[tactic(auto, unfolding(oc_machine::specs::ReadingValues::given))]
    fn read(alloc: Global, cursor: &mut Cursor) -> Result<Option<Given>, AllocError> {
        let Some(name) = name(alloc, cursor)? else {
            return Ok(None);
        };
        if !cursor.takes(Sign::Colon) {
            return Ok(None);
        }
        let Some(value) = value(alloc, cursor)? else {
            return Ok(None);
        };
        Ok(Some(Given { name, value }))
    }
}
