//! Names, and lists of items.

ghost use Rattle.std.specs.Prelude.{◌≡◌, [], ◌∷◌, IfOk};
ghost use Rattle.std.specs.Option.{option_map};
ghost use Rattle.oc_machine.specs.Parsers.{Parser, name, next_is, more_of, separated_by, up_to, enclosed};
ghost use Rattle.oc_script.specs.Parsed.{Reads, after};

use crate::cursor::Cursor;
use crate::words::is_reserved;
use oc_machine::token::{Sign, Token};
use oc_model::value::Txt;
use std::alloc::{AllocError, Global};

/// A word that isn't reserved.
pub(crate) fn name(alloc: Global, cursor: &mut Cursor) -> Result<Option<Txt>, AllocError>
    ensures { IfOk result (λ r. Reads name cursor.old r cursor.new) }
{
    let Some(Token::Word(word)) = cursor.next() else {
        return Ok(None);
    };
    if is_reserved(word.as_slice()) {
        return Ok(None);
    }
    let name = word.copy(alloc)?;
    Ok(Some(name))
}

/// What a list holds.
pub(crate) trait Item: Drop {
    ghost parser: { Parser Self };

    fn read(alloc: Global, cursor: &mut Cursor) -> Result<Option<Self>, AllocError>
        ensures { IfOk result (λ r. Reads parser cursor.old r cursor.new) };
}

impl Item for Txt {
    ghost parser = { name };

    fn read(alloc: Global, cursor: &mut Cursor) -> Result<Option<Txt>, AllocError> {
        name(alloc, cursor)
    }
}

/// An item, and those that stand behind such signs. Each takes a token at least, so there are no
/// more than `most`.
#[tactic(auto, using(crate::proofs::Lists::more_items))]
fn items_after<I: Item>(
    alloc: Global,
    cursor: &mut Cursor,
    separator: Sign,
    most: usize,
    first: I,
) -> Result<Option<Vec<I>>, AllocError>
    ensures { IfOk result (λ r. Reads (λ ts. after (first ∷ []) (more_of (next_is separator) most I.parser ts)) cursor.old (option_map (λ v. v.items) r) cursor.new) }
{
    let mut items = Vec::new(alloc);
    items.push(first)?;
    for _ in 0..most {
        if !cursor.takes(separator) {
            return Ok(Some(items));
        }
        let Some(item) = I::read(alloc, cursor)? else {
            return Ok(None);
        };
        items.push(item)?;
    }
    Ok(Some(items))
}

/// Items with such signs between them: one at least.
pub(crate) fn separated_by<I: Item>(
    alloc: Global,
    cursor: &mut Cursor,
    separator: Sign,
) -> Result<Option<Vec<I>>, AllocError>
    ensures { IfOk result (λ r. Reads (separated_by (next_is separator) I.parser) cursor.old (option_map (λ v. v.items) r) cursor.new) }
{
    let most = cursor.len();
    let Some(first) = I::read(alloc, cursor)? else {
        return Ok(None);
    };
    items_after(alloc, cursor, separator, most, first)
}

/// Items with commas between them, perhaps none, and a closing sign.
pub(crate) fn up_to<I: Item>(
    alloc: Global,
    cursor: &mut Cursor,
    right: Sign,
) -> Result<Option<Vec<I>>, AllocError>
    ensures { IfOk result (λ r. Reads (up_to right I.parser) cursor.old (option_map (λ v. v.items) r) cursor.new) }
{
    if cursor.takes(right) {
        return Ok(Some(Vec::new(alloc)));
    }
    let Some(items) = separated_by(alloc, cursor, Sign::Comma)? else {
        return Ok(None);
    };
    if !cursor.takes(right) {
        return Ok(None);
    }
    Ok(Some(items))
}

/// Items between braces, perhaps none.
pub(crate) fn in_braces<I: Item>(
    alloc: Global,
    cursor: &mut Cursor,
) -> Result<Option<Vec<I>>, AllocError>
    ensures { IfOk result (λ r. Reads (enclosed Sign.OpenBrace Sign.CloseBrace I.parser) cursor.old (option_map (λ v. v.items) r) cursor.new) }
{
    if !cursor.takes(Sign::OpenBrace) {
        return Ok(None);
    }
    up_to(alloc, cursor, Sign::CloseBrace)
}
