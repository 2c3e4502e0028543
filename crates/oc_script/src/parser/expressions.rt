//! Paths, expressions and criteria.

ghost use Rattle.std.specs.Prelude.{◌≡◌, [], ◌∷◌, codes, pos, neg_ℤ, IfOk};
ghost use Rattle.std.specs.Option.{option_map};
ghost use Rattle.oc_machine.specs.Parsers.{pure, next_says, name_or_number, more_of};
ghost use Rattle.oc_machine.specs.ReadingExpressions.{path, direction_named, criterion, literal_named, literal_of, a_literal, text_of, quoted_text, compare_op, compared, matched, asked_by_word, asked, atom, joined, operand, factor, term, terms, expr_within, an_expr};
ghost use Rattle.oc_script.specs.Lexed.{IsWithin};
ghost use Rattle.oc_script.specs.Parsed.{Reads, after};

use crate::cursor::Cursor;
use crate::parser::lists::{Item, name, separated_by};
use crate::parser::values::negative;
use crate::words::{is_reserved, is_same};
use oc_machine::token::{Sign, Token};
use oc_model::command::{CompareOp, CritText, ExprText, ExprTexts, Literal, PathText, TextOp};
use oc_model::value::Txt;
use sqlite_items::Boxed;
use std::alloc::{AllocError, Global};

/// The most names of a path.
const MOST_NAMES: usize = 16;

// ---- paths

/// 1 to 16 names with dots between them.
#[tactic(auto, unfolding(oc_machine::specs::ReadingExpressions::path))]
fn path(alloc: Global, cursor: &mut Cursor) -> Result<Option<PathText>, AllocError>
    ensures { IfOk result (λ r. Reads path cursor.old r cursor.new) }
{
    let Some(names) = separated_by(alloc, cursor, Sign::Dot)? else {
        return Ok(None);
    };
    if names.len() > MOST_NAMES {
        return Ok(None);
    }
    Ok(Some(PathText::from_vec(names)))
}

/// Whether the word says ascending or descending.
fn direction_named(word: &[u8]) -> Option<bool>
    ensures { result ≡ direction_named word.now }
{
    if is_same(word, b"asc") {
        return Some(true);
    }
    if is_same(word, b"desc") {
        return Some(false);
    }
    None
}

impl Item for CritText {
    ghost parser = { criterion };

    #[tactic(auto, unfolding(oc_machine::specs::ReadingExpressions::criterion))]
    fn read(alloc: Global, cursor: &mut Cursor) -> Result<Option<CritText>, AllocError> {
        let Some(path) = path(alloc, cursor)? else {
            return Ok(None);
        };
        let Some(Token::Word(word)) = cursor.next() else {
            return Ok(None);
        };
        let Some(ascending) = direction_named(word.as_slice()) else {
            return Ok(None);
        };
        Ok(Some(CritText { path, ascending }))
    }
}

// ---- what a path is asked

fn literal_named(word: &[u8]) -> Option<Literal>
    ensures { result ≡ literal_named word.now }
{
    if is_same(word, b"null") {
        return Some(Literal::Null);
    }
    if is_same(word, b"true") {
        return Some(Literal::Bool(true));
    }
    if is_same(word, b"false") {
        return Some(Literal::Bool(false));
    }
    None
}

/// What a token compares with.
fn literal_of(alloc: Global, token: &Token) -> Result<Option<Literal>, AllocError>
    requires { IsWithin token.now }
    ensures { IfOk result (λ r. r ≡ literal_of token.now) }
{
    match token {
        Token::Word(word) => Ok(literal_named(word.as_slice())),
        Token::Nat(number) => Ok(Some(Literal::Int(*number as i128))),
        Token::Minus(number) => Ok(Some(Literal::Int(negative(*number)))),
        Token::Text(text) => {
            let text = text.copy(alloc)?;
            Ok(Some(Literal::Text(text)))
        }
        Token::Num(_) | Token::Sign(_) => Ok(None),
    }
}

fn compare_op(sign: Sign) -> Option<CompareOp>
    ensures { result ≡ compare_op sign }
{
    match sign {
        Sign::Equal => Some(CompareOp::Equal),
        Sign::Less => Some(CompareOp::Less),
        Sign::AtMost => Some(CompareOp::AtMost),
        Sign::Greater => Some(CompareOp::Greater),
        Sign::AtLeast => Some(CompareOp::AtLeast),
        _ => None,
    }
}

fn compared(
    alloc: Global,
    path: PathText,
    op: CompareOp,
    cursor: &mut Cursor,
) -> Result<Option<ExprText>, AllocError>
    ensures { IfOk result (λ r. Reads (compared path op) cursor.old r cursor.new) }
{
    let Some(token) = cursor.next() else {
        return Ok(None);
    };
    let Some(literal) = literal_of(alloc, token)? else {
        return Ok(None);
    };
    Ok(Some(ExprText::Compare { path, op, literal }))
}

fn matched(
    alloc: Global,
    path: PathText,
    op: TextOp,
    cursor: &mut Cursor,
) -> Result<Option<ExprText>, AllocError>
    ensures { IfOk result (λ r. Reads (matched path op) cursor.old r cursor.new) }
{
    let Some(Token::Text(text)) = cursor.next() else {
        return Ok(None);
    };
    let text = text.copy(alloc)?;
    Ok(Some(ExprText::Match { path, op, text }))
}

/// The object of a name or of a number.
fn is_object(
    alloc: Global,
    path: PathText,
    cursor: &mut Cursor,
) -> Result<Option<ExprText>, AllocError>
    ensures { IfOk result (λ r. Reads (name_or_number (λ n. pure (ExprText.IsName path n)) (λ k. pure (ExprText.IsNumber path k))) cursor.old r cursor.new) }
{
    match cursor.next() {
        Some(Token::Num(number)) => Ok(Some(ExprText::IsNumber {
            path,
            number: *number,
        })),
        Some(Token::Word(word)) => {
            if is_reserved(word.as_slice()) {
                return Ok(None);
            }
            let name = word.copy(alloc)?;
            Ok(Some(ExprText::IsName { path, name }))
        }
        _ => Ok(None),
    }
}

/// What stands behind a path and such a word.
fn asked_by_word(
    alloc: Global,
    path: PathText,
    word: &[u8],
    cursor: &mut Cursor,
) -> Result<Option<ExprText>, AllocError>
    ensures { IfOk result (λ r. Reads (asked_by_word path word.now) cursor.old r cursor.new) }
{
    if is_same(word, b"like") {
        return matched(alloc, path, TextOp::Like, cursor);
    }
    if is_same(word, b"contains") {
        return matched(alloc, path, TextOp::Contains, cursor);
    }
    if is_same(word, b"starts") {
        return matched(alloc, path, TextOp::Starts, cursor);
    }
    if is_same(word, b"ends") {
        return matched(alloc, path, TextOp::Ends, cursor);
    }
    if is_same(word, b"is") {
        return is_object(alloc, path, cursor);
    }
    if is_same(word, b"example") {
        let Some(name) = name(alloc, cursor)? else {
            return Ok(None);
        };
        return Ok(Some(ExprText::Example { path, name }));
    }
    Ok(None)
}

/// What stands behind a path.
fn asked(alloc: Global, path: PathText, cursor: &mut Cursor) -> Result<Option<ExprText>, AllocError>
    ensures { IfOk result (λ r. Reads (asked path) cursor.old r cursor.new) }
{
    match cursor.next() {
        Some(Token::Sign(sign)) => {
            let Some(op) = compare_op(*sign) else {
                return Ok(None);
            };
            compared(alloc, path, op, cursor)
        }
        Some(Token::Word(word)) => asked_by_word(alloc, path, word.as_slice(), cursor),
        _ => Ok(None),
    }
}

/// A path, and what it is asked.
#[tactic(auto, unfolding(oc_machine::specs::ReadingExpressions::atom))]
fn atom(alloc: Global, cursor: &mut Cursor) -> Result<Option<ExprText>, AllocError>
    ensures { IfOk result (λ r. Reads atom cursor.old r cursor.new) }
{
    let Some(path) = path(alloc, cursor)? else {
        return Ok(None);
    };
    asked(alloc, path, cursor)
}

// ---- expressions

/// The only factor, or that all of them hold.
fn all_of(factors: Vec<ExprText>) -> ExprText
    ensures { result ≡ joined ExprText.And factors.items }
{
    let mut factors = factors;
    if factors.len() == 1 {
        return factors.remove(0);
    }
    ExprText::And(ExprTexts::from_vec(factors))
}

/// The only term, or that one of them holds.
fn one_of(terms: Vec<ExprText>) -> ExprText
    ensures { result ≡ joined ExprText.Or terms.items }
{
    let mut terms = terms;
    if terms.len() == 1 {
        return terms.remove(0);
    }
    ExprText::Or(ExprTexts::from_vec(terms))
}

/// An expression in parentheses, or what a path is asked.
///
/// Here and below, parentheses may stand within one another as many times as `depth` says.
#[cycle(expression)]
#[tactic(auto, using(crate::proofs::Expressions::within), unfolding(oc_machine::specs::ReadingExpressions::operand))]
fn operand(alloc: Global, cursor: &mut Cursor, depth: usize) -> Result<Option<ExprText>, AllocError>
    ensures { IfOk result (λ r. Reads (operand (expr_within depth)) cursor.old r cursor.new) }
{
    if !cursor.takes(Sign::OpenParenthesis) {
        return atom(alloc, cursor);
    }
    if depth == 0 {
        return Ok(None);
    }
    let Some(inner) = terms(alloc, cursor, depth - 1)? else {
        return Ok(None);
    };
    if !cursor.takes(Sign::CloseParenthesis) {
        return Ok(None);
    }
    Ok(Some(inner))
}

/// An operand, perhaps behind `not`.
#[cycle(expression)]
#[tactic(auto, unfolding(oc_machine::specs::ReadingExpressions::factor))]
fn factor(alloc: Global, cursor: &mut Cursor, depth: usize) -> Result<Option<ExprText>, AllocError>
    ensures { IfOk result (λ r. Reads (factor (expr_within depth)) cursor.old r cursor.new) }
{
    if !cursor.takes_word(b"not") {
        return operand(alloc, cursor, depth);
    }
    let Some(operand) = operand(alloc, cursor, depth)? else {
        return Ok(None);
    };
    let operand = Boxed::new(alloc, operand)?;
    Ok(Some(ExprText::Not(operand)))
}

/// A factor, and those that stand behind `and`.
#[cycle(expression)]
#[tactic(auto, using(crate::proofs::Lists::more_items))]
fn factors_after(
    alloc: Global,
    cursor: &mut Cursor,
    depth: usize,
    most: usize,
    first: ExprText,
) -> Result<Option<Vec<ExprText>>, AllocError>
    ensures { IfOk result (λ r. Reads (λ ts. after (first ∷ []) (more_of (next_says (codes "and")) most (factor (expr_within depth)) ts)) cursor.old (option_map (λ v. v.items) r) cursor.new) }
{
    let mut factors = Vec::new(alloc);
    factors.push(first)?;
    for _ in 0..most {
        if !cursor.takes_word(b"and") {
            return Ok(Some(factors));
        }
        let Some(factor) = factor(alloc, cursor, depth)? else {
            return Ok(None);
        };
        factors.push(factor)?;
    }
    Ok(Some(factors))
}

/// Factors with `and` between them.
#[cycle(expression)]
#[tactic(auto, unfolding(oc_machine::specs::ReadingExpressions::term))]
fn term(alloc: Global, cursor: &mut Cursor, depth: usize) -> Result<Option<ExprText>, AllocError>
    ensures { IfOk result (λ r. Reads (term (expr_within depth)) cursor.old r cursor.new) }
{
    let most = cursor.len();
    let Some(first) = factor(alloc, cursor, depth)? else {
        return Ok(None);
    };
    let Some(factors) = factors_after(alloc, cursor, depth, most, first)? else {
        return Ok(None);
    };
    Ok(Some(all_of(factors)))
}

/// A term, and those that stand behind `or`.
#[cycle(expression)]
#[tactic(auto, using(crate::proofs::Lists::more_items))]
fn terms_after(
    alloc: Global,
    cursor: &mut Cursor,
    depth: usize,
    most: usize,
    first: ExprText,
) -> Result<Option<Vec<ExprText>>, AllocError>
    ensures { IfOk result (λ r. Reads (λ ts. after (first ∷ []) (more_of (next_says (codes "or")) most (term (expr_within depth)) ts)) cursor.old (option_map (λ v. v.items) r) cursor.new) }
{
    let mut terms = Vec::new(alloc);
    terms.push(first)?;
    for _ in 0..most {
        if !cursor.takes_word(b"or") {
            return Ok(Some(terms));
        }
        let Some(term) = term(alloc, cursor, depth)? else {
            return Ok(None);
        };
        terms.push(term)?;
    }
    Ok(Some(terms))
}

/// Terms with `or` between them.
#[cycle(expression)]
#[tactic(auto, unfolding(oc_machine::specs::ReadingExpressions::terms))]
fn terms(alloc: Global, cursor: &mut Cursor, depth: usize) -> Result<Option<ExprText>, AllocError>
    ensures { IfOk result (λ r. Reads (terms (expr_within depth)) cursor.old r cursor.new) }
{
    let most = cursor.len();
    let Some(first) = term(alloc, cursor, depth)? else {
        return Ok(None);
    };
    let Some(terms) = terms_after(alloc, cursor, depth, most, first)? else {
        return Ok(None);
    };
    Ok(Some(one_of(terms)))
}

/// An expression. Each parenthesis is a token, so their number bounds the depth.
#[tactic(auto, using(crate::proofs::Expressions::within), unfolding(oc_machine::specs::ReadingExpressions::an_expr))]
pub(crate) fn expression(alloc: Global, cursor: &mut Cursor) -> Result<Option<ExprText>, AllocError>
    ensures { IfOk result (λ r. Reads an_expr cursor.old r cursor.new) }
{
    let depth = cursor.len();
    if depth == 0 {
        return Ok(None);
    }
    terms(alloc, cursor, depth - 1)
}
