//! The tokens that are left to read.

ghost use Rattle.std.specs.Prelude.{◌≡◌, ◌∷◌, [], length, drop, Some, IfSome, MatchOption, if◌then◌else◌};
ghost use Rattle.oc_machine.specs.Parsers.{is_sign, same_sign, is_word, next_is, next_says, nat, optional_nat};
ghost use Rattle.oc_script.specs.Lexed.{IsWithin, AreWithin};
ghost use Rattle.oc_script.specs.Parsed.{Reads};

use crate::words::is_same;
use oc_machine::token::{Sign, Token};
use std::marker::Model;

/// The tokens that are left of a line. Whole numbers are in their range.
#[derive(Drop)]
pub(crate) struct Cursor<'a> {
    left: &'a [Token],
}

impl<'a> Model for Cursor<'a> {
    ghost use Rattle.std.specs.Prelude.{List};
    ghost use Rattle.oc_machine.specs.declared.token.Token.{Token};
    ghost use Rattle.oc_script.specs.Lexed.{AreWithin};

    ghost Value = { List Token };

    ghost view = { λ c. c.left.now };

    ghost invariant = { λ c. AreWithin c.left.now };
}

impl<'a> Cursor<'a> {
    pub(crate) fn new(tokens: &'a [Token]) -> Cursor<'a>
        requires { AreWithin tokens.now }
        ensures { result ≡ tokens.now }
    {
        Cursor { left: tokens }
    }

    pub(crate) fn len(&self) -> usize
        ensures { result ≡ length self.now }
    {
        self.left.len()
    }

    /// Takes the next token.
    pub(crate) fn next(&mut self) -> Option<&'a Token>
        ensures value { MatchOption result (self.old ≡ []) (λ t. self.old ≡ t.now ∷ self.new) }
        ensures within { IfSome result (λ t. IsWithin t.now) }
    {
        let [token, left @ ..] = self.left else {
            return None;
        };
        self.left = left;
        Some(token)
    }

    /// Whether this sign comes next. Then it is taken.
    pub(crate) fn takes(&mut self, sign: Sign) -> bool
        ensures is { result ≡ next_is sign self.old }
        ensures left { self.new ≡ (if result then drop 1 self.old else self.old) }
    {
        let [token, left @ ..] = self.left else {
            return false;
        };
        if !is_sign(sign, token) {
            return false;
        }
        self.left = left;
        true
    }

    /// Whether this word comes next. Then it is taken.
    pub(crate) fn takes_word(&mut self, word: &[u8]) -> bool
        ensures is { result ≡ next_says word.now self.old }
        ensures left { self.new ≡ (if result then drop 1 self.old else self.old) }
    {
        let [token, left @ ..] = self.left else {
            return false;
        };
        if !is_word(word, token) {
            return false;
        }
        self.left = left;
        true
    }

    /// Takes the next token, which has to be a number.
    pub(crate) fn nat(&mut self) -> Option<u128>
        ensures { Reads nat self.old result self.new }
    {
        let Some(Token::Nat(number)) = self.next() else {
            return None;
        };
        Some(*number)
    }

    /// The next token, if it is a number. Then it is taken.
    pub(crate) fn optional_nat(&mut self) -> Option<u128>
        ensures { optional_nat self.old ≡ Some (result, self.new) }
    {
        let [Token::Nat(number), left @ ..] = self.left else {
            return None;
        };
        self.left = left;
        Some(*number)
    }
}

fn is_sign(sign: Sign, token: &Token) -> bool
    ensures { result ≡ is_sign sign token.now }
{
    match token {
        Token::Sign(other) => is_same_sign(sign, *other),
        _ => false,
    }
}

fn is_same_sign(sign: Sign, other: Sign) -> bool
    ensures { result ≡ same_sign sign other }
{
    match (sign, other) {
        (Sign::OpenBrace, Sign::OpenBrace) => true,
        (Sign::CloseBrace, Sign::CloseBrace) => true,
        (Sign::OpenParenthesis, Sign::OpenParenthesis) => true,
        (Sign::CloseParenthesis, Sign::CloseParenthesis) => true,
        (Sign::OpenBracket, Sign::OpenBracket) => true,
        (Sign::CloseBracket, Sign::CloseBracket) => true,
        (Sign::Colon, Sign::Colon) => true,
        (Sign::Comma, Sign::Comma) => true,
        (Sign::Dot, Sign::Dot) => true,
        (Sign::Equal, Sign::Equal) => true,
        (Sign::Less, Sign::Less) => true,
        (Sign::AtMost, Sign::AtMost) => true,
        (Sign::Greater, Sign::Greater) => true,
        (Sign::AtLeast, Sign::AtLeast) => true,
        _ => false,
    }
}

fn is_word(word: &[u8], token: &Token) -> bool
    ensures { result ≡ is_word word.now token.now }
{
    match token {
        Token::Word(other) => is_same(other.as_slice(), word),
        _ => false,
    }
}
