//! The tokens of a line.

use oc_model::value::Txt;

/// A sign of its own.
#[derive(Clone, Copy, PartialEq, Eq)]
pub enum Sign {
    OpenBrace,
    CloseBrace,
    OpenParenthesis,
    CloseParenthesis,
    OpenBracket,
    CloseBracket,
    Colon,
    Comma,
    Dot,
    Equal,
    Less,
    AtMost,
    Greater,
    AtLeast,
}

#[derive(Drop)]
pub enum Token {
    /// A name or a reserved word, of 1 to 64 bytes.
    Word(Txt),
    /// A whole number below 2^127.
    Nat(u128),
    /// `-` and a whole number of at most 2^127.
    Minus(u128),
    /// `~` and a whole number below 2^127.
    Num(u128),
    /// A text, without its quotes and escapes.
    Text(Txt),
    Sign(Sign),
}
