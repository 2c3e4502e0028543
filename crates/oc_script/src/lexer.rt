//! The tokens of a line.
//!
//! Each reader takes the bytes from some place on, and says how many of them it took.

ghost use Rattle.std.specs.Prelude.{List, ◌≡◌, ◌+◌, ◌≤◌, ◌<◌, ◌∷◌, ◌-◌, ◌*◌, ◌^◌, MatchOption, length, drop, IfOk, IfSome, OnSome, Option, Some, None, if◌then◌else◌, nat_le, Bool};
ghost use Rattle.std.specs.List.{prefix_len};
ghost use Rattle.std.specs.Option.{option_map};
ghost use Rattle.std.specs.Char.{is_ascii_digit};
ghost use Rattle.std.specs.Str.{is_utf8};
ghost use Rattle.oc_machine.specs.Lexing.{is_blank, begins_word, in_word, number, natural, word, escaped, hex_digit, by_code, escape, piece, text_after, lone_sign, with_equal, sign, token, tokens_after, tokens};
ghost use Rattle.oc_script.specs.Lexed.{token_at, plain_at, IsWithin, AreWithin};

use oc_machine::token::{Sign, Token};
use oc_model::value::Txt;
use std::alloc::{AllocError, Global};

/// The greatest whole number without a sign.
const NATURAL_LIMIT: u128 = (1 << 127) - 1;

/// The greatest whole number behind a `-`.
const MINUS_LIMIT: u128 = 1 << 127;

/// The bytes from a place on.
fn tail(text: &[u8], at: usize) -> &[u8]
    requires { at ≤ length text.now }
    ensures { result.now ≡ drop at text.now }
{
    &text[at..]
}

// ---- numbers and words

/// How many digits stand at the front.
fn digits_at_front(text: &[u8]) -> usize
    ensures is { result ≡ prefix_len is_ascii_digit text.now }
    ensures within { result ≤ length text.now }
{
    let mut count = 0;
    for byte in text {
        if !byte.is_ascii_digit() {
            return count;
        }
        count += 1;
    }
    count
}

/// The number that one digit more spells, if it fits.
fn with_digit(number: u128, digit: u8) -> Option<u128>
    ensures { MatchOption result (2 ^ 128 ≤ 10 * number + (digit - 48)) (λ n. n ≡ 10 * number + (digit - 48)) }
{
    let tens = number.checked_mul(10)?;
    tens.checked_add(u128::from(digit.saturating_sub(b'0')))
}

/// The number that the digits spell, if it is at most the limit.
#[tactic(auto, using(crate::proofs::Numbers::past_limit))]
fn number_within(limit: u128, digits: &[u8]) -> Option<u128>
    ensures { result ≡ (if nat_le (number digits.now) limit then Some (number digits.now) else None) }
{
    let mut number: u128 = 0;
    for digit in digits {
        number = with_digit(number, *digit)?;
    }
    if number <= limit { Some(number) } else { None }
}

/// The number that the digits at the front spell, and how many they are: 1 to 39.
#[tactic(auto, unfolding(oc_machine::specs::Lexing::natural))]
fn natural(limit: u128, text: &[u8]) -> Option<(u128, usize)>
    ensures is { result ≡ natural limit text.now }
    ensures some { IfSome result (λ p. 0 < p.1) }
    ensures within { IfSome result (λ p. p.1 ≤ length text.now) }
    ensures limit { IfSome result (λ p. p.0 ≤ limit) }
{
    let count = digits_at_front(text);
    if count == 0 || count > 39 {
        return None;
    }
    let number = number_within(limit, &text[..count])?;
    Some((number, count))
}

fn is_in_word(byte: u8) -> bool
    ensures { result ≡ in_word byte }
{
    byte.is_ascii_alphanumeric() || byte == b'_'
}

/// How many bytes at the front are letters, digits or `_`.
fn word_len(text: &[u8]) -> usize
    ensures is { result ≡ prefix_len in_word text.now }
    ensures within { result ≤ length text.now }
{
    let mut count = 0;
    for byte in text {
        if !is_in_word(*byte) {
            return count;
        }
        count += 1;
    }
    count
}

/// The word at the front, of at most 64 bytes, and its length.
#[tactic(auto, unfolding(oc_machine::specs::Lexing::word))]
fn word(alloc: Global, text: &[u8]) -> Result<Option<(Txt, usize)>, AllocError>
    ensures is { IfOk result (λ r. r ≡ word text.now) }
    ensures within { IfOk result (λ r. IfSome r (λ p. p.1 ≤ length text.now)) }
{
    let count = word_len(text);
    if count > 64 {
        return Ok(None);
    }
    let word = Txt::from_slice(alloc, &text[..count])?;
    Ok(Some((word, count)))
}

// ---- texts

/// The byte that a letter behind `\` stands for.
fn escaped(letter: u8) -> Option<u8>
    ensures { result ≡ escaped letter }
{
    match letter {
        b'"' => Some(b'"'),
        b'\\' => Some(b'\\'),
        b'n' => Some(b'\n'),
        b'r' => Some(b'\r'),
        b't' => Some(b'\t'),
        _ => None,
    }
}

/// The value of a hexadecimal digit.
fn hex_digit(digit: u8) -> Option<u8>
    ensures is { result ≡ hex_digit digit }
    ensures small { IfSome result (λ n. n < 16) }
{
    match digit {
        b'0'..=b'9' => Some(digit - b'0'),
        b'a'..=b'f' => Some(digit - b'a' + 10),
        b'A'..=b'F' => Some(digit - b'A' + 10),
        _ => None,
    }
}

/// The byte that two hexadecimal digits spell, of at most 7f.
fn by_code(text: &[u8]) -> Option<u8>
    ensures is { result ≡ by_code text.now }
    ensures within { OnSome result (2 ≤ length text.now) }
{
    let [first, second, ..] = text else {
        return None;
    };
    let high = hex_digit(*first)?;
    let low = hex_digit(*second)?;
    let byte = 16 * high + low;
    if byte < 128 { Some(byte) } else { None }
}

/// The byte that what follows a `\` stands for, and how many bytes that takes.
fn escape(text: &[u8]) -> Option<(u8, usize)>
    ensures is { result ≡ escape text.now }
    ensures within { IfSome result (λ p. p.1 ≤ length text.now) }
{
    let [letter, code @ ..] = text else {
        return None;
    };
    if *letter == b'x' {
        let byte = by_code(code)?;
        return Some((byte, 3));
    }
    let byte = escaped(*letter)?;
    Some((byte, 1))
}

/// The byte of one piece of a text, and how many bytes the piece takes beside its first.
#[tactic(auto, unfolding(oc_machine::specs::Lexing::piece))]
fn piece(first: u8, rest: &[u8]) -> Option<(u8, usize)>
    ensures is { result ≡ piece first rest.now }
    ensures within { IfSome result (λ p. p.1 ≤ length rest.now) }
{
    if first == b'\\' {
        return escape(rest);
    }
    if first < b' ' || first == 127 {
        return None;
    }
    Some((first, 0))
}

/// The text behind an opening quote, and how many bytes it takes with its closing one.
#[tactic(auto, using(crate::proofs::Shifts::text_goes_on, crate::proofs::Shifts::no_piece, crate::proofs::Shifts::text_ends))]
fn text(alloc: Global, text: &[u8]) -> Result<Option<(Txt, usize)>, AllocError>
    ensures is { IfOk result (λ r. r ≡ text_after 0 text.now) }
    ensures within { IfOk result (λ r. IfSome r (λ p. p.1 ≤ length text.now)) }
{
    let mut bytes = Vec::new(alloc);
    let mut at = 0;
    while at < text.len() {
        let first = text[at];
        if first == b'"' {
            return Ok(Some((Txt::from_vec(bytes), at + 1)));
        }
        let Some((byte, more)) = piece(first, tail(text, at + 1)) else {
            return Ok(None);
        };
        bytes.push(byte)?;
        at += 1 + more;
    }
    Ok(None)
}

// ---- tokens

/// The token of a `<` or `>`, which reach over a `=` behind them.
fn with_equal(alone: Sign, both: Sign, rest: &[u8]) -> Option<(Token, usize)>
    ensures is { result ≡ with_equal alone both rest.now }
    ensures within { IfSome result (λ p. p.1 ≤ length rest.now) }
    ensures number { IfSome result (λ p. IsWithin p.0) }
{
    match rest {
        [b'=', ..] => Some((Token::Sign(both), 1)),
        _ => Some((Token::Sign(alone), 0)),
    }
}

fn lone_sign(byte: u8) -> Option<Sign>
    ensures { result ≡ lone_sign byte }
{
    match byte {
        b'{' => Some(Sign::OpenBrace),
        b'}' => Some(Sign::CloseBrace),
        b'(' => Some(Sign::OpenParenthesis),
        b')' => Some(Sign::CloseParenthesis),
        b'[' => Some(Sign::OpenBracket),
        b']' => Some(Sign::CloseBracket),
        b':' => Some(Sign::Colon),
        b',' => Some(Sign::Comma),
        b'.' => Some(Sign::Dot),
        b'=' => Some(Sign::Equal),
        _ => None,
    }
}

#[tactic(auto, unfolding(oc_machine::specs::Lexing::sign))]
fn sign(first: u8, rest: &[u8]) -> Option<(Token, usize)>
    ensures is { result ≡ sign first rest.now }
    ensures within { IfSome result (λ p. p.1 ≤ length rest.now) }
    ensures number { IfSome result (λ p. IsWithin p.0) }
{
    match first {
        b'<' => with_equal(Sign::Less, Sign::AtMost, rest),
        b'>' => with_equal(Sign::Greater, Sign::AtLeast, rest),
        _ => {
            let sign = lone_sign(first)?;
            Some((Token::Sign(sign), 0))
        }
    }
}

pub(crate) fn is_blank(byte: u8) -> bool
    ensures { result ≡ is_blank byte }
{
    byte == b' ' || byte == b'\t' || byte == b'\r'
}

fn begins_word(byte: u8) -> bool
    ensures { result ≡ begins_word byte }
{
    byte.is_ascii_alphabetic() || byte == b'_'
}

/// The number or the sign that the line begins with, and how many bytes it takes beside its first.
fn plain_token(line: &[u8]) -> Option<(Token, usize)>
    ensures is { result ≡ plain_at line.now }
    ensures within { IfSome result (λ p. 1 + p.1 ≤ length line.now) }
    ensures number { IfSome result (λ p. IsWithin p.0) }
{
    let [first, rest @ ..] = line else {
        return None;
    };
    if first.is_ascii_digit() {
        let (number, len) = natural(NATURAL_LIMIT, line)?;
        return Some((Token::Nat(number), len - 1));
    }
    if *first == b'-' {
        let (number, len) = natural(MINUS_LIMIT, rest)?;
        return Some((Token::Minus(number), len));
    }
    if *first == b'~' {
        let (number, len) = natural(NATURAL_LIMIT, rest)?;
        return Some((Token::Num(number), len));
    }
    sign(*first, rest)
}

/// The token that the line begins with, and how many bytes it takes beside its first.
#[tactic(auto, using(crate::proofs::Numbers::begun_word), unfolding(oc_machine::specs::Lexing::token))]
fn token(alloc: Global, line: &[u8]) -> Result<Option<(Token, usize)>, AllocError>
    ensures is { IfOk result (λ r. r ≡ token_at line.now) }
    ensures within { IfOk result (λ r. IfSome r (λ p. 1 + p.1 ≤ length line.now)) }
    ensures number { IfOk result (λ r. IfSome r (λ p. IsWithin p.0)) }
{
    let [first, rest @ ..] = line else {
        return Ok(None);
    };
    if begins_word(*first) {
        let Some((word, len)) = word(alloc, line)? else {
            return Ok(None);
        };
        return Ok(Some((Token::Word(word), len - 1)));
    }
    if *first == b'"' {
        let Some((text, more)) = text(alloc, rest)? else {
            return Ok(None);
        };
        return Ok(Some((Token::Text(text), more)));
    }
    Ok(plain_token(line))
}

/// The tokens of a line that is known to be UTF-8.
#[tactic(auto, using(crate::proofs::Shifts::tokens_go_on, crate::proofs::Shifts::no_token, crate::proofs::Shifts::blank_goes_on))]
fn tokens_from(alloc: Global, line: &[u8]) -> Result<Option<Vec<Token>>, AllocError>
    ensures is { IfOk result (λ r. option_map (λ v. v.items) r ≡ tokens_after 0 line.now) }
    ensures numbers { IfOk result (λ r. IfSome r (λ v. AreWithin v.items)) }
{
    let mut tokens = Vec::new(alloc);
    let mut at = 0;
    while at < line.len() {
        if is_blank(line[at]) {
            at += 1;
        } else {
            let Some((token, more)) = token(alloc, tail(line, at))? else {
                return Ok(None);
            };
            tokens.push(token)?;
            at += 1 + more;
        }
    }
    Ok(Some(tokens))
}

#[tactic(auto, using(crate::proofs::Bytes::utf8))]
fn is_utf8(bytes: &[u8]) -> bool
    ensures { result ≡ is_utf8 bytes.now }
{
    str::from_utf8(bytes).is_ok()
}

/// The tokens of a line, if it falls into tokens.
#[tactic(auto, unfolding(oc_machine::specs::Lexing::tokens))]
pub(crate) fn tokens(alloc: Global, line: &[u8]) -> Result<Option<Vec<Token>>, AllocError>
    ensures is { IfOk result (λ r. option_map (λ v. v.items) r ≡ tokens line.now) }
    ensures numbers { IfOk result (λ r. IfSome r (λ v. AreWithin v.items)) }
{
    if !is_utf8(line) {
        return Ok(None);
    }
    tokens_from(alloc, line)
}
