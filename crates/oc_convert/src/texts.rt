//! What a text spells: a truth value or a number.

ghost use Rattle.std.specs.Prelude.{◌≡◌, ◌+◌, ◌-◌, ◌*◌, ◌^◌, ◌≤◌, ◌&&◌, nat_le, length, pos, neg_ℤ, MatchOption, None, Some, if◌then◌else◌};
ghost use Rattle.std.specs.List.{list_all};
ghost use Rattle.std.specs.Char.{is_ascii_digit};
ghost use Rattle.std.specs.Option.{option_and_then};
ghost use Rattle.oc_convert.specs.Conversions.{number, natural_spelled, number_spelled, truth_spelled};
ghost use Rattle.oc_convert.specs.Ranges.{at_most, in_128_bits};

/// The truth value that the text spells.
pub(crate) fn truth_in(text: &[u8]) -> Option<bool>
    ensures { result ≡ truth_spelled text.now }
{
    if text == b"true".as_slice() {
        Some(true)
    } else if text == b"false".as_slice() {
        Some(false)
    } else {
        None
    }
}

/// The number that the text spells, if it has 128 bits and a sign.
pub(crate) fn whole_in(text: &[u8]) -> Option<i128>
    ensures { result ≡ option_and_then in_128_bits (number_spelled text.now) }
{
    match text {
        [b'-', digits @ ..] => Some(negated(natural_in(1 << 127, digits)?)),
        _ => Some(natural_in((1 << 127) - 1, text)? as i128),
    }
}

fn negated(number: u128) -> i128
    requires { number ≤ 2 ^ 127 }
    ensures { result ≡ neg_ℤ (pos number) }
{
    if number == 0 {
        0
    } else {
        -1 - (number - 1) as i128
    }
}

/// The number that 1 to 39 digits spell, if it is at most the limit.
fn natural_in(limit: u128, text: &[u8]) -> Option<u128>
    ensures is { result ≡ option_and_then (at_most limit) (natural_spelled text.now) }
    ensures limit { MatchOption result (Unit {0}) (λ n. n ≤ limit) }
{
    if is_natural(text) {
        number_within(limit, text)
    } else {
        None
    }
}

fn is_natural(text: &[u8]) -> bool
    ensures { result ≡ (nat_le 1 (length text.now) && nat_le (length text.now) 39 && list_all is_ascii_digit text.now) }
{
    1 <= text.len() && text.len() <= 39 && are_digits(text)
}

fn are_digits(text: &[u8]) -> bool
    ensures { result ≡ list_all is_ascii_digit text.now }
{
    text.iter().all(|byte| byte.is_ascii_digit())
}

/// The number that the digits spell, if it is at most the limit.
#[tactic(auto, using(crate::proofs::Digits::past_limit))]
fn number_within(limit: u128, digits: &[u8]) -> Option<u128>
    ensures { result ≡ at_most limit (number digits.now) }
{
    let mut number: u128 = 0;
    for digit in digits {
        number = with_digit(number, *digit)?;
    }
    if number <= limit { Some(number) } else { None }
}

/// The number that one digit more spells, if it fits.
fn with_digit(number: u128, digit: u8) -> Option<u128>
    ensures { MatchOption result (2 ^ 128 ≤ 10 * number + (digit - 48)) (λ n. n ≡ 10 * number + (digit - 48)) }
{
    let tens = number.checked_mul(10)?;
    tens.checked_add(u128::from(digit.saturating_sub(b'0')))
}
