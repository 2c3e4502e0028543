ghost use Rattle.std.specs.Prelude.{◌≡◌, ◌≤◌, ◌<◌, ◌+◌, ◌-◌, ◌*◌, ◌++◌, ◌^◌, ℤ, pos, negsuc, IsTrue, OnOk, length, take, drop};
ghost use Rattle.std.specs.Int.{bytes_high_first, byte_at, cast_unsigned, w128};
ghost use Rattle.oc_value.specs.Values.{fits_signed, fits_unsigned};
ghost use Rattle.oc_value.specs.Integers.{number_bytes, IsWidth};

use std::alloc::AllocError;

/// Appends the `W` bytes of a number, the high byte first, a negative one in two's complement.
pub fn put_int<const W: usize>(out: &mut Vec<u8>, n: i128) -> Result<(), AllocError>
    requires width { IsWidth W }
    requires fits { IsTrue (fits_signed (8 * W - 1) n) }
    ensures { OnOk result (out.new.items ≡ out.old.items ++ number_bytes W n) }
{
    put_word::<W>(out, n.cast_unsigned())
}

/// Appends the `W` bytes of a number that isn't negative, the high byte first.
pub fn put_nat<const W: usize>(out: &mut Vec<u8>, n: i128) -> Result<(), AllocError>
    requires width { IsWidth W }
    requires fits { IsTrue (fits_unsigned (8 * W) n) }
    ensures { OnOk result (out.new.items ≡ out.old.items ++ number_bytes W n) }
{
    put_word::<W>(out, n.cast_unsigned())
}

fn put_word<const W: usize>(out: &mut Vec<u8>, word: u128) -> Result<(), AllocError>
    requires { W ≤ 16 }
    ensures { OnOk result (out.new.items ≡ out.old.items ++ bytes_high_first W word) }
{
    for k in (0..W).rev() {
        out.push(byte_of(word, k))?;
    }
    Ok(())
}

fn byte_of(word: u128, k: usize) -> u8
    requires { k < 16 }
    ensures { result ≡ byte_at k word }
{
    ((word >> (8 * k)) & 0xff) as u8
}

/// The number whose `W` bytes stand at the place `at`, in two's complement.
pub fn get_int<const W: usize>(bytes: &[u8], at: usize) -> i128
    requires width { IsWidth W }
    requires there { at + W ≤ length bytes.now }
    ensures fits { IsTrue (fits_signed (8 * W - 1) result) }
    ensures spelled { take W (drop at bytes.now) ≡ number_bytes W result }
    ensures only { (n : ℤ) → IsTrue (fits_signed (8 * W - 1) n)
        → take W (drop at bytes.now) ≡ number_bytes W n → n ≡ result }
{
    signed::<W>(word_at::<W>(bytes, at))
}

// A word of W bytes as a number with a sign.
fn signed<const W: usize>(word: u128) -> i128
    requires width { IsWidth W }
    requires small { word < 256 ^ W }
    ensures fits { IsTrue (fits_signed (8 * W - 1) result) }
    ensures spelled { bytes_high_first W word ≡ number_bytes W result }
    ensures only { (n : ℤ) → IsTrue (fits_signed (8 * W - 1) n)
        → bytes_high_first W word ≡ number_bytes W n → n ≡ result }
{
    let half = half_of::<W>();
    if word < half {
        number_of(word)
    } else {
        number_below_zero(half - 1 - (word - half))
    }
}

fn number_of(word: u128) -> i128
    requires { word < 2 ^ 127 }
    ensures { result ≡ pos word }
{
    word as i128
}

// The number that lies so far below -1.
fn number_below_zero(far: u128) -> i128
    requires { far < 2 ^ 127 }
    ensures { result ≡ negsuc far }
{
    -1 - far as i128
}

// How many words of W bytes stand for numbers that aren't negative.
fn half_of<const W: usize>() -> u128
    requires { IsWidth W }
    ensures half { result + result ≡ 256 ^ W }
    ensures power { result ≡ 2 ^ (8 * W - 1) }
    ensures small { result ≤ 2 ^ 127 }
{
    1 << (8 * W - 1)
}

/// The number whose `W` bytes stand at the place `at`, which isn't negative.
pub fn get_nat<const W: usize>(bytes: &[u8], at: usize) -> i128
    requires width { IsWidth W }
    requires narrow { W < 16 }
    requires there { at + W ≤ length bytes.now }
    ensures fits { IsTrue (fits_unsigned (8 * W) result) }
    ensures spelled { take W (drop at bytes.now) ≡ number_bytes W result }
    ensures only { (n : ℤ) → IsTrue (fits_unsigned (8 * W) n)
        → take W (drop at bytes.now) ≡ number_bytes W n → n ≡ result }
{
    number_of(word_at::<W>(bytes, at))
}

fn word_at<const W: usize>(bytes: &[u8], at: usize) -> u128
    requires few { W ≤ 16 }
    requires there { at + W ≤ length bytes.now }
    ensures small { result < 256 ^ W }
    ensures spelled { take W (drop at bytes.now) ≡ bytes_high_first W result }
{
    let mut word = 0;
    for k in 0..W {
        word = 256 * word + u128::from(bytes[at + k]);
    }
    word
}
