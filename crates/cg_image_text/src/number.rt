//! Numbers in texts.
ghost use Rattle.std.specs.Prelude.{◌≡◌, ◌≤◌, nat_le, nat_lt, length};
ghost use Rattle.std.specs.Char.{digit_value, is_digit};
ghost use Rattle.std.specs.List.{list_all};
ghost use Rattle.std.specs.Str.Parse.{digits_value};
ghost use Rattle.cg_image_text.specs.Numbers.{as_word, is_numeral, negated, numeral, number};

use crate::fault::Misread;

/// Returns the value of a digit or a letter, and 36 for any other `byte`.
fn digit(byte: u8) -> u32
    ensures value { result ≡ digit_value byte }
    ensures small { result ≤ 36 }
{
    match byte {
        b'0'..=b'9' => (byte - b'0') as u32,
        b'A'..=b'Z' => (byte - b'A' + 10) as u32,
        b'a'..=b'z' => (byte - b'a' + 10) as u32,
        _ => 36,
    }
}

/// Returns whether all of `text` are digits of `base`.
fn are_digits(base: u32, text: &[u8]) -> bool
    ensures { result ≡ list_all (λ c. is_digit c base) text.now }
{
    for byte in text {
        if base <= digit(*byte) {
            return false;
        }
    }
    true
}

/// Returns whether `text` has a digit of `base`, and nothing but digits of `base`.
fn is_numeral(base: u32, text: &[u8]) -> bool
    ensures { result ≡ is_numeral base text.now }
{
    !text.is_empty() && are_digits(base, text)
}

/// Returns the word that the digits of `text` denote in `base`.
fn value(base: u32, text: &[u8]) -> Result<u32, Misread>
    requires low { 1 ≤ base }
    requires high { base ≤ 16 }
    ensures { result ≡ as_word (digits_value base text.now) }
{
    let mut value = 0u64;
    for byte in text {
        value = value * base as u64 + digit(*byte) as u64;
        if value > u32::MAX as u64 {
            return Err(Misread::Large);
        }
    }
    Ok(value as u32)
}

/// Returns the word that `text` denotes by digits of `base`.
pub(crate) fn numeral(base: u32, text: &[u8]) -> Result<u32, Misread>
    requires low { 1 ≤ base }
    requires high { base ≤ 16 }
    ensures { result ≡ numeral base text.now }
{
    if is_numeral(base, text) {
        value(base, text)
    } else {
        Err(Misread::Unknown)
    }
}

/// Returns the word of `-count`.
fn negated(count: u32) -> Result<u32, Misread>
    ensures { result ≡ negated count }
{
    if count <= 0x8000_0000 {
        Ok(0u32.wrapping_sub(count))
    } else {
        Err(Misread::Large)
    }
}

/// Returns the word of the number `text`.
#[tactic(auto, unfolding(crate::specs::Numbers::number))]
pub(crate) fn number(text: &[u8]) -> Result<u32, Misread>
    ensures { result ≡ number text.now }
{
    if text.starts_with(b"-") {
        negated(numeral(10, &text[1..])?)
    } else if text.starts_with(b"0x") {
        numeral(16, &text[2..])
    } else {
        numeral(10, text)
    }
}
