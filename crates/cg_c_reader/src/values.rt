//! Values of numbers.
ghost use Rattle.std.specs.Prelude.{◌≡◌, ◌≤◌, ◌^◌, min};
ghost use Rattle.cg_c_syntax.specs.Words as spec;

use crate::bytes::{Class, first_in, run_length};

/// The least value that a number is not distinguished from greater ones at.
const MOST: u64 = 1 << 32;

/// Returns whether the number `text` is written in hexadecimal digits.
pub(crate) fn is_hexadecimal(text: &[u8]) -> bool
    ensures { result ≡ spec.is_hexadecimal text.now }
{
    text.len() > 1 && (text[1] == b'x' || text[1] == b'X')
}

/// Returns whether the number `text` ends in `u` or `U`.
#[tactic(auto, using(crate::proofs::DigitByDigit::last_is))]
pub(crate) fn is_unsigned(text: &[u8]) -> bool
    ensures { result ≡ spec.is_unsigned text.now }
{
    first_in(Class::LetterU, &text[text.len().saturating_sub(1)..])
}

/// Returns the value of the digit `digit`.
fn digit_value(digit: u8) -> u64
    ensures value { result ≡ spec.digit_value digit }
    ensures small { result ≤ 255 }
{
    if digit <= b'9' {
        u64::from(digit.saturating_sub(b'0'))
    } else if digit <= b'F' {
        u64::from(digit.saturating_sub(55))
    } else {
        u64::from(digit.saturating_sub(87))
    }
}

/// Returns the number that `digits` denote to the base `base`, or 2^32 where it is greater.
fn value_from(base: u64, digits: &[u8]) -> u64
    requires some { 1 ≤ base }
    requires most { base ≤ 16 }
    ensures { result ≡ min (2 ^ 32) (spec.value_from base 0 digits.now) }
{
    let mut value = 0;
    for digit in digits {
        value = (base * value + digit_value(*digit)).min(MOST);
    }
    value
}

/// Returns the value of the number `text`, or 2^32 where it is greater.
#[tactic(auto, using(crate::proofs::DigitByDigit::hexadecimal_long))]
pub(crate) fn value_of(text: &[u8]) -> u64
    ensures { result ≡ spec.value_of text.now }
{
    if is_hexadecimal(text) {
        let digits = &text[2..];
        return value_from(16, &digits[..run_length(Class::Hexadecimal, digits)]);
    }
    value_from(10, &text[..run_length(Class::Digit, text)])
}
