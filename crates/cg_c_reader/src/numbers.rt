//! Numbers at the front of bytes.
ghost use Rattle.std.specs.Prelude.{◌≡◌, ◌<◌, length};
ghost use Rattle.cg_c_syntax.specs.Pieces as spec;
ghost use Rattle.cg_c_reader.specs.Within.{IsWithin};

use crate::bytes::{Class, first_in, is_e, run_length};
use cg_c_syntax::{Kind, Piece};

/// Returns the number of digits after the first of the number at the front of `bytes`, with the `x` of hexadecimal
/// ones.
fn stem_length(bytes: &[u8]) -> usize
    requires { 0 < length bytes.now }
    ensures value { result ≡ spec.stem_length bytes.now }
    ensures within { result < length bytes.now }
{
    if bytes[0] == b'0' {
        if first_in(Class::LetterX, &bytes[1..]) && first_in(Class::Hexadecimal, &bytes[2..]) {
            run_length(Class::Hexadecimal, &bytes[2..]) + 1
        } else {
            0
        }
    } else {
        run_length(Class::Digit, &bytes[1..])
    }
}

/// Returns the number of bytes after the first of the number at the front of `bytes`.
fn number_length(bytes: &[u8]) -> usize
    requires { 0 < length bytes.now }
    ensures value { result ≡ spec.number_length bytes.now }
    ensures within { result < length bytes.now }
{
    let stem = stem_length(bytes);
    if first_in(Class::LetterU, &bytes[stem + 1..]) {
        stem + 1
    } else {
        stem
    }
}

/// Returns whether `rest`, what follows a number whose last byte is `last`, begins with a byte that would belong to the
/// number for the preprocessor.
fn runs_on(last: u8, rest: &[u8]) -> bool
    ensures { result ≡ spec.runs_on last rest.now }
{
    first_in(Class::InNumber, rest) || (is_e(last) && first_in(Class::Sign, rest))
}

/// Returns the number at the front of `bytes`, which begin with a digit.
pub(crate) fn number_piece(bytes: &[u8]) -> Piece
    requires { 0 < length bytes.now }
    ensures value { result ≡ spec.number_piece bytes.now }
    ensures within { IsWithin (length bytes.now) result }
{
    let more = number_length(bytes);
    if runs_on(bytes[more], &bytes[more + 1..]) {
        Piece::Nothing(0)
    } else {
        Piece::Token(Kind::Number, more)
    }
}
