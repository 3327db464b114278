//! Marks at the front of bytes.
ghost use Rattle.std.specs.Prelude.{◌≡◌, ◌<◌, slice_index, length, true, IsTrue};
ghost use Rattle.cg_c_syntax.specs.Pieces as spec;
ghost use Rattle.cg_c_reader.specs.Within.{IsWithin};

use cg_c_syntax::{Kind, Piece};

/// Returns the byte of `bytes` at `index`, or 0 where there is none.
fn byte_at(bytes: &[u8], index: usize) -> u8
    ensures value { result ≡ slice_index bytes.now index }
    ensures within { 0 < result → index < length bytes.now }
{
    if index < bytes.len() { bytes[index] } else { 0 }
}

/// Returns whether the three bytes are a mark.
#[tactic(auto, using(crate::proofs::MarkEnds::mark_of_three_ends))]
fn is_mark_of_three(first: u8, second: u8, third: u8) -> bool
    ensures value { result ≡ spec.is_mark_of_three first second third }
    ensures some { IsTrue result → 0 < third }
{
    third == b'=' && (matches!(second, b'<' | b'>') && first == second)
}

/// Returns whether the two bytes are a mark.
#[tactic(auto, using(crate::proofs::MarkEnds::mark_of_two_ends))]
fn is_mark_of_two(first: u8, second: u8) -> bool
    ensures value { result ≡ spec.is_mark_of_two first second }
    ensures some { IsTrue result → 0 < second }
{
    (second == b'=' && is_before_equals(first)) || (is_doubled(second) && first == second)
}

/// Returns whether `byte` and `=` are a mark.
fn is_before_equals(byte: u8) -> bool
    ensures { result ≡ spec.is_one_of spec.before_equals byte }
{
    b"<>=!+-*&|^".contains(&byte)
}

/// Returns whether two of `byte` are a mark.
fn is_doubled(byte: u8) -> bool
    ensures { result ≡ spec.is_one_of spec.doubled byte }
{
    b"+-<>&|".contains(&byte)
}

/// Returns whether `byte` is a mark.
fn is_mark(byte: u8) -> bool
    ensures { result ≡ spec.is_mark byte }
{
    b"+-*&|^~!<>=?:;,()[]{}".contains(&byte)
}

/// Returns the longest mark at the front of `bytes`.
pub(crate) fn mark_piece(bytes: &[u8]) -> Piece
    requires { 0 < length bytes.now }
    ensures value { result ≡ spec.mark_piece bytes.now }
    ensures within { IsWithin (length bytes.now) result }
{
    let first = byte_at(bytes, 0);
    let second = byte_at(bytes, 1);
    if is_mark_of_three(first, second, byte_at(bytes, 2)) {
        Piece::Token(Kind::Mark, 2)
    } else if is_mark_of_two(first, second) {
        Piece::Token(Kind::Mark, 1)
    } else if is_mark(first) {
        Piece::Token(Kind::Mark, 0)
    } else {
        Piece::Nothing(0)
    }
}
