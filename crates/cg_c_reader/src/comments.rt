//! Comments at the front of bytes.
ghost use Rattle.std.specs.Prelude.{◌≡◌, ◌+◌, ◌<◌, ◌≤◌, drop, length, IfSome};
ghost use Rattle.cg_c_syntax.specs.Pieces as spec;
ghost use Rattle.cg_c_reader.specs.Within.{IsWithin};

use crate::bytes::{Class, begins, is_control, is_lone_return, is_splice, run_length};
use cg_c_syntax::Piece;

/// Returns whether a byte that no comment may have is the first of `bytes`, or, if the comment has one line, one that no
/// such comment may have.
fn is_foul(one_line: bool, bytes: &[u8]) -> bool
    ensures { result ≡ spec.is_foul one_line bytes.now }
{
    is_splice(bytes) || first_is_control(bytes) || (one_line && is_lone_return(bytes))
}

/// Returns whether `bytes` begin with a control byte that no comment may have.
fn first_is_control(bytes: &[u8]) -> bool
    ensures { result ≡ spec.first_is spec.is_control bytes.now }
{
    match bytes {
        [] => false,
        [first, ..] => is_control(*first),
    }
}

/// Returns the comment at the front of `bytes` that has `more` bytes after its first, and may have one line alone if
/// `one_line`.
fn comment_of(one_line: bool, more: usize, bytes: &[u8]) -> Piece
    requires { more < length bytes.now }
    ensures value { result ≡ spec.comment_of one_line more bytes.now }
    ensures within { IsWithin (length bytes.now) result }
{
    for place in 0..more + 1 {
        if is_foul(one_line, &bytes[place..]) {
            return Piece::Nothing(place);
        }
    }
    Piece::Gap(more)
}

/// Returns the number of bytes of `bytes` up to and with the first `*/`.
fn closed_length(bytes: &[u8]) -> Option<usize>
    ensures value { result ≡ spec.closed_length bytes.now }
    ensures within { IfSome result (λ n. n ≤ length bytes.now) }
{
    for place in 0..bytes.len() {
        if begins(b"*/", &bytes[place..]) {
            return Some(place + 2);
        }
    }
    None
}

/// Returns the comment at the front of `bytes`, which begin with `/*`.
fn closed_comment(bytes: &[u8]) -> Piece
    requires { 2 ≤ length bytes.now }
    ensures value { result ≡ spec.closed_comment (spec.closed_length (drop 2 bytes.now)) bytes.now }
    ensures within { IsWithin (length bytes.now) result }
{
    match closed_length(&bytes[2..]) {
        Some(length) => comment_of(false, length + 1, bytes),
        None => Piece::Nothing(0),
    }
}

/// Returns the comment at the front of `bytes`, which begin with `//`.
fn line_comment(bytes: &[u8]) -> Piece
    requires { 0 < length bytes.now }
    ensures value { result ≡ spec.line_comment bytes.now }
    ensures within { IsWithin (length bytes.now) result }
{
    comment_of(true, run_length(Class::InLine, &bytes[1..]), bytes)
}

/// Returns the comment at the front of `bytes`, which begin with `/*` or `//`.
pub(crate) fn comment_piece(bytes: &[u8]) -> Piece
    requires some { 0 < length bytes.now }
    ensures value { result ≡ spec.comment_piece bytes.now }
    ensures within { IsWithin (length bytes.now) result }
{
    if begins(b"/*", bytes) {
        closed_comment(bytes)
    } else {
        line_comment(bytes)
    }
}
