//! What stands at the front of bytes.
ghost use Rattle.std.specs.Prelude.{◌≡◌, ◌<◌, length};
ghost use Rattle.cg_c_syntax.specs.Pieces as spec;
ghost use Rattle.cg_c_reader.specs.Within.{IsWithin};

use crate::bytes::{
    Class, begins, is_blank, is_digit, is_letter, is_lone_return, is_splice, run_length,
};
use crate::comments::comment_piece;
use crate::directives::directive_piece;
use crate::marks::mark_piece;
use crate::numbers::number_piece;
use cg_c_syntax::{Kind, Line, Piece};

/// Returns the word, the number or the mark at the front of `bytes`.
fn token_piece(bytes: &[u8]) -> Piece
    requires { 0 < length bytes.now }
    ensures value { result ≡ spec.token_piece bytes.now }
    ensures within { IsWithin (length bytes.now) result }
{
    if is_letter(bytes[0]) {
        Piece::Token(Kind::Word, run_length(Class::Word, &bytes[1..]))
    } else if is_digit(bytes[0]) {
        number_piece(bytes)
    } else {
        mark_piece(bytes)
    }
}

/// Returns the blank at the front of `bytes`, in the line `line`.
fn blank_piece(line: Line, bytes: &[u8]) -> Piece
    requires { 0 < length bytes.now }
    ensures value { result ≡ spec.blank_piece line bytes.now }
    ensures within { IsWithin (length bytes.now) result }
{
    match line {
        Line::Fresh => Piece::Gap(0),
        Line::Begun => Piece::Gap(0),
        Line::Directive => if is_lone_return(bytes) {
            Piece::Nothing(0)
        } else {
            Piece::Gap(0)
        },
    }
}

/// Returns what stands at the front of `bytes`, in the line `line`, where no two lines may be joined.
fn plain_piece(line: Line, bytes: &[u8]) -> Piece
    requires { 0 < length bytes.now }
    ensures value { result ≡ spec.plain_piece line bytes.now }
    ensures within { IsWithin (length bytes.now) result }
{
    let first = bytes[0];
    if first == b'\n' {
        Piece::LineFeed
    } else if is_blank(first) {
        blank_piece(line, bytes)
    } else if begins(b"/*", bytes) || begins(b"//", bytes) {
        comment_piece(bytes)
    } else if first == b'#' {
        directive_piece(line, &bytes[1..])
    } else {
        token_piece(bytes)
    }
}

/// Returns what stands at the front of `bytes`, in the line `line`.
pub(crate) fn piece_of(line: Line, bytes: &[u8]) -> Piece
    requires { 0 < length bytes.now }
    ensures value { result ≡ spec.piece_of line bytes.now }
    ensures within { IsWithin (length bytes.now) result }
{
    if is_splice(bytes) {
        Piece::Nothing(0)
    } else {
        plain_piece(line, bytes)
    }
}
