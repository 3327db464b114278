//! Directives at the front of bytes.
ghost use Rattle.std.specs.Prelude.{◌≡◌, ◌+◌, ◌<◌, ◌≤◌, ◌^◌, length};
ghost use Rattle.cg_c_syntax.specs.Pieces as spec;
ghost use Rattle.cg_c_reader.specs.Within.{IsWithin};

use crate::bytes::{Class, begins, first_in, run_length};
use cg_c_syntax::{Kind, Line, Piece};

/// Returns the include whose file's name is at the front of `name`, after `more` bytes that follow its `#`.
fn file_piece(more: usize, name: &[u8]) -> Piece
    requires { more + length name.now < 2 ^ 64 }
    ensures value { result ≡ spec.file_piece more name.now }
    ensures within { IsWithin (more + length name.now + 1) result }
{
    if begins(b"<stdint.h>", name) {
        Piece::Token(Kind::Stdint, more + 10)
    } else if begins(b"\"cgra.h\"", name) {
        Piece::Token(Kind::Cgra, more + 8)
    } else {
        Piece::Nothing(0)
    }
}

/// Returns the include whose word is at the front of `word`, after `more` bytes that follow its `#`.
fn include_piece(more: usize, word: &[u8]) -> Piece
    requires long { 7 ≤ length word.now }
    requires fits { more + length word.now < 2 ^ 64 }
    ensures value { result ≡ spec.include_piece more word.now }
    ensures within { IsWithin (more + length word.now + 1) result }
{
    let rest = &word[7..];
    let spaces = run_length(Class::Space, rest);
    file_piece(more + 7 + spaces, &rest[spaces..])
}

/// Returns the directive whose word is at the front of `word`, after `more` bytes that follow its `#`.
fn directive_of(more: usize, word: &[u8]) -> Piece
    requires { more + length word.now < 2 ^ 64 }
    ensures value { result ≡ spec.directive_of more word.now }
    ensures within { IsWithin (more + length word.now + 1) result }
{
    if begins(b"include", word) {
        include_piece(more, word)
    } else if begins(b"define", word) && !first_in(Class::Word, &word[6..]) {
        Piece::Token(Kind::Define, more + 6)
    } else {
        Piece::Nothing(0)
    }
}

/// Returns the directive in the line `line` whose `#` the bytes `bytes` follow.
pub(crate) fn directive_piece(line: Line, bytes: &[u8]) -> Piece
    requires { length bytes.now < 2 ^ 64 }
    ensures value { result ≡ spec.directive_piece line bytes.now }
    ensures within { IsWithin (length bytes.now + 1) result }
{
    match line {
        Line::Fresh => {
            let spaces = run_length(Class::Space, bytes);
            directive_of(spaces, &bytes[spaces..])
        }
        Line::Begun | Line::Directive => Piece::Nothing(0),
    }
}
