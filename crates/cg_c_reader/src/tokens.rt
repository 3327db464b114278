//! Tokens, cut from bytes one after another.
ghost use Rattle.std.specs.Prelude.{◌≡◌, ◌≤◌, ◌∷◌, true, length};
ghost use Rattle.std.specs.Str.{IsAscii};
ghost use Rattle.cg_c_syntax.specs.Words.{is_word};
ghost use Rattle.cg_c_syntax.specs.Tokens as spec;
ghost use Rattle.cg_c_reader.specs.Seen.{seen, rest_after, Cuts};

use crate::pieces::piece_of;
use cg_c_syntax::{Kind, Line, Piece};

/// A token: its kind, its bytes, and the position of its first byte.
#[derive(Clone, Copy)]
pub struct Token<'a> {
    pub kind: Kind,
    pub text: &'a [u8],
    pub place: usize,
}

/// A position between two pieces of a text, and what is known of its line.
#[derive(Clone, Copy, Drop)]
pub struct Cursor {
    pub place: usize,
    pub line: Line,
}

/// A token, and the position after it.
#[derive(Clone, Copy)]
pub struct Cut<'a> {
    pub token: Token<'a>,
    pub next: Cursor,
}

/// Returns what is known of the line `line` after a token of the kind `kind`.
fn line_after(kind: Kind, line: Line) -> Line
    ensures { result ≡ spec.line_after kind line }
{
    match (kind, line) {
        (Kind::Stdint | Kind::Cgra | Kind::Define, _) => Line::Directive,
        (_, Line::Fresh) => Line::Begun,
        (_, Line::Begun | Line::Directive) => line,
    }
}

/// Returns the token of the kind `kind` with no bytes at `place`, and `next`.
fn empty<'a>(kind: Kind, place: usize, next: Cursor) -> Cut<'a>
    ensures token { seen result.token ≡ spec.empty kind place }
    ensures next { result.next ≡ next }
{
    Cut {
        token: Token {
            kind,
            text: b"",
            place,
        },
        next,
    }
}

/// Returns the end of the text `bytes`, where the line is `line`: the end of its line first if it is a directive's.
fn end_of_text<'a>(bytes: &'a [u8], line: Line) -> Cut<'a>
    ensures cuts { Cuts bytes.now line (length bytes.now) result }
    ensures within { result.next.place ≡ length bytes.now }
{
    let place = bytes.len();
    let next = Cursor {
        place,
        line: Line::Fresh,
    };
    match line {
        Line::Directive => empty(Kind::LineEnd, place, next),
        Line::Fresh | Line::Begun => empty(Kind::TextEnd, place, next),
    }
}

/// Cuts the next token of `bytes` from `cursor` on. After the last one it is cut again.
pub fn next_token(bytes: &[u8], cursor: Cursor) -> Cut<'_>
    requires { cursor.place ≤ length bytes.now }
    ensures cuts { Cuts bytes.now cursor.line cursor.place result }
    ensures within { result.next.place ≤ length bytes.now }
    ensures ascii { is_word result.token.kind ≡ true → IsAscii result.token.text.now }
{
    let mut at = cursor;
    while at.place < bytes.len() {
        let rest = &bytes[at.place..];
        match piece_of(at.line, rest) {
            Piece::Gap(more) => at.place = at.place + more + 1,
            Piece::LineFeed => {
                let next = Cursor {
                    place: at.place + 1,
                    line: Line::Fresh,
                };
                match at.line {
                    Line::Directive => return empty(Kind::LineEnd, at.place, next),
                    Line::Fresh | Line::Begun => at = next,
                }
            }
            Piece::Token(kind, more) => {
                return Cut {
                    token: Token {
                        kind,
                        text: &rest[..more + 1],
                        place: at.place,
                    },
                    next: Cursor {
                        place: at.place + more + 1,
                        line: line_after(kind, at.line),
                    },
                };
            }
            Piece::Nothing(more) => return empty(Kind::Stray, at.place + more, at),
        }
    }
    end_of_text(bytes, at.line)
}
