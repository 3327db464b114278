//! Tokens.

/// The kind of a token.
#[derive(Clone, Copy, Debug, PartialEq, Eq, Drop)]
pub enum Kind {
    /// A letter or `_`, then letters, digits and `_`.
    Word,
    /// A decimal or hexadecimal number.
    Number,
    /// A mark, as `+` or `<<=`.
    Mark,
    /// `#include <stdint.h>`.
    Stdint,
    /// `#include "cgra.h"`.
    Cgra,
    /// `#define`.
    Define,
    /// The end of the line of a directive, of no bytes.
    LineEnd,
    /// The end of the text, of no bytes.
    TextEnd,
    /// A byte at which no token begins, of no bytes. No token follows it.
    Stray,
}

/// What is known of a line at a place.
#[derive(Clone, Copy, Debug, PartialEq, Eq, Drop)]
pub enum Line {
    /// No token of the line is before the place.
    Fresh,
    /// A token of the line is before the place.
    Begun,
    /// A directive is before the place.
    Directive,
}

/// What stands at the front of bytes.
#[derive(Clone, Copy, Debug, PartialEq, Eq, Drop)]
pub enum Piece {
    /// A blank or a comment of this number of bytes after its first.
    Gap(usize),
    /// A line feed.
    LineFeed,
    /// A token of this kind, of this number of bytes after its first.
    Token(Kind, usize),
    /// Nothing: after this number of bytes is one at which no token begins, or that no comment may have.
    Nothing(usize),
}
