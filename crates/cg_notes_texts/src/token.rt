//! Tokens of loop bodies and netlists, and the words around a place of them.

use cg_spans::{Place, blanks_at_end, is_word_byte, last_byte};
use std::alloc::{AllocError, Global};
use std::fmt;

/// The maximum number of bytes of a word that are shown.
const MOST_SHOWN: usize = 40;

/// A token at a place of a text.
#[derive(Clone, Copy, Drop)]
pub(crate) enum Token<'a> {
    /// Letters, digits and `_`, of which at most `MOST_SHOWN` bytes are kept.
    Word(&'a str),
    /// Another byte.
    Byte(u8),
}

impl Token<'_> {
    /// Returns the token that `rest` begins with, and `None` if `rest` is empty.
    pub(crate) fn at_start(rest: &[u8]) -> Option<Token<'_>> {
        let first = *rest.first()?;
        let shown = &rest[..rest.len().min(MOST_SHOWN)];
        let length = shown.iter().take_while(|byte| is_word_byte(**byte)).count();
        match std::str::from_utf8(&shown[..length]) {
            Ok(word) if length > 0 => Some(Token::Word(word)),
            _ => Some(Token::Byte(first)),
        }
    }

    /// Checks whether it is the number of a port.
    pub(crate) fn is_port(self) -> bool {
        match self {
            Token::Word(word) => matches!(word.parse::<u32>(), Ok(0..=15)),
            Token::Byte(_) => false,
        }
    }
}

impl fmt::Display for Token<'_> {
    fn fmt<W: fmt::Write>(&self, f: &mut fmt::Formatter<W>) -> fmt::Result {
        match *self {
            Token::Word(word) => f.write_str(word),
            Token::Byte(byte) if byte.is_ascii_graphic() => f.write_char(char::from(byte)),
            Token::Byte(byte) => write!(f, "byte 0x{byte:02X}"),
        }
    }
}

/// A token in a message: in double quotes, if it can be printed.
#[derive(Clone, Copy, Drop)]
pub(crate) struct Quoted<'a>(pub(crate) Token<'a>);

impl fmt::Display for Quoted<'_> {
    fn fmt<W: fmt::Write>(&self, f: &mut fmt::Formatter<W>) -> fmt::Result {
        let token = self.0;
        match token {
            Token::Byte(byte) if !byte.is_ascii_graphic() => write!(f, "{token}"),
            _ => write!(f, "\"{token}\""),
        }
    }
}

/// Checks whether `rest` begins as comments do in other languages.
pub(crate) fn begins_comment(rest: &[u8]) -> bool {
    rest.starts_with(b"//") || rest.starts_with(b"/*") || rest.starts_with(b"#")
}

/// Checks whether `before` ends with a line end after a word or a bracket.
fn ends_without_semicolon(before: &[u8]) -> bool {
    let ends_line = before
        .iter()
        .rev()
        .take_while(|byte| byte.is_ascii_whitespace())
        .any(|byte| *byte == b'\n');
    match last_byte(before) {
        Some(last) => ends_line && (is_word_byte(last) || last == b')' || last == b']'),
        None => false,
    }
}

/// Returns the line of the last byte of `before` that is neither a blank nor a line end.
fn last_line(before: &[u8]) -> usize {
    let Place { line, .. } = Place::at(before, before.len().saturating_sub(blanks_at_end(before)));
    line
}

/// Returns the message that a semicolon is missing before `token`, with which `rest` begins after `before`; None if none
/// is, or if `rest` begins a comment.
pub(crate) fn missing_semicolon(
    alloc: Global,
    before: &[u8],
    rest: &[u8],
    token: Token<'_>,
) -> Result<Option<String>, AllocError> {
    if begins_comment(rest) || !ends_without_semicolon(before) {
        return Ok(None);
    }
    let quoted = Quoted(token);
    let line = last_line(before);
    let text = format!(in alloc;
        "unexpected {quoted}; is a semicolon missing at the end of line {line}?"
    )?;
    Ok(Some(text))
}
