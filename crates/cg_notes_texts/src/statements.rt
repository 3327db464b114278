//! Hints on statements as a whole.

use crate::token::Token;
use cg_spans::{Place, is_word_byte};
use std::alloc::{AllocError, Global};

/// Returns the last statement in `before`, the part of a text before an unexpected token, as far as it lies there.
fn statement_in(before: &[u8]) -> &[u8] {
    let length = before
        .iter()
        .rev()
        .take_while(|byte| **byte != b';')
        .count();
    before
        .get(before.len().saturating_sub(length)..)
        .unwrap_or(&[])
}

/// Returns the first word of the last statement in `before`; empty if it has none.
pub(crate) fn first_word(before: &[u8]) -> &str {
    let statement = statement_in(before);
    for word in statement.split(|byte| !is_word_byte(*byte)) {
        if !word.is_empty() {
            return std::str::from_utf8(word).unwrap_or("");
        }
    }
    ""
}

/// Returns a hint on `token` after `before` in a loop body: on a second assignment sign or, before the first one, on
/// the form of the statement that begins with its first word; empty if there is none.
pub(crate) fn statement_hint(before: &[u8], token: Token<'_>) -> &'static str {
    if statement_in(before).contains(&b'=') {
        return match token {
            Token::Byte(b'=') => "; == compares, and a statement has only one =",
            _ => "",
        };
    }
    match first_word(before) {
        "array" =>
            "; an array is declared array a at 0 len 8; with the address of its first word and its length",
        "carry" => "; a carry is declared carry s = 0; with a number",
        "let" => "; a value is named by let x = s + 1;",
        "out" => "; an output is written out 0 = s; with the number of its stream",
        _ => "",
    }
}

/// Returns the message that a bracket of the last statement in `before` isn't closed, if `token` ends the statement;
/// None otherwise.
pub(crate) fn open_hint(
    alloc: Global,
    before: &[u8],
    token: Token<'_>,
) -> Result<Option<String>, AllocError> {
    if !matches!(token, Token::Byte(b';')) {
        return Ok(None);
    }
    let statement = statement_in(before);
    let from = before.len().saturating_sub(statement.len());
    let Some(open) = open_in(statement) else {
        return Ok(None);
    };
    let bracket = match statement.get(open) {
        Some(byte) => char::from(*byte),
        None => return Ok(None),
    };
    let place = Place::at(before, from.saturating_add(open));
    let text = format!(in alloc; "unexpected \";\"; the {bracket} at {place} isn't closed")?;
    Ok(Some(text))
}

/// Returns the place in `statement` of the last bracket that is still open at its end.
fn open_in(statement: &[u8]) -> Option<usize> {
    let mut closed = 0usize;
    for back in 0..statement.len() {
        let place = statement.len().saturating_sub(back).saturating_sub(1);
        match statement.get(place) {
            Some(b')' | b']') => closed = closed.saturating_add(1),
            Some(b'(' | b'[') if closed == 0 => return Some(place),
            Some(b'(' | b'[') => closed = closed.saturating_sub(1),
            _ => {}
        }
    }
    None
}
