//! Conditions before statements.

use crate::scope::is_carry;
use crate::token::Token;
use cg_spans::{is_word_byte, last_byte, last_word};
use std::alloc::{AllocError, Global};

/// The maximum number of bytes of a condition that are shown.
const MOST_SHOWN: usize = 40;

/// Returns how to set a carry under a condition, if `token`, at byte `offset` of the loop body `bytes`, is an `if`
/// before the assignment of a carry. Returns None otherwise.
pub(crate) fn describe_if(
    alloc: Global,
    bytes: &[u8],
    offset: usize,
    token: Token<'_>,
) -> Result<Option<String>, AllocError> {
    if !matches!(token, Token::Word("if")) {
        return Ok(None);
    }
    let before = bytes.get(..offset).unwrap_or(&[]);
    let behind = bytes.get(offset.saturating_add(2)..).unwrap_or(&[]);
    let statement = behind.split(|byte| *byte == b';').next().unwrap_or(&[]);
    let Some(equals) = assigned_at(statement) else {
        return Ok(None);
    };
    let target = statement.get(..equals).unwrap_or(&[]);
    let name = std::str::from_utf8(last_word(target)).unwrap_or("");
    if !is_carry(before, name) {
        return Ok(None);
    }
    let condition = condition_in(target, name);
    let text = format!(in alloc;
        "unexpected \"if\"; a carry is assigned in every turn: {name} = select({condition}, .., {name});"
    )?;
    Ok(Some(text))
}

/// Returns the place in `statement` of the first assignment sign that follows a word.
fn assigned_at(statement: &[u8]) -> Option<usize> {
    for (at, byte) in statement.iter().enumerate() {
        if *byte != b'=' || statement.get(at.saturating_add(1)) == Some(&b'=') {
            continue;
        }
        match last_byte(statement.get(..at).unwrap_or(&[])) {
            Some(last) if is_word_byte(last) => return Some(at),
            _ => {}
        }
    }
    None
}

/// Returns the condition in `target` before `name`, with which `target` ends; two points if it is empty or long, or has
/// an opening brace or a byte that isn't printable ASCII.
fn condition_in<'a>(target: &'a [u8], name: &str) -> &'a str {
    let text = std::str::from_utf8(target).unwrap_or("").trim();
    let condition = text.strip_suffix(name).unwrap_or("").trim();
    let is_plain = condition.bytes().all(|byte| byte == b' '
        || (byte.is_ascii_graphic() && byte != b'{'));
    if condition.is_empty() || condition.len() > MOST_SHOWN || !is_plain {
        ".."
    } else {
        condition
    }
}
