//! Faults of texts that aren't JSON.

use crate::quotes::missing_quote;
use cg_spans::{Finding, Place, blanks_at_end, last_byte};
use serde_json::Value;
use std::alloc::{AllocError, Global};

/// Returns the error of the JSON parser on `bytes`, and `None` if there is none. The caller has checked with
/// `json_value` that their values don't take too much memory.
pub(crate) fn json_error(alloc: Global, bytes: &[u8]) -> Result<Option<Finding>, AllocError> {
    match Value::from_slice(alloc, bytes) {
        Ok(_) => Ok(None),
        Err(error) if error.is_memory() => Err(AllocError),
        Err(error) => Ok(Some(of_json_error(alloc, bytes, &error)?)),
    }
}

/// Returns the finding of `error`, with its place. At the end of a text the parser may count no column.
fn of_json_error(
    alloc: Global,
    bytes: &[u8],
    error: &serde_json::Error,
) -> Result<Finding, AllocError> {
    let place = Place {
        line: error.line().max(1),
        column: error.column().max(1),
    };
    let at = offset_of(bytes, place);
    if let Some(text) = missing_quote(alloc, bytes, at, false)? {
        return Ok(with_place(place, text));
    }
    let place = match wrong_bracket(alloc, bytes, at)? {
        Some(at) => Place::at(bytes, at),
        None => place,
    };
    let text = error_text(alloc, bytes, place, error)?;
    Ok(with_place(place, text))
}

/// Returns the finding with the sentence `text` at `place`.
fn with_place(place: Place, text: String) -> Finding {
    let place = Some(place);
    Finding { place, text }
}

/// Returns the message of `error` without its place, and a hint on what may be wrong at `place` of `bytes`.
fn error_text(
    alloc: Global,
    bytes: &[u8],
    place: Place,
    error: &serde_json::Error,
) -> Result<String, AllocError> {
    let text = format!(in alloc; "{error}")?;
    let ending = place_ending(alloc, error)?;
    let message = text.as_str();
    let message = message.strip_suffix(ending.as_str()).unwrap_or(message);
    hinted(alloc, bytes, place, message)
}

/// Returns the place with which the text of `error` ends.
fn place_ending(alloc: Global, error: &serde_json::Error) -> Result<String, AllocError> {
    let (line, column) = (error.line(), error.column());
    format!(in alloc; " at line {line} column {column}")
}

/// Returns `message`, which the parser reports at `place` of `bytes`, and a hint on what may be wrong there.
fn hinted(alloc: Global, bytes: &[u8], place: Place, message: &str) -> Result<String, AllocError> {
    let hint = json_hint(alloc, bytes, place, message)?;
    let hint = hint.as_str();
    format!(in alloc; "{message}{hint}")
}

/// Returns the byte before byte `at` of `bytes` if it is a bracket that closes one of the other kind, or a bracket in
/// the place of a key: the parser reports the place after it. Returns None otherwise.
fn wrong_bracket(alloc: Global, bytes: &[u8], at: usize) -> Result<Option<usize>, AllocError> {
    let Some(back) = at.checked_sub(1) else {
        return Ok(None);
    };
    let Some(bracket) = bytes.get(back) else {
        return Ok(None);
    };
    let before = bytes.get(..back).unwrap_or(&[]);
    let Some(Open { byte, .. }) = open_bracket(alloc, before)? else {
        return Ok(None);
    };
    let last = last_byte(before);
    let is_wrong = match (byte, *bracket) {
        (b'{', b']') | (b'[', b'}') => true,
        (b'{', b'{' | b'[') => matches!(last, Some(b'{' | b',')),
        _ => false,
    };
    if is_wrong {
        return Ok(Some(back));
    }
    Ok(None)
}

/// Returns a hint on what may be wrong at `place` of `bytes`, where the parser reports `message`; empty if there is
/// none.
fn json_hint(
    alloc: Global,
    bytes: &[u8],
    place: Place,
    message: &str,
) -> Result<String, AllocError> {
    let at = offset_of(bytes, place);
    if message == "invalid JSON" {
        let before = bytes.get(..at).unwrap_or(&[]);
        let last = last_byte(before);
        let rest = bytes.get(at..).unwrap_or(&[]);
        if let Some(hint) = missing_mark(alloc, before, last, rest)? {
            return Ok(hint);
        }
        let hint = byte_hint(last, rest);
        return String::from_str(alloc, hint);
    }
    if at < before_last(bytes) {
        return Ok(String::new(alloc));
    }
    within(alloc, bytes, "isn't closed")
}

/// Returns the hint `: the BRACKET of PLACE` and then `is`, for the last bracket of `bytes` that is open at their end,
/// outside strings; empty if none is open.
pub(crate) fn within(alloc: Global, bytes: &[u8], is: &str) -> Result<String, AllocError> {
    match open_bracket(alloc, bytes)? {
        Some(Open { byte, place }) => {
            let bracket = char::from(byte);
            format!(in alloc; ": the {bracket} at {place} {is}")
        }
        None => Ok(String::new(alloc)),
    }
}

/// Returns the hint on the mark or bracket that is missing in the last open bracket of `before`, before `rest`, after a
/// value or a key whose last byte is `last`. Returns None if none is missing.
fn missing_mark(
    alloc: Global,
    before: &[u8],
    last: Option<u8>,
    rest: &[u8],
) -> Result<Option<String>, AllocError> {
    let Some(open) = open_bracket(alloc, before)? else {
        return Ok(None);
    };
    let is_value = ends_value(last);
    if is_value && closes_other(open.byte, rest) {
        return Ok(Some(missing_bracket(alloc, open)?));
    }
    match mark_hint(open.byte, before, last, is_value, rest) {
        Some(hint) => Ok(Some(String::from_str(alloc, hint)?)),
        None => Ok(None),
    }
}

/// Checks whether `last` is the last byte of a value.
fn ends_value(last: Option<u8>) -> bool {
    matches!(last, Some(b'"' | b']' | b'}' | b'0'..=b'9' | b'e' | b'l'))
}

/// Checks whether `rest` begins with a closing bracket of the kind that doesn't close the bracket `byte`.
fn closes_other(byte: u8, rest: &[u8]) -> bool {
    matches!((byte, rest), (b'{', [b']', ..]) | (b'[', [b'}', ..]))
}

/// Returns the hint that the bracket that closes `open` is missing.
fn missing_bracket(alloc: Global, open: Open) -> Result<String, AllocError> {
    let Open { byte, place } = open;
    let close = if byte == b'{' { '}' } else { ']' };
    let bracket = char::from(byte);
    format!(in alloc; ": a {close} is missing before it, for the {bracket} at {place}")
}

/// Returns the hint on what is missing or wrong in an open bracket `byte` at the end of `before`, between the byte `last`,
/// with which a value ends if `is_value`, and `rest`.
fn mark_hint(
    byte: u8,
    before: &[u8],
    last: Option<u8>,
    is_value: bool,
    rest: &[u8],
) -> Option<&'static str> {
    let begins_next = matches!(rest, [b'"' | b'[' | b'{' | b'0'..=b'9', ..]);
    match (byte, rest) {
        (b'{', [b'{' | b'[', ..]) if matches!(last, Some(b'{' | b',')) => Some(
            ": a key in double quotes is expected here; was a bracket before it closed too early?",
        ),
        (b'[', [b':', ..]) if is_value => Some(
            ": a key and its value are written in braces, for example {\"from\":\"s\"}",
        ),
        _ if !(is_value && begins_next) => None,
        (b'[', _) => Some(": a comma or ] is missing before it"),
        _ if last == Some(b'"') && is_behind_key(before) => Some(": a colon is missing before it"),
        _ => Some(": a comma or } is missing before it"),
    }
}

/// Checks whether the string that `before` ends with is a key: whether the last mark outside strings is an opening
/// brace or a comma.
fn is_behind_key(before: &[u8]) -> bool {
    let mut mark = 0u8;
    let mut is_text = false;
    let mut is_escaped = false;
    for byte in before {
        if is_escaped {
            is_escaped = false;
        } else if is_text && *byte == b'\\' {
            is_escaped = true;
        } else if *byte == b'"' {
            is_text = !is_text;
        } else if !is_text && !byte.is_ascii_whitespace() {
            mark = *byte;
        }
    }
    mark == b'{' || mark == b','
}

/// Returns a hint on what may be wrong where `rest` follows the byte `last`.
fn byte_hint(last: Option<u8>, rest: &[u8]) -> &'static str {
    match (last, rest) {
        (_, [b'/' | b'#', ..]) => ": JSON has no comments",
        (_, [b'\'', ..]) => ": strings are written in double quotes",
        (_, [0xEF, ..]) => ": it begins with a byte-order mark",
        (Some(b'0'), [b'x' | b'X', ..]) | (_, [b'0', b'x' | b'X', ..]) => ": numbers are decimal",
        (_, [b'0', b'0'..=b'9', ..]) => ": a number doesn't begin with 0",
        (_, [b'T' | b'F' | b'N', ..]) => ": true, false and null are written in lower case",
        (_, [b'+', ..]) => ": a number has no plus sign",
        (Some(b','), [b']' | b'}', ..]) => ": remove the comma before it",
        (Some(b']' | b'}'), [b']' | b'}', ..]) => ": no bracket of this kind is open",
        (Some(b'"' | b']' | b'}' | b'0'..=b'9'), [b'"' | b'[' | b'{' | b'0'..=b'9', ..]) =>
            ": a comma is missing before it",
        (_, [b'=', ..]) => ": a key and its value are separated by a colon",
        (Some(b'{' | b','), [b'a'..=b'z' | b'A'..=b'Z' | b'_', ..]) =>
            ": keys are written in double quotes",
        (Some(b':' | b'['), [b'a'..=b'z' | b'A'..=b'Z' | b'_', ..]) =>
            ": strings are written in double quotes",
        _ => "",
    }
}

/// Returns the offset of the byte at `place` of `bytes`, or the length of `bytes` if the line is shorter.
fn offset_of(bytes: &[u8], place: Place) -> usize {
    let mut at = 0usize;
    for line in bytes
        .split(|byte| *byte == b'\n')
        .take(place.line.saturating_sub(1))
    {
        at = at.saturating_add(line.len()).saturating_add(1);
    }
    at.saturating_add(place.column.saturating_sub(1))
        .min(bytes.len())
}

/// Returns the number of bytes of `bytes` before the last one that is neither a blank nor a line end.
fn before_last(bytes: &[u8]) -> usize {
    bytes
        .len()
        .saturating_sub(blanks_at_end(bytes))
        .saturating_sub(1)
}

/// A bracket that isn't closed.
#[derive(Clone, Copy, Drop)]
struct Open {
    byte: u8,
    place: Place,
}

/// Returns the last bracket of `bytes` that isn't closed at their end, outside strings.
fn open_bracket(alloc: Global, bytes: &[u8]) -> Result<Option<Open>, AllocError> {
    let open = open_brackets(alloc, bytes)?;
    Ok(last_open(bytes, open.as_slice()))
}

/// Returns the bytes, from 0, of the brackets of `bytes` that aren't closed at their end, outside strings.
fn open_brackets(alloc: Global, bytes: &[u8]) -> Result<Vec<usize>, AllocError> {
    let mut open: Vec<usize> = Vec::new(alloc);
    let mut is_text = false;
    let mut is_escaped = false;
    for (at, byte) in bytes.iter().enumerate() {
        if is_escaped {
            is_escaped = false;
        } else if is_text && *byte == b'\\' {
            is_escaped = true;
        } else if *byte == b'"' {
            is_text = !is_text;
        } else if !is_text && matches!(*byte, b'[' | b'{') {
            open.push(at)?;
        } else if !is_text && matches!(*byte, b']' | b'}') {
            let _ = open.pop();
        }
    }
    Ok(open)
}

/// Returns the last of the brackets of `bytes` at the bytes `open`.
fn last_open(bytes: &[u8], open: &[usize]) -> Option<Open> {
    let at = *open.last()?;
    let byte = *bytes.get(at)?;
    Some(Open {
        byte,
        place: Place::at(bytes, at),
    })
}
