//! Double quotes without their partners.

use std::alloc::{AllocError, Global};

/// Returns the message that a double quote is missing in the line of `bytes` around byte `at`, if the number of its
/// quotes is odd; None if it is even. If `has_comments` is true, the rest of the line after a `#` outside strings
/// doesn't count.
pub(crate) fn missing_quote(
    alloc: Global,
    bytes: &[u8],
    at: usize,
    has_comments: bool,
) -> Result<Option<String>, AllocError> {
    let quotes = quotes_in(line_around(bytes, at), has_comments);
    if quotes % 2 == 0 {
        return Ok(None);
    }
    let text = format!(in alloc;
        "a double quote is missing in this line, which has {quotes}: each string has one before it and one after it"
    )?;
    Ok(Some(text))
}

/// Returns the line of `bytes` around byte `at`.
fn line_around(bytes: &[u8], at: usize) -> &[u8] {
    let before = bytes.get(..at).unwrap_or(bytes);
    let behind = bytes.get(at..).unwrap_or(&[]);
    let left = before
        .iter()
        .rev()
        .take_while(|byte| **byte != b'\n')
        .count();
    let right = behind.iter().take_while(|byte| **byte != b'\n').count();
    let first = before.len().saturating_sub(left);
    bytes
        .get(first..before.len().saturating_add(right))
        .unwrap_or(&[])
}

/// Returns the number of double quotes in `line`, except those after a backslash in a string, and those in a comment if
/// `has_comments` is true.
fn quotes_in(line: &[u8], has_comments: bool) -> usize {
    let mut quotes = 0usize;
    let mut is_escaped = false;
    for byte in line {
        let is_text = quotes % 2 == 1;
        if is_escaped {
            is_escaped = false;
        } else if is_text && *byte == b'\\' {
            is_escaped = true;
        } else if *byte == b'"' {
            quotes = quotes.saturating_add(1);
        } else if has_comments && !is_text && *byte == b'#' {
            return quotes;
        }
    }
    quotes
}
