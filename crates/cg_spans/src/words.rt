//! Words of texts: letters, digits and `_`; and blanks around them.

use std::alloc::{AllocError, Global};

/// Checks whether `byte` may occur in a word.
pub fn is_word_byte(byte: u8) -> bool {
    byte.is_ascii_alphanumeric() || byte == b'_'
}

/// Returns the last word of `bytes`; empty if there is none.
pub fn last_word(bytes: &[u8]) -> &[u8] {
    let behind = bytes
        .iter()
        .rev()
        .take_while(|byte| !is_word_byte(**byte))
        .count();
    let bytes = bytes
        .get(..bytes.len().saturating_sub(behind))
        .unwrap_or(&[]);
    let length = bytes
        .iter()
        .rev()
        .take_while(|byte| is_word_byte(**byte))
        .count();
    bytes
        .get(bytes.len().saturating_sub(length)..)
        .unwrap_or(&[])
}

/// Returns the first `most` words of `bytes`.
pub fn words_of(alloc: Global, bytes: &[u8], most: usize) -> Result<Vec<&str>, AllocError> {
    let mut words = Vec::new(alloc);
    for word in bytes.split(|byte| !is_word_byte(*byte)) {
        if words.len() >= most {
            return Ok(words);
        }
        if !word.is_empty() {
            words.push(std::str::from_utf8(word).unwrap_or(""))?;
        }
    }
    Ok(words)
}

/// Returns `bytes` without the blanks and line ends that they begin with.
pub fn behind_blanks(bytes: &[u8]) -> &[u8] {
    let blanks = bytes
        .iter()
        .take_while(|byte| byte.is_ascii_whitespace())
        .count();
    bytes.get(blanks..).unwrap_or(&[])
}

/// Returns the number of blanks and line ends that `bytes` end with.
pub fn blanks_at_end(bytes: &[u8]) -> usize {
    bytes
        .iter()
        .rev()
        .take_while(|byte| byte.is_ascii_whitespace())
        .count()
}

/// Returns the last byte of `bytes` that is neither a blank nor a line end.
pub fn last_byte(bytes: &[u8]) -> Option<u8> {
    bytes
        .iter()
        .rev()
        .find(|byte| !byte.is_ascii_whitespace())
        .copied()
}
