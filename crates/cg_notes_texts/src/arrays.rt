//! Arrays of loop bodies.

use cg_model::MOST_MEMORY;
use cg_spans::{MOST_PARSED, words_of};
use std::alloc::{AllocError, Global};

/// The words of an array.
#[derive(Clone, Copy, Drop)]
struct Extent {
    /// The address of the first word.
    first: u64,
    /// The number of words.
    length: u64,
}

impl Extent {
    /// Returns the address after the last word.
    fn end(self) -> u64 {
        self.first.saturating_add(self.length)
    }

    /// Checks whether it shares a word with `other`.
    fn meets(self, other: Extent) -> bool {
        self.first < other.end() && other.first < self.end()
    }
}

/// Returns what is wrong with the array `name`, declared at byte `offset` of the loop body `bytes`.
pub(crate) fn describe_array(
    alloc: Global,
    bytes: &[u8],
    offset: usize,
    name: &str,
) -> Result<String, AllocError> {
    let words = words_of(alloc, bytes.get(offset..).unwrap_or(&[]), 5)?;
    let Some(extent) = extent_of(words.as_slice()) else {
        return format!(in alloc;
            "the array {name} is empty, or extends past the end of the memory"
        );
    };
    let Extent { first, length } = extent;
    if length == 0 {
        return format!(in alloc; "the array {name} is empty: its len is 0");
    }
    let end = extent.end();
    if end > u64::from(MOST_MEMORY) {
        return format!(in alloc;
            "the array {name} extends past the end of the memory: it has {length} words from {first} on, and addresses are below 1048576"
        );
    }
    let last = end.saturating_sub(1);
    match met_array(alloc, bytes.get(..offset).unwrap_or(&[]), extent)? {
        Some(other) => {
            let other = other.as_str();
            format!(in alloc; "the array {name}, words {first} to {last}, overlaps {other}")
        }
        None => format!(in alloc;
            "the array {name}, words {first} to {last}, overlaps another array"
        ),
    }
}

/// Returns the extent that `words` give, which are `NAME at FIRST len LENGTH`.
fn extent_of(words: &[&str]) -> Option<Extent> {
    match words {
        [_, "at", first, "len", length, ..] => Some(Extent {
            first: first.parse().ok()?,
            length: length.parse().ok()?,
        }),
        _ => None,
    }
}

/// Returns the first array declared in `before` that overlaps `extent`, with its words; None in a long text.
fn met_array(alloc: Global, before: &[u8], extent: Extent) -> Result<Option<String>, AllocError> {
    let most = if before.len() > MOST_PARSED {
        0
    } else {
        before.len()
    };
    let words = words_of(alloc, before, most)?;
    for (number, word) in words.iter().enumerate() {
        let rest = words.get(number.saturating_add(1)..).unwrap_or(&[]);
        if *word != "array" {
            continue;
        }
        if let (Some(other), Some(name)) = (extent_of(rest), rest.first()) {
            if extent.meets(other) {
                let first = other.first;
                let last = other.end().saturating_sub(1);
                let text = format!(in alloc; "{name}, words {first} to {last}")?;
                return Ok(Some(text));
            }
        }
    }
    Ok(None)
}
