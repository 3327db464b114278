//! The name that a misspelt word may mean.

use std::alloc::{AllocError, Global};
use strsim::levenshtein;

/// The greatest number of edits between a word and a name that it may mean.
const MOST_EDITS: usize = 2;

/// The greatest number of bytes that so few edits add.
const MOST_BYTES: usize = 4 * MOST_EDITS;

/// The greatest length of a word for which a name is sought, in bytes.
const LONGEST_WORD: usize = 64;

/// The greatest number of names that are compared with a word.
const MOST_NAMES: usize = 4096;

/// Returns the name among `names` that `word` may mean: the nearest, and the first of several, if it is few edits away.
/// Case is ignored. Only the first `MOST_NAMES` names are compared, and none for a long word.
pub fn nearest_name<'a>(
    alloc: Global,
    word: &str,
    names: &[&'a str],
) -> Result<Option<&'a str>, AllocError> {
    if word.len() > LONGEST_WORD {
        return Ok(None);
    }
    let word = word.to_ascii_lowercase(alloc)?;
    nearest_to(alloc, word.as_str(), names)
}

/// Returns the name among the first of `names` that is nearest to `word`, in lower case, if it is few edits away.
fn nearest_to<'a>(
    alloc: Global,
    word: &str,
    names: &[&'a str],
) -> Result<Option<&'a str>, AllocError> {
    let mut bound = too_many_edits(word);
    let mut nearest = None;
    for name in names.iter().take(MOST_NAMES) {
        let edits = edits_to(alloc, word, name)?;
        if edits < bound {
            bound = edits;
            nearest = Some(*name);
        }
    }
    Ok(nearest)
}

/// Returns the number of edits from `word`, in lower case, to `name`; too many if their lengths are far apart.
fn edits_to(alloc: Global, word: &str, name: &str) -> Result<usize, AllocError> {
    if name.len() > word.len().saturating_add(MOST_BYTES) {
        return Ok(MOST_EDITS + 1);
    }
    let name = name.to_ascii_lowercase(alloc)?;
    levenshtein(alloc, word, name.as_str())
}

/// Returns the least number of edits from `word` that is too many: more than a few, or than half of its characters,
/// rounded up. A single character never means another name.
fn too_many_edits(word: &str) -> usize {
    match word.chars().count() {
        0 | 1 => 1,
        count => MOST_EDITS.min(count.div_ceil(2)) + 1,
    }
}
