//! Numbers among the words of a command.

use std::fmt;

/// The numbers from `least` to `most`.
#[derive(Clone, Copy)]
pub(crate) struct Range {
    pub(crate) least: u64,
    pub(crate) most: u64,
}

impl Range {
    /// Checks whether `word` denotes one of the numbers.
    pub(crate) fn has(&self, word: &str) -> bool {
        match number_of(word) {
            Some(number) => self.least <= number && number <= self.most,
            None => false,
        }
    }
}

impl fmt::Display for Range {
    fn fmt<W: fmt::Write>(&self, f: &mut fmt::Formatter<W>) -> fmt::Result {
        let Range { least, most } = *self;
        match least {
            0 => write!(f, "a number of at most {most}"),
            _ => write!(f, "a number from {least} to {most}"),
        }
    }
}

/// Checks whether `word` consists of 1 to 20 decimal digits.
pub(crate) fn is_number(word: &str) -> bool {
    !word.is_empty() && word.len() <= 20 && word.bytes().all(|byte| byte.is_ascii_digit())
}

/// Returns the number that `word` denotes; None if it denotes none, or one that needs more than 64 bits.
fn number_of(word: &str) -> Option<u64> {
    if is_number(word) {
        word.parse::<u64>().ok()
    } else {
        None
    }
}
