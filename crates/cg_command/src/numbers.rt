//! Numbers and names of files in words.
ghost use Rattle.std.specs.Prelude.{◌≡◌, ◌≤◌, IfSome};
ghost use Rattle.std.specs.Char.{is_ascii_digit};
ghost use Rattle.std.specs.List.{list_all};
ghost use Rattle.cg_model.specs.Limits.{most_turns, most_moves};
ghost use Rattle.cg_command.specs.Words as spec;

use cg_model::{MOST_CONTEXTS, MOST_MOVES, MOST_TURNS};

/// The seed where none is given.
pub(crate) const USUAL_SEED: u64 = 1;

/// The number of the walk's moves where none is given.
pub(crate) const USUAL_MOVES: u32 = 10_000;

/// The number of best responses where none is given.
pub(crate) const USUAL_RESPONSES: u32 = 240_000;

/// Returns the interval that `word` writes, 1 to 64 cycles; None where it writes none.
pub fn interval_of(word: &str) -> Option<u32>
    ensures value { result ≡ spec.interval_of word.now }
    ensures some { IfSome result (λ ii. 1 ≤ ii) }
{
    match number_up_to(word, u64::from(MOST_CONTEXTS)) {
        Some(interval) if interval > 0 => Some(interval as u32),
        _ => None,
    }
}

/// Returns the seed that `word` writes; None where it writes none.
pub fn seed_of(word: &str) -> Option<u64>
    ensures { result ≡ spec.seed_of word.now }
{
    number_up_to(word, u64::MAX)
}

/// Returns the number of moves that `word` writes, at most 1,000,000; None where it writes none.
pub fn moves_of(word: &str) -> Option<u32>
    ensures value { result ≡ spec.moves_of word.now }
    ensures within { IfSome result (λ moves. moves ≤ most_moves) }
{
    match number_up_to(word, u64::from(MOST_MOVES)) {
        Some(moves) => Some(moves as u32),
        None => None,
    }
}

/// Returns the number of iterations that `word` writes, at most 1,000,000; None where it writes none.
pub fn turns_of(word: &str) -> Option<u32>
    ensures value { result ≡ spec.turns_of word.now }
    ensures within { IfSome result (λ turns. turns ≤ most_turns) }
{
    match number_up_to(word, u64::from(MOST_TURNS)) {
        Some(turns) => Some(turns as u32),
        None => None,
    }
}

/// Checks whether `word` may name a file: it isn't empty and doesn't begin with a hyphen.
pub fn is_file(word: &str) -> bool
    ensures { result ≡ spec.is_file word.now }
{
    match word.as_bytes() {
        [] => false,
        [first, ..] => *first != b'-',
    }
}

/// Returns the number that `word` writes, where it is one of 1 to 20 digits and at most `most`.
fn number_up_to(word: &str, most: u64) -> Option<u64>
    ensures value { result ≡ spec.number_up_to most word.now }
    ensures within { IfSome result (λ n. n ≤ most) }
{
    if !is_number(word) {
        return None;
    }
    match word.parse::<u64>() {
        Ok(number) if number <= most => Some(number),
        _ => None,
    }
}

/// Checks whether `word` is one of 1 to 20 digits.
fn is_number(word: &str) -> bool
    ensures { result ≡ spec.is_number word.now }
{
    !word.is_empty() && word.len() <= 20 && are_digits(word)
}

fn are_digits(word: &str) -> bool
    ensures { result ≡ list_all is_ascii_digit word.now }
{
    word.bytes().all(|byte| byte.is_ascii_digit())
}
