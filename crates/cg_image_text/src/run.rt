//! The words that one field denotes.
ghost use Rattle.std.specs.Prelude.{◌≡◌, ◌≤◌, ◌<◌, ◌++◌, ◌^◌, OnOk, IfOk, length};
ghost use Rattle.std.specs.List.{prefix_len};
ghost use Rattle.cg_image_text.specs.Runs as spec;

use crate::fault::Misread;
use crate::number::{number, numeral};
use cg_model::Words;
use std::alloc::AllocError;

/// A run of words, where each differs from the previous one by the same step, modulo 2^32.
#[derive(Clone, Copy, Debug, PartialEq, Eq)]
pub struct Run {
    /// The first word.
    pub first: u32,
    /// The difference between consecutive words.
    pub step: u32,
    /// The number of words.
    pub count: u64,
}

/// Adds the words of `run` to `words`.
pub(crate) fn push_run(words: &mut Words, run: Run) -> Result<(), AllocError>
    ensures { OnOk result (words.new ≡ words.old ++ spec.run_words run) }
{
    let mut word = run.first;
    for _k in 0..run.count {
        words.push(word)?;
        word = word.wrapping_add(run.step);
    }
    Ok(())
}

/// Returns the number of bytes of `text` that belong to the number at its beginning.
fn first_length(text: &[u8]) -> usize
    ensures count { result ≡ prefix_len spec.is_in_first text.now }
    ensures within { result ≤ length text.now }
{
    let mut count = 0;
    for byte in text {
        if *byte == b'.' || *byte == b'*' {
            return count;
        }
        count += 1;
    }
    count
}

/// Returns the words from `a` to `b`.
fn from_to(a: u32, b: u32) -> Run
    ensures value { result ≡ spec.from_to a b }
    ensures few { result.count ≤ 2 ^ 32 }
{
    Run {
        first: a,
        step: 1,
        count: b.wrapping_sub(a) as u64 + 1,
    }
}

/// Returns the words from the number `first` to the number `last`.
fn span(first: &[u8], last: &[u8]) -> Result<Run, Misread>
    ensures value { result ≡ spec.span first.now last.now }
    ensures few { IfOk result (λ run. run.count ≤ 2 ^ 32) }
{
    let a = number(first)?;
    let b = number(last)?;
    Ok(from_to(a, b))
}

/// Returns the word of the number `first`, repeated `count` times, where `count` is decimal.
fn repeat(first: &[u8], count: &[u8]) -> Result<Run, Misread>
    ensures value { result ≡ spec.repeat first.now count.now }
    ensures few { IfOk result (λ run. run.count ≤ 2 ^ 32) }
{
    let word = number(first)?;
    let times = numeral(10, count)?;
    Ok(Run {
        first: word,
        step: 0,
        count: times as u64,
    })
}

/// Returns the word of the number `text`.
fn single(text: &[u8]) -> Result<Run, Misread>
    ensures value { result ≡ spec.single text.now }
    ensures few { IfOk result (λ run. run.count ≤ 2 ^ 32) }
{
    let word = number(text)?;
    Ok(Run {
        first: word,
        step: 0,
        count: 1,
    })
}

/// Returns the words of `text`, a field that begins with `first`, up to the first `.` or `*`, and continues with
/// `rest`.
fn run_by(text: &[u8], first: &[u8], rest: &[u8]) -> Result<Run, Misread>
    ensures value { result ≡ spec.run_by text.now first.now rest.now }
    ensures few { IfOk result (λ run. run.count ≤ 2 ^ 32) }
{
    if rest.starts_with(b"..") {
        span(first, &rest[2..])
    } else if rest.starts_with(b"*") {
        repeat(first, &rest[1..])
    } else {
        single(text)
    }
}

/// Returns the words that the field `text` denotes.
#[tactic(auto, unfolding(crate::specs::Runs::run_of))]
pub(crate) fn run_of(text: &[u8]) -> Result<Run, Misread>
    ensures value { result ≡ spec.run_of text.now }
    ensures few { IfOk result (λ run. run.count ≤ 2 ^ 32) }
{
    let count = first_length(text);
    run_by(text, &text[..count], &text[count..])
}
