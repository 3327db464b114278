//! The text of an image.
ghost use Rattle.std.specs.Prelude.{◌≡◌, ℕ, [], slice_index_or, ◌≤◌, ◌<◌, ◌*◌, ◌+◌, ◌/◌, ◌++◌, Ok, IfOk, OnOk, length, string_bytes};
ghost use Rattle.cg_model.specs.Limits.{port_count};
ghost use Rattle.cg_pad.specs.Bytes.{IsStorable};
ghost use Rattle.cg_list_laws.specs.Below.{lists_below};
ghost use Rattle.cg_image_text.specs.Sections.{answer_of};
ghost use Rattle.cg_image_text.specs.Printed as spec;

use cg_model::Words;
use cg_pad::Image;
use std::alloc::{AllocError, Global};

/// The number of words in a row.
const ROW: usize = 8;

/// Adds `word` and a space to `text`.
fn push_word(alloc: Global, text: &mut String, word: u32) -> Result<(), AllocError>
    ensures { OnOk result (string_bytes text.new ≡ string_bytes text.old ++ spec.word_text word) }
{
    let piece = format!(in alloc; "{word} ")?;
    text.push_str(piece.as_str())
}

/// Adds `address` as a comment to `text`, and ends the line.
fn push_address(alloc: Global, text: &mut String, address: usize) -> Result<(), AllocError>
    ensures { OnOk result (string_bytes text.new ≡ string_bytes text.old ++ spec.address_text address) }
{
    let piece = format!(in alloc; "# {address}\n")?;
    text.push_str(piece.as_str())
}

/// Adds the words of `row` among `words` to `text`.
fn push_row_words(
    alloc: Global,
    text: &mut String,
    words: &[u32],
    row: usize,
) -> Result<(), AllocError>
    requires { 8 * row ≤ length words.now }
    ensures { OnOk result (string_bytes text.new ≡ string_bytes text.old ++ lists_below (spec.row_word words.now row) (spec.row_length words.now row)) }
{
    let first = ROW * row;
    let count = (words.len() - first).min(ROW);
    for k in 0..count {
        push_word(alloc, text, words[first + k])?;
    }
    Ok(())
}

/// Adds `row` of `words` to `text`.
fn push_row(alloc: Global, text: &mut String, words: &[u32], row: usize) -> Result<(), AllocError>
    requires { 8 * row ≤ length words.now }
    ensures { OnOk result (string_bytes text.new ≡ string_bytes text.old ++ spec.row_text words.now row) }
{
    push_row_words(alloc, text, words, row)?;
    push_address(alloc, text, ROW * row)
}

/// Adds the rows of `words` to `text`.
fn push_rows(alloc: Global, text: &mut String, words: &[u32]) -> Result<(), AllocError>
    ensures { OnOk result (string_bytes text.new ≡ string_bytes text.old ++ spec.rows_text words.now) }
{
    let rows = (words.len() + (ROW - 1)) / ROW;
    for row in 0..rows {
        push_row(alloc, text, words, row)?;
    }
    Ok(())
}

/// Adds the section of the memory, which has `words`, to `text`.
fn push_memory(alloc: Global, text: &mut String, words: &[u32]) -> Result<(), AllocError>
    ensures text { OnOk result (string_bytes text.new ≡ string_bytes text.old ++ spec.memory_text words.now) }
    ensures words { spec.AreWords words.now }
{
    text.push_str("memory\n")?;
    push_rows(alloc, text, words)
}

/// Adds the line that begins the section of the stream of `port` to `text`.
fn push_stream_line(alloc: Global, text: &mut String, port: usize) -> Result<(), AllocError>
    ensures { OnOk result (string_bytes text.new ≡ string_bytes text.old ++ spec.stream_line port) }
{
    let piece = format!(in alloc; "stream {port}\n")?;
    text.push_str(piece.as_str())
}

/// Adds the section of the stream of `port`, which has `words`, to `text`, unless it has none.
fn push_stream(
    alloc: Global,
    text: &mut String,
    port: usize,
    words: &[u32],
) -> Result<(), AllocError>
    ensures text { OnOk result (string_bytes text.new ≡ string_bytes text.old ++ spec.stream_text port words.now) }
    ensures words { spec.AreWords words.now }
{
    if words.is_empty() {
        return Ok(());
    }
    push_stream_line(alloc, text, port)?;
    push_rows(alloc, text, words)
}

/// Adds the sections of `streams` to `text`.
fn push_streams(alloc: Global, text: &mut String, streams: &[Words]) -> Result<(), AllocError>
    ensures text { OnOk result (string_bytes text.new ≡ string_bytes text.old ++ lists_below (spec.stream_at streams.now) (length streams.now)) }
    ensures words { OnOk result ((port : ℕ) → spec.AreWords (slice_index_or streams.now port [])) }
{
    for port in 0..streams.len() {
        push_stream(alloc, text, port, streams[port].as_slice())?;
    }
    Ok(())
}

/// Returns the text of `image`: its memory, and its streams by port, where they have words.
#[tactic(auto, unfolding(crate::specs::Printed::text_of))]
pub fn print_text(alloc: Global, image: &Image) -> Result<String, AllocError>
    ensures text { IfOk result (λ text. string_bytes text ≡ spec.text_of image.now) }
    ensures read_back { IsStorable image.now → IfOk result (λ text. answer_of (string_bytes text) ≡ Ok image.now) }
{
    let mut text = String::new(alloc);
    push_memory(alloc, &mut text, image.memory())?;
    push_streams(alloc, &mut text, image.streams())?;
    Ok(text)
}
