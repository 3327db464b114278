//! Faults of texts that aren't JSON or aren't TOML.

use crate::json::{json_error, within};
use crate::quotes::missing_quote;
use cg_json::{JsonFault, json_value, text_at};
use cg_lints::shown;
use cg_spans::{Finding, MOST_PARSED, header_tile, is_word_byte, last_tile, table_line};
use cg_toml::{TomlFault, toml_table};
use serde_json::Value;
use std::alloc::{AllocError, Global};

/// The maximum number of bytes of a key that are shown.
const MOST_KEY: usize = 40;

/// Returns why `bytes` are not a JSON text, where `what` names the file that should be one. Returns `None` if they are
/// one.
///
/// A text whose values would take too much memory as TOML doesn't count as TOML.
pub fn find_in_json(
    alloc: Global,
    bytes: &[u8],
    what: &str,
) -> Result<Option<Finding>, AllocError> {
    if let Some(finding) = find_in_bytes(alloc, bytes, what)? {
        return Ok(Some(finding));
    }
    if bytes.len() > MOST_PARSED {
        return Ok(None);
    }
    if toml_table(alloc, bytes).is_ok() {
        let text = format!(in alloc; "this is TOML, but a {what} is JSON")?;
        return Ok(Some(Finding::at_start(text)));
    }
    if let Some(text) = other_text(bytes) {
        return at_start(alloc, text);
    }
    match json_value(alloc, bytes) {
        Ok(_) => Ok(None),
        Err(JsonFault::NotJson) => json_error(alloc, bytes),
        Err(JsonFault::Memory) => Err(AllocError),
    }
}

/// Returns the finding with the sentence `text` at the first byte of a file.
fn at_start(alloc: Global, text: &str) -> Result<Option<Finding>, AllocError> {
    Ok(Some(Finding::at_start(String::from_str(alloc, text)?)))
}

/// Returns why `bytes` are not a TOML document, which the file of an architecture should be. Returns `None` if they are
/// one.
///
/// A text whose values would take too much memory as JSON doesn't count as JSON.
pub fn find_in_toml(alloc: Global, bytes: &[u8]) -> Result<Option<Finding>, AllocError> {
    if let Some(finding) = find_in_bytes(alloc, bytes, "architecture")? {
        return Ok(Some(finding));
    }
    if bytes.len() > MOST_PARSED {
        return Ok(None);
    }
    if let Some(text) = json_in(alloc, bytes).or(other_text(bytes)) {
        return at_start(alloc, text);
    }
    match toml_table(alloc, bytes) {
        Ok(_) => Ok(None),
        Err(TomlFault::NotToml) => toml_error(alloc, bytes),
        Err(TomlFault::Memory) => Err(AllocError),
    }
}

/// Returns what `bytes` represent in place of an architecture, if they are a JSON text.
fn json_in(alloc: Global, bytes: &[u8]) -> Option<&'static str> {
    match json_value(alloc, bytes) {
        Ok(value) => Some(json_text(&value)),
        Err(_) => None,
    }
}

/// Returns what `value`, the value of a JSON text, represents in place of an architecture.
fn json_text(value: &Value) -> &'static str {
    match text_at(value, "format") {
        Some("cgk1" | "cgk2") => "this is a kernel, but an architecture is expected",
        Some("cgm1") => "this is a mapping, but an architecture is expected",
        _ => "this is JSON, but an architecture is TOML",
    }
}

/// Returns what `bytes` are if they begin like a text of another format that isn't JSON.
fn other_text(bytes: &[u8]) -> Option<&'static str> {
    if bytes.starts_with(b"module ") {
        Some("this is Verilog, which only run reads, after --netlist")
    } else if bytes.starts_with(b"cgaflat1") {
        Some("this is the flat text that the command flat writes from the file of an architecture")
    } else if bytes.starts_with(b"cgl1") {
        Some("this is a loop body: the command loop translates it into a kernel")
    } else {
        None
    }
}

/// Returns why `bytes` can't be a text of any language, where `what` names the file that they should be: they are bits
/// or an image, aren't UTF-8, or are blank. Returns `None` otherwise.
fn find_in_bytes(alloc: Global, bytes: &[u8], what: &str) -> Result<Option<Finding>, AllocError> {
    if let Some(is) = no_text(bytes) {
        let text = format!(in alloc; "{is}, but the file of the {what} is expected")?;
        return Ok(Some(Finding::at_start(text)));
    }
    if let Err(error) = std::str::from_utf8(bytes) {
        let text = String::from_str(alloc, "this byte is not valid UTF-8")?;
        return Ok(Some(Finding::at(bytes, error.valid_up_to(), text)));
    }
    if bytes
        .iter()
        .all(|byte| matches!(*byte, b' ' | b'\t' | b'\r' | b'\n'))
    {
        return at_start(alloc, "the file is empty");
    }
    Ok(None)
}

/// Returns what `bytes` are if they begin like bits or an image.
fn no_text(bytes: &[u8]) -> Option<&'static str> {
    if bytes.starts_with(b"CGB") {
        Some("these are bits")
    } else if bytes.starts_with(b"CGI") {
        Some("this is an image")
    } else {
        None
    }
}

/// Returns the error of the TOML parser on `bytes`, and `None` if there is none. The caller has checked with
/// `toml_table` that their values don't take too much memory.
fn toml_error(alloc: Global, bytes: &[u8]) -> Result<Option<Finding>, AllocError> {
    match toml::table_from_slice(alloc, bytes) {
        Ok(_) => Ok(None),
        Err(error) => {
            let Some(span) = error.span() else {
                return Err(AllocError);
            };
            let message = error.message().lines().next().unwrap_or("");
            Ok(Some(of_toml_error(alloc, bytes, span.start, message)?))
        }
    }
}

/// Returns the finding of the error at byte `at` of `bytes` that the parser reports by `message`.
fn of_toml_error(
    alloc: Global,
    bytes: &[u8],
    at: usize,
    message: &str,
) -> Result<Finding, AllocError> {
    if message == "duplicate key" {
        if let Some(finding) = table_for_list(alloc, bytes, at)? {
            return Ok(finding);
        }
    }
    let text = error_text(alloc, bytes, at, message)?;
    Ok(Finding::at(bytes, at, text))
}

/// Returns what is wrong at byte `at` of `bytes`, where the parser reports `message`.
fn error_text(alloc: Global, bytes: &[u8], at: usize, message: &str) -> Result<String, AllocError> {
    if let Some(text) = toml_quote(alloc, bytes, at)? {
        return Ok(text);
    }
    if let Some(text) = header_within(alloc, bytes, at)? {
        return Ok(text);
    }
    let hint = toml_hint(alloc, bytes, at, message)?;
    let hint = hint.as_str();
    format!(in alloc; "{message}{hint}")
}

/// Returns the message that the parts of a tile are a list, if byte `at` of `bytes` begins a header and the tile is
/// opened as one table.
fn table_for_list(alloc: Global, bytes: &[u8], at: usize) -> Result<Option<Finding>, AllocError> {
    let Some(tile) = header_tile(bytes.get(at..).unwrap_or(&[])) else {
        return Ok(None);
    };
    let Some(begins) = table_line(bytes, tile) else {
        return Ok(None);
    };
    let text = list_text(alloc, tile)?;
    Ok(Some(Finding::at(bytes, begins, text)))
}

/// Returns the message that the parts of `tile` are a list.
fn list_text(alloc: Global, tile: &str) -> Result<String, AllocError> {
    let tile = shown(alloc, tile)?;
    let tile = tile.as_str();
    format!(in alloc;
        "the parts of a tile are a list: each begins with its header in double brackets, [[tiles.{tile}]]"
    )
}

/// Returns the message that a double quote is missing in the line of `bytes` around byte `at`; None if none is missing,
/// or if `bytes` contain other quotes.
fn toml_quote(alloc: Global, bytes: &[u8], at: usize) -> Result<Option<String>, AllocError> {
    let has_others = match std::str::from_utf8(bytes) {
        Ok(text) => text.contains("\"\"\"") || text.contains('\''),
        Err(_) => true,
    };
    if has_others {
        return Ok(None);
    }
    missing_quote(alloc, bytes, at, true)
}

/// Returns the message that byte `at` of `bytes` lies in a header within an open bracket; None if it doesn't.
fn header_within(alloc: Global, bytes: &[u8], at: usize) -> Result<Option<String>, AllocError> {
    let before = bytes.get(..at).unwrap_or(&[]);
    let inside = before
        .iter()
        .rev()
        .take_while(|byte| **byte == b'[')
        .count();
    let begins = at.saturating_sub(inside);
    let above = before.get(..begins).unwrap_or(&[]);
    if above.last() != Some(&b'\n') || header_tile(bytes.get(begins..).unwrap_or(&[])).is_none() {
        return Ok(None);
    }
    let open = within(alloc, above, "isn't closed before this header")?;
    match open.as_str().strip_prefix(": ") {
        Some(open) => {
            let text = format!(in alloc; "a ] is missing: {open}")?;
            Ok(Some(text))
        }
        None => Ok(None),
    }
}

/// Returns a hint on what may be wrong at byte `at` of `bytes`, where the parser reports `message`; empty if there is
/// none.
fn toml_hint(alloc: Global, bytes: &[u8], at: usize, message: &str) -> Result<String, AllocError> {
    let before = bytes.get(..at).unwrap_or(&[]);
    if has_unit(before, bytes.get(at..).unwrap_or(&[])) {
        return String::from_str(
            alloc,
            ": numbers are written in digits, for example 4096 for 4k",
        );
    }
    if message.starts_with("duplicate key") {
        if let Some(tile) = last_tile(before) {
            return repeated_key(alloc, tile, word_at(bytes, at));
        }
    }
    match start_hint(bytes.get(at..).unwrap_or(&[]), message) {
        "" => within(alloc, bytes.get(..at).unwrap_or(&[]), "is open here"),
        hint => String::from_str(alloc, hint),
    }
}

/// Returns the hint that a part of `tile` has `key` already.
fn repeated_key(alloc: Global, tile: &str, key: &str) -> Result<String, AllocError> {
    let tile = shown(alloc, tile)?;
    let tile = tile.as_str();
    format!(in alloc;
        ": this part has {key} already; if another part begins here, its header [[tiles.{tile}]] is missing"
    )
}

/// Returns the word that begins at byte `at` of `bytes`, or the beginning of a long one.
fn word_at(bytes: &[u8], at: usize) -> &str {
    let rest = bytes.get(at..).unwrap_or(&[]);
    let length = rest
        .iter()
        .take(MOST_KEY)
        .take_while(|byte| is_word_byte(**byte))
        .count();
    std::str::from_utf8(rest.get(..length).unwrap_or(&[])).unwrap_or("")
}

/// Checks whether a number that ends with a letter, such as one for thousands, lies where `rest` follows `before`.
fn has_unit(before: &[u8], rest: &[u8]) -> bool {
    let digits = rest.iter().take_while(|byte| byte.is_ascii_digit()).count();
    let is_behind = before.last().is_some_and(|byte| byte.is_ascii_digit());
    let next = rest.get(digits..).unwrap_or(&[]);
    (digits > 0 || is_behind) && matches!(next, [b'k' | b'K' | b'M' | b'G' | b'w', ..])
}

/// Returns a hint on what may be wrong where `rest` isn't TOML by `message`; empty if there is none.
fn start_hint(rest: &[u8], message: &str) -> &'static str {
    if rest.starts_with(b"//") || rest.starts_with(b"/*") || rest.starts_with(b"--") {
        ": a comment begins with #"
    } else if rest.starts_with(b"True") || rest.starts_with(b"False") {
        ": true and false are written in lower case"
    } else if rest.starts_with(b"{") {
        ": is this JSON?"
    } else if message.starts_with("invalid value") && begins_with_letter(rest) {
        ": strings are written in double quotes"
    } else {
        ""
    }
}

/// Checks whether `rest` begins with a letter.
fn begins_with_letter(rest: &[u8]) -> bool {
    match rest.first() {
        Some(first) => first.is_ascii_alphabetic(),
        None => false,
    }
}
