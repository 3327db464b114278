//! Faults of texts of words.

use cg_help::nearest_name;
use cg_image_text::TextFault;
use cg_lints::shown;
use cg_model::{MOST_MEMORY, MOST_STREAM};
use cg_spans::{Finding, Place};
use std::alloc::{AllocError, Global};

/// The maximum number of bytes of a field that are looked at.
const MOST_SHOWN: usize = 60;

/// The keywords of the language.
const WORDS: [&str; 2] = ["memory", "stream"];

/// Returns the finding of `fault` in `bytes`, a text of words.
pub fn find_in_text(
    alloc: Global,
    bytes: &[u8],
    fault: TextFault,
) -> Result<Option<Finding>, AllocError> {
    let at = match fault {
        TextFault::Memory => return Ok(None),
        TextFault::UnknownWord(at)
        | TextFault::NoSection(at)
        | TextFault::BadPort(at)
        | TextFault::TooLarge(at) => at,
    };
    if let Some(text) = other_file(bytes, fault) {
        return Ok(Some(Finding::at_start(String::from_str(alloc, text)?)));
    }
    let place = Place {
        line: at.line,
        column: at.column,
    };
    let text = field_text(alloc, fault, field_at(bytes, place))?;
    let place = Some(place);
    Ok(Some(Finding { place, text }))
}

/// Returns the message on `fault` of `field`.
fn field_text(alloc: Global, fault: TextFault, field: &str) -> Result<String, AllocError> {
    let name = shown(alloc, field)?;
    let name = name.as_str();
    match fault {
        TextFault::UnknownWord(_) => unknown_text(alloc, field, name),
        TextFault::NoSection(_) => format!(in alloc;
            "\"{name}\" comes before any memory or stream P: write memory or stream 0 before it"
        ),
        TextFault::BadPort(_) => port_text(alloc, field, name),
        _ => large_text(alloc, field, name),
    }
}

/// Returns the message that `field`, which notes show as `name`, isn't a word and begins no section.
fn unknown_text(alloc: Global, field: &str, name: &str) -> Result<String, AllocError> {
    let why = unknown_field(alloc, field)?;
    let why = why.as_str();
    format!(in alloc; "\"{name}\" is not a word: {why}")
}

/// Returns the message that `field`, which notes show as `name`, is too large.
fn large_text(alloc: Global, field: &str, name: &str) -> Result<String, AllocError> {
    let why = too_large(alloc, field)?;
    let why = why.as_str();
    format!(in alloc; "\"{name}\": {why}")
}

/// Returns the message that `field`, which notes show as `name`, is in the place of a port and is none.
fn port_text(alloc: Global, field: &str, name: &str) -> Result<String, AllocError> {
    if field == "stream" {
        return String::from_str(alloc, "stream is followed by the number of a port, 0 to 15");
    }
    let why = if is_digits(field) {
        "ports are 0 to 15"
    } else {
        "stream is followed by a number from 0 to 15, as a field of its own"
    };
    format!(in alloc; "\"{name}\" is not a port: {why}")
}

/// Returns what `bytes` are, which should be a text of words and aren't for `fault`, if they look like another file.
fn other_file(bytes: &[u8], fault: TextFault) -> Option<&'static str> {
    if bytes.starts_with(b"CGI1") && matches!(fault, TextFault::UnknownWord(_)) {
        Some("this is already an image: the command words prints its text")
    } else if bytes.starts_with(b"{") {
        Some("this is JSON, but a text of words is expected, such as memory 1 2 3")
    } else if bytes.starts_with(b"cgl1") {
        Some(
            "this is a loop body, but a text of words is expected: loop translates a loop body into a kernel",
        )
    } else if bytes.starts_with(b"CGB") {
        Some("these are bits, but a text of words is expected, such as memory 1 2 3")
    } else {
        None
    }
}

/// Returns a hint on `field`, which isn't a word and begins no section.
fn unknown_field(alloc: Global, field: &str) -> Result<String, AllocError> {
    if let Some(text) = other_form(alloc, field)? {
        return Ok(text);
    }
    if let Some(near) = nearest_name(alloc, field, &WORDS)? {
        return format!(in alloc; "did you mean {near}?");
    }
    String::from_str(alloc, field_hint(field))
}

/// Returns a hint on `field`, which is no word, begins no section, and looks like nothing that has a form of its own.
fn field_hint(field: &str) -> &'static str {
    if field.contains(',') {
        "fields are separated by blanks, not by commas"
    } else if field.starts_with("//") || field.starts_with("/*") || field.starts_with("--") {
        "a comment begins with #"
    } else if field.strip_prefix('-').unwrap_or(field).contains('-') {
        "a range of words is written A..B, for example 1..5"
    } else if field.starts_with("stream") {
        "the number of a port is written after stream and a blank"
    } else {
        "write N, -N, 0xH, A..B or W*N, or begin a section with memory or stream P"
    }
}

/// Returns how to write `field` if it is a stream with its number, a part of a range with blanks, or a word of another
/// form.
fn other_form(alloc: Global, field: &str) -> Result<Option<String>, AllocError> {
    if field.starts_with("..") || field.ends_with("..") {
        let text = "a range is one field without blanks, such as 0..9";
        return Ok(Some(String::from_str(alloc, text)?));
    }
    if let Some(port) = port_behind(field) {
        let text = format!(in alloc; "write stream {port}, as two fields")?;
        return Ok(Some(text));
    }
    other_word(alloc, field)
}

/// Returns how to write `field` if it is a repeated word, or hexadecimal digits alone.
fn other_word(alloc: Global, field: &str) -> Result<Option<String>, AllocError> {
    if let Some((count, word)) = repeated(field) {
        let text = format!(in alloc;
            "write {word}*{count} for {count} words with the value {word}"
        )?;
        return Ok(Some(text));
    }
    if is_hexadecimal(field) {
        let text = format!(in alloc; "write 0x{field} for a number in hexadecimal digits")?;
        return Ok(Some(text));
    }
    Ok(None)
}

/// Returns the number of repetitions and the word that `field` gives, with an `x` between the two numbers.
fn repeated(field: &str) -> Option<(&str, &str)> {
    match field.split_once('x') {
        Some((count, word)) if is_digits(count) && is_digits(word) => Some((count, word)),
        _ => None,
    }
}

/// Returns the number that follows the word `stream` in `field`.
fn port_behind(field: &str) -> Option<&str> {
    match field.strip_prefix("stream") {
        Some(port) if is_digits(port) => Some(port),
        _ => None,
    }
}

/// Checks whether `text` is hexadecimal digits.
fn is_hexadecimal(text: &str) -> bool {
    !text.is_empty() && text.bytes().all(|byte| byte.is_ascii_hexdigit())
}

/// Checks whether `text` is decimal digits.
fn is_digits(text: &str) -> bool {
    !text.is_empty() && text.bytes().all(|byte| byte.is_ascii_digit())
}

/// Returns why `field`, which has the form of a word or of several, is too large.
fn too_large(alloc: Global, field: &str) -> Result<String, AllocError> {
    if let Some((first, last)) = field.split_once("..") {
        return match (word_of(first), word_of(last)) {
            (Some(first), Some(last)) if first > last => format!(in alloc;
                "a range counts up, but {first} is greater than {last}"
            ),
            (Some(_), Some(_)) => too_many(alloc),
            _ => no_word(alloc),
        };
    }
    let word = match field.split_once('*') {
        Some((word, _)) => word,
        None => field,
    };
    match word_of(word) {
        Some(_) => too_many(alloc),
        None => no_word(alloc),
    }
}

/// Returns the message that a number isn't a word.
fn no_word(alloc: Global) -> Result<String, AllocError> {
    String::from_str(alloc, "a word is in the range -2147483648 to 4294967295")
}

/// Returns the message that a section has too many words.
fn too_many(alloc: Global) -> Result<String, AllocError> {
    format!(in alloc;
        "too many words: at most {MOST_MEMORY} in memory, and {MOST_STREAM} in a stream"
    )
}

/// Returns the word that `text` encodes; None if it doesn't fit in 32 bits, or encodes none.
fn word_of(text: &str) -> Option<u32> {
    if let Some(digits) = text.strip_prefix("0x") {
        return hexadecimal(digits);
    }
    match text.strip_prefix('-') {
        Some(digits) => match digits.parse::<u32>() {
            Ok(number) if number <= 0x8000_0000 => Some(number.wrapping_neg()),
            _ => None,
        },
        None => text.parse::<u32>().ok(),
    }
}

/// Returns the number that `digits` encode in hexadecimal.
fn hexadecimal(digits: &str) -> Option<u32> {
    let mut number = 0u32;
    for digit in digits.chars() {
        let value = digit.to_digit(16)?;
        number = number.checked_mul(16)?.checked_add(value)?;
    }
    Some(number)
}

/// Returns the field of `bytes` that begins at `place`, or the beginning of a long one; empty if it isn't UTF-8.
fn field_at(bytes: &[u8], place: Place) -> &str {
    let line = bytes
        .split(|byte| *byte == b'\n')
        .nth(place.line.saturating_sub(1))
        .unwrap_or(&[]);
    let rest = line.get(place.column.saturating_sub(1)..).unwrap_or(&[]);
    let length = rest
        .iter()
        .take(MOST_SHOWN)
        .take_while(|byte| !matches!(**byte, b' ' | b'\t' | b'\r' | b'#'))
        .count();
    match rest.get(..length) {
        Some(field) => std::str::from_utf8(field).unwrap_or(""),
        None => "",
    }
}
