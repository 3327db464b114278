//! Lines that describe bytes.

use std::alloc::{AllocError, Global};

/// Adds to `bytes` those that the content line `line` describes. Returns false where it describes none:
///
/// - `| TEXT` is the text and a line feed, and `|` a line feed alone;
/// - `+ TEXT` is the text;
/// - `* N TEXT` is the text repeated N times;
/// - `x DIGITS` are bytes in hexadecimal digits, with blanks between them;
/// - `words ITEM ..` are words of four bytes, the most significant first;
/// - `image ITEM .. | ITEM .. ..` is an image file: the words of its memory, and of each of its streams.
pub(crate) fn add_line(alloc: Global, bytes: &mut Vec<u8>, line: &str) -> Result<bool, AllocError> {
    let (mark, rest) = line.split_once(' ').unwrap_or((line, ""));
    match mark {
        "|" => {
            bytes.extend_from_slice(rest.as_bytes())?;
            bytes.push(b'\n')?;
            Ok(true)
        }
        "+" => {
            bytes.extend_from_slice(rest.as_bytes())?;
            Ok(true)
        }
        "*" => add_repeated(bytes, rest),
        "x" => add_digits(alloc, bytes, rest),
        "words" => add_words(bytes, rest),
        "image" => add_image(alloc, bytes, rest),
        _ => Ok(false),
    }
}

/// Adds a repeated text to `bytes`: `line` is `N TEXT`, and the text is added N times. Returns false where `line` has
/// another form.
fn add_repeated(bytes: &mut Vec<u8>, line: &str) -> Result<bool, AllocError> {
    let (count, text) = line.split_once(' ').unwrap_or((line, ""));
    let Ok(count) = count.parse::<u32>() else {
        return Ok(false);
    };
    for _ in 0..count {
        bytes.extend_from_slice(text.as_bytes())?;
    }
    Ok(true)
}

/// Adds to `bytes` those that `line` contains as two hexadecimal digits each. Returns false where it has another form.
fn add_digits(alloc: Global, bytes: &mut Vec<u8>, line: &str) -> Result<bool, AllocError> {
    for digits in line.split(' ') {
        let Ok(some) = hex::decode(alloc, digits) else {
            return Ok(false);
        };
        bytes.extend_from_slice(some.as_slice())?;
    }
    Ok(true)
}

/// Adds to `bytes` the words that the items of `line` describe. Returns false where an item describes none.
fn add_words(bytes: &mut Vec<u8>, line: &str) -> Result<bool, AllocError> {
    for item in line.split(' ') {
        if !item.is_empty() && !add_item(bytes, item)? {
            return Ok(false);
        }
    }
    Ok(true)
}

/// Adds to `bytes` the words of `item`: `W` is one word, `W*N` is that word N times, `A..B` are the words from A to B.
/// Returns false where `item` has another form.
fn add_item(bytes: &mut Vec<u8>, item: &str) -> Result<bool, AllocError> {
    if let Some((word, count)) = item.split_once('*') {
        let (Ok(word), Ok(count)) = (word.parse::<u32>(), count.parse::<u32>()) else {
            return Ok(false);
        };
        for _ in 0..count {
            bytes.extend_from_slice(&word.to_be_bytes())?;
        }
        return Ok(true);
    }
    let (first, last) = item.split_once("..").unwrap_or((item, item));
    let (Ok(first), Ok(last)) = (first.parse::<u32>(), last.parse::<u32>()) else {
        return Ok(false);
    };
    if first > last {
        return Ok(false);
    }
    for word in first..=last {
        bytes.extend_from_slice(&word.to_be_bytes())?;
    }
    Ok(true)
}

/// Adds to `bytes` the image file that `line` describes. Streams that aren't given are empty. Returns false where it
/// describes none.
fn add_image(alloc: Global, bytes: &mut Vec<u8>, line: &str) -> Result<bool, AllocError> {
    bytes.extend_from_slice(b"CGI1")?;
    let mut blocks = line.split('|');
    for _ in 0..17 {
        let mut words = Vec::new(alloc);
        if !add_words(&mut words, blocks.next().unwrap_or(""))? {
            return Ok(false);
        }
        let count = u32::try_from(words.len() / 4).unwrap_or(u32::MAX);
        bytes.extend_from_slice(&count.to_be_bytes())?;
        bytes.extend_from_slice(words.as_slice())?;
    }
    Ok(blocks.next().is_none())
}
