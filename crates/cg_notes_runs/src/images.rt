//! What is wrong with images.

use crate::signs::text_for_image;
use cg_model::{MOST_MEMORY, MOST_STREAM, PORTS};
use cg_pad::{ImageFault, TooLargePlace};
use cg_spans::Finding;
use std::alloc::{AllocError, Global};

/// The bytes of the signature that an image begins with.
const SIGN: usize = 4;

/// The sections of an image: its memory and a stream for each port.
const SECTIONS: usize = 1 + PORTS;

/// The place where an image ends early.
#[derive(Clone, Copy, Drop)]
enum End {
    /// Before the number of words of that section.
    Before {
        section: usize,
    },
    /// In that section, of `words` words, after `there` of them.
    Within {
        section: usize,
        words: u32,
        there: usize,
    },
}

/// Returns what is wrong with `bytes`, which aren't an image for `fault`.
pub fn find_in_image(
    alloc: Global,
    bytes: &[u8],
    fault: ImageFault,
) -> Result<Finding, AllocError> {
    let note = match fault {
        ImageFault::Magic | ImageFault::Memory => return Finding::on_file(alloc, magic_text(bytes)),
        ImageFault::Truncated(_) => match end_of(bytes) {
            Some(end) => end_note(alloc, end)?,
            None => return Finding::on_file(alloc, "the image ends early"),
        },
        ImageFault::TooLarge(place) => large_note(alloc, place)?,
        ImageFault::Trailing(end) => {
            let behind = bytes.len().saturating_sub(end);
            format!(in alloc; "the last stream ends after {end} bytes, and {behind} bytes follow")?
        }
    };
    Ok(Finding {
        place: None,
        text: note,
    })
}

/// Returns what `bytes` are, which aren't an image.
fn magic_text(bytes: &[u8]) -> &'static str {
    if bytes.starts_with(b"CGB") {
        "these are bits, but an image is expected"
    } else if let Some(text) = text_for_image(bytes) {
        text
    } else if bytes.starts_with(b"stream") || bytes.starts_with(b"#") {
        "this is a text of words: image TEXT OUT makes an image from it"
    } else {
        "this is not an image, which begins with CGI1: image TEXT OUT makes one from a text of words"
    }
}

/// Returns the number that the first four bytes of `rest` encode, and the bytes after them.
fn count_in(rest: &[u8]) -> Option<(u32, &[u8])> {
    match rest {
        [a, b, c, d, behind @ ..] => Some((u32::from_be_bytes([*a, *b, *c, *d]), behind)),
        _ => None,
    }
}

/// Returns the place where `bytes`, an image, end early; None if they don't.
fn end_of(bytes: &[u8]) -> Option<End> {
    let mut rest = bytes.get(SIGN..)?;
    for section in 0..SECTIONS {
        let Some((words, behind)) = count_in(rest) else {
            return Some(End::Before { section });
        };
        let Some(next) = behind.get((words as usize).saturating_mul(4)..) else {
            let there = behind.len() / 4;
            return Some(End::Within {
                section,
                words,
                there,
            });
        };
        rest = next;
    }
    None
}

/// Returns the name of a section: the memory, or a stream by its port.
fn section_name(alloc: Global, section: usize) -> Result<String, AllocError> {
    match section.checked_sub(1) {
        Some(port) => format!(in alloc; "stream {port}"),
        None => String::from_str(alloc, "memory"),
    }
}

/// Returns the note on an image that ends early at `end`.
fn end_note(alloc: Global, end: End) -> Result<String, AllocError> {
    let section = match end {
        End::Before { section } | End::Within { section, .. } => section,
    };
    let name = section_name(alloc, section)?;
    let name = name.as_str();
    match end {
        End::Before { .. } => format!(in alloc;
            "the image ends before the number of words of {name}"
        ),
        End::Within { words, there, .. } => format!(in alloc;
            "the image ends in {name}, after {there} of {words} words"
        ),
    }
}

/// Returns the note on the number of words allowed in the part at `place`.
fn large_note(alloc: Global, place: TooLargePlace) -> Result<String, AllocError> {
    match place {
        TooLargePlace::Memory(words) => format!(in alloc;
            "memory has {words} words, but at most {MOST_MEMORY} are allowed"
        ),
        TooLargePlace::Stream(port, words) => format!(in alloc;
            "stream {port} has {words} words, but at most {MOST_STREAM} are allowed"
        ),
    }
}
