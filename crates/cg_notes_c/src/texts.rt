//! Notes on bytes that are no source.

use crate::context::{Around, look_around, offset_of};
use crate::hints::hint;
use crate::strays::stray_text;
use cg_c_reader::{CFault, Position};
use cg_c_syntax::Kind;
use cg_spans::{Finding, Place, is_word_byte};
use std::alloc::{AllocError, Global};

/// The greatest number of bytes of a token that are shown.
const MOST_SHOWN: usize = 40;

/// Returns the finding of `fault` in `bytes`, and `None` if there is none.
pub fn find_in_text(
    alloc: Global,
    bytes: &[u8],
    fault: &CFault,
) -> Result<Option<Finding>, AllocError> {
    match fault {
        CFault::Memory => Ok(None),
        CFault::Text(position) => {
            let text = unexpected(alloc, bytes, offset_of(bytes, *position))?;
            Ok(Some(finding(*position, text)))
        }
        CFault::TooDeep(position) => {
            let text = String::from_str(
                alloc,
                "sixty blocks, ifs, loops, brackets, signs and casts are open before this one, and no more may be",
            )?;
            Ok(Some(finding(*position, text)))
        }
    }
}

/// Returns the finding with the sentence `text` at `position`.
fn finding(position: Position, text: String) -> Finding {
    let place = Place {
        line: position.line,
        column: position.column,
    };
    Finding {
        place: Some(place),
        text,
    }
}

/// Returns the message that no source goes on as `bytes` do at `place`.
fn unexpected(alloc: Global, bytes: &[u8], place: usize) -> Result<String, AllocError> {
    let around = look_around(bytes, place);
    if around.kind == Kind::Stray {
        return stray_text(alloc, bytes.get(place..).unwrap_or(&[]));
    }
    let shown = shown_token(alloc, around)?;
    let shown = shown.as_str();
    let hint = hint(around);
    if hint.is_empty() && is_semicolon_missing(bytes, place, around) {
        let line = Place::at(bytes, around.end).line;
        return format!(in alloc;
            "unexpected {shown}; is a semicolon missing at the end of line {line}?"
        );
    }
    format!(in alloc; "unexpected {shown}{hint}")
}

/// Returns what stands at the place, as a message shows it.
fn shown_token(alloc: Global, around: Around<'_>) -> Result<String, AllocError> {
    let text = around.at;
    match around.kind {
        Kind::LineEnd => String::from_str(alloc, "end of the line"),
        Kind::TextEnd => String::from_str(alloc, "end of the text"),
        _ if text.len() <= MOST_SHOWN => format!(in alloc; "\"{text}\""),
        _ => String::from_str(alloc, "long word"),
    }
}

/// Checks whether a line ends between the token at `place` of `bytes` and the one before it, which may end a statement.
fn is_semicolon_missing(bytes: &[u8], place: usize, around: Around<'_>) -> bool {
    let between = bytes.get(around.end..place).unwrap_or(&[]);
    let ends = match around.last.as_bytes().last() {
        Some(last) => is_word_byte(*last) || *last == b')' || *last == b']',
        None => false,
    };
    ends && between.contains(&b'\n')
}
