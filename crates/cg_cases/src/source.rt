//! What is said of sources in C, and of sources of which a part is altered.

use cg_c_check::{CheckFault, check_c};
use cg_c_reader::{CFault, Position, position_of, read_c};
use cg_c_syntax::Source;
use cg_notes_c::{find_in_text, find_in_tree};
use cg_spans::Finding;
use std::alloc::{AllocError, Global};

/// What is asked of a source.
#[derive(Clone, Copy)]
pub(crate) enum Question {
    /// Whether it is accepted, and if not, for which fault.
    Verdict,
    /// What may be meant at its fault.
    Hint,
}

impl Question {
    /// Returns the answer for the source that `bytes` encode.
    pub(crate) fn answer(self, alloc: Global, bytes: &[u8]) -> Result<String, AllocError> {
        match self {
            Question::Verdict => verdict(alloc, bytes),
            Question::Hint => hint(alloc, bytes),
        }
    }
}

/// Returns what is said of the source that `bytes` encode: `accepted`, or the fault with its line and its column.
pub(crate) fn verdict(alloc: Global, bytes: &[u8]) -> Result<String, AllocError> {
    match read_c(alloc, bytes) {
        Ok(source) => verdict_of_tree(alloc, bytes, &source),
        Err(CFault::Memory) => Err(AllocError),
        Err(CFault::Text(position)) => said(alloc, "F1 Text", position),
        Err(CFault::TooDeep(position)) => said(alloc, "F2 TooDeep", position),
    }
}

/// Returns what is said of the source `source`, which `bytes` encode.
fn verdict_of_tree(alloc: Global, bytes: &[u8], source: &Source) -> Result<String, AllocError> {
    match check_c(alloc, source) {
        Ok(_) => String::from_str(alloc, "accepted"),
        Err(fault) => refusal(alloc, bytes, fault),
    }
}

/// Returns what is said of the source that `bytes` encode, which has the fault `fault`.
fn refusal(alloc: Global, bytes: &[u8], fault: CheckFault) -> Result<String, AllocError> {
    let name = fault.name();
    let Some(place) = fault.place() else {
        return Err(AllocError);
    };
    said(alloc, name, position_of(bytes, place))
}

/// Returns the hint on the source that `bytes` encode, with its line and its column; `accepted` where it has no fault.
fn hint(alloc: Global, bytes: &[u8]) -> Result<String, AllocError> {
    match read_c(alloc, bytes) {
        Ok(source) => hint_of_tree(alloc, bytes, &source),
        Err(fault) => hinted(alloc, find_in_text(alloc, bytes, &fault)?),
    }
}

/// Returns the hint on the source `source`, which `bytes` encode; `accepted` where it has no fault.
fn hint_of_tree(alloc: Global, bytes: &[u8], source: &Source) -> Result<String, AllocError> {
    match check_c(alloc, source) {
        Ok(_) => String::from_str(alloc, "accepted"),
        Err(fault) => hinted(alloc, find_in_tree(alloc, bytes, fault)?),
    }
}

/// Returns the line that states `finding`, which only lacks where memory does.
fn hinted(alloc: Global, finding: Option<Finding>) -> Result<String, AllocError> {
    match finding {
        Some(
            Finding {
                place: Some(place),
                text,
            },
        ) => {
            let text = text.as_str();
            format!(in alloc; "{place}: {text}")
        }
        Some(Finding { place: None, text }) => Ok(text),
        None => Err(AllocError),
    }
}

/// Returns the line that states the fault `name` at `position`.
fn said(alloc: Global, name: &str, position: Position) -> Result<String, AllocError> {
    let line = position.line;
    let column = position.column;
    format!(in alloc; "{name} {line}:{column}")
}

/// Returns the line for bytes that end too early, of which `bytes` are the whole.
pub(crate) fn ends_too_early(alloc: Global, bytes: &[u8]) -> Result<String, AllocError> {
    said(alloc, "F1 Text", position_of(bytes, bytes.len()))
}

/// How a part of a text is altered.
#[derive(Clone, Copy)]
pub(crate) enum Alteration {
    /// It stands twice, with a blank between.
    Doubled,
    /// Blanks stand in its place.
    Blank,
}

/// A part of a file, and what is wanted of the source in which this part is altered.
#[derive(Clone, Copy)]
pub(crate) struct Part<'a> {
    pub name: &'a str,
    first: usize,
    /// The position behind the part.
    end: usize,
    pub wanted: &'a str,
}

impl<'a> Part<'a> {
    /// Reads `line` as `NAME A B WANTED`: the part is that from byte A up to byte B, which is no longer in it.
    pub(crate) fn read(line: &'a str) -> Option<Part<'a>> {
        let (name, rest) = line.split_once(' ')?;
        let (first, rest) = rest.split_once(' ')?;
        let (end, wanted) = rest.split_once(' ')?;
        let (Ok(first), Ok(end)) = (first.parse::<usize>(), end.parse::<usize>()) else {
            return None;
        };
        Some(Part {
            name,
            first,
            end,
            wanted,
        })
    }

    /// Returns `bytes` with this part altered by `alteration`; None where they have no such part.
    pub(crate) fn altered(
        &self,
        alloc: Global,
        alteration: Alteration,
        bytes: &[u8],
    ) -> Result<Option<Vec<u8>>, AllocError> {
        let (Some(before), Some(part), Some(after)) = (
            bytes.get(..self.first),
            bytes.get(self.first..self.end),
            bytes.get(self.end..),
        ) else {
            return Ok(None);
        };
        let mut text = Vec::from_slice(alloc, before)?;
        add_altered(&mut text, alteration, part)?;
        text.extend_from_slice(after)?;
        Ok(Some(text))
    }
}

/// Adds to `text` what `alteration` makes of `part`.
fn add_altered(text: &mut Vec<u8>, alteration: Alteration, part: &[u8]) -> Result<(), AllocError> {
    match alteration {
        Alteration::Doubled => {
            text.extend_from_slice(part)?;
            text.push(b' ')?;
            text.extend_from_slice(part)?;
        }
        Alteration::Blank => for _ in part {
            text.push(b' ')?;
        },
    }
    Ok(())
}
