//! Cases that differ only in a number.

use std::alloc::{AllocError, Global};

/// A series of cases that differ only in a number, one for each number from the first to the last. In their lines `%`
/// denotes the number.
#[derive(Drop)]
pub(crate) struct Series {
    pub(crate) name: String,
    pub(crate) first: u32,
    pub(crate) last: u32,
    pub(crate) lines: Vec<String>,
}

impl Series {
    /// Reads `title` as `NAME A..B` and returns the series that begins there; None where it is the name of a single
    /// case.
    pub(crate) fn begun(alloc: Global, title: &str) -> Result<Option<Series>, AllocError> {
        let Some((name, range)) = title.split_once(' ') else {
            return Ok(None);
        };
        let Some((first, last)) = range.split_once("..") else {
            return Ok(None);
        };
        let (Ok(first), Ok(last)) = (first.parse::<u32>(), last.parse::<u32>()) else {
            return Ok(None);
        };
        Ok(Some(Series {
            name: String::from_str(alloc, name)?,
            first,
            last,
            lines: Vec::new(alloc),
        }))
    }

    /// Adds `line` to the lines of all cases of the series.
    pub(crate) fn add(&mut self, alloc: Global, line: &str) -> Result<(), AllocError> {
        self.lines.push(String::from_str(alloc, line)?)?;
        Ok(())
    }
}

/// Returns `line` with `number` in place of each `%`.
pub(crate) fn with_number(alloc: Global, line: &str, number: u32) -> Result<String, AllocError> {
    let digits = format!(in alloc; "{number}")?;
    let mut text = String::new(alloc);
    for (place, part) in line.split('%').enumerate() {
        if place > 0 {
            text.push_str(digits.as_str())?;
        }
        text.push_str(part)?;
    }
    Ok(text)
}
