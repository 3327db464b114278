//! Rows of grids.

use crate::files::ArchFile;
use cg_lints::shown;
use cg_spans::{Finding, key_line};
use std::alloc::{AllocError, Global};
use toml::Value;

/// Returns the finding on row `number` of the grid of `file`: its length, compared with that of the first row. Returns
/// None if the lengths aren't known.
pub(crate) fn find_row(
    alloc: Global,
    file: ArchFile<'_>,
    number: usize,
) -> Result<Option<Finding>, AllocError> {
    match wrong_row(alloc, file.table, number)? {
        Some(text) => row_finding(alloc, file.bytes, number, text.as_str()),
        None => Ok(None),
    }
}

/// Returns the finding that `text` is wrong with row `number` of the grid of the architecture file `bytes`.
pub(crate) fn row_finding(
    alloc: Global,
    bytes: &[u8],
    number: usize,
    text: &str,
) -> Result<Option<Finding>, AllocError> {
    let Some(grid) = key_line(bytes, "grid") else {
        return Ok(None);
    };
    let at = text_from(bytes, grid, number).unwrap_or(grid);
    let text = String::from_str(alloc, text)?;
    Ok(Some(Finding::at(bytes, at, text)))
}

/// Returns what is wrong with row `number` of the grid of `table`, an architecture.
fn wrong_row(alloc: Global, table: &Value, number: usize) -> Result<Option<String>, AllocError> {
    let text = match (row_of(table, 0), row_of(table, number)) {
        (None, _) => String::from_str(
            alloc,
            "the grid has no rows: write at least one, for example grid = [\"A\"]",
        )?,
        (Some(_), None) => return Ok(None),
        (Some(_), Some("")) => format!(in alloc;
            "row {number} of the grid, counted from 0, is empty: a cell is a letter, or a dot if it is empty"
        )?,
        (Some(first), Some(row)) => other_length(alloc, number, row, first)?,
    };
    Ok(Some(text))
}

/// Returns the message that `row`, row `number` of a grid, isn't as long as `first`, row 0.
fn other_length(
    alloc: Global,
    number: usize,
    row: &str,
    first: &str,
) -> Result<String, AllocError> {
    let length = row.len();
    let others = first.len();
    let row = shown(alloc, row)?;
    let row = row.as_str();
    let first = shown(alloc, first)?;
    let first = first.as_str();
    format!(in alloc;
        "row {number} of the grid, counted from 0, is \"{row}\" of length {length}, but row 0 is \"{first}\" of length {others}: all rows have the same length, with a dot for each empty cell"
    )
}

/// Returns row `number` of the grid of `table`, an architecture.
fn row_of(table: &Value, number: usize) -> Option<&str> {
    table.get("grid")?.as_array()?.get(number)?.as_str()
}

/// Returns the byte of `bytes` at which string `number`, counted from 0, begins after byte `from`: the byte of its
/// quote. Comments are skipped.
fn text_from(bytes: &[u8], from: usize, number: usize) -> Option<usize> {
    let mut left = number;
    let mut quote = 0u8;
    let mut is_comment = false;
    for (place, byte) in bytes.get(from..)?.iter().enumerate() {
        if is_comment {
            is_comment = *byte != b'\n';
        } else if quote != 0 {
            if *byte == quote {
                quote = 0;
            }
        } else if *byte == b'#' {
            is_comment = true;
        } else if *byte == b'"' || *byte == b'\'' {
            if left == 0 {
                return Some(from.saturating_add(place));
            }
            left = left.saturating_sub(1);
            quote = *byte;
        } else if *byte == b']' {
            return None;
        }
    }
    None
}
