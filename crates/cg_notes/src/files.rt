//! Notes on files that weren't read or written.

use cg_diagnostics::Aside;
use cg_effects::{Outcome, Status};
use std::alloc::{AllocError, Global};

/// Writes to `aside` which file couldn't be read by `outcome`, or is too long; or which files it writes, if `status`
/// says that one of them, or the report, couldn't be written.
pub fn note_files(
    alloc: Global,
    status: Status,
    outcome: &Outcome,
    aside: &mut dyn Aside,
) -> Result<(), AllocError> {
    let notes = match status {
        Status::ReadFault => read_notes(alloc, outcome)?,
        Status::Malformed => long_notes(alloc, outcome)?,
        Status::WriteFault => write_notes(alloc, outcome)?,
        _ => return Ok(()),
    };
    for note in &notes {
        aside.note(note.as_str());
    }
    Ok(())
}

/// Returns a note on the file that couldn't be read, which the report of `outcome` names.
fn read_notes(alloc: Global, outcome: &Outcome) -> Result<Vec<String>, AllocError> {
    let mut notes = Vec::new(alloc);
    if let Some(name) = name_in(outcome, "read fault ", "") {
        notes.push(format!(in alloc;
            "{name}: the file doesn't exist, can't be read, or is a directory"
        )?)?;
    }
    Ok(notes)
}

/// Returns a note on the file that is too long, if the report of `outcome` says so.
fn long_notes(alloc: Global, outcome: &Outcome) -> Result<Vec<String>, AllocError> {
    let mut notes = Vec::new(alloc);
    if let Some(name) = name_in(outcome, "malformed ", ": G1 TooLong limit 16777216") {
        notes.push(format!(in alloc;
            "{name}: the file is too long and isn't read: the limit is 16777216 bytes"
        )?)?;
    }
    Ok(notes)
}

/// Returns the name of a file in the report of `outcome`, a line with `front` before the name and `end` after it; None
/// if the report isn't such a line.
fn name_in<'a>(outcome: &'a Outcome, front: &str, end: &str) -> Option<&'a str> {
    let report = std::str::from_utf8(outcome.report.as_slice()).ok()?;
    let name = report
        .strip_suffix('\n')?
        .strip_prefix(front)?
        .strip_suffix(end)?;
    if name.contains('\n') {
        None
    } else {
        Some(name)
    }
}

/// Returns a note for each file that `outcome` writes.
fn write_notes(alloc: Global, outcome: &Outcome) -> Result<Vec<String>, AllocError> {
    let mut notes = Vec::new(alloc);
    for file in &outcome.writes {
        let name = file.name.as_str();
        if !name.contains('\n') {
            notes.push(format!(in alloc; "to be written: {name}")?)?;
        }
    }
    Ok(notes)
}
