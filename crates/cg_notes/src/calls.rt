//! Notes by how a call ended.

use crate::answered::{add_done, add_no};
use crate::answers::note_answer;
use crate::given::kernel_of;
use crate::refused::add_refused;
use cg_cause::Stop;
use cg_command::Command;
use cg_diagnostics::Aside;
use cg_effects::{File, Outcome, Status};
use std::alloc::{AllocError, Global};

/// Writes to `aside` the notes for the user on `command`, which `ended` so: where in a file a fault lies, what an answer
/// means, or what a run left out.
pub fn note_call(
    alloc: Global,
    command: &Command<&File, &str>,
    ended: &Result<Outcome, Stop>,
    aside: &mut dyn Aside,
) -> Result<(), AllocError> {
    let mut notes = Vec::new(alloc);
    let noted = add_notes(alloc, command, ended, &mut notes);
    for note in &notes {
        aside.note(note.as_str());
    }
    noted
}

/// Adds to `notes` the notes for the user on `command`, which `ended` so.
fn add_notes(
    alloc: Global,
    command: &Command<&File, &str>,
    ended: &Result<Outcome, Stop>,
    notes: &mut Vec<String>,
) -> Result<(), AllocError> {
    match ended {
        Ok(outcome) => add_answered(alloc, command, outcome, notes),
        Err(Stop::Refused { file, cause }) => {
            add_refused(alloc, command, file.as_str(), cause, notes)
        }
        Err(Stop::Memory) => Ok(()),
    }
}

/// Adds to `notes` the notes for the user on `outcome`, that of `command`.
fn add_answered(
    alloc: Global,
    command: &Command<&File, &str>,
    outcome: &Outcome,
    notes: &mut Vec<String>,
) -> Result<(), AllocError> {
    let report = outcome.report.as_slice();
    match outcome.status {
        Status::Done => add_done(alloc, command, report, notes),
        Status::No => add_no(alloc, command, report, notes),
        _ => note_answer(alloc, report, kernel_of(command), notes),
    }
}
