//! Notes on what a command did, or on its answer no.

use crate::answers::note_answer;
use crate::given::kernel_of;
use cg_command::Command;
use cg_effects::File;
use cg_notes_runs::{
    ArrayRun, KernelRun, LegalCall, array_notes, image_notes, rule_notes, turns_notes,
    unordered_notes,
};
use cg_spans::MOST_PARSED;
use std::alloc::{AllocError, Global};

/// Adds to `notes` the notes for the user on `command`, which did its work and gave `report`.
pub(crate) fn add_done(
    alloc: Global,
    command: &Command<&File, &str>,
    report: &[u8],
    notes: &mut Vec<String>,
) -> Result<(), AllocError> {
    match *command {
        Command::Turns { kernel, .. } if is_short(kernel) => {
            turns_notes(alloc, kernel.bytes.as_slice(), notes)
        }
        Command::TurnsOnImage { .. } => add_turns(alloc, command, report, notes),
        Command::Run { .. } | Command::Bench { .. } => add_run(alloc, command, report, notes),
        Command::Emit { kernel, .. } => add_unordered(alloc, kernel, notes),
        Command::Map(call) | Command::Search(call) => add_unordered(alloc, call.kernel, notes),
        _ => Ok(()),
    }
}

/// Adds to `notes` the notes for the user on `command`, which answered no with `report`.
pub(crate) fn add_no(
    alloc: Global,
    command: &Command<&File, &str>,
    report: &[u8],
    notes: &mut Vec<String>,
) -> Result<(), AllocError> {
    match *command {
        Command::TurnsOnImage { .. } => {
            note_answer(alloc, report, kernel_of(command), notes)?;
            add_turns(alloc, command, report, notes)
        }
        Command::Check {
            arch,
            kernel,
            mapping,
        }
        | Command::Violations {
            arch,
            kernel,
            mapping,
        }
        | Command::Emit {
            arch,
            kernel,
            mapping,
            ..
        }
        | Command::Show {
            arch,
            kernel,
            mapping,
            ..
        } => add_violations(alloc, [arch, kernel, mapping], notes),
        _ => note_answer(alloc, report, kernel_of(command), notes),
    }
}

/// Adds to `notes` what `command`, a run of a kernel from an image with that `report`, left out.
fn add_turns(
    alloc: Global,
    command: &Command<&File, &str>,
    report: &[u8],
    notes: &mut Vec<String>,
) -> Result<(), AllocError> {
    match *command {
        Command::TurnsOnImage {
            kernel,
            turns,
            image,
            ..
        } if is_short(kernel) => {
            let run = KernelRun {
                kernel: kernel.bytes.as_slice(),
                image: image.bytes.as_slice(),
                turns,
                reaches_outside: reaches_outside(report),
            };
            image_notes(alloc, run, notes)
        }
        _ => Ok(()),
    }
}

/// Adds to `notes` what `command`, a run of an array with that `report`, left out. Where it reached outside of the memory
/// the notes say where; for a run of a netlist they don't.
fn add_run(
    alloc: Global,
    command: &Command<&File, &str>,
    report: &[u8],
    notes: &mut Vec<String>,
) -> Result<(), AllocError> {
    let (call, is_netlist) = match *command {
        Command::Run { call, netlist } => (call, netlist.is_some()),
        Command::Bench(call) => (call, false),
        _ => return Ok(()),
    };
    if !is_short(call.arch) {
        return Ok(());
    }
    let run = ArrayRun {
        arch: call.arch.bytes.as_slice(),
        bits: call.bits.bytes.as_slice(),
        image: call.image.bytes.as_slice(),
        turns: call.turns,
        reaches_outside: !is_netlist && reaches_outside(report),
    };
    array_notes(alloc, run, notes)
}

/// Adds to `notes` the accesses of `kernel` that aren't ordered.
fn add_unordered(alloc: Global, kernel: &File, notes: &mut Vec<String>) -> Result<(), AllocError> {
    if !is_short(kernel) {
        return Ok(());
    }
    unordered_notes(alloc, kernel.bytes.as_slice(), notes)
}

/// Adds to `notes` the rules that the last of `files`, the mapping of the second to the first, violates. Adds nothing if
/// a line feed in its name would break the lines.
fn add_violations(
    alloc: Global,
    files: [&File; 3],
    notes: &mut Vec<String>,
) -> Result<(), AllocError> {
    let [arch, kernel, mapping] = files;
    let name = mapping.name.as_str();
    if name.contains('\n') || !(is_short(arch) && is_short(kernel) && is_short(mapping)) {
        return Ok(());
    }
    let call = LegalCall {
        arch: arch.bytes.as_slice(),
        kernel: kernel.bytes.as_slice(),
        mapping: mapping.bytes.as_slice(),
        name,
    };
    rule_notes(alloc, call, notes)
}

/// Checks whether `file` is short enough to be read again for a note.
fn is_short(file: &File) -> bool {
    file.bytes.len() <= MOST_PARSED
}

/// Checks whether `report` says that accesses were outside the memory.
fn reaches_outside(report: &[u8]) -> bool {
    let Ok(text) = std::str::from_utf8(report) else {
        return false;
    };
    text.lines()
        .any(|line| line.starts_with("outside ") && line != "outside 0")
}
