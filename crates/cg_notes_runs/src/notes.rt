//! A note for each of the first violations of a mapping.

use crate::meeting::Meeting;
use crate::names::Mapped;
use crate::places::MappingFile;
use crate::placing::{interval_note, order_note, shared_note, unit_note};
use crate::routing::route_note;
use cg_arch::Arch;
use cg_check::{Rule, RulePlace, Violation};
use cg_kernel::read_kernel;
use cg_mapping::read_mapping;
use cg_model::Kernel;
use cg_spans::{Finding, Place};
use cg_tiles::read_arch;
use cg_violations::violations;
use std::alloc::{AllocError, Global};

/// The greatest number of violations with a note.
const MOST_NOTED: usize = 8;

/// The files of a call that judges a mapping.
#[derive(Clone, Copy, Drop)]
pub struct LegalCall<'a> {
    /// The architecture's file.
    pub arch: &'a [u8],
    /// The kernel's file.
    pub kernel: &'a [u8],
    /// The mapping's file.
    pub mapping: &'a [u8],
    /// The name of the mapping's file.
    pub name: &'a str,
}

/// Adds to `notes` a note for each of the first violations of the mapping of `call`: `NAME:LINE:COLUMN: TEXT`.
pub fn rule_notes(
    alloc: Global,
    call: LegalCall<'_>,
    notes: &mut Vec<String>,
) -> Result<(), AllocError> {
    let Ok(arch) = read_arch(alloc, call.arch) else {
        return Ok(());
    };
    let Ok(kernel) = read_kernel(alloc, call.kernel) else {
        return Ok(());
    };
    mapping_notes(alloc, call, &arch, &kernel, notes)
}

/// Adds to `notes` a note for each of the first violations of the mapping of `call`, by `arch` and `kernel`.
fn mapping_notes(
    alloc: Global,
    call: LegalCall<'_>,
    arch: &Arch,
    kernel: &Kernel,
    notes: &mut Vec<String>,
) -> Result<(), AllocError> {
    let Ok(mapping) = read_mapping(alloc, arch, kernel, call.mapping) else {
        return Ok(());
    };
    let Some(file) = MappingFile::read(alloc, call.mapping) else {
        return Ok(());
    };
    let found = violations(alloc, arch, kernel, &mapping)?;
    let mapped = Mapped {
        arch,
        kernel,
        mapping: &mapping,
        file: &file,
    };
    violation_notes(alloc, mapped, found.as_slice(), call.name, notes)
}

/// Adds to `notes` a note for each of the first of `found`, the violations of `mapped` in the file `name`; of the first
/// alone if that is the interval, by which all others are judged.
fn violation_notes(
    alloc: Global,
    mapped: Mapped<'_>,
    found: &[Violation],
    name: &str,
    notes: &mut Vec<String>,
) -> Result<(), AllocError> {
    for violation in found.iter().take(MOST_NOTED) {
        if let Some(text) = violation_note(alloc, mapped, *violation)? {
            let place = place_of(mapped, *violation);
            let finding = Finding { place, text };
            notes.push(finding.note(alloc, name, "")?)?;
        }
        if violation.rule == Rule::L1 {
            return Ok(());
        }
    }
    Ok(())
}

/// Returns the line and column of `violation` of `mapped`: where routes meet, of the first of them.
fn place_of(mapped: Mapped<'_>, violation: Violation) -> Option<Place> {
    match violation.place {
        RulePlace::Resource { resource, slot } => {
            Meeting::new(mapped, violation.rule, resource, slot).place()
        }
        place => mapped.place_of(place),
    }
}

/// Returns the text for `violation` of `mapped`.
fn violation_note(
    alloc: Global,
    mapped: Mapped<'_>,
    violation: Violation,
) -> Result<Option<String>, AllocError> {
    match violation.place {
        RulePlace::Mapping => Ok(Some(interval_note(alloc, mapped)?)),
        RulePlace::Node(node) => match violation.rule {
            Rule::L3 => shared_note(alloc, mapped, node),
            _ => unit_note(alloc, mapped, node),
        },
        RulePlace::Order(edge) => order_note(alloc, mapped, edge),
        RulePlace::Arg { node, arg } => route_note(alloc, mapped, node, arg),
        RulePlace::Resource { resource, slot } => {
            Meeting::new(mapped, violation.rule, resource, slot).note(alloc)
        }
    }
}
