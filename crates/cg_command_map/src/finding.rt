//! A mapping that was found: the report on it, and the files that are written.
ghost use Rattle.std.specs.Prelude.{◌≡◌, IfOk, string_bytes};
ghost use Rattle.cg_effects.specs.Outcome.{outcome_of};
ghost use Rattle.cg_command_map.specs.Searches.{IsWritten, outputs_of};
ghost use Rattle.cg_command_map.specs.Answered as spec;

use crate::writing::written;
use cg_check::LegalMapping;
use cg_command::MapperCall;
use cg_command_judge::emit_report;
use cg_effects::{File, Outcome};
use cg_intervals::FoundBy;
use std::alloc::{AllocError, Global};

/// Returns the outcome of `call` for `mapping`, which was found over the hub, or by the search that the word `by` names.
pub(crate) fn found(
    alloc: Global,
    by: &str,
    mapping: &LegalMapping<'_>,
    found_by: FoundBy,
    call: &MapperCall<&File, &str>,
) -> Result<Outcome, AllocError>
    ensures { IfOk result (λ o. IsWritten (outputs_of call.now) mapping.now (spec.found_report by.now mapping.now found_by) (outcome_of o)) }
{
    let report = found_report(alloc, by, mapping, found_by)?;
    written(alloc, mapping, report, call)
}

/// Returns the report on `mapping`: the interval, the number of stages, and how it was found.
fn found_report(
    alloc: Global,
    by: &str,
    mapping: &LegalMapping<'_>,
    found_by: FoundBy,
) -> Result<Vec<u8>, AllocError>
    ensures { IfOk result (λ v. v.items ≡ spec.found_report by.now mapping.now found_by) }
{
    let mut report = emit_report(alloc, mapping)?;
    let line = found_line(alloc, by, found_by)?;
    report.extend_from_slice(line.as_bytes())?;
    Ok(report)
}

/// Returns the line that reports how the mapping was found.
fn found_line(alloc: Global, by: &str, found_by: FoundBy) -> Result<String, AllocError>
    ensures { IfOk result (λ s. string_bytes s ≡ spec.found_line by.now found_by) }
{
    match found_by {
        FoundBy::Hub => String::from_str(alloc, "by hub\n"),
        FoundBy::Moves(count) => format!(in alloc; "by {by} {count}\n"),
    }
}
