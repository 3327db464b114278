//! A search that found no mapping: the report on what is left at each interval.
ghost use Rattle.std.specs.Prelude.{◌≡◌, ◌+◌, ◌<◌, ◌^◌, ◌++◌, length, IfOk, OnOk};
ghost use Rattle.cg_effects.specs.Outcome.{outcome_of};
ghost use Rattle.cg_effects.specs.Refusals.{reports};
ghost use Rattle.cg_effects.specs.declared.outcome.Status.TheVariants as status;
ghost use Rattle.cg_command_map.specs.Answered as spec;

use cg_effects::{Outcome, Status};
use std::alloc::{AllocError, Global};

/// Returns the outcome of a search that found no mapping, with the report `report`.
pub(crate) fn spent(alloc: Global, report: Vec<u8>) -> Outcome
    ensures { outcome_of result ≡ reports status.BudgetSpent report.items }
{
    Outcome {
        status: Status::BudgetSpent,
        report,
        writes: Vec::new(alloc),
    }
}

/// Returns the report on what is `left` at the intervals from `first` on: a line for each, with `word` before the
/// number.
pub(crate) fn left_report(
    alloc: Global,
    word: &str,
    first: u32,
    left: &[u64],
) -> Result<Vec<u8>, AllocError>
    requires { first + length left.now < 2 ^ 32 }
    ensures { IfOk result (λ report. report.items ≡ spec.left_report word.now first left.now) }
{
    let mut report = Vec::new(alloc);
    for i in 0..left.len() {
        add_left(alloc, &mut report, word, first + i as u32, left[i])?;
    }
    Ok(report)
}

/// Adds to `report` the line for the interval `ii`, at which `left` is left, with `word` before the number.
pub(crate) fn add_left(
    alloc: Global,
    report: &mut Vec<u8>,
    word: &str,
    ii: u32,
    left: u64,
) -> Result<(), AllocError>
    ensures { OnOk result (report.new.items ≡ report.old.items ++ spec.left_line word.now ii left) }
{
    let line = format!(in alloc; "ii {ii} {word} {left}\n")?;
    report.extend_from_slice(line.as_bytes())
}
