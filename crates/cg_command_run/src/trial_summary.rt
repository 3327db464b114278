//! A trial from its seed to its report.
ghost use Rattle.std.specs.Prelude.{◌≡◌, ◌≤◌, IfOk, length};
ghost use Rattle.cg_model.specs.Limits.{most_memory};
ghost use Rattle.cg_trial.specs.Drawn.{trial_kernel};
ghost use Rattle.cg_trial.specs.Trial.{trial_arch, trial_image};
ghost use Rattle.cg_command_run.specs.Report.{IsReport, IsTrial, mapping_lines, report_of, run_lines};
ghost use Rattle.cg_command_run.specs.Laws.{LeavesSame};

use crate::trial_runs::{TURNS, run_digest, turns_digest};
use cg_check::LegalMapping;
use cg_emit::{emit, stages};
use cg_hub::hub_mapping;
use cg_pad::Image;
use cg_trial::laws::enough;
use cg_trial::{TrialParts, trial_parts};
use std::alloc::{AllocError, Global};

/// Runs the trial of `seed`: maps its kernel at an interval of 64 cycles, runs the bits on the array, and runs the
/// kernel iteration by iteration. The report has eight lines; the last two contain the SHA-256 of the images that are
/// left.
#[tactic(auto, using(crate::proofs::Trials::same_image))]
pub fn trial(alloc: Global, seed: u64) -> Result<Vec<u8>, AllocError>
    ensures report { IfOk result (λ v. IsTrial seed v.items) }
    // Both runs leave the same image.
    ensures same { LeavesSame seed }
{
    let parts = trial_parts(alloc, seed)?;
    trial_on(alloc, seed, &parts)
}

/// Runs the trial of `seed`, whose parts are `parts`, and returns its report.
fn trial_on(alloc: Global, seed: u64, parts: &TrialParts) -> Result<Vec<u8>, AllocError>
    requires arch { parts.now.arch ≡ trial_arch }
    requires kernel { parts.now.kernel ≡ trial_kernel seed }
    requires image { parts.now.image ≡ trial_image }
    ensures { IfOk result (λ v. IsTrial seed v.items) }
{
    enough();
    let mapping = hub_mapping(alloc, &parts.arch, &parts.kernel, 64)?;
    let text = report_on(alloc, seed, &mapping, &parts.image)?;
    Ok(text)
}

/// Returns the report on `mapping` and its two runs from `image`.
fn report_on(
    alloc: Global,
    seed: u64,
    mapping: &LegalMapping<'_>,
    image: &Image,
) -> Result<Vec<u8>, AllocError>
    requires fits { length image.now.memory ≤ mapping.now.arch.memory }
    requires storable { length image.now.memory ≤ most_memory }
    ensures { IfOk result (λ v. IsReport seed mapping.now image.now v.items) }
{
    let bits = emit(alloc, mapping)?;
    let run = run_digest(alloc, mapping, bits.as_slice(), image)?;
    let turns = turns_digest(alloc, mapping, image)?;
    let count = bits.len();
    let text = report(alloc, seed, mapping, count, run.as_str(), turns.as_str())?;
    Ok(text)
}

/// Returns the report for `seed` and `mapping`, with the number of bytes `bits` and the digests `run` and `turns`.
#[tactic(auto, unfolding(crate::specs::Report::report_of))]
fn report(
    alloc: Global,
    seed: u64,
    mapping: &LegalMapping<'_>,
    bits: usize,
    run: &str,
    turns: &str,
) -> Result<Vec<u8>, AllocError>
    ensures { IfOk result (λ v. v.items ≡ report_of seed mapping.now bits run.now turns.now) }
{
    let mut text = mapping_lines(alloc, seed, mapping)?;
    let lines = run_lines(alloc, bits, run, turns)?;
    text.extend_from_slice(lines.as_slice())?;
    Ok(text)
}

/// Returns the lines on `mapping`.
fn mapping_lines(
    alloc: Global,
    seed: u64,
    mapping: &LegalMapping<'_>,
) -> Result<Vec<u8>, AllocError>
    ensures { IfOk result (λ v. v.items ≡ mapping_lines seed mapping.now) }
{
    let nodes = mapping.kernel().nodes().len();
    let ii = mapping.mapping().ii();
    let stages = stages(mapping);
    let lines = format!(in alloc; "trial {seed}\nnodes {nodes}\nii {ii}\nstages {stages}\n")?;
    Ok(lines.into_bytes())
}

/// Returns the lines on the number of bytes `bits` and the digests `run` and `turns`.
fn run_lines(alloc: Global, bits: usize, run: &str, turns: &str) -> Result<Vec<u8>, AllocError>
    ensures { IfOk result (λ v. v.items ≡ run_lines bits run.now turns.now) }
{
    let lines = format!(in alloc;
        "bits {bits}\nturns {TURNS}\nrun-image {run}\nturns-image {turns}\n"
    )?;
    Ok(lines.into_bytes())
}
