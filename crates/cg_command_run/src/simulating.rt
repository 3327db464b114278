//! `run ARCH BITS TURNS IN OUT`, and the run of the array in this and other commands.
ghost use Rattle.std.specs.Prelude.{◌≡◌, ◌∷◌, [], ◌<◌, ◌≤◌, ℕ, IfOk, IfErr, OnOk, length};
ghost use Rattle.cg_model.specs.Limits.{most_turns};
ghost use Rattle.cg_model.specs.Canonical.{IsCanonical};
ghost use Rattle.cg_model.specs.Machine.{cycles, machine_left};
ghost use Rattle.cg_cause.specs.Allowed.{Allows, EndsBy};
ghost use Rattle.cg_effects.specs.Outcome.{file_of, outcome_of};
ghost use Rattle.cg_effects.specs.Refusals.{malformed_of};
ghost use Rattle.cg_effects.specs.declared.outcome.Status.TheVariants as status;
ghost use Rattle.cg_pad.specs.Bytes.{IsStorable};
ghost use Rattle.cg_datapath.specs.Texts.{sim_fault_text};
ghost use Rattle.cg_inputs.specs.Answered.{ReadThen};
ghost use Rattle.cg_inputs.specs.Readings.{ReadsImage};
ghost use Rattle.cg_command_run.specs.Run as spec;
ghost use Rattle.cg_command_run.specs.Run.{IsRun, RunsFrom, left_outcome, ran, run_report};

use cg_arch::Arch;
use cg_bits::Config;
use cg_cause::{Cause, Stop};
use cg_command::ArrayCall;
use cg_datapath::{RunEnd, SimFault};
use cg_effects::{File, Outcome, Status};
use cg_history::run as run_array;
use cg_inputs::{array_in, image_in};
use cg_pad::{Image, write_image};
use std::alloc::{AllocError, Global};

/// Returns the outcome of `run`, called by `call`: the image that the array leaves, and the report on the run.
pub fn run(alloc: Global, call: &ArrayCall<&File, &str>) -> Result<Outcome, Stop>
    requires { call.now.turns ≤ most_turns }
    ensures { Allows (IsRun call.now.turns (file_of call.now.arch.now) (file_of call.now.bits.now) (file_of call.now.image.now) call.now.out.now) result }
{
    let array = array_in(alloc, call.arch, call.bits)?;
    run_on(alloc, call, &array.arch, &array.config)
}

/// Returns the outcome of `run`, called by `call`, on `arch` under `config`, which were read from its files.
fn run_on(
    alloc: Global,
    call: &ArrayCall<&File, &str>,
    arch: &Arch,
    config: &Config,
) -> Result<Outcome, Stop>
    requires turns { call.now.turns ≤ most_turns }
    requires canonical { IsCanonical arch.now config.now }
    ensures { Allows (ReadThen (ReadsImage (file_of call.now.image.now))
        (RunsFrom (ran call.now.turns call.now.out.now) (file_of call.now.image.now).name arch.now config.now)) result }
{
    let image = image_in(alloc, call.image)?;
    let end = end_of(alloc, call, arch, config, &image)?;
    left_outcome(alloc, &end, call.out)
}

/// Runs the iterations of `call` on `arch` under `config` from `image`, which were read from its files, and returns the
/// end of the run.
pub(crate) fn end_of(
    alloc: Global,
    call: &ArrayCall<&File, &str>,
    arch: &Arch,
    config: &Config,
    image: &Image,
) -> Result<RunEnd, Stop>
    requires turns { call.now.turns ≤ most_turns }
    requires canonical { IsCanonical arch.now config.now }
    ensures cycles { IfOk result (λ end. end.cycles ≡ cycles config.now call.now.turns) }
    ensures left { IfOk result (λ end. record { image = end.image; outside = end.outside } ≡ machine_left arch.now config.now call.now.turns image.now) }
    ensures storable { IfOk result (λ end. IsStorable end.image) }
    ensures fits { OnOk result (length image.now.memory ≤ arch.now.memory) }
    ensures large { IfErr result (EndsBy (λ o. (arch.now.memory < length image.now.memory)
        × (o ≡ spec.too_large (file_of call.now.image.now).name image.now))) }
{
    match run_array(alloc, arch, config, call.turns, image) {
        Ok(end) => Ok(end),
        Err(fault) => Err(too_large(alloc, fault, call.image)),
    }
}

/// Returns the stop for a run that fails although its number of iterations is within the limit: the image in `input`
/// has more words than the memory.
pub(crate) fn too_large(alloc: Global, fault: SimFault, input: &File) -> Stop
    requires { (t : ℕ) → fault ≡ SimFault.TooManyTurns t → ⊥ }
    ensures { EndsBy (λ o. (w : ℕ) × (fault ≡ SimFault.ImageTooLarge w)
        × (o ≡ malformed_of (file_of input.now).name (sim_fault_text fault))) result }
{
    match fault {
        SimFault::Memory => Stop::Memory,
        SimFault::TooManyTurns(_) => unreachable!(),
        SimFault::ImageTooLarge(_) => Stop::refused(alloc, input, Cause::Run(fault)),
    }
}

/// Returns the outcome of a run that ended with `end`, whose image is to be written under `out`.
pub(crate) fn left_outcome(alloc: Global, end: &RunEnd, out: &str) -> Result<Outcome, Stop>
    requires { IsStorable end.now.image }
    ensures { Allows (λ o. o ≡ left_outcome end.now.cycles (record { image = end.now.image; outside = end.now.outside }) out.now) result }
{
    let bytes = write_image(alloc, &end.image)?;
    Ok(ended(alloc, end, out, bytes)?)
}

/// Returns the outcome of a run that ended with `end`: the report on it, and `bytes`, to be written under `out`.
pub(crate) fn ended(
    alloc: Global,
    end: &RunEnd,
    out: &str,
    bytes: Vec<u8>,
) -> Result<Outcome, AllocError>
    ensures { IfOk result (λ o. outcome_of o ≡ record {
      status = status.Done;
      report = run_report end.now.cycles end.now.outside;
      writes = record { name = out.now; bytes = bytes.items } ∷ [];
    }) }
{
    let cycles = end.cycles;
    let outside = end.outside;
    let report = format!(in alloc; "cycles {cycles}\noutside {outside}\n")?;
    Outcome::with_file(alloc, Status::Done, report.into_bytes(), out, bytes)
}
