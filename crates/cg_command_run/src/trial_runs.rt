//! The two runs, each down to the digest of the image that it leaves.
ghost use Rattle.std.specs.Prelude.{◌≡◌, ◌≤◌, ℕ, Ok, IfOk, length, string_bytes};
ghost use Rattle.cg_model.specs.Canonical.{IsCanonical};
ghost use Rattle.cg_model.specs.Limits.{most_memory};
ghost use Rattle.cg_model.specs.Machine.{machine_left};
ghost use Rattle.cg_model.specs.Turns.{turns_left};
ghost use Rattle.cg_bits.specs.Answers.{answer_of};
ghost use Rattle.cg_check.specs.Legal.{config_of};
ghost use Rattle.cg_pad.specs.Bytes.{IsStorable};
ghost use Rattle.cg_turns.specs.Done.{left_of, IsSmall};
ghost use Rattle.cg_command_run.specs.Report as spec;
ghost use Rattle.cg_command_run.specs.Report.{trial_turns};

use cg_arch::Arch;
use cg_check::LegalMapping;
use cg_datapath::SimFault;
use cg_history::run;
use cg_model::Kernel;
use cg_pad::{Image, write_image};
use cg_turns::{TurnsDone, TurnsFault, run_turns};
use cg_view::ConfigView;
use sha2::{Digest, Sha256};
use std::alloc::{AllocError, Global};

/// The number of iterations of each run.
pub(crate) const TURNS: u32 = 1000;

/// Returns the digest of the file that holds `image`.
#[tactic(auto, unfolding(crate::specs::Report::image_digest))]
fn image_digest(alloc: Global, image: &Image) -> Result<String, AllocError>
    requires { IsStorable image.now }
    ensures { IfOk result (λ s. string_bytes s ≡ spec.image_digest image.now) }
{
    let bytes = write_image(alloc, image)?;
    hex::encode(alloc, Sha256::digest(bytes.as_slice()))
}

/// Runs the array of `mapping`, configured by its bits, from `image`, and returns the digest of the image that is left.
pub(crate) fn run_digest(
    alloc: Global,
    mapping: &LegalMapping<'_>,
    bits: &[u8],
    image: &Image,
) -> Result<String, AllocError>
    requires read { answer_of mapping.now.arch bits.now ≡ Ok (config_of mapping.now) }
    requires fits { length image.now.memory ≤ mapping.now.arch.memory }
    ensures { IfOk result (λ s. string_bytes s
        ≡ spec.image_digest (machine_left mapping.now.arch (config_of mapping.now) trial_turns image.now).image) }
{
    let arch = mapping.arch();
    match ConfigView::of(arch, bits) {
        Ok(config) => config_digest(alloc, arch, &config, image),
        Err(_) => unreachable!(),
    }
}

/// Runs `config` on `arch`, from `image`, and returns the digest of the image that is left.
fn config_digest(
    alloc: Global,
    arch: &Arch,
    config: &ConfigView<'_>,
    image: &Image,
) -> Result<String, AllocError>
    requires canonical { IsCanonical arch.now config.now }
    requires fits { length image.now.memory ≤ arch.now.memory }
    ensures { IfOk result (λ s. string_bytes s ≡ spec.image_digest (machine_left arch.now config.now trial_turns image.now).image) }
{
    match run(alloc, arch, config, TURNS, image) {
        Ok(end) => image_digest(alloc, &end.image),
        Err(fault) => Err(want_of_run(fault)),
    }
}

/// Converts `fault` to the only fault that remains when the number of iterations is within the limit and the image
/// fits: memory ran out.
fn want_of_run(fault: SimFault) -> AllocError
    requires many { (t : ℕ) → fault ≡ SimFault.TooManyTurns t → ⊥ }
    requires large { (w : ℕ) → fault ≡ SimFault.ImageTooLarge w → ⊥ }
{
    match fault {
        SimFault::Memory => AllocError,
        SimFault::TooManyTurns(_) => unreachable!(),
        SimFault::ImageTooLarge(_) => unreachable!(),
    }
}

/// Runs the iterations of the kernel of `mapping`, one after the other, from `image`, and returns the digest of the
/// image that is left.
pub(crate) fn turns_digest(
    alloc: Global,
    mapping: &LegalMapping<'_>,
    image: &Image,
) -> Result<String, AllocError>
    requires { length image.now.memory ≤ most_memory }
    ensures { IfOk result (λ s. string_bytes s ≡ spec.image_digest (turns_left mapping.now.kernel trial_turns image.now).image) }
{
    let done = turned(alloc, mapping.kernel(), image)?;
    let text = image_digest(alloc, &done.image)?;
    Ok(text)
}

/// Runs `TURNS` iterations of `kernel` from `image`.
fn turned(alloc: Global, kernel: &Kernel, image: &Image) -> Result<TurnsDone, AllocError>
    ensures done { IfOk result (λ d. left_of d ≡ turns_left kernel.now trial_turns image.now) }
    ensures small { IfOk result (λ d. IsSmall image.now trial_turns d.image) }
{
    match run_turns(alloc, kernel, TURNS, image) {
        Ok(done) => Ok(done),
        Err(fault) => Err(want_of_turns(fault)),
    }
}

/// Converts `fault` to the only fault that remains when the number of iterations is within the limit: memory ran out.
fn want_of_turns(fault: TurnsFault) -> AllocError
    requires { (t : ℕ) → fault ≡ TurnsFault.TooManyTurns t → ⊥ }
{
    match fault {
        TurnsFault::Memory => AllocError,
        TurnsFault::TooManyTurns(_) => unreachable!(),
    }
}
