//! `turns KERNEL TURNS IN OUT`.
ghost use Rattle.std.specs.Prelude.{◌≡◌, ◌<◌, ◌≤◌, Some, IfOk, IfSome, length, string_bytes};
ghost use Rattle.cg_model.specs.Kernel.{size, node as node_of};
ghost use Rattle.cg_model.specs.Limits.{most_memory, most_turns};
ghost use Rattle.cg_cause.specs.Allowed.{Allows};
ghost use Rattle.cg_effects.specs.Outcome.{file_of};
ghost use Rattle.cg_command_run.specs.TurnsOnImage.{IsImaged, IsTurnsOnImage, image_report, pair_status};

use crate::running::run;
use cg_cause::Stop;
use cg_effects::{File, Outcome, Status};
use cg_inputs::{image_in, kernel_in};
use cg_model::Kernel;
use cg_pad::{Image, write_image};
use cg_turns::UnorderedPair;
use std::alloc::{AllocError, Global};

/// Returns the outcome of `turns` with images: runs `turns` iterations of the kernel in `file` from the image in
/// `input`; the result image is to be written under the name `out`.
pub fn turns_on_image(
    alloc: Global,
    turns: u32,
    file: &File,
    input: &File,
    out: &str,
) -> Result<Outcome, Stop>
    requires { turns ≤ most_turns }
    ensures { Allows (IsTurnsOnImage turns (file_of file.now) (file_of input.now) out.now) result }
{
    let kernel = kernel_in(alloc, file)?;
    let image = image_in(alloc, input)?;
    imaged(alloc, turns, &kernel, &image, out)
}

/// Returns the outcome of `turns` iterations of `kernel` from `image`: the report, and the result image, to be written
/// under `out`.
fn imaged(
    alloc: Global,
    turns: u32,
    kernel: &Kernel,
    image: &Image,
    out: &str,
) -> Result<Outcome, Stop>
    requires turns { turns ≤ most_turns }
    requires memory { length image.now.memory ≤ most_memory }
    ensures { Allows (IsImaged turns kernel.now image.now out.now) result }
{
    let done = run(alloc, kernel, turns, image)?;
    let report = image_report(alloc, kernel, done.outside, done.pair)?;
    let bytes = write_image(alloc, &done.image)?;
    Ok(Outcome::with_file(alloc, status_of(done.pair), report, out, bytes)?)
}

/// Returns `Done` where all accesses that matter are ordered, and `No` otherwise.
fn status_of(pair: Option<UnorderedPair>) -> Status
    ensures { result ≡ pair_status pair }
{
    match pair {
        None => Status::Done,
        Some(_) => Status::No,
    }
}

/// Returns the report: the number of accesses outside the memory, and the `pair` of accesses that no edges order, if
/// there is one.
fn image_report(
    alloc: Global,
    kernel: &Kernel,
    outside: u64,
    pair: Option<UnorderedPair>,
) -> Result<Vec<u8>, AllocError>
    requires { IfSome pair (λ p. (p.earlier.node < size kernel.now) × (p.later.node < size kernel.now)) }
    ensures { IfOk result (λ v. v.items ≡ image_report kernel.now outside pair) }
{
    let report = match pair {
        None => format!(in alloc; "outside {outside}\nordered\n")?,
        Some(pair) => unordered_report(alloc, kernel, outside, pair)?,
    };
    Ok(report.into_bytes())
}

fn unordered_report(
    alloc: Global,
    kernel: &Kernel,
    outside: u64,
    pair: UnorderedPair,
) -> Result<String, AllocError>
    requires earlier { pair.earlier.node < size kernel.now }
    requires later { pair.later.node < size kernel.now }
    ensures { IfOk result (λ s. string_bytes s ≡ image_report kernel.now outside (Some pair)) }
{
    let earlier = name_of(kernel, pair.earlier.node);
    let before = pair.earlier.turn;
    let later = name_of(kernel, pair.later.node);
    let after = pair.later.turn;
    format!(in alloc; "outside {outside}\nunordered {earlier} {before} {later} {after}\n")
}

/// Returns the name of node `number`.
fn name_of(kernel: &Kernel, number: u32) -> &str
    requires { number < size kernel.now }
    ensures { result.now ≡ (node_of kernel.now number).name }
{
    kernel.nodes()[number as usize].name.as_str()
}
