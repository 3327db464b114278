//! The parts of a trial.
ghost use Rattle.std.specs.Prelude.{◌≡◌, IfOk};
ghost use Rattle.std.specs.List.{range_with_len};
ghost use Rattle.cg_trial.specs.Drawn.{trial_kernel as kernel_of};
ghost use Rattle.cg_trial.specs.Trial.{trial_arch, trial_image};

use crate::hardware::trial_arch as arch_of_trial;
use crate::kernel::trial_kernel as kernel_of_trial;
use cg_arch::Arch;
use cg_model::Kernel;
use cg_pad::{Image, Words, empty_streams};
use std::alloc::{AllocError, Global};

/// The parts of a trial: an architecture, a kernel for it, and an image from which the kernel runs.
#[derive(Drop)]
pub struct TrialParts {
    pub arch: Arch,
    pub kernel: Kernel,
    pub image: Image,
}

/// Returns the words 0 to 255.
fn memory(alloc: Global) -> Result<Vec<u32>, AllocError>
    ensures { IfOk result (λ list. list.items ≡ range_with_len 0 256) }
{
    let mut list = Vec::new(alloc);
    for word in 0..256 {
        list.push(word)?;
    }
    Ok(list)
}

/// Returns the image of a trial.
fn image_of_trial(alloc: Global) -> Result<Image, AllocError>
    ensures { IfOk result (λ image. image ≡ trial_image) }
{
    Ok(Image {
        memory: Words::new(memory(alloc)?),
        streams: empty_streams(alloc)?,
    })
}

/// Returns the architecture, the kernel and the image of the trial of `seed`.
pub fn trial_parts(alloc: Global, seed: u64) -> Result<TrialParts, AllocError>
    ensures arch { IfOk result (λ parts. parts.arch ≡ trial_arch) }
    ensures kernel { IfOk result (λ parts. parts.kernel ≡ kernel_of seed) }
    ensures image { IfOk result (λ parts. parts.image ≡ trial_image) }
{
    Ok(TrialParts {
        arch: arch_of_trial(alloc)?,
        kernel: kernel_of_trial(alloc, seed)?,
        image: image_of_trial(alloc)?,
    })
}
