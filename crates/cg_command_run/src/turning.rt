//! `turns KERNEL TURNS`.
ghost use Rattle.std.specs.Prelude.{◌≡◌, ◌≤◌};
ghost use Rattle.cg_model.specs.Limits.{most_turns};
ghost use Rattle.cg_cause.specs.Allowed.{Allows};
ghost use Rattle.cg_effects.specs.Outcome.{file_of};
ghost use Rattle.cg_command_run.specs.Turns.{IsTurns, turned};

use crate::running::run;
use crate::streams::streams_report;
use cg_cause::Stop;
use cg_effects::{File, Outcome, Status};
use cg_inputs::kernel_in;
use cg_model::Kernel;
use cg_pad::Image;
use std::alloc::Global;

/// Returns the outcome of `turns` without images: the words that `turns` iterations of the kernel in `file` send to its
/// output ports, from an image without words.
pub fn turns(alloc: Global, turns: u32, file: &File) -> Result<Outcome, Stop>
    requires { turns ≤ most_turns }
    ensures { Allows (IsTurns turns (file_of file.now)) result }
{
    let kernel = kernel_in(alloc, file)?;
    turned(alloc, turns, &kernel)
}

/// Returns the outcome of `turns` iterations of `kernel`, from an image without words.
fn turned(alloc: Global, turns: u32, kernel: &Kernel) -> Result<Outcome, Stop>
    requires { turns ≤ most_turns }
    ensures { Allows (λ o. o ≡ turned turns kernel.now) result }
{
    let blank = Image::empty(alloc)?;
    let done = run(alloc, kernel, turns, &blank)?;
    let report = streams_report(alloc, kernel, done.image.streams())?;
    Ok(Outcome::new(alloc, Status::Done, report))
}
