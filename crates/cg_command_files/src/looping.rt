//! `loop SOURCE OUT`.
ghost use Rattle.std.specs.Prelude.{◌≡◌, IfOk};
ghost use Rattle.cg_cause.specs.Allowed.{Allows};
ghost use Rattle.cg_effects.specs.Outcome.{file_of};
ghost use Rattle.cg_loop_syntax.specs.Body.{body_of};
ghost use Rattle.cg_loop_laws.specs.Translate.{loop_kernel_of};
ghost use Rattle.cg_command_files.specs.Loop.{IsLoopOf, kernel_outcome, kernel_written, loop_report};

use crate::reading_loop::body_in;
use cg_cause::{Cause, Stop};
use cg_effects::{File, Outcome, Status};
use cg_kernel_text::print_kernel;
use cg_loop::{LoopBody, LoopFault, loop_kernel};
use cg_model::Kernel;
use std::alloc::{AllocError, Global};

/// Returns the outcome of `loop`: the kernel of the loop body in `file`, to be written under the name `out`.
pub fn loop_answer(alloc: Global, file: &File, out: &str) -> Result<Outcome, Stop>
    ensures { Allows (IsLoopOf (file_of file.now) out.now) result }
{
    let body = body_in(alloc, file)?;
    translated(alloc, file, &body, out)
}

/// Returns the outcome for the loop `body`, which was read from `file`.
fn translated(alloc: Global, file: &File, body: &LoopBody, out: &str) -> Result<Outcome, Stop>
    ensures { Allows (λ o. o ≡ kernel_outcome (file_of file.now).name out.now (loop_kernel_of (body_of body.now))) result }
{
    match loop_kernel(alloc, body) {
        Ok(kernel) => written(alloc, &kernel, out),
        Err(LoopFault::Memory) => Err(Stop::Memory),
        Err(fault) => Err(Stop::refused(alloc, file, Cause::Loop(fault))),
    }
}

/// Returns the outcome that writes `kernel` under the name `out`, and reports its size.
fn written(alloc: Global, kernel: &Kernel, out: &str) -> Result<Outcome, Stop>
    ensures { Allows (λ o. o ≡ kernel_written kernel.now out.now) result }
{
    let report = loop_report(alloc, kernel)?;
    let text = print_kernel(alloc, kernel)?;
    Ok(Outcome::with_file(alloc, Status::Done, report, out, text)?)
}

/// Returns the report on `kernel`: the numbers of its nodes and order edges.
fn loop_report(alloc: Global, kernel: &Kernel) -> Result<Vec<u8>, AllocError>
    ensures { IfOk result (λ v. v.items ≡ loop_report kernel.now) }
{
    let nodes = kernel.nodes().len();
    let order = kernel.order().len();
    let report = format!(in alloc; "nodes {nodes}\norder {order}\n")?;
    Ok(report.into_bytes())
}
