//! `simplify KERNEL OUT [--copies] [--share]`.
ghost use Rattle.std.specs.Prelude.{◌≡◌, IfOk};
ghost use Rattle.cg_cause.specs.Allowed.{Allows};
ghost use Rattle.cg_effects.specs.Outcome.{file_of};
ghost use Rattle.cg_command_files.specs.Simplify.{IsSimplifyOf, SimplifyOf, simplified_to, simplify_report};

use cg_cause::Stop;
use cg_effects::{File, Outcome, Status};
use cg_inputs::kernel_in;
use cg_kernel_text::print_kernel;
use cg_model::Kernel;
use cg_simplify::{Options, simplify as simplify_by};
use std::alloc::{AllocError, Global};

/// Returns the outcome of `simplify`: the kernel in `file`, simplified as `options` says, to be written under the name
/// `out`.
pub fn simplify(alloc: Global, file: &File, out: &str, options: Options) -> Result<Outcome, Stop>
    ensures { Allows (IsSimplifyOf (file_of file.now) out.now) result }
{
    let kernel = kernel_in(alloc, file)?;
    simplified(alloc, &kernel, out, options)
}

/// Returns the outcome for `given`, the kernel that was read.
fn simplified(alloc: Global, given: &Kernel, out: &str, options: Options) -> Result<Outcome, Stop>
    ensures { Allows (SimplifyOf out.now given.now) result }
{
    let kernel = simplify_by(alloc, given, options)?;
    written(alloc, given, &kernel, out)
}

/// Returns the outcome that writes `kernel`, into which `given` was simplified, under the name `out`.
fn written(alloc: Global, given: &Kernel, kernel: &Kernel, out: &str) -> Result<Outcome, Stop>
    ensures { Allows (λ o. o ≡ simplified_to given.now kernel.now out.now) result }
{
    let report = simplify_report(alloc, given, kernel)?;
    let text = print_kernel(alloc, kernel)?;
    Ok(Outcome::with_file(alloc, Status::Done, report, out, text)?)
}

/// Returns the report: the numbers of nodes and of order edges of `given` and of `kernel`.
fn simplify_report(alloc: Global, given: &Kernel, kernel: &Kernel) -> Result<Vec<u8>, AllocError>
    ensures { IfOk result (λ v. v.items ≡ simplify_report given.now kernel.now) }
{
    let nodes = given.nodes().len();
    let left = kernel.nodes().len();
    let order = given.order().len();
    let ordered = kernel.order().len();
    let report = format!(in alloc; "nodes {nodes} {left}\norder {order} {ordered}\n")?;
    Ok(report.into_bytes())
}
