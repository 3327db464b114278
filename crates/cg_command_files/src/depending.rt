//! `depend KERNEL OUT`.
ghost use Rattle.std.specs.Prelude.{◌≡◌, IfOk};
ghost use Rattle.cg_cause.specs.Allowed.{Allows};
ghost use Rattle.cg_effects.specs.Outcome.{file_of};
ghost use Rattle.cg_command_files.specs.Depend.{IsDependOf, DependOf, written_of, depend_report};

use cg_cause::{Cause, Stop};
use cg_depend::{DependDone, DependFault, depend as depend_on};
use cg_effects::{File, Outcome, Status};
use cg_inputs::kernel_in;
use cg_kernel_text::print_kernel;
use cg_model::Kernel;
use std::alloc::{AllocError, Global};

/// Returns the outcome of `depend`: the kernel in `file` with the order edges that its accesses need, to be written
/// under the name `out`.
pub fn depend(alloc: Global, file: &File, out: &str) -> Result<Outcome, Stop>
    ensures { Allows (IsDependOf (file_of file.now) out.now) result }
{
    let kernel = kernel_in(alloc, file)?;
    depended(alloc, file, &kernel, out)
}

/// Returns the outcome for `kernel`, which was read from `file`.
fn depended(alloc: Global, file: &File, kernel: &Kernel, out: &str) -> Result<Outcome, Stop>
    ensures { Allows (DependOf (file_of file.now).name out.now kernel.now) result }
{
    match depend_on(alloc, kernel) {
        Ok(done) => written(alloc, &done, out),
        Err(DependFault::Memory) => Err(Stop::Memory),
        Err(fault) => Err(Stop::refused(alloc, file, Cause::Depend(fault))),
    }
}

/// Returns the outcome that writes the kernel of `done` under the name `out`, and reports the numbers of its order
/// edges.
fn written(alloc: Global, done: &DependDone, out: &str) -> Result<Outcome, Stop>
    ensures { Allows (λ o. o ≡ written_of done.now.added done.now.kernel out.now) result }
{
    let report = depend_report(alloc, done.added, done.kernel.order().len())?;
    let text = print_kernel(alloc, &done.kernel)?;
    Ok(Outcome::with_file(alloc, Status::Done, report, out, text)?)
}

/// Returns the report: `added` order edges were added, and the kernel now has `all`.
fn depend_report(alloc: Global, added: u32, all: usize) -> Result<Vec<u8>, AllocError>
    ensures { IfOk result (λ v. v.items ≡ depend_report added all) }
{
    let report = format!(in alloc; "added {added}\norder {all}\n")?;
    Ok(report.into_bytes())
}
