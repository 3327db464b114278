//! `why ARCH KERNEL`.
ghost use Rattle.cg_cause.specs.Allowed.{Allows};
ghost use Rattle.cg_effects.specs.Outcome.{file_of};
ghost use Rattle.cg_command_judge.specs.Why.{IsWhyOf, IsExplained};

use cg_arch::Arch;
use cg_bound_all::explain;
use cg_bound_text::why_report;
use cg_cause::Stop;
use cg_effects::{File, Outcome, Status};
use cg_inputs::instance_in;
use cg_model::Kernel;
use std::alloc::Global;

/// Returns the outcome of `why`: the least interval that no reason excludes for the kernel in the file `kernel` on the
/// architecture in `arch`, and what excludes those below it.
pub fn why(alloc: Global, arch: &File, kernel: &File) -> Result<Outcome, Stop>
    ensures { Allows (IsWhyOf (file_of arch.now) (file_of kernel.now)) result }
{
    let instance = instance_in(alloc, arch, kernel)?;
    explained(alloc, &instance.arch, &instance.kernel)
}

/// Returns the outcome for `kernel` on `array`: the report on what excludes its intervals.
fn explained(alloc: Global, array: &Arch, kernel: &Kernel) -> Result<Outcome, Stop>
    ensures { Allows (IsExplained (record { arch = array.now; kernel = kernel.now })) result }
{
    let found = explain(alloc, array, kernel)?;
    let report = why_report(alloc, array, kernel, &found)?;
    Ok(Outcome::new(alloc, Status::Done, report))
}
