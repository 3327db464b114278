//! `bound ARCH KERNEL`.
ghost use Rattle.std.specs.Prelude.{◌≡◌, ◌∷◌, ◌++◌, [], IfOk};
ghost use Rattle.cg_cause.specs.Allowed.{Allows};
ghost use Rattle.cg_effects.specs.Outcome.{file_of, line_of};
ghost use Rattle.cg_command_judge.specs.Bound as spec;
ghost use Rattle.cg_command_judge.specs.Bound.{IsBoundOf, IsBounded, bound_report, first_line};

use cg_arch::Arch;
use cg_bound::{LeastInterval, bound as least_interval, certificate_text};
use cg_cause::Stop;
use cg_effects::{File, Outcome, Status};
use cg_inputs::instance_in;
use cg_model::Kernel;
use std::alloc::{AllocError, Global};

/// Returns the outcome of `bound`: the least interval of the kernel in the file `kernel` on the architecture in `arch`.
pub fn bound(alloc: Global, arch: &File, kernel: &File) -> Result<Outcome, Stop>
    ensures { Allows (IsBoundOf (file_of arch.now) (file_of kernel.now)) result }
{
    let instance = instance_in(alloc, arch, kernel)?;
    bounded(alloc, &instance.arch, &instance.kernel)
}

/// Returns the outcome for `kernel` on `array`: the report on the least interval.
fn bounded(alloc: Global, array: &Arch, kernel: &Kernel) -> Result<Outcome, Stop>
    ensures { Allows (IsBounded (record { arch = array.now; kernel = kernel.now })) result }
{
    let least = least_interval(alloc, array, kernel)?;
    let report = bound_report(alloc, array, kernel, &least)?;
    Ok(Outcome::new(alloc, Status::Done, report))
}

/// Returns the report on `least`: the least interval, and why the interval below it is impossible; or why every
/// interval is.
fn bound_report(
    alloc: Global,
    array: &Arch,
    kernel: &Kernel,
    least: &LeastInterval,
) -> Result<Vec<u8>, AllocError>
    ensures { IfOk result (λ v. v.items ≡ bound_report (record { arch = array.now; kernel = kernel.now }) least.now) }
{
    let first = first_line(alloc, least.mii)?;
    match &least.below {
        None => Ok(first),
        Some(certificate) => {
            let text = certificate_text(alloc, array, kernel, below(least.mii), certificate)?;
            with_line(first, text.as_slice())
        }
    }
}

/// Returns the line that reports the least interval `mii`, if there is one.
fn first_line(alloc: Global, mii: Option<u32>) -> Result<Vec<u8>, AllocError>
    ensures { IfOk result (λ v. v.items ≡ first_line mii) }
{
    match mii {
        Some(mii) => {
            let line = format!(in alloc; "mii {mii}\n")?;
            Ok(line.into_bytes())
        }
        None => Vec::from_slice(alloc, b"mii none\n"),
    }
}

/// Returns the interval below `mii`, if there is one.
fn below(mii: Option<u32>) -> Option<u32>
    ensures { result ≡ spec.below mii }
{
    match mii {
        Some(mii) => Some(mii.saturating_sub(1)),
        None => None,
    }
}

/// Returns `report` followed by the line `line`.
fn with_line(report: Vec<u8>, line: &[u8]) -> Result<Vec<u8>, AllocError>
    ensures { IfOk result (λ v. v.items ≡ report.items ++ line_of (line.now ∷ [])) }
{
    let mut longer = report;
    longer.extend_from_slice(line)?;
    longer.push(b'\n')?;
    Ok(longer)
}
