//! `violations ARCH KERNEL MAPPING`.
ghost use Rattle.std.specs.Prelude.{◌≡◌};
ghost use Rattle.cg_model.specs.Mapping.{IsShaped};
ghost use Rattle.cg_cause.specs.Allowed.{Allows};
ghost use Rattle.cg_effects.specs.Outcome.{file_of};
ghost use Rattle.cg_effects.specs.Refusals.{reports};
ghost use Rattle.cg_effects.specs.declared.outcome.Status.TheVariants.{Done, No};
ghost use Rattle.cg_command_judge.specs.Check.{legal_report};
ghost use Rattle.cg_violations.specs.Violations.{violations_of};
ghost use Rattle.cg_command_judge.specs.Violations.{IsViolations, listed_by, violations_report};

use cg_cause::Stop;
use cg_check::{Arch, Kernel, Mapping, Violation};
use cg_effects::{File, Outcome, Status};
use cg_inputs::sources_in;
use cg_violations::{fault_lines, violations as all_violations};
use std::alloc::Global;

/// The maximum number of violations in a report.
const MOST_REPORTED: usize = 1000;

/// Returns the outcome of `violations`: all places at which the mapping in the file `mapping`, of the kernel in
/// `kernel` to the architecture in `arch`, violates a rule of legal mappings.
pub fn violations(
    alloc: Global,
    arch: &File,
    kernel: &File,
    mapping: &File,
) -> Result<Outcome, Stop>
    ensures { Allows (IsViolations (file_of arch.now) (file_of kernel.now) (file_of mapping.now)) result }
{
    let sources = sources_in(alloc, arch, kernel, mapping)?;
    listed(alloc, &sources.arch, &sources.kernel, &sources.mapping)
}

/// Returns the outcome for `mapping`, of `kernel` to `array`.
fn listed(alloc: Global, array: &Arch, kernel: &Kernel, mapping: &Mapping) -> Result<Outcome, Stop>
    requires { IsShaped kernel.now mapping.now }
    ensures { Allows (λ o. o ≡ listed_by (record { arch = array.now; kernel = kernel.now; mapping = mapping.now })
        (violations_of array.now kernel.now mapping.now)) result }
{
    let found = all_violations(alloc, array, kernel, mapping)?;
    match found.as_slice() {
        [] => legal(alloc),
        [_, ..] => illegal(alloc, array, kernel, mapping, found.as_slice()),
    }
}

/// Returns the outcome where the mapping is legal.
fn legal(alloc: Global) -> Result<Outcome, Stop>
    ensures { Allows (λ o. o ≡ reports Done legal_report) result }
{
    let report = Vec::from_slice(alloc, b"legal\n")?;
    Ok(Outcome::new(alloc, Status::Done, report))
}

/// Returns the outcome that lists all violations of `mapping`, of `kernel` to `array`.
fn illegal(
    alloc: Global,
    array: &Arch,
    kernel: &Kernel,
    mapping: &Mapping,
    found: &[Violation],
) -> Result<Outcome, Stop>
    requires shape { IsShaped kernel.now mapping.now }
    requires all { found.now ≡ violations_of array.now kernel.now mapping.now }
    ensures { Allows (λ o. o
        ≡ reports No (violations_report (record { arch = array.now; kernel = kernel.now; mapping = mapping.now }))) result }
{
    let report = fault_lines(alloc, array, kernel, mapping, found, MOST_REPORTED)?;
    Ok(Outcome::new(alloc, Status::No, report))
}
