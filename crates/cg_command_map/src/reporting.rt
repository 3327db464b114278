//! The report of a search that found no mapping: the number of faults that are left at each interval, and the faults of
//! the mapping in which this number was reached; or what excludes the last interval.
ghost use Rattle.std.specs.Prelude.{◌≡◌, ◌+◌, ◌<◌, ◌^◌, length, IfOk};
ghost use Rattle.cg_model.specs.Mapping.{IsShaped};
ghost use Rattle.cg_search.specs.Search.{AreMissedFrom};
ghost use Rattle.cg_command_map.specs.Search as spec;

use crate::spending::add_left;
use cg_arch::Arch;
use cg_bound_text::excluded_line;
use cg_model::Kernel;
use cg_search::{Exclusion, Failure, Miss};
use cg_violations::{fault_lines, violations};
use std::alloc::{AllocError, Global};

/// The maximum number of lines that report the faults of a mapping.
const MOST_LINES: usize = 8;

/// Returns the report on `failure`, for which a search for a mapping of `kernel` to `arch` found none.
pub(crate) fn failure_report(
    alloc: Global,
    arch: &Arch,
    kernel: &Kernel,
    failure: &Failure,
) -> Result<Vec<u8>, AllocError>
    requires { spec.IsReportable (record { arch = arch.now; kernel = kernel.now }) failure.now }
    ensures { IfOk result (λ report. report.items
        ≡ spec.failure_text (record { arch = arch.now; kernel = kernel.now }) failure.now) }
{
    match failure {
        Failure::Excluded(exclusion) => {
            let Exclusion {
                interval,
                tables,
                reason,
            } = exclusion;
            excluded_line(alloc, arch, kernel, tables, *interval, reason)
        }
        Failure::Missed { first, misses } => {
            faults_report(alloc, arch, kernel, *first, misses.as_slice())
        }
    }
}

/// Returns the report on `misses`, one at each interval from `first` on.
fn faults_report(
    alloc: Global,
    arch: &Arch,
    kernel: &Kernel,
    first: u32,
    misses: &[Miss],
) -> Result<Vec<u8>, AllocError>
    requires few { first + length misses.now < 2 ^ 32 }
    requires missed { AreMissedFrom arch.now kernel.now first misses.now }
    ensures { IfOk result (λ report. report.items
        ≡ spec.faults_report (record { arch = arch.now; kernel = kernel.now }) first misses.now) }
{
    let mut report = Vec::new(alloc);
    for i in 0..misses.len() {
        let lines = interval_report(alloc, arch, kernel, first + i as u32, &misses[i])?;
        report.extend_from_slice(lines.as_slice())?;
    }
    Ok(report)
}

/// Returns the report on `miss`, the result at the interval `ii`: its number of faults, and the faults of its mapping.
fn interval_report(
    alloc: Global,
    arch: &Arch,
    kernel: &Kernel,
    ii: u32,
    miss: &Miss,
) -> Result<Vec<u8>, AllocError>
    requires shape { IsShaped kernel.now miss.now.mapping }
    ensures { IfOk result (λ report. report.items
        ≡ spec.interval_report (record { arch = arch.now; kernel = kernel.now }) ii miss.now) }
{
    let mut report = Vec::new(alloc);
    add_left(alloc, &mut report, "faults", ii, u64::from(miss.faults))?;
    let mapping = &miss.mapping;
    let found = violations(alloc, arch, kernel, mapping)?;
    let lines = fault_lines(alloc, arch, kernel, mapping, found.as_slice(), MOST_LINES)?;
    report.extend_from_slice(lines.as_slice())?;
    Ok(report)
}
