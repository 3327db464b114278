//! Where a search begins.
ghost use Rattle.std.specs.Prelude.{ℕ, ◌≤◌, IfOk, Some, None};
ghost use Rattle.cg_intervals.specs.Intervals.{IsAsked};
ghost use Rattle.cg_bound_all.specs.Why.{AreAllNumbers, IsImpossible};
ghost use Rattle.cg_search.specs.Begin.{Begins};

use cg_arch::Arch;
use cg_bound_all::{HopTables, Reason, explain, find_exclusion, find_hops};
use cg_model::Kernel;
use std::alloc::{AllocError, Global};

/// The exclusion of an interval.
#[derive(Drop)]
pub struct Exclusion {
    /// The interval, in cycles.
    pub interval: u32,
    /// The registers on the ways of the data edges, on which the reason relies.
    pub tables: HopTables,
    /// The reason.
    pub reason: Reason,
}

/// Where a search begins.
#[derive(Drop)]
pub(crate) enum Begin {
    /// At this interval, in cycles.
    At(u32),
    /// Nowhere: each interval that may be tried is excluded, and this exclusion holds for the last.
    Nowhere(Exclusion),
}

/// Finds the first interval that no reason excludes: `asked`, if it is given, or one from 1 to the number of contexts
/// of `arch`.
pub(crate) fn find_begin(
    alloc: Global,
    arch: &Arch,
    kernel: &Kernel,
    asked: Option<u32>,
) -> Result<Begin, AllocError>
    requires { IsAsked arch.now asked }
    ensures { IfOk result (Begins arch.now kernel.now asked) }
{
    match asked {
        Some(ii) => begin_at(alloc, arch, kernel, ii),
        None => begin_at_least(alloc, arch, kernel),
    }
}

/// Begins at the interval `ii`, where no reason excludes it.
fn begin_at(alloc: Global, arch: &Arch, kernel: &Kernel, ii: u32) -> Result<Begin, AllocError>
    requires some { 1 ≤ ii }
    requires interval { ii ≤ arch.now.contexts }
    ensures { IfOk result (Begins arch.now kernel.now (Some ii)) }
{
    let tables = find_hops(alloc, arch, kernel)?;
    match find_exclusion(alloc, arch, kernel, &tables, ii)? {
        Some(reason) => Ok(Begin::Nowhere(Exclusion {
            interval: ii,
            tables,
            reason,
        })),
        None => Ok(Begin::At(ii)),
    }
}

/// Begins at the least interval that no reason excludes.
fn begin_at_least(alloc: Global, arch: &Arch, kernel: &Kernel) -> Result<Begin, AllocError>
    ensures { IfOk result (Begins arch.now kernel.now None) }
{
    let why = explain(alloc, arch, kernel)?;
    match why.least.interval {
        Some(least) => Ok(Begin::At(least)),
        None => nowhere(alloc, arch, kernel, why.tables),
    }
}

/// Begins nowhere: each interval is excluded by the numbers `tables`.
fn nowhere(
    alloc: Global,
    arch: &Arch,
    kernel: &Kernel,
    tables: HopTables,
) -> Result<Begin, AllocError>
    requires numbers { AreAllNumbers arch.now kernel.now tables }
    requires each { (ii : ℕ) → 1 ≤ ii → ii ≤ arch.now.contexts → IsImpossible arch.now kernel.now tables ii }
    ensures { IfOk result (Begins arch.now kernel.now None) }
{
    let last = arch.contexts();
    match find_exclusion(alloc, arch, kernel, &tables, last)? {
        Some(reason) => Ok(Begin::Nowhere(Exclusion {
            interval: last,
            tables,
            reason,
        })),
        None => unreachable!(),
    }
}
