//! The least interval that no reason excludes.
ghost use Rattle.std.specs.Prelude.{◌≡◌, ◌<◌, ◌≤◌, max, Contains, IfOk};
ghost use Rattle.cg_bound_registers.specs.Sums.{table};
ghost use Rattle.cg_bound_all.specs.declared.bounds.Bound as declared;
ghost use Rattle.cg_bound_all.specs.Why.{AreAllNumbers, AreNumbers, below_of, IsBound, IsLeast, IsExclusion};
ghost use Rattle.cg_bound_all.specs.Scan.{MayBegin, IsOther, IsVerdict};

use crate::bounds::Bound;
use crate::exclusion::{by_class, by_recurrence, by_ways};
use crate::numbers::{HopTables, Numbers};
use crate::reach::excludes_higher;
use crate::reason::Reason;
use cg_bound_flow::{Outcome, find_pressure};
use cg_bound_registers::Times;
use cg_recur::{Arch, Kernel};
use std::alloc::{AllocError, Global};

/// The least interval that no reason excludes.
#[derive(Drop)]
pub struct Least {
    /// The interval, in cycles, at most the architecture's contexts; `None` if each is excluded.
    pub interval: Option<u32>,
    /// Times of the nodes at that interval, with stays of their values that fit in the registers.
    pub times: Option<Times>,
    /// What excludes the interval below it, or the greatest of all, if the least intervals of the kinds don't give it.
    pub below: Option<Reason>,
}

/// The verdict on an interval.
#[derive(Drop)]
pub(crate) enum Verdict {
    /// A reason that excludes it.
    Excluded(Reason),
    /// Times whose stays fit in the registers, if no reason excludes it.
    Open(Times),
}

/// Finds a reason other than registers that excludes interval `ii`.
fn find_other(
    alloc: Global,
    arch: &Arch,
    kernel: &Kernel,
    numbers: &Numbers,
    ii: u32,
) -> Result<Option<Reason>, AllocError>
    requires { AreNumbers arch.now kernel.now ii numbers.now }
    ensures { IfOk result (IsOther arch.now kernel.now (table numbers.now.hops.items) ii) }
{
    let found = by_recurrence(alloc, arch, kernel, numbers, ii)?;
    if found.is_some() {
        return Ok(found);
    }
    let found = by_class(alloc, arch, kernel, numbers, ii)?;
    if found.is_some() {
        return Ok(found);
    }
    by_ways(alloc, arch, kernel, numbers, ii)
}

/// Finds a reason that excludes interval `ii`, or times that show that none does.
fn find_verdict(
    alloc: Global,
    arch: &Arch,
    kernel: &Kernel,
    tables: &HopTables,
    ii: u32,
) -> Result<Verdict, AllocError>
    requires some { 1 ≤ ii }
    requires interval { ii ≤ arch.now.contexts }
    requires numbers { AreAllNumbers arch.now kernel.now tables.now }
    ensures { IfOk result (IsVerdict arch.now kernel.now tables.now ii) }
{
    let _nodes = kernel.nodes();
    let numbers = tables.at(ii);
    if let Some(reason) = find_other(alloc, arch, kernel, numbers, ii)? {
        return Ok(Verdict::Excluded(reason));
    }
    match find_pressure(alloc, arch, kernel, &numbers.hops, ii)? {
        Outcome::Excluded(pressure) => Ok(Verdict::Excluded(Reason::Registers(pressure))),
        Outcome::Open(times) => Ok(Verdict::Open(times)),
    }
}

/// Finds a reason that excludes interval `ii`, from 1 to the contexts of `arch`, by the numbers `tables`; `None` if no
/// reason does.
pub fn find_exclusion(
    alloc: Global,
    arch: &Arch,
    kernel: &Kernel,
    tables: &HopTables,
    ii: u32,
) -> Result<Option<Reason>, AllocError>
    requires some { 1 ≤ ii }
    requires interval { ii ≤ arch.now.contexts }
    requires numbers { AreAllNumbers arch.now kernel.now tables.now }
    ensures { IfOk result (IsExclusion arch.now kernel.now tables.now ii) }
{
    match find_verdict(alloc, arch, kernel, tables, ii)? {
        Verdict::Excluded(reason) => Ok(Some(reason)),
        Verdict::Open(_) => Ok(None),
    }
}

/// Returns the later of two intervals.
fn later(a: u32, b: u32) -> u32
    ensures { result ≡ max a b }
{
    if a < b { b } else { a }
}

/// Returns the interval below which each is impossible by the least intervals `bounds` of the kinds: the greatest of
/// them, or the contexts of `arch` plus 1.
fn first_unknown(arch: &Arch, kernel: &Kernel, tables: &HopTables, bounds: &[Bound]) -> u32
    requires { (bound : declared.Bound) → Contains bounds.now bound → IsBound arch.now kernel.now tables.now bound }
    ensures begin { MayBegin arch.now kernel.now tables.now bounds.now result }
    ensures above { (bound : declared.Bound) → Contains bounds.now bound → below_of arch.now.contexts bound.least < result }
{
    let mut first = 1;
    let end = arch.contexts() + 1;
    for bound in bounds {
        first = later(first, bound.least.unwrap_or(end));
    }
    first
}

/// Finds the least interval that no reason excludes, where `bounds` has those of the kinds.
pub(crate) fn find_least(
    alloc: Global,
    arch: &Arch,
    kernel: &Kernel,
    tables: &HopTables,
    bounds: &[Bound],
) -> Result<Least, AllocError>
    requires numbers { AreAllNumbers arch.now kernel.now tables.now }
    requires bounds { (bound : declared.Bound) → Contains bounds.now bound → IsBound arch.now kernel.now tables.now bound }
    ensures { IfOk result (IsLeast arch.now kernel.now tables.now bounds.now) }
{
    let from = first_unknown(arch, kernel, tables, bounds);
    let mut below = None;
    let end = arch.contexts() + 1;
    for ii in from..end {
        match find_verdict(alloc, arch, kernel, tables, ii)? {
            Verdict::Excluded(reason) => {
                if excludes_higher(arch, kernel, tables, ii, &reason) {
                    return Ok(Least {
                        interval: None,
                        times: None,
                        below: Some(reason),
                    });
                }
                below = Some(reason);
            }
            Verdict::Open(times) => {
                return Ok(Least {
                    interval: Some(ii),
                    times: Some(times),
                    below,
                });
            }
        }
    }
    Ok(Least {
        interval: None,
        times: None,
        below,
    })
}
