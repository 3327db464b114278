//! Reasons that exclude one interval.
ghost use Rattle.std.specs.Prelude.{◌≤◌, IfOk, Some};
ghost use Rattle.cg_bound_registers.specs.Sums.{table};
ghost use Rattle.cg_bound_all.specs.declared.reason.Kind.TheVariants as kinds;
ghost use Rattle.cg_bound_all.specs.Why.{AreNumbers};
ghost use Rattle.cg_bound_all.specs.Scan.{IsFound};

use crate::instances::AtInterval;
use crate::numbers::Numbers;
use crate::reason::{Kind, Reason};
use cg_bound_flow::{Outcome, find_pressure};
use cg_bound_recurrence::find_way_cycle;
use cg_class::{Assignment, assign};
use cg_recur::{Arch, Kernel, Recur, recurrence};
use std::alloc::{AllocError, Global};

/// Finds a reason of kind `kind` that excludes the interval of `at`; `None` if no reason does.
pub(crate) fn find_reason(
    alloc: Global,
    at: AtInterval,
    kind: Kind,
) -> Result<Option<Reason>, AllocError>
    requires interval { at.ii ≤ at.arch.now.contexts }
    requires numbers { AreNumbers at.arch.now at.kernel.now at.ii at.numbers.now }
    ensures { IfOk result (IsFound at.entry.arch.now at.entry.kernel.now (table at.entry.numbers.now.hops.items) at.entry.ii kind) }
{
    let AtInterval {
        arch,
        kernel,
        numbers,
        ii,
    } = at;
    match kind {
        Kind::Recurrence => by_recurrence(alloc, arch, kernel, numbers, ii),
        Kind::Class => by_class(alloc, arch, kernel, numbers, ii),
        Kind::Ways => by_ways(alloc, arch, kernel, numbers, ii),
        Kind::Registers => by_registers(alloc, arch, kernel, numbers, ii),
    }
}

/// Finds a closed chain of edges that is too long for interval `ii`.
pub(crate) fn by_recurrence(
    alloc: Global,
    arch: &Arch,
    kernel: &Kernel,
    numbers: &Numbers,
    ii: u32,
) -> Result<Option<Reason>, AllocError>
    ensures { IfOk result (IsFound arch.now kernel.now (table numbers.now.hops.items) ii kinds.Recurrence) }
{
    match recurrence(alloc, arch, kernel, ii)? {
        Recur::Cycle(ids) => Ok(Some(Reason::Recurrence(ids))),
        Recur::Times(_) => Ok(None),
    }
}

/// Finds a set of operations that is overfull at interval `ii`.
pub(crate) fn by_class(
    alloc: Global,
    arch: &Arch,
    kernel: &Kernel,
    numbers: &Numbers,
    ii: u32,
) -> Result<Option<Reason>, AllocError>
    ensures { IfOk result (IsFound arch.now kernel.now (table numbers.now.hops.items) ii kinds.Class) }
{
    match assign(alloc, arch, kernel, ii)? {
        Assignment::Overfull(set) => Ok(Some(Reason::Class(set))),
        Assignment::Units(_) => Ok(None),
    }
}

/// Finds a data edge without a way, or a closed chain that is too long with the registers on the ways.
pub(crate) fn by_ways(
    alloc: Global,
    arch: &Arch,
    kernel: &Kernel,
    numbers: &Numbers,
    ii: u32,
) -> Result<Option<Reason>, AllocError>
    requires { AreNumbers arch.now kernel.now ii numbers.now }
    ensures { IfOk result (IsFound arch.now kernel.now (table numbers.now.hops.items) ii kinds.Ways) }
{
    if let Some(missing) = numbers.missing {
        return Ok(Some(Reason::NoWay(missing)));
    }
    match find_way_cycle(alloc, arch, kernel, &numbers.hops, ii)? {
        Some(ids) => Ok(Some(Reason::Ways(ids))),
        None => Ok(None),
    }
}

/// Finds a circulation by which values need more registers than there are at interval `ii`.
fn by_registers(
    alloc: Global,
    arch: &Arch,
    kernel: &Kernel,
    numbers: &Numbers,
    ii: u32,
) -> Result<Option<Reason>, AllocError>
    requires { ii ≤ arch.now.contexts }
    ensures { IfOk result (IsFound arch.now kernel.now (table numbers.now.hops.items) ii kinds.Registers) }
{
    let _nodes = kernel.nodes();
    match find_pressure(alloc, arch, kernel, &numbers.hops, ii)? {
        Outcome::Excluded(pressure) => Ok(Some(Reason::Registers(pressure))),
        Outcome::Open(_) => Ok(None),
    }
}
