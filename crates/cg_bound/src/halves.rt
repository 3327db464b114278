//! The binary search for the least interval: first for one without a recurrence, and from there on for one without an
//! overfull set.
ghost use Rattle.std.specs.Prelude.{◌≡◌, ◌≤◌, IfOk};
ghost use Rattle.cg_class.specs.Class.{IsOverfull, AreOfNodes};
ghost use Rattle.cg_bound.specs.Bound.{AllOffered, HasNoRecurrence};
ghost use Rattle.cg_bound.specs.Search as spec;

use crate::interval::Certificate;
use crate::overfull::overfull_at;
use cg_arch::Arch;
use cg_model::Kernel;
use cg_recur::{Recur, latencies_are_small, recurrence};
use cg_word::OpSet;
use std::alloc::{AllocError, Global};

/// An interval, and why the one below it is impossible; `None` if it is 1.
#[derive(Drop)]
pub(crate) struct Found {
    pub interval: u32,
    pub below: Option<Certificate>,
}

/// Returns the least interval that nothing forbids.
pub(crate) fn least_open(alloc: Global, arch: &Arch, kernel: &Kernel) -> Result<Found, AllocError>
    requires { AllOffered arch.now kernel.now }
    ensures { IfOk result (spec.IsLeastOpen arch.now kernel.now) }
{
    let free = least_free(alloc, arch, kernel)?;
    match overfull_at(alloc, arch, kernel, free.interval)? {
        None => Ok(free),
        Some(set) => above_class(alloc, arch, kernel, free.interval, set),
    }
}

/// Returns the least interval without a recurrence.
fn least_free(alloc: Global, arch: &Arch, kernel: &Kernel) -> Result<Found, AllocError>
    requires { AllOffered arch.now kernel.now }
    ensures { IfOk result (spec.IsLeastFree arch.now kernel.now) }
{
    latencies_are_small(arch);
    let _nodes = kernel.nodes();
    let mut low = 0;
    let mut high = limit(kernel);
    let mut below = None;
    while high - low > 1 {
        let middle = low + (high - low) / 2;
        match recurrence(alloc, arch, kernel, middle)? {
            Recur::Cycle(ids) => {
                low = middle;
                below = Some(Certificate::Cycle(ids));
            }
            Recur::Times(_) => high = middle,
        }
    }
    Ok(Found {
        interval: high,
        below,
    })
}

/// Returns the least open interval above one without a recurrence at which a set of operations is overfull.
fn above_class(
    alloc: Global,
    arch: &Arch,
    kernel: &Kernel,
    forbidden: u32,
    overfull: OpSet,
) -> Result<Found, AllocError>
    requires offered { AllOffered arch.now kernel.now }
    requires some { 1 ≤ forbidden }
    requires free { HasNoRecurrence arch.now kernel.now forbidden }
    requires overfull { IsOverfull arch.now kernel.now forbidden overfull }
    requires own { AreOfNodes kernel.now overfull }
    ensures { IfOk result (spec.IsLeastOpen arch.now kernel.now) }
{
    let mut low = forbidden;
    let mut high = limit(kernel);
    let mut set = overfull;
    while high - low > 1 {
        let middle = low + (high - low) / 2;
        match overfull_at(alloc, arch, kernel, middle)? {
            Some(more) => {
                low = middle;
                set = more;
            }
            None => high = middle,
        }
    }
    Ok(Found {
        interval: high,
        below: Some(Certificate::Class(set)),
    })
}

/// Returns an interval that is open if each operation is offered.
fn limit(kernel: &Kernel) -> u32
    ensures value { result ≡ spec.limit kernel.now }
    ensures small { result ≤ 4097 }
{
    4 * kernel.nodes().len() as u32 + 1
}
