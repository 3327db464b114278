//! The verdict on an interval, and the least interval that isn't impossible.
ghost use Rattle.std.specs.Prelude.{◌≡◌, [], ◌∷◌, IfOk};
ghost use Rattle.cg_bound.specs.declared.interval.Certificate.TheVariants.{Class};
ghost use Rattle.cg_bound.specs.Bound.{IsVerdict, HasCertificate, Excludes, IsBound};

use crate::halves::least_open;
use crate::overfull::overfull_at;
use crate::unoffered::first_unoffered;
use cg_arch::Arch;
use cg_model::Kernel;
use cg_recur::{EdgeId, Recur, recurrence};
use cg_word::{Op, OpSet};
use std::alloc::{AllocError, Global};

/// Why an interval is impossible.
#[derive(Drop)]
pub enum Certificate {
    /// The edges of a closed chain that is too long for it. It meets no node twice, and begins at its least-numbered
    /// node.
    Cycle(Vec<EdgeId>),
    /// A set of operations for which there are more nodes than its units can begin in the interval.
    Class(OpSet),
}

/// The least interval that isn't impossible.
#[derive(Drop)]
pub struct LeastInterval {
    /// The interval, in cycles; `None` if an operation of the kernel is offered by no unit.
    pub mii: Option<u32>,
    /// Why the interval below it is impossible, or every one; `None` if the interval is 1.
    pub below: Option<Certificate>,
}

/// The verdict on an interval.
#[derive(Drop)]
pub enum IntervalVerdict {
    /// It is impossible, and this is why.
    Impossible(Certificate),
    /// Neither a recurrence nor an overfull set forbids it; there may still be no mapping.
    Allowed,
}

/// Returns whether a recurrence or an overfull set of operations forbids an interval. If one does, no mapping of that
/// interval is legal.
pub fn verdict(
    alloc: Global,
    arch: &Arch,
    kernel: &Kernel,
    ii: u32,
) -> Result<IntervalVerdict, AllocError>
    ensures exact { IfOk result (IsVerdict arch.now kernel.now ii) }
    ensures accepted { IfOk result (HasCertificate arch.now kernel.now ii) }
    ensures excludes { IfOk result (Excludes arch.now kernel.now ii) }
{
    let _nodes = kernel.nodes();
    if let Some(op) = first_unoffered(arch, kernel) {
        return Ok(IntervalVerdict::Impossible(class_of(op)));
    }
    match recurrence(alloc, arch, kernel, ii)? {
        Recur::Cycle(ids) => Ok(IntervalVerdict::Impossible(Certificate::Cycle(ids))),
        Recur::Times(_) => match overfull_at(alloc, arch, kernel, ii)? {
            Some(set) => Ok(IntervalVerdict::Impossible(Certificate::Class(set))),
            None => Ok(IntervalVerdict::Allowed),
        },
    }
}

/// Returns the least interval that no recurrence and no overfull set of operations forbids.
pub fn bound(alloc: Global, arch: &Arch, kernel: &Kernel) -> Result<LeastInterval, AllocError>
    ensures { IfOk result (IsBound arch.now kernel.now) }
{
    if let Some(op) = first_unoffered(arch, kernel) {
        return Ok(LeastInterval {
            mii: None,
            below: Some(class_of(op)),
        });
    }
    let found = least_open(alloc, arch, kernel)?;
    Ok(LeastInterval {
        mii: Some(found.interval),
        below: found.below,
    })
}

/// Returns the class of the operation `op` alone.
fn class_of(op: Op) -> Certificate
    ensures { result ≡ Class (op ∷ []) }
{
    Certificate::Class(OpSet::empty().with(op))
}
