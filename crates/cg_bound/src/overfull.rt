//! Sets of operations for which an interval has too few units.
ghost use Rattle.std.specs.Prelude.{IfOk, MatchOption};
ghost use Rattle.cg_class.specs.Class.{IsOverfull, AreOfNodes};
ghost use Rattle.cg_bound.specs.Bound.{HasNoOverfull};

use cg_arch::Arch;
use cg_class::{Assignment, assign};
use cg_model::Kernel;
use cg_word::OpSet;
use std::alloc::{AllocError, Global};

/// Returns a set of operations of nodes that is overfull at an interval, if there is one.
pub(crate) fn overfull_at(
    alloc: Global,
    arch: &Arch,
    kernel: &Kernel,
    ii: u32,
) -> Result<Option<OpSet>, AllocError>
    ensures { IfOk result (λ found. MatchOption found (HasNoOverfull arch.now kernel.now ii) (λ set. IsOverfull arch.now kernel.now ii set × AreOfNodes kernel.now set)) }
{
    match assign(alloc, arch, kernel, ii)? {
        Assignment::Overfull(set) => Ok(Some(set)),
        Assignment::Units(_) => Ok(None),
    }
}
