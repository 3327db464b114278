//! The reasons that exclude the intervals of a kernel on an architecture.
ghost use Rattle.std.specs.Prelude.{IfOk};
ghost use Rattle.cg_bound_all.specs.Why.{IsWhy};

use crate::bounds::{Bound, find_bounds};
use crate::least::{Least, find_least};
use crate::numbers::{HopTables, find_hops};
use cg_recur::{Arch, Kernel};
use std::alloc::{AllocError, Global};

/// The reasons that exclude the intervals of a kernel on an architecture.
#[derive(Drop)]
pub struct Why {
    /// The registers on the ways of the data edges, on which the reasons rest.
    pub tables: HopTables,
    /// The least interval that no reason of a kind excludes, for each kind.
    pub bounds: Vec<Bound>,
    /// The least interval that no reason excludes.
    pub least: Least,
}

/// Finds the least interval that no recurrence, no overfull set of operations, no ways and no registers exclude, with
/// reasons that exclude the intervals below it.
pub fn explain(alloc: Global, arch: &Arch, kernel: &Kernel) -> Result<Why, AllocError>
    ensures { IfOk result (IsWhy arch.now kernel.now) }
{
    let tables = find_hops(alloc, arch, kernel)?;
    let bounds = find_bounds(alloc, arch, kernel, &tables)?;
    let least = find_least(alloc, arch, kernel, &tables, &bounds)?;
    Ok(Why {
        tables,
        bounds,
        least,
    })
}
