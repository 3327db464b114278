//! The least numbers of registers on the ways of a kernel's data edges, for all intervals.
ghost use Rattle.std.specs.Prelude.{◌≡◌, ◌≤◌, IfOk};
ghost use Rattle.cg_bound_all.specs.Why.{AreNumbers, AreAllNumbers, numbers_at};

use cg_bound_routes::{Missing, find_ways, first_without_way};
use cg_recur::{Arch, Kernel};
use std::alloc::{AllocError, Global};

/// The numbers for an interval.
#[derive(Drop)]
pub struct Numbers {
    /// Three numbers per node: for each operand the least number of registers that a value crosses on its way there.
    pub hops: Vec<u32>,
    /// The first data edge for which there is no way; `None` if each has one.
    pub missing: Option<Missing>,
}

/// The numbers for all intervals. In an interval of one cycle no unit holds two nodes, so some ways are longer there.
#[derive(Drop)]
pub struct HopTables {
    /// The numbers for interval 1.
    pub first: Numbers,
    /// The numbers for every greater interval.
    pub rest: Numbers,
}

/// Finds the numbers for interval `ii`.
fn find_numbers(alloc: Global, arch: &Arch, kernel: &Kernel, ii: u32) -> Result<Numbers, AllocError>
    ensures { IfOk result (AreNumbers arch.now kernel.now ii) }
{
    let _resources = arch.resources();
    let _nodes = kernel.nodes();
    let ways = find_ways(alloc, arch, kernel, ii)?;
    let hops = ways.three_a_node(alloc)?;
    let missing = first_without_way(kernel, &ways);
    Ok(Numbers { hops, missing })
}

/// Finds the least numbers of registers on the ways of the data edges of `kernel` on `arch`, for all intervals.
pub fn find_hops(alloc: Global, arch: &Arch, kernel: &Kernel) -> Result<HopTables, AllocError>
    ensures { IfOk result (AreAllNumbers arch.now kernel.now) }
{
    let first = find_numbers(alloc, arch, kernel, 1)?;
    let rest = find_numbers(alloc, arch, kernel, 2)?;
    Ok(HopTables { first, rest })
}

impl HopTables {
    /// Returns the numbers for interval `ii`.
    pub fn at(&self, ii: u32) -> &Numbers
        ensures { result.now ≡ numbers_at self.now ii }
    {
        if ii == 1 { &self.first } else { &self.rest }
    }
}
