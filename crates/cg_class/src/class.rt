//! Overfull sets of operations, and assignments of nodes to units.
ghost use Rattle.std.specs.Prelude.{◌↔◌, IfOk, IsTrue};
ghost use Rattle.cg_class.specs.Class.{IsAnswer, IsOverfull};

use crate::counts::{count_nodes, count_units};
use crate::search::{Found, reach, shift};
use cg_arch::Arch;
use cg_model::Kernel;
use cg_word::OpSet;
use std::alloc::{AllocError, Global};

/// Returns whether more nodes have an operation of `set` than its units can begin in `ii` cycles.
pub fn check_class(arch: &Arch, kernel: &Kernel, ii: u32, set: OpSet) -> bool
    ensures { IsTrue result ↔ IsOverfull arch.now kernel.now ii set }
{
    let units = count_units(arch.units(), set);
    let nodes = count_nodes(kernel.nodes(), set);
    (ii as u128 * units as u128) < nodes as u128
}

/// A unit for each node, or a set of operations for which there are more nodes than the units can take.
#[derive(Drop)]
pub enum Assignment {
    /// The set.
    Overfull(OpSet),
    /// The unit numbers by node.
    Units(Vec<u32>),
}

/// Returns a unit that offers its operation for each node with at most `ii` nodes per unit, or a set of operations for
/// which there are more nodes than its units can begin in `ii` cycles.
pub fn assign(
    alloc: Global,
    arch: &Arch,
    kernel: &Kernel,
    ii: u32,
) -> Result<Assignment, AllocError>
    ensures { IfOk result (IsAnswer arch.now kernel.now ii) }
{
    let nodes = kernel.nodes();
    let units = arch.units();
    let mut places = Vec::new(alloc);
    for _ in 0..nodes.len() {
        match reach(alloc, nodes, units, &places, ii)? {
            Found::Room(log, number) => shift(&mut places, &log, number, nodes, units, ii)?,
            Found::Full(set) => return Ok(Assignment::Overfull(set)),
        }
    }
    Ok(Assignment::Units(places))
}
