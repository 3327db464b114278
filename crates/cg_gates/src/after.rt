//! The faults E4 to E6, which are faults of instances.
ghost use Rattle.std.specs.Prelude.{◌≡◌, IfOk};
ghost use Rattle.cg_gates.specs.Accepts as spec;
ghost use Rattle.cg_gates.specs.Numbers.{unknown_or_missing};

use crate::fault::GateFault;
use crate::instances::{repeated_instance, unknown_instance};
use crate::missing::missing_unit;
use cg_arch::Arch;
use cg_netlist::NetGraph;
use std::alloc::{AllocError, Global};

/// Finds the lowest of E4 to E6 that applies to `netlist` over `arch`, at its first place.
#[tactic(auto, unfolding(crate::specs::Accepts::fault_after_loops, crate::specs::Accepts::repeated_instance))]
pub fn fault_after_loops(
    alloc: Global,
    arch: &Arch,
    netlist: &NetGraph,
) -> Result<Option<GateFault>, AllocError>
    ensures { IfOk result (λ found. found ≡ spec.fault_after_loops arch.now netlist.now) }
{
    if let Some(cell) = repeated_instance(alloc, netlist.cells())? {
        return Ok(Some(GateFault::RepeatedInstance(cell)));
    }
    unknown_or_missing(alloc, arch, netlist)
}

/// Finds the lower of E5 and E6 that applies, at its first place.
#[tactic(auto, unfolding(crate::specs::Accepts::unknown_instance))]
fn unknown_or_missing(
    alloc: Global,
    arch: &Arch,
    netlist: &NetGraph,
) -> Result<Option<GateFault>, AllocError>
    ensures { IfOk result (λ found. found ≡ unknown_or_missing arch.now netlist.now) }
{
    if let Some(cell) = unknown_instance(alloc, arch, netlist.cells())? {
        return Ok(Some(GateFault::UnknownInstance(cell)));
    }
    match missing_unit(alloc, arch, netlist)? {
        Some(unit) => Ok(Some(GateFault::MissingUnit(unit))),
        None => Ok(None),
    }
}
