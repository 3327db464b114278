//! The faults E1 and E2, which are faults of drivers and of pins.
ghost use Rattle.std.specs.Prelude.{◌≡◌, IfOk};
ghost use Rattle.cg_gates.specs.Numbers.{AreNets};
ghost use Rattle.cg_gates.specs.Accepts as spec;

use crate::counts::miscounted;
use crate::fault::GateFault;
use crate::joined::misjoined;
use cg_netlist::NetGraph;
use cg_reading::Numbers;
use std::alloc::{AllocError, Global};

/// Finds the lower of E1 and E2 that applies to `netlist`, at its first place. `numbers` maps the names of its nets to
/// their numbers.
#[tactic(auto, unfolding(crate::specs::Accepts::fault_before_loops))]
pub fn fault_before_loops(
    alloc: Global,
    netlist: &NetGraph,
    numbers: &Numbers,
) -> Result<Option<GateFault>, AllocError>
    requires { AreNets numbers.now netlist.now.nets }
    ensures { IfOk result (λ found. found ≡ spec.fault_before_loops netlist.now) }
{
    if let Some(net) = miscounted(alloc, netlist)? {
        return Ok(Some(GateFault::DriverCount(net)));
    }
    match misjoined_of(netlist, numbers) {
        Some(cell) => Ok(Some(GateFault::PinNet(cell))),
        None => Ok(None),
    }
}

/// Finds the first cell of `netlist` with a pin on a net that isn't allowed for it. `numbers` maps the names of its
/// nets to their numbers.
#[tactic(auto, unfolding(crate::specs::Accepts::misjoined))]
fn misjoined_of(netlist: &NetGraph, numbers: &Numbers) -> Option<usize>
    requires { AreNets numbers.now netlist.now.nets }
    ensures { result ≡ spec.misjoined netlist.now }
{
    misjoined(netlist.nets(), numbers, netlist.cells())
}
