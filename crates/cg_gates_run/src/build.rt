//! The tables of a netlist without faults of drivers and pins.
ghost use Rattle.std.specs.Prelude.{◌≡◌, None, IfOk};
ghost use Rattle.cg_levelize.specs.Topological.{IsTopological};
ghost use Rattle.cg_gates.specs.Accepts.{fault_before_loops, IsAccepted, IsGateAnswer};
ghost use Rattle.cg_gates.specs.Order.{mux_graph};

use crate::choices::all_choices;
use crate::gates::Gates;
use crate::nets::Nets;
use crate::order::order_of;
use crate::selects::all_selects;
use crate::terminals::terminals_of;
use cg_arch::Arch;
use cg_gates::{GateFault, fault_after_loops};
use std::alloc::{AllocError, Global};

/// Returns the gates of `nets` over `arch`, or the netlist's fault.
pub(crate) fn ordered<'a>(
    alloc: Global,
    arch: &'a Arch,
    nets: &Nets<'a>,
) -> Result<Gates<'a>, GateFault>
    requires { fault_before_loops nets.now ≡ None }
    ensures found { IfOk result (λ gates. gates ≡ record { arch = arch.now; netlist = nets.now }) }
    ensures answer { IsGateAnswer arch.now nets.now result }
{
    match order_of(alloc, nets) {
        Ok(order) => judged(alloc, arch, nets, order.as_slice()),
        Err(fault) => Err(fault),
    }
}

/// Returns the gates of `nets` over `arch`, or the netlist's fault. `order` is an order of its muxes.
fn judged<'a>(
    alloc: Global,
    arch: &'a Arch,
    nets: &Nets<'a>,
    order: &[u32],
) -> Result<Gates<'a>, GateFault>
    requires early { fault_before_loops nets.now ≡ None }
    requires order { IsTopological (mux_graph nets.now) order.now }
    ensures found { IfOk result (λ gates. gates ≡ record { arch = arch.now; netlist = nets.now }) }
    ensures answer { IsGateAnswer arch.now nets.now result }
{
    if let Some(fault) = fault_after_loops(alloc, arch, nets.netlist())? {
        return Err(fault);
    }
    Ok(kept(alloc, arch, nets, order)?)
}

/// Returns the gates of `nets` over `arch`, where muxes have this `order`.
fn kept<'a>(
    alloc: Global,
    arch: &'a Arch,
    nets: &Nets<'a>,
    order: &[u32],
) -> Result<Gates<'a>, AllocError>
    requires accepted { IsAccepted arch.now nets.now }
    requires order { IsTopological (mux_graph nets.now) order.now }
    ensures { IfOk result (λ gates. gates ≡ record { arch = arch.now; netlist = nets.now }) }
{
    let netlist = nets.netlist();
    let selects = all_selects(alloc, arch, nets)?;
    let choices = all_choices(alloc, nets, order)?;
    let units = terminals_of(alloc, arch, nets)?;
    Ok(Gates::new(arch, netlist, selects, choices, units))
}
