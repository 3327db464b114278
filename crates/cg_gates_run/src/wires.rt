//! Nets as resources that muxes drive.
ghost use Rattle.std.specs.Prelude.{◌≡◌, ◌<◌, ◌^◌, IfOk, length, map};
ghost use Rattle.cg_netlist.specs.declared.parts.Pin.{Pin};
ghost use Rattle.cg_netlist.specs.Graph.{IsNetGraph};
ghost use Rattle.cg_gates.specs.Order as spec;

use crate::nets::Nets;
use cg_model::{Kind, Name, Resource, Words};
use cg_netlist::{Net, Pin};
use std::alloc::{AllocError, Global};

/// Returns each net of `nets`, by number, as a wire whose drivers are the nets that its mux hears.
#[tactic(auto, unfolding(cg_gates::specs::Order::mux_graph))]
pub(crate) fn mux_graph(alloc: Global, nets: &Nets<'_>) -> Result<Vec<Resource>, AllocError>
    ensures graph { IfOk result (λ resources. resources.items ≡ spec.mux_graph nets.now) }
    ensures few { length nets.now.nets < 2 ^ 32 }
    ensures valid { IsNetGraph nets.now }
{
    resources_of(alloc, nets, nets.netlist().nets())
}

/// Returns each net of `list` as a wire whose drivers are the nets that its mux hears, by their numbers in `nets`.
fn resources_of(alloc: Global, nets: &Nets<'_>, list: &[Net]) -> Result<Vec<Resource>, AllocError>
    ensures { IfOk result (λ resources. resources.items ≡ map (spec.net_resource nets.now) list.now) }
{
    let mut resources = Vec::new(alloc);
    for net in list {
        resources.push(net_resource(alloc, nets, net)?)?;
    }
    Ok(resources)
}

/// Returns `net` as a wire whose drivers are the nets that its mux hears, by their numbers in `nets`.
fn net_resource(alloc: Global, nets: &Nets<'_>, net: &Net) -> Result<Resource, AllocError>
    ensures { IfOk result (λ resource. resource ≡ spec.net_resource nets.now net.now) }
{
    let drivers = numbers_of_pins(alloc, nets, nets.heard(net.name.as_str()))?;
    Ok(Resource {
        name: Name::new(String::new(alloc)),
        kind: Kind::Wire,
        drivers: Words::new(drivers),
    })
}

/// Returns the numbers of the nets to which `pins` are connected.
pub(crate) fn numbers_of_pins(
    alloc: Global,
    nets: &Nets<'_>,
    pins: &[Pin],
) -> Result<Vec<u32>, AllocError>
    ensures { IfOk result (λ list. list.items ≡ map (spec.net_number nets.now) (map (λ (p : Pin). p.net) pins.now)) }
{
    let mut list = Vec::new(alloc);
    for pin in pins {
        list.push(nets.number(pin.net.as_str()))?;
    }
    Ok(list)
}
