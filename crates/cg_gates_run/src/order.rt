//! The order in which muxes have their words within a cycle, or a ring of them.
ghost use Rattle.std.specs.Prelude.{◌≡◌, ◌≢◌, ◌++◌, None, IfOk, IfErr, take, drop, reverse};
ghost use Rattle.cg_levelize.specs.Topological.{IsTopological};
ghost use Rattle.cg_gates.specs.declared.fault.GateFault.TheVariants as fault;
ghost use Rattle.cg_gates.specs.Order.{mux_graph};
ghost use Rattle.cg_gates.specs.Numbers.{IsRingFault};
ghost use Rattle.cg_gates.specs.Accepts as spec;

use crate::nets::Nets;
use crate::wires::mux_graph;
use cg_gates::GateFault;
use cg_levelize::{OrderFault, topological_order};
use cg_model::{Items, Name, Words};
use std::alloc::{AllocError, Global};

/// Returns the numbers of all `nets`, each after the nets that its mux hears. Where muxes form rings, the fault names
/// one.
pub(crate) fn order_of(alloc: Global, nets: &Nets<'_>) -> Result<Words, GateFault>
    requires { spec.fault_before_loops nets.now ≡ None }
    ensures order { IfOk result (IsTopological (mux_graph nets.now)) }
    ensures ring { IfErr result (IsRingFault nets.now) }
{
    let graph = mux_graph(alloc, nets)?;
    match topological_order(alloc, &graph) {
        Ok(order) => Ok(order),
        Err(OrderFault::CombinationalLoop(ring)) => Err(ring_fault(alloc, nets, ring.as_slice())),
        Err(OrderFault::Memory) => Err(GateFault::Memory),
    }
}

/// Returns the fault of a `ring` of nets, each of which is heard by the next and the last by the first.
fn ring_fault(alloc: Global, nets: &Nets<'_>, ring: &[u32]) -> GateFault
    ensures { result ≢ fault.Memory → result ≡ fault.MuxLoop (spec.names_of nets.now (take 1 ring.now ++ reverse (drop 1 ring.now))) }
{
    match ring_names(alloc, nets, ring) {
        Ok(names) => GateFault::MuxLoop(Items::new(names)),
        Err(_) => GateFault::Memory,
    }
}

/// Returns the names of a `ring` of nets in the opposite direction, starting at the first.
fn ring_names(alloc: Global, nets: &Nets<'_>, ring: &[u32]) -> Result<Vec<Name>, AllocError>
    ensures { IfOk result (λ names. names.items ≡ spec.names_of nets.now (take 1 ring.now ++ reverse (drop 1 ring.now))) }
{
    let turned = turned(alloc, ring)?;
    names_of(alloc, nets, &turned)
}

/// Returns the numbers of a `ring` in the opposite direction, starting at the first.
fn turned(alloc: Global, ring: &[u32]) -> Result<Vec<u32>, AllocError>
    ensures { IfOk result (λ list. list.items ≡ take 1 ring.now ++ reverse (drop 1 ring.now)) }
{
    if ring.is_empty() {
        return Ok(Vec::new(alloc));
    }
    with_reversed(alloc, &ring[..1], &ring[1..])
}

/// Returns the numbers of `front`, followed by those of `back` in reverse order.
fn with_reversed(alloc: Global, front: &[u32], back: &[u32]) -> Result<Vec<u32>, AllocError>
    ensures { IfOk result (λ list. list.items ≡ front.now ++ reverse back.now) }
{
    front
        .iter()
        .chain(back.iter().rev())
        .copied()
        .collect(alloc)
}

/// Returns the names of the `nets` of these `numbers`.
fn names_of(alloc: Global, nets: &Nets<'_>, numbers: &[u32]) -> Result<Vec<Name>, AllocError>
    ensures { IfOk result (λ names. names.items ≡ spec.names_of nets.now numbers.now) }
{
    let mut names = Vec::new(alloc);
    for number in numbers {
        names.push(Name::copy_of(alloc, nets.name(*number))?)?;
    }
    Ok(names)
}
