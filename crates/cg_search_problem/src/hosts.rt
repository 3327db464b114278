//! The units as the search reads them, and which units offer which operations.

use crate::lists::{Lists, count, number_at};
use cg_arch::Arch;
use cg_model::{Kernel, Node, Unit};
use std::alloc::{AllocError, Global};

/// A unit: its latency in cycles, and the resource numbers of its out and its ports.
#[derive(Clone, Copy, Drop)]
pub struct Host {
    /// The latency of its operations, in cycles.
    pub latency: u32,
    /// The resource of its out.
    pub out: u32,
    ports: [u32; 3],
}

impl Host {
    /// Returns the resource of port `arg`; 0 where there is no such port.
    pub fn port(&self, arg: u32) -> u32 {
        number_at(&self.ports, arg as usize)
    }

    /// Returns the data of `unit` that the search reads.
    fn of(unit: &Unit) -> Host {
        let ports = unit.ports.as_slice();
        Host {
            latency: unit.latency,
            out: unit.out,
            ports: [
                number_at(ports, 0),
                number_at(ports, 1),
                number_at(ports, 2),
            ],
        }
    }
}

/// Returns all units, in their order.
pub fn hosts(alloc: Global, arch: &Arch) -> Result<Vec<Host>, AllocError> {
    let mut hosts = Vec::new(alloc);
    for unit in arch.units() {
        hosts.push(Host::of(unit))?;
    }
    Ok(hosts)
}

/// Returns the units that offer each node's operation, ascending.
pub fn offers(alloc: Global, arch: &Arch, kernel: &Kernel) -> Result<Lists, AllocError> {
    let nodes = kernel.nodes();
    let mut offers = Lists::new(alloc, count(nodes))?;
    for node in 0..count(nodes) {
        add_offers(&mut offers, arch, nodes, node)?;
    }
    Ok(offers)
}

/// Adds the units that offer the operation of `node` to its list.
fn add_offers(
    offers: &mut Lists,
    arch: &Arch,
    nodes: &[Node],
    node: u32,
) -> Result<(), AllocError> {
    if let Some(wanted) = nodes.get(node as usize) {
        let mut x: u32 = 0;
        for unit in arch.units() {
            if unit.ops.has(wanted.op) {
                offers.add(node, x)?;
            }
            x = x.saturating_add(1);
        }
    }
    Ok(())
}
