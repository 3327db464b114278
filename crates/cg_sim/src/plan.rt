//! An architecture in flat lists, in the order in which a cycle reads it.
ghost use Rattle.std.specs.Prelude.{◌≡◌, ◌∷◌, ◌++◌, [], IfOk, OnOk, length, slice_index_or};
ghost use Rattle.cg_sim.specs.Plan.{IsPlan, AreTerminals};

use cg_arch::{Arch, Kind, Unit};
use cg_datapath::Terminals;
use std::alloc::{AllocError, Global};

/// A resource with drivers: the index of its select 0 in the list of all drivers. Its drivers follow there, so that
/// select `j` is at index `first + j`.
#[derive(Clone, Copy)]
pub(crate) struct Link {
    pub(crate) resource: u32,
    pub(crate) first: usize,
}

/// Resources with their drivers, all in one list. Select 0 is the number past the last resource.
#[derive(Drop)]
pub(crate) struct Links {
    pub(crate) entries: Vec<Link>,
    pub(crate) drivers: Vec<u32>,
}

/// The registers, and the wires and ports, each after those from which it takes its word in the same cycle.
#[derive(Drop)]
pub(crate) struct Plan {
    pub(crate) registers: Links,
    pub(crate) nets: Links,
}

impl Links {
    fn new(alloc: Global) -> Links
        ensures entries { result.entries.items ≡ [] }
        ensures drivers { result.drivers.items ≡ [] }
    {
        Links {
            entries: Vec::new(alloc),
            drivers: Vec::new(alloc),
        }
    }

    /// Adds `resource` with its `drivers`; `none` is the entry of select 0.
    fn add(&mut self, resource: u32, none: u32, drivers: &[u32]) -> Result<(), AllocError>
        ensures entries { OnOk result (self.new.entries.items ≡ self.old.entries.items ++ record { resource = resource; first = length self.old.drivers.items } ∷ []) }
        ensures drivers { OnOk result (self.new.drivers.items ≡ self.old.drivers.items ++ none ∷ drivers.now) }
    {
        let first = self.drivers.len();
        self.drivers.push(none)?;
        self.drivers.extend_from_slice(drivers)?;
        self.entries.push(Link { resource, first })?;
        Ok(())
    }
}

/// Returns the flat lists of `arch`.
pub(crate) fn plan_of(alloc: Global, arch: &Arch) -> Result<Plan, AllocError>
    ensures { IfOk result (λ p. IsPlan arch.now p) }
{
    let resources = arch.resources();
    let order = arch.order();
    let none = resources.len() as u32;
    let mut registers = Links::new(alloc);
    let mut nets = Links::new(alloc);
    for place in 0..order.len() {
        let number = order[place];
        let resource = &resources[number as usize];
        match resource.kind {
            Kind::Out => {}
            Kind::Register => registers.add(number, none, resource.drivers.as_slice())?,
            _ => nets.add(number, none, resource.drivers.as_slice())?,
        }
    }
    Ok(Plan { registers, nets })
}

/// Returns the ports, the out and the latency of each unit of `units`. A port that doesn't exist is `none`.
pub(crate) fn terminals_of(
    alloc: Global,
    units: &[Unit],
    none: u32,
) -> Result<Vec<Terminals>, AllocError>
    ensures { IfOk result (λ ts. AreTerminals units.now none ts.items) }
{
    let mut terminals = Vec::with_capacity(alloc, units.len())?;
    for unit in units {
        let ports = unit.ports.as_slice();
        terminals.push(Terminals {
            ports: [
                port_or(ports, 0, none),
                port_or(ports, 1, none),
                port_or(ports, 2, none),
            ],
            out: unit.out,
            latency: unit.latency,
        })?;
    }
    Ok(terminals)
}

/// Returns port number `place` of `ports`, or `none` past the last.
fn port_or(ports: &[u32], place: usize, none: u32) -> u32
    ensures { result ≡ slice_index_or ports.now place none }
{
    match ports.get(place) {
        Some(port) => *port,
        None => none,
    }
}
