//! The array as a search for routes reads it.
ghost use Rattle.std.specs.Prelude.{◌<◌, ◌≤◌, ◌^◌, length};
ghost use Rattle.cg_model.specs.Limits.{most_resources};

use crate::bases::{OTHER_PRICE, bases_of};
use crate::flow::{all_of, wires_of};
use crate::hops::{diameter_of, hops_from, row_of, ways_of};
use crate::rows::{Rows, drivers_of, users_of};
use cg_arch::{Arch, Kind, Resource, Unit};
use std::alloc::{AllocError, Global};

/// The array as a search for routes reads it: flat lists indexed by resource number. It takes about 10 bytes for each
/// link, five for each resource, and a byte for each resource and port, at most about 13 MB.
#[derive(Drop)]
pub struct Wiring {
    kinds: Vec<Kind>,
    bases: Vec<u32>,
    drivers: Rows,
    users: Rows,
    registers: Vec<u32>,
    wires: Vec<u32>,
    ports: Vec<u32>,
    outs: Vec<u32>,
    ways: Vec<Vec<u8>>,
    count: u32,
    diameter: u32,
    ghost near: { diameter < 255 },
}

impl Wiring {
    /// Reads the wiring of `arch`.
    pub fn new(alloc: Global, arch: &Arch) -> Result<Wiring, AllocError> {
        let resources = arch.resources();
        let users = users_of(alloc, resources)?;
        let wires = wires_of(alloc, resources, &users)?;
        let outs = outs_of(alloc, arch.units())?;
        let ways = ways_of(alloc, resources)?;
        let diameter = diameter_of(arch.units(), &outs, &ways);
        Ok(Wiring {
            kinds: kinds_of(alloc, resources)?,
            bases: bases_of(alloc, resources, &users)?,
            drivers: drivers_of(alloc, resources)?,
            users,
            registers: all_of(alloc, resources, Kind::Register)?,
            wires,
            ports: all_of(alloc, resources, Kind::Port)?,
            outs,
            ways,
            count: resources.len() as u32,
            diameter,
        })
    }

    /// Returns the number of resources.
    #[inline]
    pub fn resources(&self) -> usize
        ensures { result < 2 ^ 32 }
    {
        self.count as usize
    }

    /// Returns the drivers of `resource`, in its order; empty past the last resource.
    #[inline]
    pub fn drivers(&self, resource: u32) -> &[u32] {
        self.drivers.row(resource)
    }

    /// Returns the resources that `resource` drives, ascending; empty past the last resource.
    #[inline]
    pub fn users(&self, resource: u32) -> &[u32] {
        self.users.row(resource)
    }

    /// Checks whether `resource` is a register.
    #[inline]
    pub fn is_register(&self, resource: u32) -> bool {
        self.is(resource, Kind::Register)
    }

    /// Checks whether `resource` is a port.
    #[inline]
    pub fn is_port(&self, resource: u32) -> bool {
        self.is(resource, Kind::Port)
    }

    /// Returns the price of `resource` without claims and without earlier excess: `REGISTER_PRICE` for a register, 8
    /// for a wire all of whose users are registers, and which has at least one, and 1 for any other resource.
    #[inline]
    pub fn base(&self, resource: u32) -> u32 {
        match self.bases.get(resource as usize) {
            Some(base) => *base,
            None => OTHER_PRICE,
        }
    }

    /// Returns the registers, ascending.
    #[inline]
    pub fn registers(&self) -> &[u32] {
        &self.registers
    }

    /// Returns the wires, each after those that drive it.
    #[inline]
    pub fn wires(&self) -> &[u32] {
        &self.wires
    }

    /// Returns the ports, ascending.
    #[inline]
    pub fn ports(&self) -> &[u32] {
        &self.ports
    }

    /// Returns the outs of the units, in the order of the units.
    #[inline]
    pub fn outs(&self) -> &[u32] {
        &self.outs
    }

    /// Returns the least number of registers that a value enters on a way from `from` to the port `to`; `NO_WAY` where
    /// there is no way, or `to` is not a port.
    #[inline]
    pub fn hops(&self, from: u32, to: u32) -> u32
        ensures { result ≤ 255 }
    {
        hops_from(self.ways_to(to), from)
    }

    /// Returns the numbers of `hops` from all resources to `port`, 255 for `NO_WAY`; empty where it is not a port.
    #[inline]
    pub fn ways_to(&self, port: u32) -> &[u8] {
        row_of(&self.ways, port)
    }

    /// Returns the greatest number of `hops` on a way from an out to a port.
    #[inline]
    pub fn diameter(&self) -> u32
        ensures { result < 255 }
    {
        self.diameter
    }

    /// Checks whether `resource` is of `kind`.
    #[inline]
    fn is(&self, resource: u32, kind: Kind) -> bool {
        match self.kinds.get(resource as usize) {
            Some(own) => *own == kind,
            None => false,
        }
    }
}

/// Returns the kinds of the resources.
fn kinds_of(alloc: Global, resources: &[Resource]) -> Result<Vec<Kind>, AllocError> {
    let mut kinds = Vec::new(alloc);
    for resource in resources {
        kinds.push(resource.kind)?;
    }
    Ok(kinds)
}

/// Returns the outs of the units.
fn outs_of(alloc: Global, units: &[Unit]) -> Result<Vec<u32>, AllocError> {
    let mut outs = Vec::new(alloc);
    for unit in units {
        outs.push(unit.out)?;
    }
    Ok(outs)
}
