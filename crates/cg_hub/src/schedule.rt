//! The mapping under construction.
ghost use Rattle.std.specs.Prelude.{◌≡◌, IfOk};
ghost use Rattle.cg_model.specs.Kernel.{IsKernel};
ghost use Rattle.cg_model.specs.Array.{IsArch};
ghost use Rattle.cg_hub.specs.Hub.{HubEnough};
ghost use Rattle.cg_hub.specs.Scheduled.{hub_places};

use crate::hosts::host;
use crate::registers::registers_before;
use crate::way::way;
use cg_arch::{Arch, Unit};
use cg_model::{Items, Kernel, Mapping, Operand, Place, Route};
use std::alloc::{AllocError, Global};
use std::marker::Model;

/// Where and when the nodes of a kernel begin, one after another, on an architecture whose hub suffices at an interval.
#[derive(Drop)]
pub(crate) struct Schedule<'a> {
    arch: &'a Arch,
    kernel: &'a Kernel,
    ii: u32,
    places: Vec<Place>,
}

impl<'a> Model for Schedule<'a> {
    ghost use Rattle.cg_hub.specs.Scheduled.{Scheduled, IsKept};

    ghost Value = { Scheduled };

    ghost view = { λ s. record { arch = s.arch.now; kernel = s.kernel.now; ii = s.ii } };

    ghost invariant = { λ s. IsKept (record { arch = s.arch.now; kernel = s.kernel.now; ii = s.ii }) s.places.items };
}

impl<'a> Schedule<'a> {
    ghost use Rattle.std.specs.Prelude.{◌≡◌, ℕ, ◌<◌, ◌++◌, List, IfOk, OnOk};
    ghost use Rattle.cg_model.specs.Kernel.{size, HasOperand};
    ghost use Rattle.cg_model.specs.declared.kernel.Operand.TheVariants.{Edge};
    ghost use Rattle.cg_model.specs.Array.{unit};
    ghost use Rattle.cg_hub.specs.Scheduled.{IsScheduled};
    ghost use Rattle.cg_hub.specs.Hub as spec;

    /// Places the nodes.
    pub(crate) fn new(
        alloc: Global,
        arch: &'a Arch,
        kernel: &'a Kernel,
        ii: u32,
    ) -> Result<Schedule<'a>, AllocError>
        requires { spec.HubEnough arch.now kernel.now ii }
        ensures { IfOk result (λ s. s ≡ record { arch = arch.now; kernel = kernel.now; ii = ii }) }
    {
        let places = places(alloc, arch, kernel, ii)?;
        Ok(Schedule {
            arch,
            kernel,
            ii,
            places,
        })
    }

    /// Returns the unit of `node`.
    fn unit(&self, node: u32) -> &Unit
        requires { node < size self.now.kernel }
        ensures unit { result.now ≡ unit self.now.arch (spec.host self.now.arch self.now.kernel node) }
        ensures valid { IsScheduled self.now }
    {
        &self.arch.units()[self.places[node as usize].unit as usize]
    }

    /// Returns when `node` begins.
    fn start(&self, node: u32) -> u32
        requires { node < size self.now.kernel }
        ensures { result ≡ spec.start self.now.arch self.now.kernel node }
    {
        self.places[node as usize].time
    }

    /// Returns the path of the value of node `source` to an operand of a node, a number of iterations later.
    fn path(
        &self,
        alloc: Global,
        node: u32,
        arg: u32,
        source: u32,
        distance: u32,
    ) -> Result<Vec<u32>, AllocError>
        requires { (init : List ℕ) × HasOperand self.now.kernel node arg (Edge source distance init) }
        ensures { IfOk result (λ w. w.items ≡ spec.hub_path self.now.arch self.now.kernel self.now.ii node arg source distance) }
    {
        let to = self.unit(node);
        let from = self.unit(source);
        let leaves = self.start(source) as usize + from.latency as usize;
        let end = self.start(node) as usize + self.ii as usize * distance as usize;
        way(
            alloc,
            self.arch.hub(),
            registers_before(self.kernel, source),
            self.ii as usize,
            end - leaves,
            from.out,
            to.ports.as_slice()[arg as usize],
        )
    }

    /// Adds the routes to the operands of a node that are edges, in order.
    fn add_routes(
        &self,
        alloc: Global,
        node: u32,
        routes: &mut Vec<Route>,
    ) -> Result<(), AllocError>
        requires { node < size self.now.kernel }
        ensures { OnOk result (routes.new.items ≡ routes.old.items ++ spec.hub_routes self.now.arch self.now.kernel self.now.ii node) }
    {
        let operands = self.kernel.nodes()[node as usize].operands.as_slice();
        for arg in 0..operands.len() {
            match &operands[arg] {
                Operand::Const(_) => {}
                Operand::Edge { from, distance, .. } => {
                    let path = self.path(alloc, node, arg as u32, *from, *distance)?;
                    routes.push(Route {
                        node,
                        arg: arg as u32,
                        path: Items::new(path),
                    })?;
                }
            }
        }
        Ok(())
    }

    /// Returns the mapping.
    pub(crate) fn into_mapping(self, alloc: Global) -> Result<Mapping, AllocError>
        ensures { IfOk result (λ m. m ≡ spec.hub_map self.entry.arch self.entry.kernel self.entry.ii) }
    {
        let mut routes = Vec::new(alloc);
        for node in 0..self.kernel.nodes().len() {
            self.add_routes(alloc, node as u32, &mut routes)?;
        }
        Ok(Mapping::new(self.ii, self.places, routes))
    }
}

/// Returns where and when each node begins.
fn places(alloc: Global, arch: &Arch, kernel: &Kernel, ii: u32) -> Result<Vec<Place>, AllocError>
    requires { HubEnough arch.now kernel.now ii }
    ensures arch { IsArch arch.now }
    ensures kernel { IsKernel kernel.now }
    ensures value { IfOk result (λ v. v.items ≡ hub_places arch.now kernel.now) }
{
    let nodes = kernel.nodes();
    let units = arch.units();
    let mut places = Vec::new(alloc);
    let mut time = 0;
    for v in 0..nodes.len() {
        match host(arch, nodes[v].op) {
            None => unreachable!(),
            Some(unit) => {
                places.push(Place { unit, time })?;
                time += units[unit as usize].latency + 1;
            }
        }
    }
    Ok(places)
}
