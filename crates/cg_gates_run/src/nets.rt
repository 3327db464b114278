//! The nets of a netlist by name, and the cells that drive them.

use cg_gates::{GateFault, data_of, drivers_of, number_or_all, numbers_of};
use cg_netlist::{Cell, NetGraph, Pin};
use cg_reading::{Numbers, number_in};
use std::alloc::Global;
use std::marker::Model;

/// A netlist, with the numbers of its nets by name, and the numbers of the first cells that drive them. Contracts see
/// the netlist.
#[derive(Drop)]
pub(crate) struct Nets<'a> {
    netlist: &'a NetGraph,
    numbers: Numbers,
    drivers: Numbers,
}

impl<'a> Model for Nets<'a> {
    ghost use Rattle.cg_netlist.specs.Netlist as spec;
    ghost use Rattle.cg_gates.specs.Numbers.{IsIndexed};

    ghost Value = { spec.NetGraph };

    ghost view = { λ n. n.netlist.now };

    ghost invariant = { λ n. IsIndexed n.netlist.now n.numbers n.drivers };
}

impl<'a> Nets<'a> {
    ghost use Rattle.std.specs.Prelude.{◌≡◌, ◌<◌, ◌^◌, IfOk, IfErr, length, map};
    ghost use Rattle.std.specs.Option.{option_copied, option_map};
    ghost use Rattle.cg_netlist.specs.declared.parts.Pin.{Pin};
    ghost use Rattle.cg_netlist.specs.Graph.{IsNetGraph};
    ghost use Rattle.cg_gates.specs.declared.fault.GateFault.TheVariants.{Memory};
    ghost use Rattle.cg_gates.specs.Numbers.{AreNets};
    ghost use Rattle.cg_gates.specs.Shape.{shape_of, shapes};
    ghost use Rattle.cg_gates.specs.Gates as gates;
    ghost use Rattle.cg_gates.specs.Order as order;
    ghost use Rattle.cg_gates.specs.Accepts as accepts;

    /// Returns the nets of `netlist`. Memory doesn't suffice for more nets than numbers of 32 bits can name.
    pub(crate) fn new(alloc: Global, netlist: &'a NetGraph) -> Result<Nets<'a>, GateFault>
        ensures ok { IfOk result (λ nets. nets ≡ netlist.now) }
        ensures fault { IfErr result (λ e. e ≡ Memory) }
    {
        if netlist.nets().len() >= 0x1_0000_0000 {
            return Err(GateFault::Memory);
        }
        let numbers = numbers_of(alloc, netlist.nets())?;
        let drivers = drivers_of(alloc, netlist.cells())?;
        Ok(Nets {
            netlist,
            numbers,
            drivers,
        })
    }

    /// Returns the netlist.
    pub(crate) fn netlist(&self) -> &'a NetGraph
        ensures netlist { result.now ≡ self.now }
        ensures few { length self.now.nets < 2 ^ 32 }
        ensures valid { IsNetGraph self.now }
    {
        self.netlist
    }

    /// Returns the numbers of the nets by name.
    pub(crate) fn numbers(&self) -> &Numbers
        ensures { AreNets result.now self.now.nets }
    {
        &self.numbers
    }

    /// Returns the number of nets.
    pub(crate) fn count(&self) -> u32
        ensures { result ≡ length self.now.nets }
    {
        self.netlist.nets().len() as u32
    }

    /// Returns the number of the net called `name`, or the number of nets.
    #[tactic(auto, unfolding(cg_gates::specs::Order::net_number))]
    pub(crate) fn number(&self, name: &str) -> u32
        ensures { result ≡ order.net_number self.now name.now }
    {
        number_or_all(&self.numbers, self.netlist.nets(), name) as u32
    }

    /// Returns the name of the net with that `number`; empty past the last one.
    pub(crate) fn name(&self, number: u32) -> &'a str
        ensures { result.now ≡ accepts.net_name self.now number }
    {
        let nets = self.netlist.nets();
        if nets.len() <= number as usize {
            return "";
        }
        nets[number as usize].name.as_str()
    }

    /// Returns the first cell that drives the net called `name`.
    pub(crate) fn driving(&self, name: &str) -> Option<&'a Cell>
        ensures { option_map shape_of (option_copied result) ≡ gates.driving name.now (shapes self.now) }
    {
        let cells = self.netlist.cells();
        match number_in(&self.drivers, name) {
            Some(number) => {
                prove!(number < cells.len());
                Some(&cells[number])
            }
            None => None,
        }
    }

    /// Returns the pins on nets among which the driver of the net called `name` chooses in the same cycle.
    pub(crate) fn heard(&self, name: &str) -> &'a [Pin]
        ensures { map (λ (p : Pin). p.net) result.now ≡ order.heard (gates.driving name.now (shapes self.now)) }
    {
        match self.driving(name) {
            Some(cell) => data_of(cell),
            None => &[],
        }
    }
}
