//! Graphs of nets and cells.

use crate::parts::{Cell, Net};
use std::marker::Model;

/// Nets, and cells that are connected to them. Each cell has the name and the pins of a form, each
/// pin's net is declared once, or is the clock or the reset.
#[derive(Drop)]
pub struct NetGraph {
    nets: Vec<Net>,
    cells: Vec<Cell>,
}

impl Model for NetGraph {
    ghost use Rattle.cg_netlist.specs.Netlist as spec;
    ghost use Rattle.cg_netlist.specs.Graph.{IsNetGraph};

    ghost Value = { spec.NetGraph };

    ghost view = { λ g. record { nets = g.nets.items; cells = g.cells.items } };

    ghost invariant = { λ g. IsNetGraph (record { nets = g.nets.items; cells = g.cells.items }) };
}

impl NetGraph {
    ghost use Rattle.std.specs.Prelude.{◌≡◌};
    ghost use Rattle.cg_netlist.specs.Graph.{IsNetGraph};

    /// Returns the graph of `nets` and `cells`, which have to form one.
    pub fn new(nets: Vec<Net>, cells: Vec<Cell>) -> NetGraph
        requires { IsNetGraph (record { nets = nets.items; cells = cells.items }) }
        ensures { result ≡ record { nets = nets.items; cells = cells.items } }
    {
        NetGraph { nets, cells }
    }

    /// Returns the nets in order.
    pub fn nets(&self) -> &[Net]
        ensures nets { result.now ≡ self.now.nets }
        ensures valid { IsNetGraph self.now }
    {
        &self.nets
    }

    /// Returns the cells in order.
    pub fn cells(&self) -> &[Cell]
        ensures cells { result.now ≡ self.now.cells }
        ensures valid { IsNetGraph self.now }
    {
        &self.cells
    }
}
