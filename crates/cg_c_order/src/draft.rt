//! A kernel to which order edges within a turn are added.

use crate::chains::near_rows;
use crate::closing::Closing;
use crate::edges::data_edges;
use crate::marks::{Marks, join_rows, nodes_after, nodes_before};
use crate::ordering::OrderFault;
use cg_model::{MOST_ORDER_EDGES, Node, OrderEdge};
use std::alloc::{AllocError, Global};
use std::marker::Model;

/// A kernel to which order edges within a turn are added, with the chains of its edges within a turn. Contracts see the
/// kernel.
#[derive(Drop)]
pub(crate) struct Draft {
    nodes: Vec<Node>,
    order: Vec<OrderEdge>,
    near: Vec<Marks>,
}

impl Model for Draft {
    ghost use Rattle.cg_model.specs.Kernel as kernels;
    ghost use Rattle.cg_c_order.specs.Accesses.{kernel_with};
    ghost use Rattle.cg_c_order.specs.Choosing.{IsDraft};

    ghost Value = { kernels.Kernel };

    ghost view = { λ d. kernel_with d.nodes.items d.order.items };

    ghost invariant = { λ d. IsDraft (kernel_with d.nodes.items d.order.items) d.near.items };
}

impl Draft {
    ghost use Rattle.std.specs.Prelude.{◌≡◌, ◌<◌, ◌∷◌, [], Err, IfOk, OnOk, length};
    ghost use Rattle.cg_model.specs.Kernel.{IsKernel, size};
    ghost use Rattle.cg_c_order.specs.Accesses.{edge, kernel_with};
    ghost use Rattle.cg_c_order.specs.Choosing.{Exceeds, Takes, and_edge};
    ghost use Rattle.cg_c_order.specs.declared.ordering.OrderFault.TheVariants.{TooMany};

    /// Returns a kernel of these `nodes` without order edges.
    pub(crate) fn new(alloc: Global, nodes: Vec<Node>) -> Result<Draft, AllocError>
        requires { IsKernel (kernel_with nodes.items []) }
        ensures { IfOk result (λ d. d ≡ kernel_with nodes.items []) }
    {
        let edges = data_edges(alloc, &nodes)?;
        let near = near_rows(alloc, nodes.len(), &edges)?;
        Ok(Draft {
            nodes,
            order: Vec::new(alloc),
            near,
        })
    }

    /// Adds the order edge from node `from` to node `to` within a turn, unless a chain leads there already.
    pub(crate) fn order(&mut self, alloc: Global, from: u32, to: u32) -> Result<(), OrderFault>
        requires forward { from < to }
        requires known { to < size self.old }
        ensures taken { OnOk result (Takes self.old (edge from to 0 ∷ []) self.new) }
        ensures many { result ≡ Err TooMany → Exceeds self.old (edge from to 0 ∷ []) }
    {
        if self.near[from as usize].has(to as usize) {
            return Ok(());
        }
        if self.order.len() >= MOST_ORDER_EDGES {
            return Err(OrderFault::TooMany);
        }
        self.add(alloc, from, to)?;
        Ok(())
    }

    /// Adds the order edge from node `from` to node `to` within a turn.
    fn add(&mut self, alloc: Global, from: u32, to: u32) -> Result<(), AllocError>
        requires forward { from < to }
        requires known { to < size self.old }
        requires room { length self.old.order < 4096 }
        ensures { OnOk result (self.new ≡ and_edge self.old (edge from to 0)) }
    {
        let sources = nodes_before(alloc, &self.near, from as usize)?;
        let targets = nodes_after(alloc, &self.near, to as usize)?;
        self.order.push(OrderEdge {
            from,
            to,
            distance: 0,
        })?;
        join_rows(&mut self.near, &sources, to as usize, &targets);
        Ok(())
    }

    /// Returns the kernel, to add order edges to the next turn.
    pub(crate) fn close(self, alloc: Global) -> Result<Closing, AllocError>
        ensures { IfOk result (λ c. c ≡ self) }
    {
        Closing::new(alloc, self.nodes, self.order, self.near)
    }
}
