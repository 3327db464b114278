//! A kernel to which order edges to the next turn are added.

use crate::chains::next_rows;
use crate::edges::data_edges;
use crate::marks::{Marks, join_rows, nodes_after, nodes_before};
use crate::ordering::OrderFault;
use cg_model::{Kernel, MOST_ORDER_EDGES, Node, OrderEdge};
use std::alloc::{AllocError, Global};
use std::marker::Model;

/// A kernel to which order edges to the next turn are added, with the chains of its edges within a turn, and over at
/// most one turn. Contracts see the kernel.
#[derive(Drop)]
pub(crate) struct Closing {
    nodes: Vec<Node>,
    order: Vec<OrderEdge>,
    near: Vec<Marks>,
    next: Vec<Marks>,
}

impl Model for Closing {
    ghost use Rattle.cg_model.specs.Kernel as kernels;
    ghost use Rattle.cg_c_order.specs.Accesses.{kernel_with};
    ghost use Rattle.cg_c_order.specs.Choosing.{IsClosing};

    ghost Value = { kernels.Kernel };

    ghost view = { λ c. kernel_with c.nodes.items c.order.items };

    ghost invariant = { λ c. IsClosing (kernel_with c.nodes.items c.order.items) c.near.items c.next.items };
}

impl Closing {
    ghost use Rattle.std.specs.Prelude.{◌≡◌, ◌<◌, ◌∷◌, [], Err, IfOk, OnOk, length};
    ghost use Rattle.cg_model.specs.Kernel.{IsKernel, size};
    ghost use Rattle.cg_c_order.specs.Accesses.{edge, kernel_with};
    ghost use Rattle.cg_c_order.specs.Choosing.{Exceeds, IsDraft, Takes, and_edge};
    ghost use Rattle.cg_c_order.specs.declared.ordering.OrderFault.TheVariants.{TooMany};

    /// Returns the kernel of these `nodes` and order edges `order`, of which `near` has the chains within a turn.
    pub(crate) fn new(
        alloc: Global,
        nodes: Vec<Node>,
        order: Vec<OrderEdge>,
        near: Vec<Marks>,
    ) -> Result<Closing, AllocError>
        requires { IsDraft (kernel_with nodes.items order.items) near.items }
        ensures { IfOk result (λ c. c ≡ kernel_with nodes.items order.items) }
    {
        let mut edges = data_edges(alloc, &nodes)?;
        edges.extend_from_slice(&order)?;
        let next = next_rows(alloc, &near, &edges)?;
        Ok(Closing {
            nodes,
            order,
            near,
            next,
        })
    }

    /// Adds the order edge from node `from` to node `to` of the next turn, unless a chain over at most one turn leads
    /// there already.
    pub(crate) fn order(&mut self, alloc: Global, from: u32, to: u32) -> Result<(), OrderFault>
        requires from { from < size self.old }
        requires to { to < size self.old }
        ensures taken { OnOk result (Takes self.old (edge from to 1 ∷ []) self.new) }
        ensures many { result ≡ Err TooMany → Exceeds self.old (edge from to 1 ∷ []) }
    {
        if self.next[from as usize].has(to as usize) {
            return Ok(());
        }
        if self.order.len() >= MOST_ORDER_EDGES {
            return Err(OrderFault::TooMany);
        }
        self.add(alloc, from, to)?;
        Ok(())
    }

    /// Adds the order edge from node `from` to node `to` of the next turn.
    fn add(&mut self, alloc: Global, from: u32, to: u32) -> Result<(), AllocError>
        requires from { from < size self.old }
        requires to { to < size self.old }
        requires room { length self.old.order < 4096 }
        ensures { OnOk result (self.new ≡ and_edge self.old (edge from to 1)) }
    {
        let sources = nodes_before(alloc, &self.near, from as usize)?;
        let targets = nodes_after(alloc, &self.near, to as usize)?;
        self.order.push(OrderEdge {
            from,
            to,
            distance: 1,
        })?;
        join_rows(&mut self.next, &sources, to as usize, &targets);
        Ok(())
    }

    /// Returns the kernel.
    pub(crate) fn into_kernel(self) -> Kernel
        ensures { result ≡ self }
    {
        Kernel::new(self.nodes, self.order)
    }
}
