//! Kernels, their nodes and their edges.

use crate::lists::{Name, Operands, Words};
use cg_word::Op;
use std::marker::Model;

/// An operand of a node.
#[derive(Drop)]
pub enum Operand {
    /// The same word in each turn.
    Const(u32),
    /// A data edge: the value of another node, or of the node itself, some turns ago.
    Edge {
        /// The number of the node that computes the value.
        from: u32,
        /// How many turns ago, 0 to 4.
        distance: u32,
        /// The operand in the first turns: `distance` words, one for each of these turns.
        init: Words,
    },
}

/// A node of a kernel: one operation, executed once in each turn.
#[derive(Drop)]
pub struct Node {
    /// Its name, of at most 32 characters.
    pub name: Name,
    /// Its operation.
    pub op: Op,
    /// The stream of an input, output or outputif, 0 to 15; 0 for all other operations.
    pub port: u32,
    /// Its operands; their number is the operation's arity.
    pub operands: Operands,
}

/// An order edge: node `to` begins after node `from` of `distance` turns ago. It carries no value.
#[derive(Clone, Copy, Debug, PartialEq, Eq, Drop)]
pub struct OrderEdge {
    /// The number of the node that comes first.
    pub from: u32,
    /// The number of the node that comes after it.
    pub to: u32,
    /// How many turns later, 0 to 255.
    pub distance: u32,
}

/// A valid kernel: its nodes in program order, and its order edges.
#[derive(Drop)]
pub struct Kernel {
    nodes: Vec<Node>,
    order: Vec<OrderEdge>,
}

impl Model for Kernel {
    ghost use Rattle.cg_model.specs.Kernel as kernels;

    ghost Value = { kernels.Kernel };

    ghost view = { λ k. record { nodes = k.nodes.items; order = k.order.items } };

    ghost invariant = { λ k. kernels.IsKernel (record { nodes = k.nodes.items; order = k.order.items }) };
}

impl Kernel {
    ghost use Rattle.std.specs.Prelude.{◌≡◌};
    ghost use Rattle.cg_model.specs.Kernel.{IsKernel};

    /// Returns a kernel of these `nodes` and order edges `order`.
    pub fn new(nodes: Vec<Node>, order: Vec<OrderEdge>) -> Kernel
        requires { IsKernel (record { nodes = nodes.items; order = order.items }) }
        ensures { result ≡ record { nodes = nodes.items; order = order.items } }
    {
        Kernel { nodes, order }
    }

    /// Returns the nodes in program order.
    pub fn nodes(&self) -> &[Node]
        ensures nodes { result.now ≡ self.now.nodes }
        ensures valid { IsKernel self.now }
    {
        &self.nodes
    }

    /// Returns the order edges.
    pub fn order(&self) -> &[OrderEdge]
        ensures order { result.now ≡ self.now.order }
        ensures valid { IsKernel self.now }
    {
        &self.order
    }
}
