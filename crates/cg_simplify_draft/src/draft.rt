//! A kernel whose nodes are rewritten in place.

use cg_model::{Kernel, Node, Operand, Operands, copy_nodes};
use cg_word::Op;
use std::alloc::{AllocError, Global};
use std::marker::Model;
use std::mem::replace;

/// A valid kernel without order edges, of which operands and the texts of nodes can be set.
#[derive(Drop)]
pub struct Draft {
    alloc: Global,
    nodes: Vec<Node>,
}

impl Model for Draft {
    ghost use Rattle.std.specs.Prelude.{[]};
    ghost use Rattle.cg_model.specs.Kernel as kernels;

    ghost Value = { kernels.Kernel };

    ghost view = { λ d. record { nodes = d.nodes.items; order = [] } };

    ghost invariant = { λ d. kernels.IsKernel (record { nodes = d.nodes.items; order = [] }) };
}

impl Draft {
    ghost use Rattle.std.specs.Prelude.{◌≡◌, ◌<◌, IfOk, [], length};
    ghost use Rattle.cg_model.specs.Kernel.{IsKernel, node, size};
    ghost use Rattle.cg_simplify_draft.specs.Settings.{Fits, FitsText, with_operand, with_text};

    /// Returns a draft with the nodes of `kernel`.
    pub fn of(alloc: Global, kernel: &Kernel) -> Result<Draft, AllocError>
        ensures { IfOk result (λ draft. draft ≡ record { nodes = kernel.now.nodes; order = [] }) }
    {
        let nodes = copy_nodes(alloc, kernel.nodes())?;
        Ok(Draft { alloc, nodes })
    }

    /// Returns the nodes in program order.
    pub fn nodes(&self) -> &[Node]
        ensures nodes { result.now ≡ self.now.nodes }
        ensures valid { IsKernel self.now }
    {
        &self.nodes
    }

    /// Sets operand `place` of node `number` to `operand`.
    pub fn set_operand(&mut self, number: usize, place: usize, operand: Operand)
        requires known { number < size self.old }
        requires there { place < length (node self.old number).operands }
        requires fits { Fits self.old number place operand }
        ensures { self.new ≡ with_operand self.old number place operand }
    {
        put(self.alloc, &mut self.nodes[number], place, operand);
    }

    /// Gives node `number` the operation `op`, the port `port` and the operands `operands`.
    pub fn set_text(&mut self, number: usize, op: Op, port: u32, operands: Operands)
        requires known { number < size self.old }
        requires fits { FitsText self.old number op port operands }
        ensures { self.new ≡ with_text self.old number op port operands }
    {
        write(&mut self.nodes[number], op, port, operands);
    }

    /// Returns the draft as a kernel.
    pub fn into_kernel(self) -> Kernel
        ensures kernel { result ≡ self }
        ensures unordered { result.order ≡ [] }
    {
        Kernel::new(self.nodes, Vec::new(self.alloc))
    }
}

ghost use Rattle.std.specs.Prelude.{◌≡◌, ◌<◌, length, slice_set};

/// Sets operand `place` of `node` to `operand`.
fn put(alloc: Global, node: &mut Node, place: usize, operand: Operand)
    requires { place < length node.old.operands }
    ensures { node.new ≡ record node.old { operands = slice_set node.old.operands place operand } }
{
    let mut operands = replace(&mut node.operands, Operands::new(Vec::new(alloc))).into_vec();
    operands[place] = operand;
    node.operands = Operands::new(operands);
}

/// Gives `node` the operation `op`, the port `port` and the operands `operands`.
fn write(node: &mut Node, op: Op, port: u32, operands: Operands)
    ensures { node.new ≡ record node.old { op = op; port = port; operands = operands } }
{
    node.op = op;
    node.port = port;
    node.operands = operands;
}
