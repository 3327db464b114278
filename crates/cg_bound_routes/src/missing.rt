//! The edges for which there is no way.
ghost use Rattle.std.specs.Prelude.{◌<◌, ◌↔◌, IsTrue, IfSome, IfNone, length};
ghost use Rattle.cg_model.specs.Kernel as kernels;
ghost use Rattle.cg_bound_routes.specs.Ways.{IsLeast};
ghost use Rattle.cg_bound_routes.specs.Table.{IsMissing, IsFirstMissing, HasAllNumbers};

use crate::table::Ways;
use cg_model::{Kernel, Operand};

/// A data edge for which there is no way, by the operand at which it ends.
#[derive(Clone, Copy, Debug, PartialEq, Eq, Drop)]
pub struct Missing {
    /// The number of the node that takes the value.
    pub node: u32,
    /// The number of its operand that is the edge, counted from 0.
    pub arg: u32,
}

/// Returns whether operand number `arg` of `node` is an edge for which `ways` has no number.
fn is_missing(kernel: &Kernel, ways: &Ways, node: u32, arg: u32) -> bool
    requires node { node < kernels.size kernel.now }
    requires arg { arg < length (kernels.node kernel.now node).operands }
    ensures { IsTrue result ↔ IsMissing kernel.now ways.now node arg }
{
    let operands = kernel.nodes()[node as usize].operands.as_slice();
    match &operands[arg as usize] {
        Operand::Const(_) => false,
        Operand::Edge { .. } => ways.hops(node, arg).is_none(),
    }
}

/// Finds the first operand of `node` that is an edge for which `ways` has no number.
fn first_at(kernel: &Kernel, ways: &Ways, node: u32) -> Option<u32>
    requires { node < kernels.size kernel.now }
    ensures { IsLeast (IsMissing kernel.now ways.now node) result }
{
    let operands = kernel.nodes()[node as usize].operands.as_slice();
    for arg in 0..operands.len() as u32 {
        if is_missing(kernel, ways, node, arg) {
            return Some(arg);
        }
    }
    None
}

/// Finds the first data edge of `kernel`, by node and operand, for which `ways` has no number.
pub fn first_without_way(kernel: &Kernel, ways: &Ways) -> Option<Missing>
    ensures some { IfSome result (IsFirstMissing kernel.now ways.now) }
    ensures none { IfNone result (HasAllNumbers kernel.now ways.now) }
{
    for node in 0..kernel.nodes().len() as u32 {
        if let Some(arg) = first_at(kernel, ways, node) {
            return Some(Missing { node, arg });
        }
    }
    None
}
