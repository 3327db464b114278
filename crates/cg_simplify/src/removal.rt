//! Removes the nodes that have no effect.
ghost use Rattle.std.specs.Prelude.{◌≡◌, ◌≤◌, IfOk, [], false};
ghost use Rattle.cg_model.specs.Kernel.{size};
ghost use Rattle.cg_simplify_draft.specs.Rewritten.{IsRewritten};

use crate::copy::copy_nodes;
use crate::live::live;
use crate::number::renumber;
use cg_model::Kernel;
use cg_simplify_draft::Passed;
use std::alloc::{AllocError, Global};

/// Returns `kernel` without the nodes from which no chain of operands leads to a store or output.
pub fn dead(alloc: Global, kernel: &Kernel) -> Result<Passed, AllocError>
    ensures rewritten { IfOk result (λ p. IsRewritten kernel.now p.kernel) }
    ensures size { IfOk result (λ p. size p.kernel ≤ size kernel.now) }
    ensures unordered { IfOk result (λ p. p.kernel.order ≡ []) }
    ensures unchanged { IfOk result (λ p. p.changed ≡ false → p.kernel.nodes ≡ kernel.now.nodes) }
{
    let count = kernel.nodes().len();
    let marks = live(alloc, kernel)?;
    let numbers = renumber(alloc, &marks)?;
    let nodes = copy_nodes(alloc, kernel, &numbers.kept, &numbers.numbers)?;
    let changed = nodes.len() < count;
    Ok(Passed {
        kernel: Kernel::new(nodes, Vec::new(alloc)),
        changed,
    })
}
