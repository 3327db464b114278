//! Operations that leave a recurrence: (p + a) + b, where p alone is on a ring with the sum, is p + (a + b).
#![tactic(auto)]

ghost use Rattle.std.specs.Prelude.{◌≡◌, [], false, IfOk};
ghost use Rattle.cg_model.specs.Kernel.{size};
ghost use Rattle.cg_simplify_draft.specs.Rewritten.{IsRewritten};

mod moving;
mod rings;
mod rows;
mod texts;
mod turning;

use crate::rings::Rings;
use crate::turning::turn_all;
use cg_model::{Kernel, copy_nodes};
use cg_simplify_draft::Passed;
use cg_simplify_order::{GivenKernel, all_needs};
use std::alloc::{AllocError, Global};

/// Returns `kernel`, which `given` was rewritten into, with operations moved off the rings that its recurrences make:
/// where a node takes an operand from another node of its ring, both compute alike, and this is all that the other
/// node's value is used for, the other node computes first what isn't from the ring.
pub fn rotate(alloc: Global, given: &GivenKernel, kernel: &Kernel) -> Result<Passed, AllocError>
    requires { IsRewritten given.now kernel.now }
    ensures rewritten { IfOk result (λ p. IsRewritten kernel.now p.kernel) }
    ensures size { IfOk result (λ p. size p.kernel ≡ size kernel.now) }
    ensures unordered { IfOk result (λ p. p.kernel.order ≡ []) }
    ensures unchanged { IfOk result (λ p. p.changed ≡ false → p.kernel.nodes ≡ kernel.now.nodes) }
{
    let needs = all_needs(alloc, given, kernel)?;
    let mut rings = Rings::new(alloc, kernel.nodes(), &needs)?;
    let mut nodes = copy_nodes(alloc, kernel.nodes())?;
    let changed = turn_all(alloc, &mut nodes, &mut rings)?;
    Ok(Passed {
        kernel: Kernel::new(nodes, Vec::new(alloc)),
        changed,
    })
}
