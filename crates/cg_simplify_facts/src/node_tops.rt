//! Words that the values of a kernel's nodes never exceed.
ghost use Rattle.std.specs.Prelude.{◌≡◌, ◌<◌, ◌≤◌, ℕ, IfOk};
ghost use Rattle.cg_model.specs.Kernel.{node, size};
ghost use Rattle.cg_model.specs.Turns.{val};
ghost use Rattle.cg_model.specs.Work.{Image, IsImage};
ghost use Rattle.cg_simplify_facts.specs.Suits as spec;
ghost use Rattle.cg_simplify_facts.specs.Suits.{AreTops, Suits};

use crate::operands::facts_of;
use crate::tops::top_of;
use cg_model::Kernel;
use cg_word::Op;
use std::alloc::{AllocError, Global};

/// Returns whether the value of `op` is computed from its operands alone.
pub fn computes(op: Op) -> bool
    ensures { result ≡ spec.computes op }
{
    !matches!(
        op,
        Op::Iter
            | Op::Input
            | Op::Load
            | Op::Store
            | Op::Output
            | Op::LoadIf
            | Op::StoreIf
            | Op::OutputIf
    )
}

/// Returns for each node of `kernel` a word that its value never exceeds, made in program order.
pub fn tops_of(alloc: Global, kernel: &Kernel) -> Result<Vec<u32>, AllocError>
    ensures { IfOk result (λ t. AreTops kernel.now t.items) }
{
    let nodes = kernel.nodes();
    let mut tops = Vec::new(alloc);
    for number in 0..nodes.len() {
        let top = top_at(kernel, &tops, number);
        tops.push(top)?;
    }
    Ok(tops)
}

/// Returns a word that the value of node `number` of `kernel` never exceeds, by the words `tops` of the nodes before it.
fn top_at(kernel: &Kernel, tops: &[u32], number: usize) -> u32
    requires { number < size kernel.now }
    ensures { (image : Image) (i : ℕ) → IsImage image → Suits kernel.now.nodes tops.now (val kernel.now image) → val kernel.now image number i ≤ result }
{
    let node = &kernel.nodes()[number];
    if computes(node.op) {
        top_of(
            node.op,
            facts_of(kernel.nodes(), tops, node.operands.as_slice()),
        )
    } else {
        u32::MAX
    }
}
