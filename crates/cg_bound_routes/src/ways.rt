//! The table of the least numbers of registers.
ghost use Rattle.std.specs.Prelude.{◌≡◌, ℕ, ◌<◌, ◌↔◌, IfOk, OnOk, IfSome, IfNone, length};
ghost use Rattle.cg_model.specs.Kernel as kernels;
ghost use Rattle.cg_bound_routes.specs.Ways.{AreWays, AreSmall};
ghost use Rattle.cg_bound_routes.specs.Question.{AreEnds, MayBeEnds, AreAnswers, IsQuestionOf, IsNoEdge, AreFoundHops, IsRow};

use crate::answers::{Answer, ask_shared};
use crate::question::{Ends, Question};
use crate::table::Ways;
use cg_arch::Arch;
use cg_model::{Items, Kernel, Operand};
use std::alloc::{AllocError, Global};

/// Returns which units may hold nodes number `source` and `target` at interval `ii`: one unit if they are one node, and
/// two different units if they aren't and the interval is 1, in which a unit holds one node.
fn ends_at(source: usize, target: usize, ii: u32) -> Ends
    ensures { (x y : ℕ) → AreEnds result x y ↔ MayBeEnds ii source target x y }
{
    if source == target {
        Ends::One
    } else if ii == 1 {
        Ends::Apart
    } else {
        Ends::Any
    }
}

/// Returns the question of operand number `arg` of `node` at interval `ii`; `None` if it isn't an edge.
fn question_at(kernel: &Kernel, ii: u32, node: usize, arg: usize) -> Option<Question>
    requires node { node < kernels.size kernel.now }
    requires arg { arg < length (kernels.node kernel.now node).operands }
    ensures edge { IfSome result (IsQuestionOf kernel.now ii node arg) }
    ensures none { IfNone result (IsNoEdge kernel.now node arg) }
{
    let nodes = kernel.nodes();
    let target = &nodes[node];
    let operands = target.operands.as_slice();
    match &operands[arg] {
        Operand::Const(_) => None,
        Operand::Edge { from, .. } => {
            let source = *from as usize;
            Some(Question {
                from: nodes[source].op,
                to: target.op,
                arg,
                ends: ends_at(source, node, ii),
            })
        }
    }
}

/// A kernel on an architecture, at an interval.
#[derive(Clone, Copy)]
struct Instance<'a> {
    arch: &'a Arch,
    kernel: &'a Kernel,
    ii: u32,
}

/// Finds the least number of registers on a way for operand number `arg` of `node` in `instance`; `None` if there is no
/// way.
fn hops_at(
    alloc: Global,
    instance: Instance,
    node: usize,
    arg: usize,
    answers: &mut Vec<Answer>,
) -> Result<Option<u32>, AllocError>
    requires node { node < kernels.size instance.kernel.now }
    requires arg { arg < length (kernels.node instance.kernel.now node).operands }
    requires answers { AreAnswers instance.arch.now answers.old.items }
    ensures hops { IfOk result (AreFoundHops instance.entry.arch.now instance.entry.kernel.now instance.entry.ii node arg) }
    ensures kept { OnOk result (AreAnswers instance.entry.arch.now answers.new.items) }
{
    match question_at(instance.kernel, instance.ii, node, arg) {
        Some(question) => ask_shared(alloc, instance.arch, answers, question),
        None => Ok(None),
    }
}

/// Finds the numbers for all operands of `node` in `instance`.
fn row_of(
    alloc: Global,
    instance: Instance,
    node: usize,
    answers: &mut Vec<Answer>,
) -> Result<Items<Option<u32>>, AllocError>
    requires node { node < kernels.size instance.kernel.now }
    requires answers { AreAnswers instance.arch.now answers.old.items }
    ensures row { IfOk result (λ row. IsRow instance.entry.arch.now instance.entry.kernel.now instance.entry.ii node row) }
    ensures kept { OnOk result (AreAnswers instance.entry.arch.now answers.new.items) }
{
    let operands = instance.kernel.nodes()[node].operands.as_slice();
    let mut row = Vec::new(alloc);
    for arg in 0..operands.len() {
        row.push(hops_at(alloc, instance, node, arg, answers)?)?;
    }
    Ok(Items::new(row))
}

/// Finds the least number of registers on a way for each edge of `kernel` through `arch` at interval `ii`.
pub fn find_ways(alloc: Global, arch: &Arch, kernel: &Kernel, ii: u32) -> Result<Ways, AllocError>
    ensures ways { IfOk result (λ w. AreWays arch.now kernel.now ii w) }
    ensures small { IfOk result (λ w. AreSmall (length arch.now.resources) w) }
{
    let instance = Instance { arch, kernel, ii };
    let mut answers = Vec::new(alloc);
    let mut rows = Vec::new(alloc);
    for node in 0..kernel.nodes().len() {
        rows.push(row_of(alloc, instance, node, &mut answers)?)?;
    }
    Ok(Ways::new(rows))
}
