//! The nodes from which a chain of operands leads to a store or output.
ghost use Rattle.std.specs.Prelude.{◌≡◌, ◌<◌, IfOk, IsTrue, List, ℕ, length, Some, slice_get, true};
ghost use Rattle.cg_model.specs.declared.kernel.Operand.{Operand as OperandValue};
ghost use Rattle.cg_model.specs.Kernel.{size};
ghost use Rattle.cg_simplify.specs.Live.{AreMarked, IsSettled, has_effect, is_fed, is_marked};

use cg_model::{Kernel, Operand};
use cg_word::Op;
use std::alloc::{AllocError, Global};

/// Marks the nodes of `kernel` from which a chain of operands leads to a store or output.
pub(crate) fn live(alloc: Global, kernel: &Kernel) -> Result<Vec<bool>, AllocError>
    ensures { IfOk result (λ marks. AreMarked kernel.now marks.items) }
{
    let size = kernel.nodes().len();
    let mut marks = effects(alloc, kernel)?;
    for _ in 0..size {
        if is_closed(kernel, &marks) {
            return Ok(marks);
        }
        spread(kernel, &mut marks);
    }
    all(alloc, kernel)
}

/// Marks the stores and outputs of `kernel`.
fn effects(alloc: Global, kernel: &Kernel) -> Result<Vec<bool>, AllocError>
    ensures { IfOk result (λ marks. length marks.items ≡ size kernel.now) }
{
    let nodes = kernel.nodes();
    let mut marks = Vec::new(alloc);
    for number in 0..nodes.len() {
        marks.push(has_effect(nodes[number].op))?;
    }
    Ok(marks)
}

/// Marks all nodes of `kernel`.
fn all(alloc: Global, kernel: &Kernel) -> Result<Vec<bool>, AllocError>
    ensures { IfOk result (λ marks. AreMarked kernel.now marks.items) }
{
    let marks = vec![in alloc; true; kernel.nodes().len()]?;
    Ok(marks)
}

/// Returns whether a node with the operation `op` stores or outputs.
fn has_effect(op: Op) -> bool
    ensures { result ≡ has_effect op }
{
    op.is_store() || op.is_output()
}

/// Marks the sources of the operands of marked nodes of `kernel`, from the last node to the first.
fn spread(kernel: &Kernel, marks: &mut [bool])
    requires { length marks.old ≡ size kernel.now }
    ensures { length marks.new ≡ length marks.old }
{
    let nodes = kernel.nodes();
    for back in 0..nodes.len() {
        let number = nodes.len() - 1 - back;
        if marks[number] {
            mark_sources(nodes[number].operands.as_slice(), marks);
        }
    }
}

/// Marks the sources of `operands`.
fn mark_sources(operands: &[Operand], marks: &mut [bool])
    ensures { length marks.new ≡ length marks.old }
{
    for operand in operands {
        mark_source(operand, marks);
    }
}

/// Marks the source of `operand`.
fn mark_source(operand: &Operand, marks: &mut [bool])
    ensures { length marks.new ≡ length marks.old }
{
    if let Operand::Edge { from, .. } = operand {
        let from = *from as usize;
        if from < marks.len() {
            marks[from] = true;
        }
    }
}

/// Returns whether all nodes of `kernel` with an effect and all sources of marked nodes are marked.
fn is_closed(kernel: &Kernel, marks: &[bool]) -> bool
    requires { length marks.now ≡ size kernel.now }
    ensures { IsTrue result → AreMarked kernel.now marks.now }
{
    for number in 0..marks.len() {
        if !is_settled(kernel, marks, number) {
            return false;
        }
    }
    true
}

/// Returns whether node `number` of `kernel` is marked if it has an effect, and its sources are if it is marked.
fn is_settled(kernel: &Kernel, marks: &[bool], number: usize) -> bool
    requires { number < size kernel.now }
    ensures { IsTrue result → IsSettled kernel.now marks.now number }
{
    let node = &kernel.nodes()[number];
    if is_marked(marks, number) {
        are_fed(marks, node.operands.as_slice())
    } else {
        !has_effect(node.op)
    }
}

/// Returns whether node `number` is marked.
pub(crate) fn is_marked(marks: &[bool], number: usize) -> bool
    ensures { result ≡ is_marked marks.now number }
{
    if number < marks.len() {
        marks[number]
    } else {
        false
    }
}

/// Returns whether the sources of `operands` are marked.
pub(crate) fn are_fed(marks: &[bool], operands: &[Operand]) -> bool
    ensures { IsTrue result → (p : ℕ) (o : OperandValue) → slice_get operands.now p ≡ Some o → is_fed marks.now o ≡ true }
{
    for place in 0..operands.len() {
        if !is_fed(marks, &operands[place]) {
            return false;
        }
    }
    true
}

/// Returns whether the source of `operand` is marked, or it has none.
fn is_fed(marks: &[bool], operand: &Operand) -> bool
    ensures { result ≡ is_fed marks.now operand.now }
{
    match operand {
        Operand::Const(_) => true,
        Operand::Edge { from, .. } => is_marked(marks, *from as usize),
    }
}
