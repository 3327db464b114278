//! Guarded operations whose guard is known, and nodes that select by an `eq` with 0.
ghost use Rattle.std.specs.Prelude.{◌≡◌, IfOk, IfSome, ℕ, [], ◌∷◌};
ghost use Rattle.cg_model.specs.Kernel.{Kernel as KernelValue};
ghost use Rattle.cg_simplify.specs.Guards.{IsEqNode, IsEqOf, unguarded};
ghost use Rattle.cg_simplify.specs.Restating.{MayBecome};

use crate::restating::{Text, constant_text};
use crate::zero::compared_with_zero;
use cg_model::{Node, Operand, Operands, copy_operand, copy_operands};
use cg_simplify_draft::Draft;
use cg_simplify_facts::fact_of;
use cg_word::Op;
use std::alloc::{AllocError, Global};

/// Returns the text of node `number` of `draft` without its guard, if it has one that is known: the operation without a
/// guard, or the `const` of 0 where the guard is 0. `tops` has words that the values of the nodes don't exceed.
pub(crate) fn without_guard(
    alloc: Global,
    draft: &Draft,
    tops: &[u32],
    number: usize,
) -> Result<Option<Text>, AllocError>
    ensures { (K : KernelValue) → IfOk result (λ t. IfSome t (MayBecome K tops.now draft.now number)) }
{
    let nodes = draft.nodes();
    let Some(node) = nodes.get(number) else {
        return Ok(None);
    };
    let Some(op) = unguarded(node.op) else {
        return Ok(None);
    };
    let Some((guard, rest)) = node.operands.as_slice().split_first() else {
        return Ok(None);
    };
    let Some(word) = fact_of(nodes, tops, guard).word else {
        return Ok(None);
    };
    if word != 0 {
        Ok(Some(Text {
            op,
            port: node.port,
            operands: Operands::new(copy_operands(alloc, rest)?),
        }))
    } else {
        Ok(Some(constant_text(alloc, 0)?))
    }
}

/// Returns the operation that `op` is where its guard isn't 0, if it is guarded.
fn unguarded(op: Op) -> Option<Op>
    ensures { result ≡ unguarded op }
{
    match op {
        Op::LoadIf => Some(Op::Load),
        Op::StoreIf => Some(Op::Store),
        Op::OutputIf => Some(Op::Output),
        _ => None,
    }
}

/// Returns the text of node `number` of `draft` that selects the other way by what an `eq` compares with 0, if the node
/// selects by such an `eq` of its turn. `tops` has words that the values of the nodes don't exceed.
pub(crate) fn without_eq(
    alloc: Global,
    draft: &Draft,
    tops: &[u32],
    number: usize,
) -> Result<Option<Text>, AllocError>
    ensures { (K : KernelValue) → IfOk result (λ t. IfSome t (MayBecome K tops.now draft.now number)) }
{
    let Some(node) = draft.nodes().get(number) else {
        return Ok(None);
    };
    let Op::Select = node.op else {
        return Ok(None);
    };
    let [by, first, second] = node.operands.as_slice() else {
        return Ok(None);
    };
    match selected_by(draft, tops, by) {
        Some(operand) => Ok(Some(Text {
            op: Op::Select,
            port: node.port,
            operands: three(alloc, operand, second, first)?,
        })),
        None => Ok(None),
    }
}

/// Returns copies of three operands in this order.
fn three(
    alloc: Global,
    first: &Operand,
    second: &Operand,
    third: &Operand,
) -> Result<Operands, AllocError>
    ensures { IfOk result (λ operands. operands ≡ first.now ∷ second.now ∷ third.now ∷ []) }
{
    let mut operands = Vec::new(alloc);
    operands.push(copy_operand(alloc, first)?)?;
    operands.push(copy_operand(alloc, second)?)?;
    operands.push(copy_operand(alloc, third)?)?;
    Ok(Operands::new(operands))
}

/// Returns what is compared with 0 by the `eq` of `draft` that `operand` is in the same turn, if it is one.
fn selected_by<'a>(draft: &'a Draft, tops: &[u32], operand: &Operand) -> Option<&'a Operand>
    ensures { IfSome result (λ x. IsEqOf tops.now draft.now operand.now x.now) }
{
    let Operand::Edge { from, distance, .. } = operand else {
        return None;
    };
    if *distance == 0 {
        eq_with_zero(draft, tops, *from)
    } else {
        None
    }
}

/// Returns the operand that node `number` of `draft` compares with 0, if it is an `eq`.
fn eq_with_zero<'a>(draft: &'a Draft, tops: &[u32], number: u32) -> Option<&'a Operand>
    ensures { IfSome result (λ x. IsEqNode tops.now draft.now number x.now) }
{
    let nodes = draft.nodes();
    let node = nodes.get(number as usize)?;
    let Op::Eq = node.op else {
        return None;
    };
    compared_with_zero(nodes, tops, node, number)
}
