//! Nodes that compare an operand with 0.
ghost use Rattle.std.specs.Prelude.{◌≡◌, ◌⊎◌, IfSome, Some, ℕ, true, slice_get};
ghost use Rattle.cg_word.specs.declared.op.Op.TheVariants.{Eq, Ne};
ghost use Rattle.cg_model.specs.declared.kernel.Operand.TheVariants.{Const as Constant};
ghost use Rattle.cg_model.specs.Kernel.{node};
ghost use Rattle.cg_simplify.specs.Operands.{ComparesWithZero, IsEdgeAt, TestsAs, is_tested};

use cg_model::{Node, Operand};
use cg_simplify_draft::Draft;
use cg_simplify_facts::{Fact, facts_of};
use cg_word::Op;

/// Returns the operand that node `from` of `draft` is 0 with, for a node `to` that only tests whether the node is 0: what
/// a `ne` compares with 0. `tops` has words that the values of the nodes don't exceed.
pub(crate) fn tested_as<'a>(
    draft: &'a Draft,
    tops: &[u32],
    from: u32,
    to: u32,
) -> Option<&'a Operand>
    ensures tested { IfSome result (λ x. is_tested (node draft.now to).op ≡ true) }
    ensures tests { IfSome result (λ x. TestsAs tops.now draft.now from x.now) }
{
    let tester = draft.nodes().get(to as usize)?;
    if is_tested(tester.op) {
        zero_with(draft, tops, from)
    } else {
        None
    }
}

/// Returns whether `op` only tests whether its first operand is 0.
fn is_tested(op: Op) -> bool
    ensures { result ≡ is_tested op }
{
    matches!(op, Op::Select | Op::LoadIf | Op::StoreIf | Op::OutputIf)
}

/// Returns the operand that node `number` of `draft` is 0 with, if it is a `ne` with 0.
fn zero_with<'a>(draft: &'a Draft, tops: &[u32], number: u32) -> Option<&'a Operand>
    ensures { IfSome result (λ x. TestsAs tops.now draft.now number x.now) }
{
    let nodes = draft.nodes();
    let node = nodes.get(number as usize)?;
    let Op::Ne = node.op else {
        return None;
    };
    compared_with_zero(nodes, tops, node, number)
}

/// Returns the operand that `node`, number `number` of `nodes`, compares with 0, if it is an `eq` or `ne` of an edge, not
/// from itself, and of an operand that is known to be 0. `tops` has words that the values of the nodes don't exceed.
pub(crate) fn compared_with_zero<'a>(
    nodes: &[Node],
    tops: &[u32],
    node: &'a Node,
    number: u32,
) -> Option<&'a Operand>
    ensures { IfSome result (λ x. ComparesWithZero nodes.now tops.now node.now x.now) }
{
    if !compares(node.op) {
        return None;
    }
    let facts = facts_of(nodes, tops, node.operands.as_slice());
    if is_zero(facts.second) {
        if let Some(operand) = other_edge(node, 0, number) {
            return Some(operand);
        }
    }
    if is_zero(facts.first) {
        other_edge(node, 1, number)
    } else {
        None
    }
}

/// Returns whether `op` is `eq` or `ne`.
fn compares(op: Op) -> bool
    ensures { result ≡ true → (op ≡ Eq) ⊎ (op ≡ Ne) }
{
    matches!(op, Op::Eq | Op::Ne)
}

/// Returns whether the word of `fact` is known to be 0.
fn is_zero(fact: Fact) -> bool
    ensures { result ≡ true → fact.word ≡ Some 0 }
{
    fact.word == Some(0)
}

/// Returns operand `place` of `node`, number `number`, if it is an edge from another node.
fn other_edge(node: &Node, place: usize, number: u32) -> Option<&Operand>
    ensures { IfSome result (λ x. IsEdgeAt node.now place x.now) }
{
    let operand = node.operands.as_slice().get(place)?;
    match operand {
        Operand::Edge { from, .. } => if *from == number { None } else { Some(operand) },
        Operand::Const(_) => None,
    }
}
