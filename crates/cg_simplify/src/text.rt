//! Nodes of one text: operation, port and operands, up to which nodes are like one another.
ghost use Rattle.std.specs.Prelude.{◌≡◌, ◌<◌, IsTrue, length, true};
ghost use Rattle.cg_simplify.specs.Merging.{AreCrossed, AreSame, IsSame, SameText, commutes, counts_as};

use crate::number::number_of;
use cg_model::{Node, Operand};
use cg_word::Op;

/// Returns whether node `m`, which is `first`, and node `n`, which is `second`, have the same operation, port and
/// operands up to what nodes are `like`, in either order where the operation commutes.
pub(crate) fn has_same_text(like: &[u32], m: u32, first: &Node, n: u32, second: &Node) -> bool
    ensures { IsTrue result → SameText like.now m first.now n second.now }
{
    if first.op != second.op || first.port != second.port {
        return false;
    }
    let xs = first.operands.as_slice();
    let ys = second.operands.as_slice();
    are_same(like, m, xs, n, ys) || commutes(first.op) && are_crossed(like, m, xs, n, ys)
}

/// Returns whether the first two operands of `op` may be exchanged.
fn commutes(op: Op) -> bool
    ensures { result ≡ commutes op }
{
    matches!(
        op,
        Op::Add | Op::Mul | Op::And | Op::Or | Op::Xor | Op::Eq | Op::Ne | Op::Mins | Op::Maxs
    )
}

/// Returns whether the operands `xs` of node `m` are the operands `ys` of node `n` up to what nodes are `like`.
fn are_same(like: &[u32], m: u32, xs: &[Operand], n: u32, ys: &[Operand]) -> bool
    ensures { IsTrue result → AreSame like.now m xs.now n ys.now }
{
    if xs.len() != ys.len() {
        return false;
    }
    for place in 0..xs.len() {
        if !is_same(like, m, &xs[place], n, &ys[place]) {
            return false;
        }
    }
    true
}

/// Returns whether two operands `xs` of node `m` are the operands `ys` of node `n` in the other order, up to what nodes
/// are `like`.
fn are_crossed(like: &[u32], m: u32, xs: &[Operand], n: u32, ys: &[Operand]) -> bool
    ensures { IsTrue result → AreCrossed like.now m xs.now n ys.now }
{
    xs.len() == 2
        && ys.len() == 2
        && is_same(like, m, &xs[0], n, &ys[1])
        && is_same(like, m, &xs[1], n, &ys[0])
}

/// Returns whether operand `a` of node `m` is operand `b` of node `n` up to what nodes are `like`.
fn is_same(like: &[u32], m: u32, a: &Operand, n: u32, b: &Operand) -> bool
    ensures { IsTrue result → IsSame like.now m a.now n b.now }
{
    match (a, b) {
        (Operand::Const(word), Operand::Const(other)) => *word == *other,
        (
            Operand::Edge {
                from,
                distance,
                init,
            },
            Operand::Edge {
                from: source,
                distance: turns,
                init: words,
            },
        ) => {
            counts_as(like, m, *from) == counts_as(like, n, *source)
                && *distance == *turns
                && init.as_slice() == words.as_slice()
        }
        _ => false,
    }
}

/// Returns what the source `from` of an edge to node `number` counts as: nothing if it is this node, an earlier node as
/// what it is `like`, and a later one as itself.
fn counts_as(like: &[u32], number: u32, from: u32) -> Option<u32>
    ensures { result ≡ counts_as like.now number from }
{
    if from == number {
        None
    } else if from < number {
        Some(number_of(like, from))
    } else {
        Some(from)
    }
}
