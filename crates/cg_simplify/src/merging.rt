//! Nodes that are merged into earlier ones with the same values.
ghost use Rattle.std.specs.Prelude.{◌≡◌, ◌<◌, ◌^◌, IfOk, IfSome, IsTrue, [], false, length, map};
ghost use Rattle.cg_model.specs.Kernel.{IsKernel, size};
ghost use Rattle.cg_simplify_draft.specs.Rewritten.{IsRewritten};
ghost use Rattle.cg_simplify.specs.Joining.{HasText, MayTake};
ghost use Rattle.cg_simplify.specs.Live.{moved, moved_node};
ghost use Rattle.cg_simplify.specs.Merging.{AreLike, AreTargets, IsLike, target};

use crate::copy::copy_moved;
use crate::joining::Joins;
use crate::live::{are_fed, is_marked};
use crate::number::number_of;
use crate::operands_exchanged;
use crate::pairing::paired_nodes;
use crate::text::has_same_text;
use cg_model::{Kernel, Node, Operand};
use cg_simplify_draft::Passed;
use cg_simplify_order::GivenKernel;
use cg_word::Op;
use std::alloc::{AllocError, Global};

/// Returns `kernel`, which `given` was rewritten into, with edges from the first of the nodes that are like one another:
/// that have the same base and stride, or the same operation, port and operands and no store between them that matters.
/// Edges from index nodes stay, but with `share`.
pub fn merge(
    alloc: Global,
    given: &GivenKernel,
    kernel: &Kernel,
    share: bool,
) -> Result<Passed, AllocError>
    requires { IsRewritten given.now kernel.now }
    ensures rewritten { IfOk result (λ p. IsRewritten kernel.now p.kernel) }
    ensures size { IfOk result (λ p. size p.kernel ≡ size kernel.now) }
    ensures unordered { IfOk result (λ p. p.kernel.order ≡ []) }
    ensures unchanged { IfOk result (λ p. p.changed ≡ false → p.kernel.nodes ≡ kernel.now.nodes) }
{
    operands_exchanged();
    let into = targets(alloc, given, kernel, share)?;
    let changed = moves_any(kernel.nodes(), &into);
    let nodes = copy_moved(alloc, kernel.nodes(), &into)?;
    Ok(Passed {
        kernel: Kernel::new(nodes, Vec::new(alloc)),
        changed,
    })
}

/// Returns for each node of `kernel`, which `given` was rewritten into, the node that edges from it are moved to.
fn targets(
    alloc: Global,
    given: &GivenKernel,
    kernel: &Kernel,
    share: bool,
) -> Result<Vec<u32>, AllocError>
    requires { IsRewritten given.now kernel.now }
    ensures { IfOk result (λ into. (length into.items ≡ size kernel.now) × AreLike kernel.now into.items) }
{
    let index = index_nodes(alloc, kernel.nodes(), share)?;
    let like = likes(alloc, given, kernel, &index)?;
    let into = moved_twice(alloc, &like, &index)?;
    Ok(into)
}

/// Returns for each node where edges from it are moved to in two steps, as it may be like a node that is like another.
fn moved_twice(alloc: Global, like: &[u32], index: &[bool]) -> Result<Vec<u32>, AllocError>
    requires { length like.now < 2 ^ 32 }
    ensures { IfOk result (λ into. AreTargets like.now index.now into.items) }
{
    let mut into = Vec::new(alloc);
    for number in 0..like.len() {
        let first = target(like, index, number as u32);
        into.push(target(like, index, first))?;
    }
    Ok(into)
}

/// Returns where edges from node `number` are moved to: to the node that it is like, unless it is an index node.
fn target(like: &[u32], index: &[bool], number: u32) -> u32
    ensures { result ≡ target like.now index.now number }
{
    if is_marked(index, number as usize) {
        number
    } else {
        number_of(like, number)
    }
}

/// Returns for each node of `kernel`, which `given` was rewritten into, an earlier node that it is like, or itself. Where
/// these are index nodes, `index` marks them.
fn likes(
    alloc: Global,
    given: &GivenKernel,
    kernel: &Kernel,
    index: &[bool],
) -> Result<Vec<u32>, AllocError>
    requires { IsRewritten given.now kernel.now }
    ensures { IfOk result (λ like. (length like.items ≡ size kernel.now) × AreLike kernel.now like.items) }
{
    let paired = paired_nodes(alloc, kernel)?;
    let joins = Joins::of(alloc, given, kernel)?;
    let like = like_nodes(alloc, &joins, &paired, index)?;
    Ok(like)
}

/// Returns for each node the node of `paired`, if this is an earlier one; else the earlier node that is kept for its
/// text, or itself.
fn like_nodes(
    alloc: Global,
    joins: &Joins,
    paired: &[u32],
    index: &[bool],
) -> Result<Vec<u32>, AllocError>
    requires long { length paired.now ≡ size joins.now }
    requires paired { AreLike joins.now paired.now }
    ensures { IfOk result (λ like. (length like.items ≡ size joins.now) × AreLike joins.now like.items) }
{
    let mut like = Vec::new(alloc);
    let mut counted = Vec::new(alloc);
    for number in 0..joins.nodes().len() {
        like.push(first_like(joins, paired[number], &like, &counted, number))?;
        counted.push(number_of(&like, target(&like, index, number as u32)))?;
    }
    Ok(like)
}

/// Returns the node that node `number` is like: `paired`, unless this is the node itself; else an earlier one of its
/// text, where `like` has those of the earlier nodes, which count as the nodes of `counted`.
fn first_like(joins: &Joins, paired: u32, like: &[u32], counted: &[u32], number: usize) -> u32
    requires valid { IsKernel joins.now }
    requires inside { number < size joins.now }
    requires paired { IsLike joins.now number paired }
    requires earlier { length like.now ≡ number }
    requires counted_earlier { length counted.now ≡ number }
    requires counted { AreLike joins.now counted.now }
    ensures { IsLike joins.now number result }
{
    if (paired as usize) < number {
        paired
    } else {
        first_of_text(joins, like, counted, number)
    }
}

/// Returns the node that is kept for the text of node `number`: an earlier one, or the node itself. `like` has the nodes
/// that the earlier nodes are like, and `counted` what they count as.
fn first_of_text(joins: &Joins, like: &[u32], counted: &[u32], number: usize) -> u32
    requires valid { IsKernel joins.now }
    requires inside { number < size joins.now }
    requires earlier { length like.now ≡ number }
    requires counted_earlier { length counted.now ≡ number }
    requires counted { AreLike joins.now counted.now }
    ensures { IsLike joins.now number result }
{
    let itself = number as u32;
    match last_of_text(joins, like, counted, number) {
        Some(m) => {
            if may_take(joins, m, itself) {
                m
            } else {
                itself
            }
        }
        None => itself,
    }
}

/// Returns whether node `n` may be like node `m`, an earlier one of its text: it has a value, and if it loads, it may
/// join `m`.
fn may_take(joins: &Joins, m: u32, n: u32) -> bool
    requires earlier { m < n }
    requires inside { n < size joins.now }
    ensures { IsTrue result → MayTake joins.now m n }
{
    let op = joins.nodes()[n as usize].op;
    op.has_value() && (!op.is_access() || joins.may_join(m, n))
}

/// Returns the last node that is kept for the text of node `number`, among the nodes before it.
fn last_of_text(joins: &Joins, like: &[u32], counted: &[u32], number: usize) -> Option<u32>
    requires valid { IsKernel joins.now }
    requires inside { number < size joins.now }
    requires earlier { length like.now ≡ number }
    ensures { IfSome result (HasText joins.now counted.now number) }
{
    let mut last = None;
    for m in 0..number {
        if is_kept(joins, like, counted, m, number) {
            last = Some(m as u32);
        }
    }
    last
}

/// Returns whether the earlier node `m` is like none before it, and has the text of node `number`.
fn is_kept(joins: &Joins, like: &[u32], counted: &[u32], m: usize, number: usize) -> bool
    requires earlier { m < number }
    requires inside { number < size joins.now }
    requires like { length like.now ≡ number }
    ensures { IsTrue result → HasText joins.now counted.now number m }
{
    let nodes = joins.nodes();
    if like[m] as usize != m {
        return false;
    }
    has_same_text(counted, m as u32, &nodes[m], number as u32, &nodes[number])
}

/// Marks the index nodes of `nodes`: `iter`, and operations on words with edges, all from index nodes before them. With
/// `share` there are none.
fn index_nodes(alloc: Global, nodes: &[Node], share: bool) -> Result<Vec<bool>, AllocError> {
    let mut marks = Vec::new(alloc);
    for node in nodes {
        marks.push(!share && is_index(node, &marks))?;
    }
    Ok(marks)
}

/// Returns whether `node` is an index node, where `marks` has the index nodes before it.
fn is_index(node: &Node, marks: &[bool]) -> bool {
    let operands = node.operands.as_slice();
    node.op == Op::Iter || is_on_words(node.op) && has_edge(operands) && are_fed(marks, operands)
}

/// Returns whether `op` has a value by the words of its operands alone, of which it has some.
fn is_on_words(op: Op) -> bool {
    op.has_value() && !op.is_access() && op != Op::Iter && op != Op::Input
}

/// Returns whether one of `operands` is an edge.
fn has_edge(operands: &[Operand]) -> bool {
    for operand in operands {
        if let Operand::Edge { .. } = operand {
            return true;
        }
    }
    false
}

/// Returns whether `into` has another node for a source of the operands of `nodes`.
fn moves_any(nodes: &[Node], into: &[u32]) -> bool
    ensures { result ≡ false → map (moved_node into.now) nodes.now ≡ nodes.now }
{
    for node in nodes {
        if moves_one(node.operands.as_slice(), into) {
            return true;
        }
    }
    false
}

/// Returns whether `into` has another node for a source of `operands`.
fn moves_one(operands: &[Operand], into: &[u32]) -> bool
    ensures { result ≡ false → map (moved into.now) operands.now ≡ operands.now }
{
    for operand in operands {
        if is_moved(operand, into) {
            return true;
        }
    }
    false
}

/// Returns whether `into` has another node for the source of `operand`.
fn is_moved(operand: &Operand, into: &[u32]) -> bool
    ensures { result ≡ false → moved into.now operand.now ≡ operand.now }
{
    match operand {
        Operand::Const(_) => false,
        Operand::Edge { from, .. } => number_of(into, *from) != *from,
    }
}
