//! Edges through nodes that have the words of one of their operands.
ghost use Rattle.std.specs.Prelude.{◌≡◌, ◌<◌, ◌++◌, List, ℕ, IfOk, IfSome, Some, true, false, length, slice_get, slice_index};
ghost use Rattle.cg_word.specs.declared.op.Op.TheVariants.{Const};
ghost use Rattle.cg_model.specs.declared.kernel.Operand.TheVariants.{Const as Constant};
ghost use Rattle.cg_model.specs.declared.kernel.Node.{Node as NodeValue};
ghost use Rattle.cg_simplify.specs.Operands.{BecomesWord, IsThrough, IsValueOf, StandsFor};

use cg_model::{MOST_DISTANCE, Node, Operand, Words};
use cg_simplify_draft::Draft;
use cg_simplify_facts::{computes, facts_of, operand_of};
use cg_word::Op;
use std::alloc::{AllocError, Global};

/// Returns the operand of node `number` of `draft` whose words the node has, if it is known to have one: that of a
/// `const`, or an edge among the operands of another node. With `copies` that of a `const` is a constant. It is never an
/// edge from the node itself. `tops` has words that the values of the nodes don't exceed.
pub(crate) fn stands_for<'a>(
    draft: &'a Draft,
    tops: &[u32],
    number: u32,
    copies: bool,
) -> Option<&'a Operand>
    ensures { IfSome result (λ x. StandsFor tops.now draft.now number x.now) }
{
    let nodes = draft.nodes();
    let node = nodes.get(number as usize)?;
    let operand = valued_as(nodes, tops, node)?;
    let is_const = node.op == Op::Const;
    match operand {
        Operand::Const(_) => if is_const { Some(operand) } else { None },
        Operand::Edge { from, .. } => if *from == number || (is_const && copies) {
            None
        } else {
            Some(operand)
        },
    }
}

/// Returns the operand of `node` that is its value, if one is known to be: that of a `const`, or one by an identity.
/// `nodes` are the nodes of the kernel, and `tops` has words that their values don't exceed.
fn valued_as<'a>(nodes: &[Node], tops: &[u32], node: &'a Node) -> Option<&'a Operand>
    ensures { IfSome result (λ x. IsValueOf nodes.now tops.now node.now x.now) }
{
    if node.op == Op::Const {
        copied(node)
    } else {
        identical(nodes, tops, node)
    }
}

/// Returns the operand of the `const` `node`.
fn copied(node: &Node) -> Option<&Operand>
    requires { node.now.op ≡ Const }
    ensures { (nodes : List NodeValue) (tops : List ℕ) → IfSome result (λ x. IsValueOf nodes tops node.now x.now) }
{
    operand_at(node, 0)
}

/// Returns the operand that is the value of `node` by an identity.
fn identical<'a>(nodes: &[Node], tops: &[u32], node: &'a Node) -> Option<&'a Operand>
    ensures { IfSome result (λ x. IsValueOf nodes.now tops.now node.now x.now) }
{
    if !computes(node.op) {
        return None;
    }
    let place = operand_of(node.op, facts_of(nodes, tops, node.operands.as_slice()))?;
    operand_at(node, place)
}

/// Returns operand number `place` of `node`.
fn operand_at(node: &Node, place: usize) -> Option<&Operand>
    ensures { IfSome result (λ x. slice_get node.now.operands place ≡ Some x.now) }
{
    node.operands.as_slice().get(place)
}

/// Returns what `edge`, one of `operands`, becomes if its source has the words of `operand`: a constant, if all its
/// initial words are this constant and none of `operands` is one, or an edge over both, of at most 4 turns.
pub(crate) fn look_through(
    alloc: Global,
    operands: &[Operand],
    edge: &Operand,
    operand: &Operand,
) -> Result<Option<Operand>, AllocError>
    ensures { IfOk result (λ found. IfSome found (λ o. IsThrough operands.now edge.now operand.now o)) }
{
    let Operand::Edge { distance, init, .. } = edge else {
        return Ok(None);
    };
    match operand {
        Operand::Const(word) => if becomes_word(operands, init.as_slice(), *word) {
            Ok(Some(Operand::Const(*word)))
        } else {
            Ok(None)
        },
        Operand::Edge {
            from,
            distance: more,
            init: rest,
        } => {
            if MOST_DISTANCE < *distance || MOST_DISTANCE - *distance < *more {
                return Ok(None);
            }
            Ok(Some(Operand::Edge {
                from: *from,
                distance: *distance + *more,
                init: joined(alloc, init.as_slice(), rest.as_slice())?,
            }))
        }
    }
}

/// Returns whether all words of `init` are `word`, and none of `operands` is a constant.
fn becomes_word(operands: &[Operand], init: &[u32], word: u32) -> bool
    ensures { result ≡ true → BecomesWord operands.now init.now word }
{
    are_all(init, word) && !has_constant(operands)
}

/// Returns `words` and then `rest`.
fn joined(alloc: Global, words: &[u32], rest: &[u32]) -> Result<Words, AllocError>
    ensures { IfOk result (λ all. all ≡ words.now ++ rest.now) }
{
    let mut all = Vec::from_slice(alloc, words)?;
    all.extend_from_slice(rest)?;
    Ok(Words::new(all))
}

/// Returns whether one of `operands` is a constant.
fn has_constant(operands: &[Operand]) -> bool
    ensures { result ≡ false → (p c : ℕ) → slice_get operands.now p ≡ Some (Constant c) → ⊥ }
{
    for operand in operands {
        if let Operand::Const(_) = operand {
            return true;
        }
    }
    false
}

/// Returns whether all of `words` are `word`.
pub(crate) fn are_all(words: &[u32], word: u32) -> bool
    ensures { result ≡ true → (j : ℕ) → j < length words.now → slice_index words.now j ≡ word }
{
    for each in words {
        if *each != word {
            return false;
        }
    }
    true
}
