//! The one word that a node has in every turn.
ghost use Rattle.std.specs.Prelude.{◌≡◌, ◌<◌, List, ℕ, IfSome, length, slice_index, slice_index_or};
ghost use Rattle.cg_model.specs.declared.kernel.Node.{Node as NodeValue};
ghost use Rattle.cg_simplify.specs.Restating.{HasWord, IsOwnWord};

use crate::through::are_all;
use cg_model::{Node, Operand};
use cg_simplify_facts::{computes, constant_of, facts_of};
use cg_word::Op;

/// Returns the word that `node`, number `number` of `nodes`, has in every turn, if one is known.
pub(crate) fn word_of(nodes: &[Node], tops: &[u32], node: &Node, number: usize) -> Option<u32>
    ensures { IfSome result (HasWord nodes.now tops.now number node.now) }
{
    match computed_word(nodes, tops, node, number) {
        Some(word) => Some(word),
        None => initial_word(node, number),
    }
}

/// Returns the value of `node`, number `number` of `nodes`, if it computes and is known to be one word: 0 if it never
/// exceeds 0, or by what is known of its operands.
fn computed_word(nodes: &[Node], tops: &[u32], node: &Node, number: usize) -> Option<u32>
    ensures { IfSome result (HasWord nodes.now tops.now number node.now) }
{
    if !computes(node.op) {
        return None;
    }
    if top_at(tops, number) == 0 {
        return Some(0);
    }
    constant_of(node.op, facts_of(nodes, tops, node.operands.as_slice()))
}

/// Returns the word of `tops` that the value of node `number` never exceeds: past the end of `tops` the greatest word.
fn top_at(tops: &[u32], number: usize) -> u32
    ensures { result ≡ slice_index_or tops.now number 4294967295 }
{
    tops.get(number).copied().unwrap_or(u32::MAX)
}

/// Returns the initial word of `node`, number `number`, if it is a `const` of itself with one initial word, once or more.
fn initial_word(node: &Node, number: usize) -> Option<u32>
    ensures { (nodes : List NodeValue) (tops : List ℕ) → IfSome result (HasWord nodes tops number node.now) }
{
    own_word(node, number)
}

/// Returns the initial word of `node`, number `number`, if it is a `const` of itself with one initial word, once or more.
fn own_word(node: &Node, number: usize) -> Option<u32>
    ensures { IfSome result (IsOwnWord number node.now) }
{
    if node.op != Op::Const {
        return None;
    }
    match node.operands.as_slice().first()? {
        Operand::Edge { from, init, .. } => if *from as usize == number {
            one_word(init.as_slice())
        } else {
            None
        },
        Operand::Const(_) => None,
    }
}

/// Returns the word that all of `words` are, if there is one.
fn one_word(words: &[u32]) -> Option<u32>
    ensures { IfSome result (λ k. (0 < length words.now) × ((j : ℕ) → j < length words.now → slice_index words.now j ≡ k)) }
{
    let word = *words.first()?;
    if are_all(words, word) {
        Some(word)
    } else {
        None
    }
}
