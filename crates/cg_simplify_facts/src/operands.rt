//! What is known of operands.
ghost use Rattle.std.specs.Prelude.{◌≡◌, ◌≤◌, ◌<◌, ℕ, IfSome, Some, true, length, map, slice_get, slice_index, slice_index_or};
ghost use Rattle.cg_model.specs.declared.kernel.Operand.{Operand as OperandValue};
ghost use Rattle.cg_model.specs.declared.kernel.Operand.TheVariants.{Const as Constant};
ghost use Rattle.cg_simplify_facts.specs.Facts.{Fits};
ghost use Rattle.cg_simplify_facts.specs.Suits.{AreFactsOf, AreOfWords, IsConstOf, IsFactOf, IsOfWords, Suits, word_of};

use crate::facts::{Fact, Facts};
use cg_model::{Node, Operand};
use cg_word::Op;

/// Returns what is known of the operands `operands` of a node, where `nodes` are the nodes of the kernel and `tops` has
/// words that their values don't exceed; of a node past the end of `tops` no such word is known.
pub fn facts_of(nodes: &[Node], tops: &[u32], operands: &[Operand]) -> Facts
    ensures { AreOfWords operands.now → AreFactsOf nodes.now tops.now operands.now result }
{
    let first = fact_at(nodes, tops, operands, 0);
    let second = fact_at(nodes, tops, operands, 1);
    let third = fact_at(nodes, tops, operands, 2);
    Facts {
        first,
        second,
        third,
        first_two_equal: are_equal_at(operands, 0, 1),
        last_two_equal: are_alike(operands, second, third),
    }
}

/// Returns what is known of operand number `place` of `operands`.
fn fact_at(nodes: &[Node], tops: &[u32], operands: &[Operand], place: usize) -> Fact
    ensures { AreOfWords operands.now → (V : ℕ → ℕ → ℕ) (i : ℕ) → Suits nodes.now tops.now V → Fits result (word_of V i operands.now place) }
{
    match operands.get(place) {
        Some(operand) => fact_of(nodes, tops, operand),
        None => Fact {
            word: Some(0),
            top: 0,
        },
    }
}

/// Returns what is known of `operand`, where `nodes` are the nodes of the kernel and `tops` has words that their values
/// don't exceed.
pub fn fact_of(nodes: &[Node], tops: &[u32], operand: &Operand) -> Fact
    ensures { IsOfWords operand.now → IsFactOf nodes.now tops.now operand.now result }
{
    match operand {
        Operand::Const(word) => Fact {
            word: Some(*word),
            top: *word,
        },
        Operand::Edge { from, init, .. } => {
            let init = init.as_slice();
            Fact {
                word: known_word(nodes, *from, init),
                top: greatest(init, top_at(tops, *from)),
            }
        }
    }
}

/// Returns the constant of node `from` of `nodes`, if it is a constant's `const` and all of `init` are the constant.
fn known_word(nodes: &[Node], from: u32, init: &[u32]) -> Option<u32>
    ensures { IfSome result (λ k. IsConstOf nodes.now from k × ((j : ℕ) → j < length init.now → slice_index init.now j ≡ k)) }
{
    let word = constant_of(nodes, from)?;
    if are_all(init, word) {
        Some(word)
    } else {
        None
    }
}

/// Returns the constant of node `number` of `nodes`, if it is a constant's `const`.
fn constant_of(nodes: &[Node], number: u32) -> Option<u32>
    ensures { IfSome result (λ k. IsConstOf nodes.now number k) }
{
    let node = nodes.get(number as usize)?;
    if node.op != Op::Const {
        return None;
    }
    constant_in(node.operands.as_slice().first()?)
}

/// Returns the word of `operand`, if it is a constant.
fn constant_in(operand: &Operand) -> Option<u32>
    ensures { IfSome result (λ k. operand.now ≡ Constant k) }
{
    match operand {
        Operand::Const(word) => Some(*word),
        Operand::Edge { .. } => None,
    }
}

/// Returns whether all of `words` are `word`.
fn are_all(words: &[u32], word: u32) -> bool
    ensures { result ≡ true → (j : ℕ) → j < length words.now → slice_index words.now j ≡ word }
{
    for each in words {
        if *each != word {
            return false;
        }
    }
    true
}

/// Returns the greatest of `words` and `least`.
fn greatest(words: &[u32], least: u32) -> u32
    ensures least { least ≤ result }
    ensures all { (j : ℕ) → j < length words.now → slice_index words.now j ≤ result }
{
    let mut most = least;
    for each in words {
        if most < *each {
            most = *each;
        }
    }
    most
}

/// Returns the word that the value of node `number` doesn't exceed, by `tops`.
fn top_at(tops: &[u32], number: u32) -> u32
    ensures { result ≡ slice_index_or tops.now number 4294967295 }
{
    tops.get(number as usize).copied().unwrap_or(u32::MAX)
}

/// Returns whether the operands number `first` and `second` of `operands` are there and equal.
fn are_equal_at(operands: &[Operand], first: usize, second: usize) -> bool
    ensures { result ≡ true → (f : OperandValue → ℕ) → slice_index (map f operands.now) first ≡ slice_index (map f operands.now) second }
{
    match (operands.get(first), operands.get(second)) {
        (Some(one), Some(other)) => are_equal(one, other),
        _ => false,
    }
}

/// Returns whether `one` and `other` are equal in all their parts.
fn are_equal(one: &Operand, other: &Operand) -> bool
    ensures { result ≡ true → one.now ≡ other.now }
{
    match (one, other) {
        (Operand::Const(a), Operand::Const(b)) => *a == *b,
        (
            Operand::Edge {
                from: a,
                distance: d,
                init: i,
            },
            Operand::Edge {
                from: b,
                distance: e,
                init: j,
            },
        ) => *a == *b && *d == *e && i.as_slice() == j.as_slice(),
        _ => false,
    }
}

/// Returns whether the second and the third of `operands`, of which `second` and `third` are known, are equal or one
/// known word.
fn are_alike(operands: &[Operand], second: Fact, third: Fact) -> bool
    ensures { result ≡ true → (f : OperandValue → ℕ) → Fits second (slice_index (map f operands.now) 1) → Fits third (slice_index (map f operands.now) 2) →
        slice_index (map f operands.now) 1 ≡ slice_index (map f operands.now) 2 }
{
    are_equal_at(operands, 1, 2) || are_one_word(second, third)
}

/// Returns whether words with the facts `one` and `other` are one known word.
fn are_one_word(one: Fact, other: Fact) -> bool
    ensures { result ≡ true → (x y : ℕ) → Fits one x → Fits other y → x ≡ y }
{
    match one.word {
        Some(word) => other.word == Some(word),
        None => false,
    }
}
