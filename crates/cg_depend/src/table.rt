//! Nodes whose value in every turn is a base plus a stride times the turn.
ghost use Rattle.std.specs.Prelude.{◌≡◌, IfOk, None, Some, slice_get, slice_index, slice_index_or};
ghost use Rattle.cg_model.specs.Kernel.{IsWired, size};
ghost use Rattle.cg_depend.specs.Affine as spec;

use cg_model::{Kernel, Node, Operand};
use cg_word::{Op, apply};
use std::alloc::{AllocError, Global};
use std::marker::Model;

/// A base and a stride. The value of a node in turn `i` is `base + stride * i`, modulo 2^32.
#[derive(Clone, Copy, Debug, PartialEq, Eq, Drop)]
pub struct AffinePair {
    /// The value in turn 0.
    pub base: u32,
    /// The increment from turn to turn; above 2^31 it is a decrease.
    pub stride: u32,
}

/// The pairs of a kernel's nodes, which contracts see as the kernel.
#[derive(Drop)]
pub struct AffineTable<'k> {
    kernel: &'k Kernel,
    pairs: Vec<Option<AffinePair>>,
}

impl<'k> Model for AffineTable<'k> {
    ghost use Rattle.std.specs.Prelude.{◌≡◌};
    ghost use Rattle.cg_model.specs.Kernel as kernels;
    ghost use Rattle.cg_depend.specs.Affine as affines;

    ghost Value = { kernels.Kernel };

    ghost view = { λ t. t.kernel.now };

    ghost invariant = { λ t. kernels.IsWired t.kernel.now × (t.pairs.items ≡ affines.pairs t.kernel.now (kernels.size t.kernel.now)) };
}

impl<'k> AffineTable<'k> {
    ghost use Rattle.std.specs.Prelude.{◌≡◌, ◌<◌, ℕ, IfSome};
    ghost use Rattle.cg_model.specs.Kernel.{size};
    ghost use Rattle.cg_model.specs.Turns.{val};
    ghost use Rattle.cg_model.specs.Work.{Image};
    ghost use Rattle.cg_depend.specs.Affine.{address_pair, affine_of, at_turn};

    /// Returns the pair of the node of number `node`; None where its value isn't known to be affine.
    pub fn get(&self, node: u32) -> Option<AffinePair>
        requires { node < size self.now }
        ensures pair { result ≡ affine_of self.now node }
        ensures value { (image : Image) (i : ℕ) → IfSome result (λ p. val self.now image node i ≡ at_turn p i) }
    {
        pair_at(&self.pairs, node as usize)
    }

    /// Returns the pair of the address of the node of number `node`, which accesses the memory.
    pub(crate) fn address(&self, node: u32) -> Option<AffinePair>
        requires { node < size self.now }
        ensures { result ≡ address_pair self.now node }
    {
        let earlier = &self.pairs[..node as usize];
        let node = &self.kernel.nodes()[node as usize];
        arg_pair(earlier, node.operands.as_slice(), node.op.address_arg())
    }
}

/// Returns the table of the pairs of the nodes of `kernel`.
pub fn affine<'k>(alloc: Global, kernel: &'k Kernel) -> Result<AffineTable<'k>, AllocError>
    ensures { IfOk result (λ t. t ≡ kernel.now) }
{
    Ok(AffineTable {
        kernel,
        pairs: all_pairs(alloc, kernel)?,
    })
}

/// Returns the pairs of the nodes of `kernel`, in program order.
fn all_pairs(alloc: Global, kernel: &Kernel) -> Result<Vec<Option<AffinePair>>, AllocError>
    ensures pairs { IfOk result (λ list. list.items ≡ spec.pairs kernel.now (size kernel.now)) }
    ensures wired { IfOk result (λ list. IsWired kernel.now) }
{
    let nodes = kernel.nodes();
    let mut pairs = Vec::new(alloc);
    for number in 0..nodes.len() {
        let pair = pair_by(number, &pairs, &nodes[number]);
        pairs.push(pair)?;
    }
    Ok(pairs)
}

/// Returns the pair of `node`, which is number `number` and comes after the nodes of the pairs `earlier`.
fn pair_by(number: usize, earlier: &[Option<AffinePair>], node: &Node) -> Option<AffinePair>
    ensures { result ≡ spec.pair_by number earlier.now node.now.operands node.now.op }
{
    let operands = node.operands.as_slice();
    match node.op {
        Op::Iter => Some(AffinePair { base: 0, stride: 1 }),
        Op::Const => arg_pair(earlier, operands, 0),
        Op::Add => sum(number, earlier, operands),
        Op::Sub => difference(number, earlier, operands),
        Op::Mul => product(
            arg_pair(earlier, operands, 0),
            arg_pair(earlier, operands, 1),
        ),
        Op::Shl => shift(
            arg_pair(earlier, operands, 0),
            arg_pair(earlier, operands, 1),
        ),
        _ => None,
    }
}

/// Returns the pair of the sum of two operands of node `number`.
fn sum(number: usize, earlier: &[Option<AffinePair>], operands: &[Operand]) -> Option<AffinePair>
    ensures { result ≡ spec.pair_by number earlier.now operands.now Op.Add }
{
    let first = arg_pair(earlier, operands, 0);
    let second = arg_pair(earlier, operands, 1);
    let by_second = climb(itself(number, operands, 0), constant(operands, 1));
    let by_first = climb(itself(number, operands, 1), constant(operands, 0));
    line(Op::Add, first, second).or(by_second).or(by_first)
}

/// Returns the pair of the difference of two operands of node `number`.
fn difference(
    number: usize,
    earlier: &[Option<AffinePair>],
    operands: &[Operand],
) -> Option<AffinePair>
    ensures { result ≡ spec.pair_by number earlier.now operands.now Op.Sub }
{
    let first = arg_pair(earlier, operands, 0);
    let second = arg_pair(earlier, operands, 1);
    let by_second = fall(itself(number, operands, 0), constant(operands, 1));
    line(Op::Sub, first, second).or(by_second)
}

/// Returns the pair of the sum or the difference of two operands with the pairs `first` and `second`.
fn line(op: Op, first: Option<AffinePair>, second: Option<AffinePair>) -> Option<AffinePair>
    ensures { result ≡ spec.line op first second }
{
    let first = first?;
    let second = second?;
    Some(AffinePair {
        base: apply(op, first.base, second.base, 0),
        stride: apply(op, first.stride, second.stride, 0),
    })
}

/// Returns the pair of a product with one factor that is the same word in each turn.
fn product(first: Option<AffinePair>, second: Option<AffinePair>) -> Option<AffinePair>
    ensures { result ≡ spec.product first second }
{
    let first = first?;
    let second = second?;
    if second.stride == 0 {
        Some(scaled(Op::Mul, first, second.base))
    } else if first.stride == 0 {
        Some(scaled(Op::Mul, second, first.base))
    } else {
        None
    }
}

/// Returns the pair of a shift to the left by the same number of bits in each turn.
fn shift(first: Option<AffinePair>, second: Option<AffinePair>) -> Option<AffinePair>
    ensures { result ≡ spec.shift first second }
{
    let first = first?;
    let second = second?;
    if second.stride == 0 {
        Some(scaled(Op::Shl, first, second.base))
    } else {
        None
    }
}

/// Returns `pair` times `word`, or shifted by it, as `op` says.
fn scaled(op: Op, pair: AffinePair, word: u32) -> AffinePair
    ensures { result ≡ spec.scaled op pair word }
{
    AffinePair {
        base: apply(op, pair.base, word, 0),
        stride: apply(op, pair.stride, word, 0),
    }
}

/// Returns the pair of a node that begins with `word` and adds `step` to itself turn by turn.
fn climb(word: Option<u32>, step: Option<u32>) -> Option<AffinePair>
    ensures { result ≡ spec.climb word step }
{
    let word = word?;
    let step = step?;
    Some(AffinePair {
        base: apply(Op::Add, word, step, 0),
        stride: step,
    })
}

/// Returns the pair of a node that begins with `word` and takes `step` away from itself turn by turn.
fn fall(word: Option<u32>, step: Option<u32>) -> Option<AffinePair>
    ensures { result ≡ spec.fall word step }
{
    let word = word?;
    let step = step?;
    Some(AffinePair {
        base: apply(Op::Sub, word, step, 0),
        stride: apply(Op::Sub, 0, step, 0),
    })
}

/// Returns the initial word of the operand at `place` where it is node `number` itself in the turn before.
fn itself(number: usize, operands: &[Operand], place: usize) -> Option<u32>
    ensures { result ≡ spec.itself number (slice_get operands.now place) }
{
    own_word(number, operands.get(place)?)
}

/// Returns the initial word of `operand` where it is node `number` itself in the turn before.
fn own_word(number: usize, operand: &Operand) -> Option<u32>
    ensures { result ≡ spec.itself number (Some operand.now) }
{
    match operand {
        Operand::Const(_) => None,
        Operand::Edge {
            from,
            distance,
            init,
        } => if *from as usize == number && *distance == 1 {
            Some(word_at(init.as_slice(), 0))
        } else {
            None
        },
    }
}

/// Returns the word of the operand at `place` where it is a constant.
fn constant(operands: &[Operand], place: usize) -> Option<u32>
    ensures { result ≡ spec.constant (slice_get operands.now place) }
{
    constant_word(operands.get(place)?)
}

/// Returns the word of `operand` where it is a constant.
fn constant_word(operand: &Operand) -> Option<u32>
    ensures { result ≡ spec.constant (Some operand.now) }
{
    match operand {
        Operand::Const(word) => Some(*word),
        Operand::Edge { .. } => None,
    }
}

/// Returns the pair of the operand at `place`, given the pairs of the nodes that come earlier.
fn arg_pair(
    earlier: &[Option<AffinePair>],
    operands: &[Operand],
    place: usize,
) -> Option<AffinePair>
    ensures { result ≡ spec.arg_pair earlier.now operands.now place }
{
    operand_pair(earlier, operands.get(place)?)
}

/// Returns the pair of `operand`, given the pairs of the nodes that come earlier.
fn operand_pair(earlier: &[Option<AffinePair>], operand: &Operand) -> Option<AffinePair>
    ensures { result ≡ spec.operand_pair earlier.now operand.now }
{
    match operand {
        Operand::Const(word) => Some(AffinePair {
            base: *word,
            stride: 0,
        }),
        Operand::Edge {
            from,
            distance,
            init,
        } => delayed(*distance, init.as_slice(), pair_at(earlier, *from as usize)),
    }
}

/// Returns the pair of what is read `distance` turns after the source, which has the pair `source`, with the words of
/// `init` before that.
fn delayed(distance: u32, init: &[u32], source: Option<AffinePair>) -> Option<AffinePair>
    ensures { result ≡ spec.delayed distance init.now source }
{
    let pair = source?;
    if suits(pair, distance, init) {
        Some(AffinePair {
            base: ago(pair, distance),
            stride: pair.stride,
        })
    } else {
        None
    }
}

/// Returns whether the words of `init` continue `pair` backwards, over `distance` turns before turn 0.
fn suits(pair: AffinePair, distance: u32, init: &[u32]) -> bool
    ensures { result ≡ spec.suits pair distance init.now distance }
{
    for turn in 0..distance {
        if word_at(init, turn as usize) != ago(pair, distance - turn) {
            return false;
        }
    }
    true
}

/// Returns the word of `pair` at `turns` turns before turn 0.
fn ago(pair: AffinePair, turns: u32) -> u32
    ensures { result ≡ spec.ago pair turns }
{
    let back = 0u32.wrapping_sub(pair.stride);
    pair.base.wrapping_add(back.wrapping_mul(turns))
}

/// Returns the pair at `place`, None past the end.
fn pair_at(pairs: &[Option<AffinePair>], place: usize) -> Option<AffinePair>
    ensures { result ≡ slice_index_or pairs.now place None }
{
    pairs.get(place).copied().flatten()
}

/// Returns the word at `place`, 0 past the end.
fn word_at(words: &[u32], place: usize) -> u32
    ensures { result ≡ slice_index words.now place }
{
    words.get(place).copied().unwrap_or(0)
}
