//! Nodes of one base and one stride, which have the same values.
ghost use Rattle.std.specs.Prelude.{◌≡◌, ◌<◌, IfOk, IsTrue, length};
ghost use Rattle.cg_model.specs.Kernel.{size};
ghost use Rattle.cg_simplify.specs.Merging.{AreLike, HasPair, IsLike};

use cg_depend::{AffinePair, AffineTable, affine};
use cg_model::Kernel;
use std::alloc::{AllocError, Global};

/// Returns for each node of `kernel` the first node with its base and stride, or itself where these aren't known.
pub(crate) fn paired_nodes(alloc: Global, kernel: &Kernel) -> Result<Vec<u32>, AllocError>
    ensures { IfOk result (λ paired. (length paired.items ≡ size kernel.now) × AreLike kernel.now paired.items) }
{
    let table = affine(alloc, kernel)?;
    let mut paired = Vec::new(alloc);
    for number in 0..kernel.nodes().len() {
        paired.push(first_paired(&table, number as u32))?;
    }
    Ok(paired)
}

/// Returns the first node with the base and stride of node `number`, or itself where these aren't known.
fn first_paired(table: &AffineTable, number: u32) -> u32
    requires { number < size table.now }
    ensures { IsLike table.now number result }
{
    match table.get(number) {
        Some(pair) => first_with(table, pair, number),
        None => number,
    }
}

/// Returns the first node with `pair`, which node `number` has.
fn first_with(table: &AffineTable, pair: AffinePair, number: u32) -> u32
    requires inside { number < size table.now }
    requires paired { HasPair table.now number pair }
    ensures { IsLike table.now number result }
{
    for m in 0..number {
        if has_pair(table, m, pair) {
            return m;
        }
    }
    number
}

/// Returns whether node `number` has `pair`.
fn has_pair(table: &AffineTable, number: u32, pair: AffinePair) -> bool
    requires { number < size table.now }
    ensures { IsTrue result → HasPair table.now number pair }
{
    match table.get(number) {
        Some(other) => other.base == pair.base && other.stride == pair.stride,
        None => false,
    }
}
