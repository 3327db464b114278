//! The ring that a path closes.
ghost use Rattle.std.specs.Prelude.{◌≡◌, ◌≢◌, ℕ, ◌<◌, ◌≤◌, IfOk, ◌++◌, Contains, drop, length, reverse, slice_index, slice_range};
ghost use Rattle.cg_levelize.specs.Ring.{IsRing};

use std::alloc::{AllocError, Global};

/// Returns the position of `number` in `path`, or the path's length where it isn't there.
fn place_of(path: &[u32], number: u32) -> usize
    ensures within { result ≤ length path.now }
    ensures before { (k : ℕ) → k < result → slice_index path.now k ≢ number }
    ensures found { result < length path.now → slice_index path.now result ≡ number }
{
    for place in 0..path.len() {
        if path[place] == number {
            return place;
        }
    }
    path.len()
}

/// Returns the position of the least number of `path` from position `from` on.
fn least_place(path: &[u32], from: usize) -> usize
    requires { from < length path.now }
    ensures after { from ≤ result }
    ensures within { result < length path.now }
    ensures least { (k : ℕ) → from ≤ k → k < length path.now → slice_index path.now result ≤ slice_index path.now k }
{
    let mut least = from;
    for place in from..path.len() {
        if path[place] < path[least] {
            least = place;
        }
    }
    least
}

/// Returns the numbers of `path` before position `end` back to position `from`, and then those from its end back to
/// position `end`.
fn turned(alloc: Global, path: &[u32], from: usize, end: usize) -> Result<Vec<u32>, AllocError>
    requires order { from ≤ end }
    requires within { end ≤ length path.now }
    ensures { IfOk result (λ ring. ring.items ≡ reverse (slice_range path.now from end) ++ reverse (drop end path.now)) }
{
    let front = path[from..end].iter().rev();
    let back = path[end..].iter().rev();
    front.chain(back).copied().collect(alloc)
}

/// Returns the ring that `path` closes, from `number` in it to its end, where `number` drives the last resource of the
/// path.
pub(crate) fn ring_of(alloc: Global, path: &[u32], number: u32) -> Result<Vec<u32>, AllocError>
    requires { Contains path.now number }
    ensures { IfOk result (λ ring. IsRing path.now number ring.items) }
{
    let from = place_of(path, number);
    turned(alloc, path, from, least_place(path, from) + 1)
}
