//! The ways of values.
ghost use Rattle.std.specs.Prelude.{◌≡◌, ℕ, ◌+◌, ◌/◌, ◌<◌, ◌∷◌, [], ◌++◌, length, map, slice_index, IfOk};
ghost use Rattle.std.specs.List.{range_with_len};

use std::alloc::{AllocError, Global};

/// Returns the way from `out` to `port`, with `cycles` cycles between them in registers of `hub`, beginning at place
/// `first`, with `ii` cycles in each register.
pub(crate) fn way(
    alloc: Global,
    hub: &[u32],
    first: usize,
    ii: usize,
    cycles: usize,
    out: u32,
    port: u32,
) -> Result<Vec<u32>, AllocError>
    requires some { 0 < ii }
    requires within { (k : ℕ) → k < cycles → first + k / ii < length hub.now }
    ensures { IfOk result (λ v. v.items ≡ out ∷ map (λ k. slice_index hub.now (first + k / ii)) (range_with_len 0 cycles) ++ port ∷ []) }
{
    let mut path = Vec::new(alloc);
    path.push(out)?;
    for k in 0..cycles {
        path.push(hub[first + k / ii])?;
    }
    path.push(port)?;
    Ok(path)
}
