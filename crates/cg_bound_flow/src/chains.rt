//! The links that begin and end at each place.
ghost use Rattle.std.specs.Prelude.{◌≡◌, ℕ, ◌+◌, ◌<◌, ◌≤◌, IfOk, OnOk, length, slice_index};
ghost use Rattle.cg_bound_flow.specs.Network.{IsGraph};
ghost use Rattle.cg_bound_flow.specs.Chains.{IsLinked, IsChain, IsIncidence};

use crate::network::Link;
use std::alloc::{AllocError, Global};

/// The links of each place, from the last to the first, as a linked list.
#[derive(Drop)]
pub(crate) struct Chain {
    /// For each place, 1 plus the number of its last link; 0 if it has none.
    pub last: Vec<usize>,
    /// For each link, 1 plus the number of the previous link of the same place; 0 if it is the first.
    pub earlier: Vec<usize>,
}

/// The links that begin and end at each place.
#[derive(Drop)]
pub(crate) struct Incidence {
    pub begins: Chain,
    pub ends: Chain,
}

/// The network of a kernel with `n` nodes.
#[derive(Clone, Copy)]
pub(crate) struct Network<'a> {
    pub links: &'a [Link],
    /// The links of each place.
    pub incidence: &'a Incidence,
    pub n: usize,
}

/// Adds the next link to those of place `x`.
fn add(chain: &mut Chain, x: usize) -> Result<(), AllocError>
    requires linked { IsLinked (length chain.old.last.items) (length chain.old.earlier.items) chain.old }
    requires place { x < length chain.old.last.items }
    ensures { OnOk result ((ends : ℕ → ℕ) → (n m : ℕ) → IsChain ends n m chain.old → ends m ≡ x → IsChain ends n (m + 1) chain.new) }
{
    let before = chain.last[x];
    chain.earlier.push(before)?;
    chain.last[x] = chain.earlier.len();
    Ok(())
}

/// Returns the links of each of `n` places, by beginnings and by ends.
pub(crate) fn incidence_of(alloc: Global, links: &[Link], n: usize) -> Result<Incidence, AllocError>
    requires { IsGraph n links.now }
    ensures { IfOk result (IsIncidence links.now n) }
{
    let mut begins = Chain {
        last: vec![in alloc; 0usize; n]?,
        earlier: Vec::new(alloc),
    };
    let mut ends = Chain {
        last: vec![in alloc; 0usize; n]?,
        earlier: Vec::new(alloc),
    };
    for k in 0..links.len() {
        add(&mut begins, links[k].from)?;
        add(&mut ends, links[k].to)?;
    }
    Ok(Incidence { begins, ends })
}
