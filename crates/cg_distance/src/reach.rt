//! The totals that a search has found so far, and the nodes that wait to be continued from.
ghost use Rattle.std.specs.Prelude.{◌≡◌, ◌<◌, IfOk, OnOk, None, length, replicate};
ghost use Rattle.std.specs.BinaryHeap.{heap_items};
ghost use Rattle.cg_distance.specs.Found.{nearer, Takes, OnlyAt};

use std::alloc::{AllocError, Global};
use std::cmp::Reverse;
use std::collections::BinaryHeap;

/// A node that a chain of that total distance reaches. Values are compared by their totals.
#[derive(Clone, Copy, Drop)]
#[derive_where(PartialEq, Eq, PartialOrd, Ord)]
pub(crate) struct Reached {
    pub total: u32,
    #[derive_where(skip)]
    pub node: u32,
}

/// Returns a list of `count` nodes without a total.
pub(crate) fn no_totals(alloc: Global, count: usize) -> Result<Vec<Option<u32>>, AllocError>
    ensures { IfOk result (λ t. t.items ≡ replicate count None) }
{
    let mut totals = Vec::new(alloc);
    for _ in 0..count {
        totals.push(None)?;
    }
    Ok(totals)
}

/// Returns whether `total` is less than the known total, or none is known.
fn is_nearer(total: u32, known: Option<u32>) -> bool
    ensures { result ≡ nearer total known }
{
    match known {
        Some(known) => total < known,
        None => true,
    }
}

/// Records a total for a node if it is less than the known one, and queues the node.
pub(crate) fn reach(
    reached: Reached,
    totals: &mut [Option<u32>],
    queue: &mut BinaryHeap<Reverse<Reached>>,
) -> Result<(), AllocError>
    requires { reached.node < length totals.old }
    ensures { OnOk result (Takes (OnlyAt reached.node reached.total) totals.old (heap_items queue.old) totals.new (heap_items queue.new)) }
{
    if is_nearer(reached.total, totals[reached.node as usize]) {
        queue.push(Reverse(reached))?;
        totals[reached.node as usize] = Some(reached.total);
    }
    Ok(())
}
