//! The search from a node: the least total distances of the chains that leave the node.
ghost use Rattle.std.specs.Prelude.{◌<◌, IfOk, OnOk, All, length};
ghost use Rattle.std.specs.BinaryHeap.{heap_items};
ghost use Rattle.cg_model.specs.Kernel.{size};
ghost use Rattle.cg_model.specs.Order.{Links};
ghost use Rattle.cg_distance.specs.Leaving.{HasLinks};
ghost use Rattle.cg_distance.specs.Found.{Takes, Beyond, Due};
ghost use Rattle.cg_distance.specs.Table.{IsRow, IsTable};

use crate::links::{Link, links};
use crate::reach::{Reached, no_totals, reach};
use cg_model::{Items, Kernel};
use std::alloc::{AllocError, Global};
use std::cmp::Reverse;
use std::collections::BinaryHeap;

/// Follows the links that leave a node, which was reached at that total.
fn leave(
    links: &[Link],
    total: u32,
    totals: &mut [Option<u32>],
    queue: &mut BinaryHeap<Reverse<Reached>>,
) -> Result<(), AllocError>
    requires { All (λ k. k.to < length totals.old) links.now }
    ensures { OnOk result (Takes (Beyond links.now total) totals.old (heap_items queue.old) totals.new (heap_items queue.new)) }
{
    for place in 0..links.len() {
        let link = links[place];
        if let Some(sum) = total.checked_add(link.distance) {
            let reached = Reached {
                total: sum,
                node: link.to,
            };
            reach(reached, totals, queue)?;
        }
    }
    Ok(())
}

/// Continues from a node that waited, unless a smaller total was found for it since.
fn go_on(
    links: &[Link],
    reached: Reached,
    totals: &mut [Option<u32>],
    queue: &mut BinaryHeap<Reverse<Reached>>,
) -> Result<(), AllocError>
    requires node { reached.node < length totals.old }
    requires ends { All (λ k. k.to < length totals.old) links.now }
    ensures { OnOk result (Takes (Due totals.old links.now reached) totals.old (heap_items queue.old) totals.new (heap_items queue.new)) }
{
    if totals[reached.node as usize] == Some(reached.total) {
        leave(links, reached.total, totals, queue)?;
    }
    Ok(())
}

/// Returns the least total distances of the chains that leave a node.
fn totals_from(
    alloc: Global,
    kernel: &Kernel,
    lists: &[Items<Link>],
    source: usize,
) -> Result<Items<Option<u32>>, AllocError>
    requires source { source < size kernel.now }
    requires links { HasLinks (size kernel.now) (Links kernel.now) lists.now }
    ensures { IfOk result (λ row. IsRow kernel.now source row) }
{
    let mut totals = no_totals(alloc, kernel.nodes().len())?;
    let mut queue = BinaryHeap::new(alloc);
    leave(lists[source].as_slice(), 0, &mut totals, &mut queue)?;
    while let Some(Reverse(reached)) = queue.pop() {
        let links = lists[reached.node as usize].as_slice();
        go_on(links, reached, &mut totals, &mut queue)?;
    }
    Ok(Items::new(totals))
}

/// Returns the least total distances of the chains that leave each node.
pub(crate) fn all_totals(
    alloc: Global,
    kernel: &Kernel,
) -> Result<Vec<Items<Option<u32>>>, AllocError>
    ensures { IfOk result (λ t. IsTable kernel.now t.items) }
{
    let size = kernel.nodes().len();
    let lists = links(alloc, kernel)?;
    let mut rows = Vec::new(alloc);
    for source in 0..size {
        rows.push(totals_from(alloc, kernel, &lists, source)?)?;
    }
    Ok(rows)
}
