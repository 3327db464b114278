//! The links of a kernel, which are its data and order edges, by the node that they leave.
ghost use Rattle.std.specs.Prelude.{◌≡◌, ◌<◌, ◌+◌, ◌∷◌, ◌++◌, [], IfOk, OnOk, length, replicate, slice_set};
ghost use Rattle.cg_model.specs.Kernel.{size};
ghost use Rattle.cg_model.specs.Order.{Links};
ghost use Rattle.cg_distance.specs.Leaving.{HasLinks, Seen, leaving};

use cg_model::{Items, Kernel, Operand};
use std::alloc::{AllocError, Global};

/// A link to a node, as kept at the node that it leaves.
#[derive(Clone, Copy, Drop)]
pub(crate) struct Link {
    pub to: u32,
    pub distance: u32,
}

/// Returns the links that leave each node.
pub(crate) fn links(alloc: Global, kernel: &Kernel) -> Result<Vec<Items<Link>>, AllocError>
    ensures { IfOk result (λ t. HasLinks (size kernel.now) (Links kernel.now) t.items) }
{
    let size = kernel.nodes().len();
    let mut lists = no_links(alloc, size)?;
    for to in 0..size {
        add_operands(kernel, to, &mut lists)?;
    }
    add_order(kernel, &mut lists)?;
    Ok(lists)
}

/// Returns `count` lists without a link.
fn no_links(alloc: Global, count: usize) -> Result<Vec<Items<Link>>, AllocError>
    ensures { IfOk result (λ t. t.items ≡ replicate count []) }
{
    let mut lists = Vec::new(alloc);
    for _ in 0..count {
        lists.push(Items::new(Vec::new(alloc)))?;
    }
    Ok(lists)
}

/// Adds `link` to those that leave node `from`.
fn add_link(lists: &mut [Items<Link>], from: usize, link: Link) -> Result<(), AllocError>
    requires { from < length lists.old }
    ensures { OnOk result (lists.new ≡ slice_set lists.old from (leaving lists.old from ++ link ∷ [])) }
{
    lists[from].push(link)?;
    Ok(())
}

/// Adds the data edges into node `to`.
fn add_operands(kernel: &Kernel, to: usize, lists: &mut [Items<Link>]) -> Result<(), AllocError>
    requires to { to < size kernel.now }
    requires lists { HasLinks (size kernel.now) (Seen kernel.now to 0 0) lists.old }
    ensures { OnOk result (HasLinks (size kernel.now) (Seen kernel.now (to + 1) 0 0) lists.new) }
{
    let node = &kernel.nodes()[to];
    let operands = node.operands.as_slice();
    for place in 0..operands.len() {
        match &operands[place] {
            Operand::Const(_) => {}
            Operand::Edge { from, distance, .. } => {
                let link = Link {
                    to: to as u32,
                    distance: *distance,
                };
                add_link(lists, *from as usize, link)?;
            }
        }
    }
    Ok(())
}

/// Adds the order edges.
fn add_order(kernel: &Kernel, lists: &mut [Items<Link>]) -> Result<(), AllocError>
    requires { HasLinks (size kernel.now) (Seen kernel.now (size kernel.now) 0 0) lists.old }
    ensures { OnOk result (HasLinks (size kernel.now) (Links kernel.now) lists.new) }
{
    let order = kernel.order();
    for number in 0..order.len() {
        let edge = order[number];
        let link = Link {
            to: edge.to,
            distance: edge.distance,
        };
        add_link(lists, edge.from as usize, link)?;
    }
    Ok(())
}
