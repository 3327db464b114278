//! The list of all edges of a kernel.
ghost use Rattle.std.specs.Prelude.{◌≡◌, ◌<◌, ◌≤◌, ◌+◌, IfOk, OnOk, length};
ghost use Rattle.cg_model.specs.Kernel.{size};
ghost use Rattle.cg_recur.specs.Edges.{edge_of, AreEdges};
ghost use Rattle.cg_recur.specs.declared.edge.EdgeId.TheVariants.{Arg, Order};
ghost use Rattle.cg_recur.specs.Listed.{AreSoFar, IsAdded};

use crate::edge::{Edge, EdgeId};
use crate::find::find_edge;
use cg_arch::Arch;
use cg_model::Kernel;
use std::alloc::{AllocError, Global};

/// The edges of a kernel by number, and the name of each.
#[derive(Drop)]
pub struct KernelEdges {
    /// The names: the data edges by node and operand, then the order edges.
    pub names: Vec<EdgeId>,
    /// The edges, one for each name.
    pub edges: Vec<Edge>,
}

/// Returns all edges of `kernel`.
pub fn edges_of(alloc: Global, arch: &Arch, kernel: &Kernel) -> Result<KernelEdges, AllocError>
    ensures { IfOk result (λ l. AreEdges arch.now kernel.now l.names.items l.edges.items) }
{
    let mut list = KernelEdges {
        names: Vec::new(alloc),
        edges: Vec::new(alloc),
    };
    for node in 0..kernel.nodes().len() {
        add_operands(&mut list, arch, kernel, node as u32)?;
    }
    add_order(&mut list, arch, kernel)?;
    Ok(list)
}

/// Adds the data edges into a node to `list`.
fn add_operands(
    list: &mut KernelEdges,
    arch: &Arch,
    kernel: &Kernel,
    node: u32,
) -> Result<(), AllocError>
    requires node { node < size kernel.now }
    requires list { AreSoFar arch.now kernel.now node 0 0 list.old.names.items list.old.edges.items }
    ensures { OnOk result (AreSoFar arch.now kernel.now (node + 1) 0 0 list.new.names.items list.new.edges.items) }
{
    let count = kernel.nodes()[node as usize].operands.as_slice().len();
    for arg in 0..count {
        let id = EdgeId::Arg {
            node,
            arg: arg as u32,
        };
        add_edge(list, arch, kernel, id)?;
    }
    Ok(())
}

/// Adds the order edges to `list`.
fn add_order(list: &mut KernelEdges, arch: &Arch, kernel: &Kernel) -> Result<(), AllocError>
    requires { AreSoFar arch.now kernel.now (size kernel.now) 0 0 list.old.names.items list.old.edges.items }
    ensures { OnOk result (AreEdges arch.now kernel.now list.new.names.items list.new.edges.items) }
{
    let order = kernel.order();
    for number in 0..order.len() {
        add_edge(list, arch, kernel, EdgeId::Order(number as u32))?;
    }
    Ok(())
}

/// Adds the edge of the given name to `list`, if the kernel has one.
fn add_edge(
    list: &mut KernelEdges,
    arch: &Arch,
    kernel: &Kernel,
    id: EdgeId,
) -> Result<(), AllocError>
    ensures { OnOk result (IsAdded (edge_of arch.now kernel.now id) id list.old.names.items list.old.edges.items list.new.names.items list.new.edges.items) }
{
    if let Some(edge) = find_edge(arch, kernel, id) {
        list.names.push(id)?;
        list.edges.push(edge)?;
    }
    Ok(())
}
