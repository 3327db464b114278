//! Accesses that no edge orders.

use cg_depend::{DependFault, depend};
use cg_kernel::read_kernel;
use cg_model::{Kernel, OrderEdge};
use std::alloc::{AllocError, Global};

/// Adds to `notes` that two accesses of the kernel whose file has the bytes `kernel` may reach the same word without an
/// edge that orders them, if there are two such accesses.
pub fn unordered_notes(
    alloc: Global,
    kernel: &[u8],
    notes: &mut Vec<String>,
) -> Result<(), AllocError> {
    let Ok(kernel) = read_kernel(alloc, kernel) else {
        return Ok(());
    };
    match depend(alloc, &kernel) {
        Ok(done) => match done.kernel.order().get(kernel.order().len()) {
            Some(edge) => add_edge(alloc, &kernel, *edge, notes),
            None => Ok(()),
        },
        Err(DependFault::Memory) => Err(AllocError),
        Err(DependFault::TooManyEdges(_)) => {
            let note = String::from_str(
                alloc,
                "accesses to the same word may lack an edge that orders them: the bits do what the turns do only if the order of these accesses doesn't matter",
            )?;
            notes.push(note)?;
            Ok(())
        }
    }
}

/// Adds to `notes` that `kernel` lacks the order edge `edge`.
fn add_edge(
    alloc: Global,
    kernel: &Kernel,
    edge: OrderEdge,
    notes: &mut Vec<String>,
) -> Result<(), AllocError> {
    let from = name_of(kernel, edge.from);
    let to = name_of(kernel, edge.to);
    let note = format!(in alloc;
        "{from} and {to} may reach the same word, but no edge orders them: the command depend adds the missing edges"
    )?;
    notes.push(note)?;
    Ok(())
}

/// Returns the name of node number `node` of `kernel`; an empty name if there is none.
fn name_of(kernel: &Kernel, node: u32) -> &str {
    match kernel.nodes().get(node as usize) {
        Some(node) => node.name.as_str(),
        None => "",
    }
}
