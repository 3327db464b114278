//! Chooses of what has to come after what the order edges that give all of it.
ghost use Rattle.std.specs.Prelude.{◌<◌, IfOk, OnOk};
ghost use Rattle.cg_model.specs.Kernel.{size};
ghost use Rattle.cg_simplify_order.specs.Found.{AddsAtMost, AreAmong, JoinBelow};

use crate::chains::{Chains, chains_of};
use crate::edges::with_edges;
use cg_depend::is_within;
use cg_distance::{DistanceTable, min_distance};
use cg_model::{Kernel, OrderEdge};
use std::alloc::{AllocError, Global};

/// Returns those of `needs` that neither chains of data edges of `kernel` nor chains of these and other needs give.
pub(crate) fn reduced(
    alloc: Global,
    kernel: &Kernel,
    needs: &[OrderEdge],
) -> Result<Vec<OrderEdge>, AllocError>
    requires { JoinBelow (size kernel.now) needs.now }
    ensures { IfOk result (λ edges. AreAmong needs.now edges.items) }
{
    let bare = with_edges(alloc, kernel, Vec::new(alloc))?;
    let data = min_distance(alloc, &bare)?;
    let chains = chains_of(alloc, kernel, &data, needs)?;
    kept(alloc, &data, &chains, needs)
}

/// Returns those of `needs` that are not given by chains of the table `data` or of `chains`.
fn kept(
    alloc: Global,
    data: &DistanceTable,
    chains: &Chains,
    needs: &[OrderEdge],
) -> Result<Vec<OrderEdge>, AllocError>
    requires { JoinBelow chains.now needs.now }
    ensures { IfOk result (λ edges. AreAmong needs.now edges.items) }
{
    let mut edges = Vec::new(alloc);
    for number in 0..needs.len() {
        keep(data, chains, needs[number], &mut edges)?;
    }
    Ok(edges)
}

/// Adds `need` to `edges`, unless a chain of the table `data` or others of `chains` give it.
fn keep(
    data: &DistanceTable,
    chains: &Chains,
    need: OrderEdge,
    edges: &mut Vec<OrderEdge>,
) -> Result<(), AllocError>
    requires from { need.from < chains.now }
    requires to { need.to < chains.now }
    ensures { OnOk result (AddsAtMost need edges.old.items edges.new.items) }
{
    if !is_given(data, chains, need) {
        edges.push(need)?;
    }
    Ok(())
}

/// Returns whether a chain of the table `data`, or others of `chains`, give `need`.
fn is_given(data: &DistanceTable, chains: &Chains, need: OrderEdge) -> bool
    requires from { need.from < chains.now }
    requires to { need.to < chains.now }
{
    is_within(data, need.from, need.to, need.distance)
        || chains.has_detour(need.from, need.to, need.distance)
}
