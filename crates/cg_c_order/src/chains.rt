//! The chains of edges within a turn, and over at most one turn, as tables.
ghost use Rattle.std.specs.Prelude.{◌≡◌, ◌<◌, ◌≤◌, ◌++◌, ◌∷◌, [], List, IfOk, OnOk, length};
ghost use Rattle.cg_model.specs.declared.kernel.OrderEdge.{OrderEdge};
ghost use Rattle.cg_c_order.specs.Chains.{JoinBelow, Leads, LeadsOver};
ghost use Rattle.cg_c_order.specs.Marks.{IsSquare, IsTable};

use crate::marks::{Marks, copy_rows, join_rows, no_rows, nodes_after, nodes_before};
use cg_model::OrderEdge;
use std::alloc::{AllocError, Global};

/// Adds to `near`, a table of chains within a turn, those by `edge`, if it is within a turn.
pub(crate) fn add_near(alloc: Global, edge: OrderEdge, near: &mut [Marks]) -> Result<(), AllocError>
    requires square { IsSquare (length near.old) near.old }
    requires from { edge.from < length near.old }
    requires to { edge.to < length near.old }
    ensures { OnOk result ((es : List OrderEdge) → IsTable (length near.old) (Leads es) near.old → IsTable (length near.old) (Leads (es ++ edge ∷ [])) near.new) }
{
    if edge.distance == 0 {
        let sources = nodes_before(alloc, near, edge.from as usize)?;
        let targets = nodes_after(alloc, near, edge.to as usize)?;
        join_rows(near, &sources, edge.to as usize, &targets);
    }
    Ok(())
}

/// Returns the table of the chains of `edges` within a turn, of `size` nodes.
pub(crate) fn near_rows(
    alloc: Global,
    size: usize,
    edges: &[OrderEdge],
) -> Result<Vec<Marks>, AllocError>
    requires { JoinBelow size edges.now }
    ensures { IfOk result (λ rows. IsTable size (Leads edges.now) rows.items) }
{
    let mut near = no_rows(alloc, size)?;
    for place in 0..edges.len() {
        add_near(alloc, edges[place], &mut near)?;
    }
    Ok(near)
}

/// Adds to `next`, a table of chains over at most one turn, those by `edge`, if it leads to the next turn, and by the
/// chains within a turn that `near` has.
pub(crate) fn add_next(
    alloc: Global,
    edge: OrderEdge,
    near: &[Marks],
    next: &mut [Marks],
) -> Result<(), AllocError>
    requires near { IsSquare (length near.now) near.now }
    requires square { IsSquare (length near.now) next.old }
    requires from { edge.from < length near.now }
    requires to { edge.to < length near.now }
    ensures square { OnOk result (IsSquare (length near.now) next.new) }
    ensures table { OnOk result ((es turning : List OrderEdge) → IsTable (length near.now) (Leads es) near.now → IsTable (length near.now) (LeadsOver es turning) next.old → IsTable (length near.now) (LeadsOver es (turning ++ edge ∷ [])) next.new) }
{
    if edge.distance == 1 {
        let sources = nodes_before(alloc, near, edge.from as usize)?;
        let targets = nodes_after(alloc, near, edge.to as usize)?;
        join_rows(next, &sources, edge.to as usize, &targets);
    }
    Ok(())
}

/// Returns the table of the chains over at most one turn by `edges` and by the chains within a turn that `near` has.
pub(crate) fn next_rows(
    alloc: Global,
    near: &[Marks],
    edges: &[OrderEdge],
) -> Result<Vec<Marks>, AllocError>
    requires near { IsSquare (length near.now) near.now }
    requires edges { JoinBelow (length near.now) edges.now }
    ensures { IfOk result (λ rows. (es : List OrderEdge) → IsTable (length near.now) (Leads es) near.now → IsTable (length near.now) (LeadsOver es edges.now) rows.items) }
{
    let mut next = copy_rows(alloc, near)?;
    for place in 0..edges.len() {
        add_next(alloc, edges[place], near, &mut next)?;
    }
    Ok(next)
}
