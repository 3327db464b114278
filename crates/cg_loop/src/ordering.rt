//! The order edges that the accesses of a loop need.
ghost use Rattle.std.specs.Prelude.{◌≡◌, ◌++◌, IfOk, bytes_eq, filter, map};
ghost use Rattle.std.specs.List.{flat_map};
ghost use Rattle.cg_loop_laws.specs.Translate.{decl_edges, edges_among, pair_edges};
ghost use Rattle.cg_loop.specs.Made.{access_of};

use crate::code::Access;
use cg_loop_syntax::{Decl, Name};
use cg_model::OrderEdge;
use std::alloc::{AllocError, Global};

/// Returns the order edges of a loop with the declarations `decls` and the accesses `accesses`.
pub(crate) fn order_edges(
    alloc: Global,
    decls: &[Decl],
    accesses: &[Access],
) -> Result<Vec<OrderEdge>, AllocError>
    ensures { IfOk result (λ edges. edges.items ≡ flat_map (decl_edges (map access_of accesses.now)) decls.now) }
{
    let mut edges = Vec::new(alloc);
    for decl in decls {
        if let Decl::Array { name, .. } = decl {
            add_edges(accesses, name, &mut edges)?;
        }
    }
    Ok(edges)
}

/// Adds to `edges` the order edges between the accesses of `accesses` to `array`.
fn add_edges(
    accesses: &[Access],
    array: &Name,
    edges: &mut Vec<OrderEdge>,
) -> Result<(), AllocError>
    ensures { IfOk result (λ u. edges.new.items ≡ edges.old.items ++ edges_among (filter (λ a. bytes_eq a.array array.now) (map access_of accesses.now))) }
{
    for (number, access) in accesses.iter().enumerate() {
        if access.array.as_str() == array.as_str() {
            add_edges_from(access, &accesses[number + 1..], array, edges)?;
        }
    }
    Ok(())
}

/// Adds to `edges` the order edges between the access `first` and those of `later` to `array`.
fn add_edges_from(
    first: &Access,
    later: &[Access],
    array: &Name,
    edges: &mut Vec<OrderEdge>,
) -> Result<(), AllocError>
    ensures { IfOk result (λ u. edges.new.items ≡ edges.old.items ++ flat_map (pair_edges (access_of first.now)) (filter (λ a. bytes_eq a.array array.now) (map access_of later.now))) }
{
    for access in later {
        if access.array.as_str() == array.as_str() {
            add_pair(first, access, edges)?;
        }
    }
    Ok(())
}

/// Adds to `edges` the order edges between the accesses `first` and `second`: if one of them writes, the second comes
/// after the first in each iteration, and the first after the second of the iteration before.
fn add_pair(first: &Access, second: &Access, edges: &mut Vec<OrderEdge>) -> Result<(), AllocError>
    ensures { IfOk result (λ u. edges.new.items ≡ edges.old.items ++ pair_edges (access_of first.now) (access_of second.now)) }
{
    if first.writes || second.writes {
        edges.push(OrderEdge {
            from: first.node,
            to: second.node,
            distance: 0,
        })?;
        edges.push(OrderEdge {
            from: second.node,
            to: first.node,
            distance: 1,
        })?;
    }
    Ok(())
}
