//! Nodes that can be turned round: v = (p + a) + b, of which u = p + a is one operand, becomes p + (a + b).
ghost use Rattle.std.specs.Prelude.{◌≡◌, ◌<◌, IfOk, IfSome, IsTrue, List, OnOk, ℕ, Some, false, length, slice_get, true};
ghost use Rattle.cg_model.specs.declared.kernel.Operand.TheVariants.{Edge as DataEdge};
ghost use Rattle.cg_model.specs.Kernel.{IsKernel, node};
ghost use Rattle.cg_simplify_rotate.specs.Rows.{AreAlike};
ghost use Rattle.cg_simplify_rotate.specs.Turning.{IsOnlyUse, IsRotated, IsTaken, IsTurn, kernel_of};

use crate::moving::move_before;
use crate::rings::Rings;
use crate::rows::{Row, row_of};
use crate::texts::restate;
use cg_model::{Node, Operand};
use std::alloc::{AllocError, Global};

/// Node `v`, whose operand `i` is node `u`, whose operand `j` is p; and how p, a and b are joined instead.
#[derive(Clone, Copy, Drop)]
pub(crate) struct Turn {
    pub u: usize,
    pub v: usize,
    pub i: usize,
    pub j: usize,
    pub row: Row,
}

/// Turns round all of `nodes` that can be, in program order, so that other nodes leave their rings, and returns whether it
/// turned one.
pub(crate) fn turn_all(
    alloc: Global,
    nodes: &mut [Node],
    rings: &mut Rings,
) -> Result<bool, AllocError>
    requires { IsKernel (kernel_of nodes.old) }
    ensures { IfOk result (λ changed. IsRotated nodes.old nodes.new changed) }
{
    let mut changed = false;
    for v in 0..nodes.len() {
        if turn_round(alloc, nodes, rings, v)? {
            changed = true;
        }
    }
    Ok(changed)
}

/// Turns node `v` round, if it can be, so that the other node leaves its ring, and returns whether it did.
fn turn_round(
    alloc: Global,
    nodes: &mut [Node],
    rings: &mut Rings,
    v: usize,
) -> Result<bool, AllocError>
    requires known { v < length nodes.old }
    requires valid { IsKernel (kernel_of nodes.old) }
    ensures { IfOk result (λ changed. IsRotated nodes.old nodes.new changed) }
{
    let Some(turn) = first_turn(nodes, rings, v) else {
        return Ok(false);
    };
    rings.take_off(turn.u, turn.v);
    apply_turn(alloc, nodes, turn)?;
    Ok(true)
}

/// Applies `turn` to `nodes`.
fn apply_turn(alloc: Global, nodes: &mut [Node], turn: Turn) -> Result<(), AllocError>
    requires valid { IsKernel (kernel_of nodes.old) }
    requires turn { IsTurn (kernel_of nodes.old) turn }
    ensures { OnOk result (IsRotated nodes.old nodes.new true) }
{
    let Turn { u, v, i, j, row } = turn;
    move_before(alloc, nodes, u, v);
    restate(
        alloc,
        nodes,
        Turn {
            u: v - 1,
            v,
            i,
            j,
            row,
        },
    )
}

/// Returns how node `v` can be turned round by the first of its operands with which it can be.
fn first_turn(nodes: &[Node], rings: &Rings, v: usize) -> Option<Turn>
    requires known { v < length nodes.now }
    ensures { IfSome result (λ t. IsTurn (kernel_of nodes.now) t) }
{
    for i in 0..2 {
        if let Some(u) = taken(nodes, rings, v, i) {
            for j in 0..2 {
                if let Some(row) = row_at(nodes, rings, v, i, u, j) {
                    return Some(Turn {
                        u: u as usize,
                        v,
                        i,
                        j,
                        row,
                    });
                }
            }
        }
    }
    None
}

/// Returns the node that operand `i` of node `v` is in the same turn, if it is on the ring of `v` and has no other use, and
/// the other operand of `v` isn't from the ring.
fn taken(nodes: &[Node], rings: &Rings, v: usize, i: usize) -> Option<u32>
    requires known { v < length nodes.now }
    requires place { i < 2 }
    ensures { IfSome result (λ u. IsTaken (kernel_of nodes.now) u v i) }
{
    let u = source_at(&nodes[v], i)?;
    let other = nodes[v].operands.as_slice().get(1 - i)?;
    if !rings.are_one(u, v) || is_from_ring(rings, v, other) {
        return None;
    }
    if is_only_use(nodes, u, v, i) {
        Some(u)
    } else {
        None
    }
}

/// Returns the node that operand `place` of `node` is in the same turn.
fn source_at(node: &Node, place: usize) -> Option<u32>
    ensures { IfSome result (λ u. (init : List ℕ) × (slice_get node.now.operands place ≡ Some (DataEdge u 0 init))) }
{
    match node.operands.as_slice().get(place)? {
        Operand::Edge { from, distance, .. } if *distance == 0 => Some(*from),
        _ => None,
    }
}

/// Returns how the operands of nodes `u` and `v` are joined instead, where operand `j` of `u` is from the ring of `v`, the
/// other one isn't, and operand `i` of `v` is `u`.
fn row_at(nodes: &[Node], rings: &Rings, v: usize, i: usize, u: u32, j: usize) -> Option<Row>
    requires known { v < length nodes.now }
    requires place_i { i < 2 }
    requires place_j { j < 2 }
    ensures known { IfSome result (λ r. u < length nodes.now) }
    ensures row { IfSome result (λ r. AreAlike (node (kernel_of nodes.now) v).op i (node (kernel_of nodes.now) u).op j r) }
{
    let u = u as usize;
    if u >= nodes.len() {
        return None;
    }
    let operands = nodes[u].operands.as_slice();
    if !is_from_ring(rings, v, operands.get(j)?) || is_from_ring(rings, v, operands.get(1 - j)?) {
        return None;
    }
    row_of(nodes[v].op, i, nodes[u].op, j)
}

/// Returns whether `operand` is an edge from a node on the ring of node `v`.
fn is_from_ring(rings: &Rings, v: usize, operand: &Operand) -> bool {
    match operand {
        Operand::Const(_) => false,
        Operand::Edge { from, .. } => rings.are_one(*from, v),
    }
}

/// Returns whether no operand of `nodes` but operand `place` of node `v` is an edge from node `u`.
fn is_only_use(nodes: &[Node], u: u32, v: usize, place: usize) -> bool
    ensures { IsTrue result → IsOnlyUse (kernel_of nodes.now) u v place }
{
    for number in 0..nodes.len() {
        let operands = nodes[number].operands.as_slice();
        if number == v {
            if !are_others(operands, u, place) {
                return false;
            }
        } else if !are_others(operands, u, operands.len()) {
            return false;
        }
    }
    true
}

/// Returns whether no operand but that at `place` is an edge from node `u`.
fn are_others(operands: &[Operand], u: u32, place: usize) -> bool
    ensures { IsTrue result → (p d : ℕ) (init : List ℕ) → slice_get operands.now p ≡ Some (DataEdge u d init) → p ≡ place }
{
    for number in 0..operands.len() {
        if number != place && is_edge_from(&operands[number], u) {
            return false;
        }
    }
    true
}

/// Returns whether `operand` is an edge from node `u`.
fn is_edge_from(operand: &Operand, u: u32) -> bool
    ensures { result ≡ false → (d : ℕ) (init : List ℕ) → operand.now ≡ DataEdge u d init → ⊥ }
{
    match operand {
        Operand::Const(_) => false,
        Operand::Edge { from, .. } => *from == u,
    }
}
