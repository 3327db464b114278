//! The search for a unit with room, where nodes may move to other units.
ghost use Rattle.std.specs.Prelude.{◌≡◌, ◌+◌, ◌<◌, ◌≤◌, IfOk, OnOk, length};
ghost use Rattle.cg_model.specs.Limits.{most_units};
ghost use Rattle.cg_class.specs.Search.{op_at, IsPlaced, IsLogged, IsSpread, IsFrom, IsSearch, IsVisited, HasMoves, IsFound};

use crate::counts::count_on;
use cg_model::{Node, Unit};
use cg_word::OpSet;
use std::alloc::{AllocError, Global};

/// A unit to which a node may move, from the unit of an earlier move. The first moves are of the new node; their
/// `before` is their own number.
#[derive(Clone, Copy, Drop)]
pub(crate) struct Move {
    pub unit: u32,
    pub node: usize,
    pub before: usize,
}

/// The result of a new node's search for room.
#[derive(Drop)]
pub(crate) enum Found {
    /// A unit with room, reached by the move of the given number.
    Room(Vec<Move>, usize),
    /// No unit with room: too many nodes have these operations.
    Full(OpSet),
}

/// Nodes, of which the first have places on units, and the number of nodes for which a unit has room.
#[derive(Clone, Copy)]
struct Placed<'a> {
    nodes: &'a [Node],
    units: &'a [Unit],
    places: &'a [u32],
    ii: u32,
}

/// Reaches all units that offer a node's operation: from the unit of move `before`, or, for the new node, from none.
fn spread(
    log: &mut Vec<Move>,
    seen: &mut [bool],
    placed: Placed,
    node: usize,
    before: Option<usize>,
) -> Result<(), AllocError>
    requires few { length placed.units.now ≤ most_units }
    requires good { IsLogged placed.nodes.now placed.units.now placed.places.now log.old.items seen.old }
    requires node { node < length placed.nodes.now }
    requires from { IsFrom placed.places.now log.old.items node before }
    ensures { OnOk result (IsSpread placed.entry.nodes.now placed.entry.units.now placed.entry.places.now log.old.items seen.old log.new.items seen.new (op_at placed.entry.nodes.now node)) }
{
    let nodes = placed.nodes;
    let units = placed.units;
    let op = nodes[node].op;
    for target in 0..units.len() {
        if units[target].ops.has(op) && !seen[target] {
            let at = log.len();
            log.push(Move {
                unit: target as u32,
                node,
                before: before.unwrap_or(at),
            })?;
            seen[target] = true;
        }
    }
    Ok(())
}

/// Visits the nodes on the unit of move `number`, and reaches the units that offer one of their operations. Returns the
/// operations that are done after this, or `None` if that unit has room.
fn visit(
    log: &mut Vec<Move>,
    seen: &mut [bool],
    done: OpSet,
    placed: Placed,
    number: usize,
) -> Result<Option<OpSet>, AllocError>
    requires few { length placed.units.now ≤ most_units }
    requires next { length placed.places.now < length placed.nodes.now }
    requires searched { IsSearch placed.nodes.now placed.units.now placed.ii placed.places.now log.old.items seen.old done number }
    requires inside { number < length log.old.items }
    ensures { IfOk result (IsVisited placed.entry.nodes.now placed.entry.units.now placed.entry.ii placed.entry.places.now log.new.items seen.new number) }
{
    let nodes = placed.nodes;
    let places = placed.places;
    let unit = log[number].unit;
    if count_on(places, unit) < placed.ii as usize {
        return Ok(None);
    }
    let mut done = done;
    for other in 0..places.len() {
        if places[other] == unit && !done.has(nodes[other].op) {
            spread(log, seen, placed, other, Some(number))?;
            done = done.with(nodes[other].op);
        }
    }
    Ok(Some(done))
}

/// Returns the moves of the next node to a unit with room, or the operations of all nodes that could move.
pub(crate) fn reach(
    alloc: Global,
    nodes: &[Node],
    units: &[Unit],
    places: &[u32],
    ii: u32,
) -> Result<Found, AllocError>
    requires few { length units.now ≤ most_units }
    requires placed { IsPlaced nodes.now units.now ii places.now }
    requires next { length places.now < length nodes.now }
    ensures { IfOk result (IsFound nodes.now units.now ii places.now) }
{
    let placed = Placed {
        nodes,
        units,
        places,
        ii,
    };
    let node = places.len();
    let mut log = Vec::new(alloc);
    let mut seen = vec![in alloc; false; units.len()]?;
    spread(&mut log, &mut seen, placed, node, None)?;
    let mut done = OpSet::empty().with(nodes[node].op);
    let mut number = 0;
    while number < log.len() {
        match visit(&mut log, &mut seen, done, placed, number)? {
            None => return Ok(Found::Room(log, number)),
            Some(more) => done = more,
        }
        number += 1;
    }
    Ok(Found::Full(done))
}

/// Moves each node of the chain of moves to its unit, from the last one on; the new node comes last.
pub(crate) fn shift(
    places: &mut Vec<u32>,
    log: &[Move],
    number: usize,
    nodes: &[Node],
    units: &[Unit],
    ii: u32,
) -> Result<(), AllocError>
    requires placed { IsPlaced nodes.now units.now ii places.old.items }
    requires next { length places.old.items < length nodes.now }
    requires moves { HasMoves nodes.now units.now ii places.old.items log.now number }
    ensures { OnOk result (IsPlaced nodes.now units.now ii places.new.items × (length places.new.items ≡ length places.old.items + 1)) }
{
    let mut at = number;
    while log[at].before < at {
        let step = log[at];
        places[step.node] = step.unit;
        at = step.before;
    }
    places.push(log[at].unit)?;
    Ok(())
}
