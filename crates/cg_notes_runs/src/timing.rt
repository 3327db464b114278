//! Violations of L5 by the time at which a value comes to the end of its route.

use crate::names::Mapped;
use cg_check::{DataEdge, delay, leaves};
use cg_model::Route;
use std::alloc::{AllocError, Global};

/// The cycles of a value on its route, for turn 0 of its source.
#[derive(Clone, Copy, Drop)]
struct Travel {
    /// The cycle in which it leaves its unit.
    leaves: u64,
    /// The cycle in which it comes to the end of its route.
    comes: u64,
    /// The cycle in which it is taken there.
    taken: u64,
}

/// Returns the reason that the value of `edge` comes to the end of `route` in another cycle than the one in which it is
/// taken, and what fixes it.
pub(crate) fn time_reason(
    alloc: Global,
    mapped: Mapped<'_>,
    route: &Route,
    edge: DataEdge,
) -> Result<String, AllocError> {
    let travel = travel_of(mapped, route, edge);
    let target = route.node as usize;
    let name = mapped.node_name(target);
    // A node that takes its own value takes it later where it is moved, and gives it later.
    let moved = if edge.source == route.node {
        None
    } else {
        Some(name)
    };
    let mend = mend_of(alloc, travel, moved)?;
    let mend = mend.as_str();
    let Travel { comes, taken, .. } = travel;
    let cycle = cycle_text(alloc, mapped, target, edge.distance, taken)?;
    let cycle = cycle.as_str();
    format!(in alloc;
        "brings the value in cycle {comes}, but {name} takes it in cycle {cycle}: {mend}"
    )
}

/// Returns the cycles of the value of `edge` on `route`.
fn travel_of(mapped: Mapped<'_>, route: &Route, edge: DataEdge) -> Travel {
    let leaves = leaves(mapped.arch, mapped.mapping, edge.source);
    let mut comes = leaves;
    for resource in route.path.as_slice().iter().skip(1) {
        comes = comes.saturating_add(delay(mapped.arch, *resource));
    }
    let turns = u64::from(mapped.mapping.ii()).saturating_mul(u64::from(edge.distance));
    let taken = mapped.time(route.node as usize).saturating_add(turns);
    Travel {
        leaves,
        comes,
        taken,
    }
}

/// Returns what fixes `travel`, that of a value which comes early or late: the number of registers that its route needs,
/// or another time for the node `moved`; None if moving the node wouldn't help.
fn mend_of(alloc: Global, travel: Travel, moved: Option<&str>) -> Result<String, AllocError> {
    let Travel {
        leaves,
        comes,
        taken,
    } = travel;
    let has = comes.saturating_sub(leaves);
    let earlier = if comes < taken { "earlier" } else { "later" };
    match (taken.checked_sub(leaves), moved) {
        (Some(count), Some(node)) => format!(in alloc;
            "the number of registers on the way must be {count}, not {has}, or {node} must begin {earlier}"
        ),
        (Some(count), None) => format!(in alloc;
            "the number of registers on the way must be {count}, not {has}"
        ),
        (None, Some(node)) => format!(in alloc; "{node} must begin {earlier}"),
        (None, None) => String::from_str(alloc, "the interval must be greater"),
    }
}

/// Returns `cycle` as a text. If `distance` isn't 0, the text says how the cycle follows from the time of node number
/// `node` of `mapped`, `distance` turns later.
pub(crate) fn cycle_text(
    alloc: Global,
    mapped: Mapped<'_>,
    node: usize,
    distance: u32,
    cycle: u64,
) -> Result<String, AllocError> {
    if distance == 0 {
        return format!(in alloc; "{cycle}");
    }
    let time = mapped.time(node);
    let ii = mapped.mapping.ii();
    format!(in alloc; "{cycle} (time {time} + interval {ii} * distance {distance})")
}
