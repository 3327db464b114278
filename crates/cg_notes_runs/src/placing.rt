//! Violations of L1 to L4: the interval, and the units and times of nodes.

use crate::names::Mapped;
use crate::timing::cycle_text;
use cg_check::RulePlace;
use cg_help::short_list;
use cg_model::OrderEdge;
use cg_word::Op;
use std::alloc::{AllocError, Global};

/// Returns the note that the architecture doesn't allow the interval of `mapped`.
pub(crate) fn interval_note(alloc: Global, mapped: Mapped<'_>) -> Result<String, AllocError> {
    let ii = mapped.mapping.ii();
    let contexts = mapped.arch.contexts();
    format!(in alloc;
        "L1: the interval is {ii}, but must be 1 to {contexts}, the contexts of the architecture"
    )
}

/// Returns the note that the unit of node number `node` doesn't offer its operation, with the units that do.
pub(crate) fn unit_note(
    alloc: Global,
    mapped: Mapped<'_>,
    node: usize,
) -> Result<Option<String>, AllocError> {
    let Some(work) = mapped.node(node) else {
        return Ok(None);
    };
    let name = work.name.as_str();
    let op = work.op.name();
    let unit = mapped.unit_name(node);
    let others = offering(alloc, mapped, work.op)?;
    let others = others.as_str();
    let note = format!(in alloc;
        "L2: unit {unit} doesn't offer {op}, the operation of node {name}; {others}"
    )?;
    Ok(Some(note))
}

/// Returns the part of a note that names the units that offer `op`.
fn offering(alloc: Global, mapped: Mapped<'_>, op: Op) -> Result<String, AllocError> {
    let mut names: Vec<&str> = Vec::new(alloc);
    for unit in mapped.arch.units() {
        if unit.ops.has(op) {
            names.push(unit.name.as_str())?;
        }
    }
    if names.is_empty() {
        return String::from_str(alloc, "no unit does, so add it to the ops of one");
    }
    let list = short_list(alloc, names.as_slice())?;
    let list = list.as_str();
    format!(in alloc; "those that do: {list}")
}

/// Returns the note that an earlier node of `mapped` has the unit and the slot of node number `node`, with the lines and
/// columns of both places.
pub(crate) fn shared_note(
    alloc: Global,
    mapped: Mapped<'_>,
    node: usize,
) -> Result<Option<String>, AllocError> {
    let ii = u64::from(mapped.mapping.ii());
    if ii == 0 {
        return Ok(None);
    }
    let slot = mapped.time(node) % ii;
    let Some(first) = first_sharing(mapped, node, ii) else {
        return Ok(None);
    };
    let unit = mapped.unit_name(node);
    let first = placed_name(alloc, mapped, first)?;
    let first = first.as_str();
    let name = placed_name(alloc, mapped, node)?;
    let name = name.as_str();
    let note = format!(in alloc;
        "L3: unit {unit} begins both {first} and {name} in slot {slot}, the time modulo the interval {ii}: another time or unit for one of them fixes it"
    )?;
    Ok(Some(note))
}

/// Returns the name of node number `node`, with its time and the line and column of its place.
fn placed_name(alloc: Global, mapped: Mapped<'_>, node: usize) -> Result<String, AllocError> {
    let name = mapped.node_name(node);
    let time = mapped.time(node);
    match mapped.place_of(RulePlace::Node(node)) {
        Some(place) => format!(in alloc; "{name} ({place}, time {time})"),
        None => format!(in alloc; "{name} (time {time})"),
    }
}

/// Returns the first node before number `node` that has its unit and, at interval `ii`, its slot.
fn first_sharing(mapped: Mapped<'_>, node: usize, ii: u64) -> Option<usize> {
    let place = mapped.place(node)?;
    let slot = mapped.time(node).checked_rem(ii)?;
    for (earlier, other) in mapped.mapping.places().iter().enumerate().take(node) {
        if other.unit == place.unit && u64::from(other.time).checked_rem(ii) == Some(slot) {
            return Some(earlier);
        }
    }
    None
}

/// Returns the note on order edge number `edge`, with the cycles in which its ends begin.
pub(crate) fn order_note(
    alloc: Global,
    mapped: Mapped<'_>,
    edge: usize,
) -> Result<Option<String>, AllocError> {
    let Some(order) = mapped.kernel.order().get(edge) else {
        return Ok(None);
    };
    let OrderEdge { from, to, distance } = *order;
    let source = mapped.node_name(from as usize);
    let target = mapped.node_name(to as usize);
    let early = mapped.time(from as usize);
    let turns = u64::from(mapped.mapping.ii()).saturating_mul(u64::from(distance));
    let late = mapped.time(to as usize).saturating_add(turns);
    let late = cycle_text(alloc, mapped, to as usize, distance, late)?;
    let late = late.as_str();
    let note = format!(in alloc;
        "L4: order edge {edge}: {target} begins in cycle {late}, but must begin after {source}, which begins in cycle {early}"
    )?;
    Ok(Some(note))
}
