//! Nodes and edges without a place or route, or with several.

use crate::places::{arg_of, text_of};
use cg_lints::{At, Rule, Slips, Spot, items_at};
use cg_model::{Kernel, Operand};
use serde_json::Value;
use std::alloc::AllocError;

/// The maximum number of comparisons for which nodes are looked up one by one in the lists of a mapping.
const MOST_COMPARED: usize = 4_000_000;

/// Adds to `slips` each node of `kernel` that has no place in the mapping file `value`, or several, and each edge that
/// has no route, or several. Does nothing if a list is missing, or if the check would take long.
pub(crate) fn note_missing(
    slips: &mut Slips,
    kernel: &Kernel,
    value: &Value,
) -> Result<(), AllocError> {
    if value.get("places").is_none() || value.get("routes").is_none() {
        return Ok(());
    }
    let places = items_at(value, "places");
    let routes = items_at(value, "routes");
    let items = places.len().saturating_add(routes.len());
    let ends = kernel.nodes().len().saturating_mul(4);
    if items.saturating_mul(ends) > MOST_COMPARED {
        return Ok(());
    }
    for node in kernel.nodes() {
        note_node(slips, node.name.as_str(), places)?;
    }
    for node in kernel.nodes() {
        for (arg, operand) in node.operands.as_slice().iter().enumerate() {
            if let Operand::Edge { .. } = operand {
                note_edge(slips, node.name.as_str(), arg, routes)?;
            }
        }
    }
    Ok(())
}

/// Adds a slip to `slips` if the node `name` has no place among `places`, or several.
fn note_node(slips: &mut Slips, name: &str, places: &[Value]) -> Result<(), AllocError> {
    let mut first = None;
    for (number, place) in places.iter().enumerate() {
        if text_of(place, "node") == Some(name) {
            if let Some(earlier) = first {
                let text = format!(in slips.alloc;
                    "node {name} already has a place, place {earlier}"
                )?;
                return add_item(slips, "places", number, Spot::Item, text);
            }
            first = Some(number);
        }
    }
    if first.is_some() {
        return Ok(());
    }
    let text = format!(in slips.alloc; "node {name} has no place")?;
    add_item(slips, "places", 0, Spot::List, text)
}

/// Adds a slip to `slips` if the edge to argument `arg` of the node `name` has no route among `routes`, or several.
fn note_edge(
    slips: &mut Slips,
    name: &str,
    arg: usize,
    routes: &[Value],
) -> Result<(), AllocError> {
    let mut first = None;
    for (number, route) in routes.iter().enumerate() {
        if text_of(route, "to") == Some(name) && has_argument(route, arg) {
            if let Some(earlier) = first {
                let text = format!(in slips.alloc;
                    "argument {arg} of {name} already has a route, route {earlier}"
                )?;
                return add_item(slips, "routes", number, Spot::Item, text);
            }
            first = Some(number);
        }
    }
    if first.is_some() {
        return Ok(());
    }
    let text = format!(in slips.alloc; "argument {arg} of {name} has no route")?;
    add_item(slips, "routes", 0, Spot::List, text)
}

/// Adds to `slips` that `text` is wrong at `spot` of item `number` of `list`, by a place or a route too many or too few.
fn add_item(
    slips: &mut Slips,
    list: &'static str,
    number: usize,
    spot: Spot,
    text: String,
) -> Result<(), AllocError> {
    let at = At::Item {
        list,
        item: number,
        spot,
    };
    slips.add(Rule::Incomplete, at, text)
}

/// Checks whether `route` ends at an argument with the number `arg`.
fn has_argument(route: &Value, arg: usize) -> bool {
    arg_of(route).is_some_and(|word| word as usize == arg)
}
