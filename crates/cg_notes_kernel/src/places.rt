//! The shapes of places and routes, and numbers that are too large.

use cg_json::word_in;
use cg_lints::{At, Item, Kind, Rule, Shape, Slips, Spot, items_at};
use cg_model::LATEST_TIME;
use serde_json::Value;
use std::alloc::AllocError;

/// The maximum number of resources of a path.
const LONGEST_PATH: usize = 65_535;

/// The shape of a place.
const PLACE: Shape = Shape {
    list: "places",
    fields: &[
        ("node", Kind::Text),
        ("time", Kind::Time),
        ("unit", Kind::Text),
    ],
    needed: &["node", "time", "unit"],
};

/// The shape of a route.
const ROUTE: Shape = Shape {
    list: "routes",
    fields: &[
        ("arg", Kind::Number),
        ("path", Kind::Texts),
        ("to", Kind::Text),
    ],
    needed: &["arg", "path", "to"],
};

/// Returns the text at `key` of `value`, if there is one.
pub(crate) fn text_of<'a>(value: &'a Value, key: &str) -> Option<&'a str> {
    match value.get(key) {
        Some(found) => found.as_str(),
        None => None,
    }
}

/// Returns the number of the argument at which `route` ends.
pub(crate) fn arg_of(route: &Value) -> Option<u32> {
    word_in(route.get("arg")?)
}

/// Adds to `slips` the faults in the shapes and the numbers of the places and routes of the mapping file `value`.
pub(crate) fn note_shapes(slips: &mut Slips, value: &Value) -> Result<(), AllocError> {
    for (number, place) in items_at(value, "places").iter().enumerate() {
        note_item(slips, &PLACE, number, place)?;
        note_time(slips, number, place)?;
    }
    for (number, route) in items_at(value, "routes").iter().enumerate() {
        note_item(slips, &ROUTE, number, route)?;
        note_length(slips, number, route)?;
    }
    Ok(())
}

/// Adds to `slips` the faults in the shape of `value`, item `number` of the list of `shape`.
fn note_item(
    slips: &mut Slips,
    shape: &Shape,
    number: usize,
    value: &Value,
) -> Result<(), AllocError> {
    let noun = noun_of(shape.list);
    let prefix = format!(in slips.alloc; "{noun} {number}: ")?;
    let item = Item {
        shape,
        number,
        prefix: prefix.as_str(),
    };
    item.note(slips, value)
}

/// Returns the word for an item of `list`, which has places or routes.
pub(crate) fn noun_of(list: &str) -> &'static str {
    match list {
        "places" => "place",
        _ => "route",
    }
}

/// Adds a slip to `slips` if the time of `place`, place `number`, is too late.
fn note_time(slips: &mut Slips, number: usize, place: &Value) -> Result<(), AllocError> {
    let Some(found) = place.get("time") else {
        return Ok(());
    };
    match word_in(found) {
        Some(time) if time > LATEST_TIME => {
            let text = format!(in slips.alloc;
                "place {number}: a time is at most {LATEST_TIME}, this one is {time}"
            )?;
            add_large(slips, "places", number, "time", text)
        }
        _ => Ok(()),
    }
}

/// Adds a slip to `slips` if the path of `route`, route `number`, is too long.
fn note_length(slips: &mut Slips, number: usize, route: &Value) -> Result<(), AllocError> {
    let length = items_at(route, "path").len();
    if length <= LONGEST_PATH {
        return Ok(());
    }
    let text = format!(in slips.alloc;
        "route {number}: a path has at most 65535 resources, this one has {length}"
    )?;
    add_large(slips, "routes", number, "path", text)
}

/// Adds to `slips` that the value of `key` in item `number` of `list` is too large, as `text` says.
fn add_large(
    slips: &mut Slips,
    list: &'static str,
    number: usize,
    key: &'static str,
    text: String,
) -> Result<(), AllocError> {
    let at = At::Item {
        list,
        item: number,
        spot: Spot::Key(key),
    };
    slips.add(Rule::TooLarge, at, text)
}
