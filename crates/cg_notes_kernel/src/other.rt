//! Mappings of other kernels.

use crate::known::{Known, Noun};
use crate::places::text_of;
use cg_lints::{At, Rule, Slips, Spot, items_at, shown};
use serde_json::Value;
use std::alloc::{AllocError, Global};

/// The maximum number of nodes that are named.
const MOST_NAMED: usize = 8;

/// Adds a slip to `slips` if the mapping file `value` is of another kernel than the one in the file `kernel`: if it
/// places two or more nodes that aren't in `known`. Returns whether it is.
pub(crate) fn note_other(
    slips: &mut Slips,
    known: &Known<'_>,
    kernel: &str,
    value: &Value,
) -> Result<bool, AllocError> {
    let names = other_names(slips.alloc, known, value)?;
    if names.len() < 2 {
        return Ok(false);
    }
    let list = list_of(slips.alloc, names.as_slice())?;
    let list = list.as_str();
    let kernel = shown_file(kernel);
    let text = format!(in slips.alloc;
        "this mapping is for another kernel: it places {list}, which {kernel} doesn't contain"
    )?;
    let at = At::Item {
        list: "places",
        item: first_other(known, value),
        spot: Spot::Key("node"),
    };
    slips.add(Rule::UnknownName, at, text)?;
    Ok(true)
}

/// Returns the nodes, without repetition, that the mapping file `value` places and that aren't `known`, up to one more
/// than are named.
fn other_names<'a>(
    alloc: Global,
    known: &Known<'_>,
    value: &'a Value,
) -> Result<Vec<&'a str>, AllocError> {
    let mut names: Vec<&'a str> = Vec::new(alloc);
    for place in items_at(value, "places") {
        if let Some(name) = text_of(place, "node") {
            if names.len() <= MOST_NAMED && !known.has(Noun::Node, name) && !names.contains(&name) {
                names.push(name)?;
            }
        }
    }
    Ok(names)
}

/// Returns the number of the first place of the mapping file `value` whose node isn't `known`.
fn first_other(known: &Known<'_>, value: &Value) -> usize {
    for (number, place) in items_at(value, "places").iter().enumerate() {
        match text_of(place, "node") {
            Some(name) if !known.has(Noun::Node, name) => return number,
            _ => {}
        }
    }
    0
}

/// Returns the first of `names`, as notes show them, separated by commas, with two points at the end if there are more.
fn list_of(alloc: Global, names: &[&str]) -> Result<String, AllocError> {
    let mut list = String::new(alloc);
    for (index, name) in names.iter().take(MOST_NAMED).enumerate() {
        if index > 0 {
            list.push_str(", ")?;
        }
        let name = shown(alloc, name)?;
        list.push_str(name.as_str())?;
    }
    if names.len() > MOST_NAMED {
        list.push_str(" ..")?;
    }
    Ok(list)
}

/// Returns `name`, the name of a kernel's file, or `the kernel` if the name would break the line.
fn shown_file(name: &str) -> &str {
    if name.chars().any(|character| character.is_control()) {
        "the kernel"
    } else {
        name
    }
}
