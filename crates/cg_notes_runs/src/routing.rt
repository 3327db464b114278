//! Violations of L5: routes that don't bring their value.

use crate::names::Mapped;
use crate::timing::time_reason;
use cg_check::{DataEdge, edge_into};
use cg_help::short_list;
use cg_model::Route;
use std::alloc::{AllocError, Global};

/// Returns the note that says why the route to argument `arg` of node number `node` doesn't bring its value.
pub(crate) fn route_note(
    alloc: Global,
    mapped: Mapped<'_>,
    node: u32,
    arg: u32,
) -> Result<Option<String>, AllocError> {
    let routes = mapped.mapping.routes();
    let Some(route) = routes
        .iter()
        .find(|route| route.node == node && route.arg == arg)
    else {
        return Ok(None);
    };
    let Some(edge) = edge_into(mapped.kernel, route) else {
        return Ok(None);
    };
    let Some(why) = reason(alloc, mapped, route, edge)? else {
        return Ok(None);
    };
    let name = mapped.node_name(node as usize);
    let source = mapped.node_name(edge.source as usize);
    let why = why.as_str();
    let note = format!(in alloc; "L5: the route of {source} to {name}.{arg} {why}")?;
    Ok(Some(note))
}

/// Returns why `route` of `mapped` doesn't bring the value of `edge`.
fn reason(
    alloc: Global,
    mapped: Mapped<'_>,
    route: &Route,
    edge: DataEdge,
) -> Result<Option<String>, AllocError> {
    let path = route.path.as_slice();
    let (Some(first), Some(last)) = (path.first(), path.last()) else {
        return empty_reason(alloc, mapped, route, edge);
    };
    if let Some(note) = start_reason(alloc, mapped, edge, *first)? {
        return Ok(Some(note));
    }
    if let Some(note) = link_reason(alloc, mapped, path)? {
        return Ok(Some(note));
    }
    if let Some(note) = end_reason(alloc, mapped, route, *last)? {
        return Ok(Some(note));
    }
    let note = time_reason(alloc, mapped, route, edge)?;
    Ok(Some(note))
}

/// Returns the reason that `route`, which is for `edge`, has no resources, with those between which it must lead.
fn empty_reason(
    alloc: Global,
    mapped: Mapped<'_>,
    route: &Route,
    edge: DataEdge,
) -> Result<Option<String>, AllocError> {
    let from = mapped.unit(edge.source as usize);
    let to = mapped.unit(route.node as usize);
    let port = to.and_then(|unit| unit.ports.as_slice().get(route.arg as usize).copied());
    let note = match (from, port) {
        (Some(from), Some(port)) => {
            let out = mapped.resource_name(from.out as usize);
            let port = mapped.resource_name(port as usize);
            format!(in alloc; "has no resources: it begins at {out} and ends at {port}")?
        }
        _ => String::from_str(alloc, "has no resources")?,
    };
    Ok(Some(note))
}

/// Returns the reason that a route begins at `first`, if that isn't the out of the unit of the source of `edge`.
fn start_reason(
    alloc: Global,
    mapped: Mapped<'_>,
    edge: DataEdge,
    first: u32,
) -> Result<Option<String>, AllocError> {
    let Some(unit) = mapped.unit(edge.source as usize) else {
        return Ok(None);
    };
    if unit.out == first {
        return Ok(None);
    }
    let first = mapped.resource_name(first as usize);
    let out = mapped.resource_name(unit.out as usize);
    let note = format!(in alloc; "begins at {first}, but must begin at {out}")?;
    Ok(Some(note))
}

/// Returns the reason that no link leads from a resource of `path` to the next, for the first two such resources.
fn link_reason(
    alloc: Global,
    mapped: Mapped<'_>,
    path: &[u32],
) -> Result<Option<String>, AllocError> {
    let mut before: Option<u32> = None;
    for resource in path {
        if let Some(from) = before {
            if !drives(mapped, from, *resource) {
                let from = mapped.resource_name(from as usize);
                let to = mapped.resource_name(*resource as usize);
                let drivers = drivers_of(alloc, mapped, *resource)?;
                let drivers = drivers.as_str();
                let note = format!(in alloc;
                    "goes from {from} to {to}, and no link does; {drivers}"
                )?;
                return Ok(Some(note));
            }
        }
        before = Some(*resource);
    }
    Ok(None)
}

/// Checks whether a link of `mapped` goes from resource `from` to resource `to`.
fn drives(mapped: Mapped<'_>, from: u32, to: u32) -> bool {
    mapped.drivers(to as usize).contains(&from)
}

/// Returns the part of a note that names the drivers of resource number `resource`.
fn drivers_of(alloc: Global, mapped: Mapped<'_>, resource: u32) -> Result<String, AllocError> {
    let name = mapped.resource_name(resource as usize);
    let drivers = mapped.drivers(resource as usize);
    if drivers.is_empty() {
        return format!(in alloc; "nothing drives {name}");
    }
    let list = list_of(alloc, mapped, drivers)?;
    let list = list.as_str();
    format!(in alloc; "{name} is driven by {list}")
}

/// Returns the names of the first of `resources`, separated by commas.
fn list_of(alloc: Global, mapped: Mapped<'_>, resources: &[u32]) -> Result<String, AllocError> {
    let mut names: Vec<&str> = Vec::new(alloc);
    for resource in resources {
        names.push(mapped.resource_name(*resource as usize))?;
    }
    short_list(alloc, names.as_slice())
}

/// Returns the reason that `route` ends at `last`, if that isn't the port of its argument.
fn end_reason(
    alloc: Global,
    mapped: Mapped<'_>,
    route: &Route,
    last: u32,
) -> Result<Option<String>, AllocError> {
    let unit = mapped.unit(route.node as usize);
    let port = unit.and_then(|unit| unit.ports.as_slice().get(route.arg as usize).copied());
    if port == Some(last) {
        return Ok(None);
    }
    let last = mapped.resource_name(last as usize);
    let unit = mapped.unit_name(route.node as usize);
    let note = match port {
        Some(port) => {
            let port = mapped.resource_name(port as usize);
            format!(in alloc; "ends at {last}, but must end at {port}")?
        }
        None => format!(in alloc; "ends at {last}, and {unit} has no port for this argument")?,
    };
    Ok(Some(note))
}
