//! The text of a mapping.
ghost use Rattle.std.specs.Prelude.{◌≡◌, Ok, IfOk, map};
ghost use Rattle.serde_json.specs.Data.{array};
ghost use Rattle.serde_json.specs.View.{view, items_of};
ghost use Rattle.serde_json.specs.Written.{compact_text};
ghost use Rattle.cg_model.specs.Mapping.{IsShaped};
ghost use Rattle.cg_mapping.specs.Answer.{answer_of};
ghost use Rattle.cg_mapping.specs.Printed as spec;
ghost use Rattle.cg_mapping.specs.Sound.{NamesParts, IsWithinLimits};

use crate::complete::name_at;
use cg_arch::Arch;
use cg_model::{Kernel, Mapping, Node, Place, Resource, Route, Unit};
use serde_json::{Value, json};
use std::alloc::{AllocError, Global};

/// Returns the text of a mapping of the kernel on the architecture. It reads back as an equal mapping where no number
/// is too large.
pub fn print_mapping(
    alloc: Global,
    arch: &Arch,
    kernel: &Kernel,
    mapping: &Mapping,
) -> Result<Vec<u8>, AllocError>
    requires shaped { IsShaped kernel.now mapping.now }
    requires named { NamesParts arch.now mapping.now }
    ensures text { IfOk result (λ bytes. bytes.items ≡ compact_text (spec.data_of arch.now kernel.now mapping.now)) }
    ensures reads_back { IfOk result (λ bytes. IsWithinLimits mapping.now → answer_of arch.now kernel.now bytes.items ≡ Ok mapping.now) }
{
    let nodes = kernel.nodes();
    mapping_value(alloc, nodes, arch.units(), arch.resources(), mapping)?.to_vec(alloc)
}

fn mapping_value(
    alloc: Global,
    nodes: &[Node],
    units: &[Unit],
    resources: &[Resource],
    mapping: &Mapping,
) -> Result<Value, AllocError>
    ensures { IfOk result (λ value. view value ≡ spec.mapping_data nodes.now units.now resources.now mapping.now) }
{
    let places = places_value(alloc, nodes, units, mapping.places())?;
    let routes = routes_value(alloc, nodes, resources, mapping.routes())?;
    json!(in alloc; {"format": "cgm1", "ii": mapping.ii(), "places": places, "routes": routes})
}

fn places_value(
    alloc: Global,
    nodes: &[Node],
    units: &[Unit],
    places: &[Place],
) -> Result<Value, AllocError>
    ensures { IfOk result (λ value. view value ≡ array (items_of (spec.places_data nodes.now units.now 0 places.now))) }
{
    let mut list = Vec::with_capacity(alloc, places.len())?;
    for (number, place) in places.iter().enumerate() {
        list.push(place_value(alloc, nodes, units, number, place)?)?;
    }
    Ok(Value::Array(list))
}

fn place_value(
    alloc: Global,
    nodes: &[Node],
    units: &[Unit],
    number: usize,
    place: &Place,
) -> Result<Value, AllocError>
    ensures { IfOk result (λ value. view value ≡ spec.place_data nodes.now units.now number place.now) }
{
    let unit = unit_name(units, place.unit);
    json!(in alloc; {"node": name_at(nodes, number), "time": place.time, "unit": unit})
}

fn routes_value(
    alloc: Global,
    nodes: &[Node],
    resources: &[Resource],
    routes: &[Route],
) -> Result<Value, AllocError>
    ensures { IfOk result (λ value. view value ≡ array (items_of (map (spec.route_data nodes.now resources.now) routes.now))) }
{
    let mut list = Vec::with_capacity(alloc, routes.len())?;
    for route in routes {
        list.push(route_value(alloc, nodes, resources, route)?)?;
    }
    Ok(Value::Array(list))
}

fn route_value(
    alloc: Global,
    nodes: &[Node],
    resources: &[Resource],
    route: &Route,
) -> Result<Value, AllocError>
    ensures { IfOk result (λ value. view value ≡ spec.route_data nodes.now resources.now route.now) }
{
    let path = path_value(alloc, resources, route.path.as_slice())?;
    json!(in alloc; {"arg": route.arg, "path": path, "to": name_at(nodes, route.node as usize)})
}

fn path_value(alloc: Global, resources: &[Resource], path: &[u32]) -> Result<Value, AllocError>
    ensures { IfOk result (λ value. view value ≡ array (items_of (map (spec.step_data resources.now) path.now))) }
{
    let mut list = Vec::with_capacity(alloc, path.len())?;
    for resource in path {
        list.push(step_value(alloc, resources, *resource)?)?;
    }
    Ok(Value::Array(list))
}

fn step_value(alloc: Global, resources: &[Resource], resource: u32) -> Result<Value, AllocError>
    ensures { IfOk result (λ value. view value ≡ spec.step_data resources.now resource) }
{
    json!(in alloc; resource_name(resources, resource))
}

fn unit_name(units: &[Unit], number: u32) -> &str
    ensures { result.now ≡ spec.unit_name units.now number }
{
    match units.get(number as usize) {
        Some(unit) => unit.name.as_str(),
        None => "",
    }
}

fn resource_name(resources: &[Resource], number: u32) -> &str
    ensures { result.now ≡ spec.resource_name resources.now number }
{
    match resources.get(number as usize) {
        Some(resource) => resource.name.as_str(),
        None => "",
    }
}
