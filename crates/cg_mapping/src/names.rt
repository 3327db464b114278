//! Looks up the names of a mapping's file.
ghost use Rattle.std.specs.Prelude.{◌≡◌};
ghost use Rattle.cg_reading.specs.Items.{all_of, all_or_first};
ghost use Rattle.cg_reading.specs.Reads.{IsRead, IsReadAt};
ghost use Rattle.cg_mapping.specs.Names as spec;

use crate::directory::Directory;
use crate::fault::MappingPlace;
use crate::named::{NamedMapping, NodePlace};
use crate::written::{WrittenMapping, WrittenPlace, WrittenRoute};
use cg_model::{Items, Name, Place, Route, Words};
use cg_reading::{Misfit, WRONG_SHAPE};
use std::alloc::Global;

/// Returns the mapping that the names denote, or the first place with a name that denotes nothing.
#[tactic(auto, unfolding(crate::specs::Names::named_of))]
pub fn named_of(
    alloc: Global,
    directory: &Directory,
    written: &WrittenMapping,
) -> Result<NamedMapping, Misfit<MappingPlace>>
    ensures { IsReadAt (spec.named_of directory.now.arch directory.now.kernel written.now) result }
{
    let places = places_of(alloc, directory, written.places.as_slice()).map_err(|misfit| misfit.at(
        MappingPlace::Place,
    ))?;
    let routes = routes_of(alloc, directory, written.routes.as_slice()).map_err(|misfit| misfit.at(
        MappingPlace::Route,
    ))?;
    Ok(NamedMapping {
        ii: written.ii,
        places,
        routes,
    })
}

fn places_of(
    alloc: Global,
    directory: &Directory,
    written: &[WrittenPlace],
) -> Result<Items<NodePlace>, Misfit<usize>>
    ensures { IsReadAt (all_or_first (spec.place_of directory.now.arch directory.now.kernel) 0 written.now) result }
{
    let mut places = Vec::new(alloc);
    for (number, place) in written.iter().enumerate() {
        match place_of(directory, place) {
            Some(place) => places.push(place)?,
            None => return Err(Misfit::WrongShape(number)),
        }
    }
    Ok(Items::new(places))
}

fn routes_of(
    alloc: Global,
    directory: &Directory,
    written: &[WrittenRoute],
) -> Result<Items<Route>, Misfit<usize>>
    ensures { IsReadAt (all_or_first (spec.route_of directory.now.arch directory.now.kernel) 0 written.now) result }
{
    let mut routes = Vec::new(alloc);
    for (number, route) in written.iter().enumerate() {
        match route_of(alloc, directory, route) {
            Ok(route) => routes.push(route)?,
            Err(Misfit::Memory) => return Err(Misfit::Memory),
            Err(Misfit::WrongShape(_)) => return Err(Misfit::WrongShape(number)),
        }
    }
    Ok(Items::new(routes))
}

fn place_of(directory: &Directory, written: &WrittenPlace) -> Option<NodePlace>
    ensures { result ≡ spec.place_of directory.now.arch directory.now.kernel written.now }
{
    let node = directory.node_number(written.node.as_str())?;
    let unit = directory.unit_number(written.unit.as_str())?;
    Some(NodePlace {
        node,
        place: Place {
            unit,
            time: written.time,
        },
    })
}

fn route_of(
    alloc: Global,
    directory: &Directory,
    written: &WrittenRoute,
) -> Result<Route, Misfit<()>>
    ensures { IsRead (spec.route_of directory.now.arch directory.now.kernel written.now) result }
{
    let node = end_of(directory, written).ok_or(WRONG_SHAPE)?;
    let path = path_of(alloc, directory, written.path.as_slice())?;
    Ok(Route {
        node,
        arg: written.arg,
        path,
    })
}

/// Returns the node to which a route goes, where the operand is an edge.
fn end_of(directory: &Directory, written: &WrittenRoute) -> Option<u32>
    ensures { result ≡ spec.end_at directory.now.kernel written.now.arg (spec.node_number directory.now.kernel written.now.to) }
{
    match directory.node_number(written.to.as_str()) {
        Some(node) => if directory.takes_edge(node, written.arg) {
            Some(node)
        } else {
            None
        },
        None => None,
    }
}

fn path_of(alloc: Global, directory: &Directory, names: &[Name]) -> Result<Words, Misfit<()>>
    ensures { IsRead (all_of (spec.resource_number directory.now.arch) names.now) result }
{
    let mut path = Vec::new(alloc);
    for name in names {
        path.push(directory.resource_number(name.as_str()).ok_or(WRONG_SHAPE)?)?;
    }
    Ok(Words::new(path))
}
