//! Checks for one place for each node, and one route for each edge operand.
ghost use Rattle.std.specs.Prelude.{◌≡◌, ◌≢◌, ◌<◌, ◌*◌, IfOk, length, map};
ghost use Rattle.cg_model.specs.Answers.{Gives};
ghost use Rattle.cg_mapping.specs.Ends.{as_end, node_of, slot_of, AreShort, AreWithin};
ghost use Rattle.cg_mapping.specs.Tally.{IsTally};
ghost use Rattle.cg_mapping.specs.Complete as spec;

use crate::ends::{EdgeOperand, ends_of};
use crate::fault::{Gap, MappingFault};
use crate::named::{NamedMapping, NodePlace};
use crate::tally::{Seen, picked, tally};
use cg_model::{Items, Kernel, Mapping, Name, Node, Place, Route, Words};
use std::alloc::{AllocError, Global};

/// The greatest number of operands of a node.
const MOST_OPERANDS: usize = 3;

/// Returns the mapping with its places and routes in order, or P6 where it isn't complete.
pub fn mapping_of(
    alloc: Global,
    kernel: &Kernel,
    named: &NamedMapping,
) -> Result<Mapping, MappingFault>
    requires { AreShort named.now.routes }
    ensures { Gives MappingFault.Memory result (spec.mapping_of kernel.now named.now) }
{
    let places = places_of(alloc, kernel, named.places.as_slice())?;
    let routes = routes_of(alloc, kernel, named.routes.as_slice())?;
    Ok(Mapping::new(named.ii, places.into_vec(), routes.into_vec()))
}

/// Returns the place of each node in order.
#[tactic(auto, unfolding(crate::specs::Complete::places_of))]
fn places_of(
    alloc: Global,
    kernel: &Kernel,
    named: &[NodePlace],
) -> Result<Items<Place>, MappingFault>
    ensures { Gives MappingFault.Memory result (spec.places_of kernel.now named.now) }
{
    let nodes = kernel.nodes();
    let keys = nodes_of(alloc, named)?;
    let table = tally(alloc, nodes.len(), &keys)?;
    each_place(alloc, nodes, &table, named)
}

fn each_place(
    alloc: Global,
    nodes: &[Node],
    table: &[Seen],
    named: &[NodePlace],
) -> Result<Items<Place>, MappingFault>
    requires { IsTally table.now (length nodes.now) (map node_of named.now) }
    ensures { Gives MappingFault.Memory result (spec.each_place nodes.now named.now) }
{
    let mut places = Vec::new(alloc);
    for number in 0..nodes.len() {
        match picked(table[number], named) {
            Some(found) => places.push(found.place)?,
            None => return Err(node_fault(alloc, nodes, number)),
        }
    }
    Ok(Items::new(places))
}

/// Returns the route to each edge operand in the order of nodes and operands.
#[tactic(auto, unfolding(crate::specs::Complete::routes_of))]
fn routes_of(alloc: Global, kernel: &Kernel, named: &[Route]) -> Result<Items<Route>, MappingFault>
    requires { AreShort named.now }
    ensures { Gives MappingFault.Memory result (spec.routes_of kernel.now named.now) }
{
    let nodes = kernel.nodes();
    let ends = ends_of(alloc, nodes)?;
    let slots = slots_of(alloc, named)?;
    let table = tally(alloc, nodes.len() * MOST_OPERANDS, &slots)?;
    each_route(alloc, nodes, &ends, &table, named)
}

fn each_route(
    alloc: Global,
    nodes: &[Node],
    ends: &[EdgeOperand],
    table: &[Seen],
    named: &[Route],
) -> Result<Items<Route>, MappingFault>
    requires within { AreWithin (length nodes.now) ends.now }
    requires small { length nodes.now < 2000 }
    requires short { AreShort named.now }
    requires table { IsTally table.now (length nodes.now * 3) (map slot_of named.now) }
    ensures { Gives MappingFault.Memory result (spec.each_route nodes.now named.now (map as_end ends.now)) }
{
    let mut routes = Vec::new(alloc);
    for end in ends {
        match picked(table[MOST_OPERANDS * end.node + end.arg], named) {
            Some(found) => routes.push(copy_of(alloc, found)?)?,
            None => return Err(arg_fault(alloc, nodes, end)),
        }
    }
    Ok(Items::new(routes))
}

fn copy_of(alloc: Global, route: &Route) -> Result<Route, AllocError>
    ensures { IfOk result (λ copy. copy ≡ route.now) }
{
    Ok(Route {
        node: route.node,
        arg: route.arg,
        path: Words::new(route.path.as_slice().to_vec(alloc)?),
    })
}

/// Returns the node number of each place.
fn nodes_of(alloc: Global, named: &[NodePlace]) -> Result<Vec<usize>, AllocError>
    ensures { IfOk result (λ keys. keys.items ≡ map node_of named.now) }
{
    let mut keys = Vec::new(alloc);
    for found in named {
        keys.push(found.node as usize)?;
    }
    Ok(keys)
}

/// Returns a distinct number for the end of each route.
fn slots_of(alloc: Global, named: &[Route]) -> Result<Vec<usize>, AllocError>
    ensures { IfOk result (λ keys. keys.items ≡ map slot_of named.now) }
{
    let mut keys = Vec::new(alloc);
    for route in named {
        keys.push(MOST_OPERANDS * route.node as usize + route.arg as usize)?;
    }
    Ok(keys)
}

/// Returns the fault of a node without exactly one place.
fn node_fault(alloc: Global, nodes: &[Node], node: usize) -> MappingFault
    ensures { result ≢ MappingFault.Memory → result ≡ spec.node_fault nodes.now node }
{
    match Name::copy_of(alloc, name_at(nodes, node)) {
        Ok(name) => MappingFault::Incomplete(Gap::Node(name)),
        Err(_) => MappingFault::Memory,
    }
}

/// Returns the fault of an edge operand without exactly one route.
fn arg_fault(alloc: Global, nodes: &[Node], end: &EdgeOperand) -> MappingFault
    ensures { result ≢ MappingFault.Memory → result ≡ spec.arg_fault nodes.now (as_end end.now) }
{
    match Name::copy_of(alloc, name_at(nodes, end.node)) {
        Ok(name) => MappingFault::Incomplete(Gap::Arg(name, end.arg)),
        Err(_) => MappingFault::Memory,
    }
}

/// Returns the name of node `number`.
pub fn name_at(nodes: &[Node], number: usize) -> &str
    ensures { result.now ≡ spec.name_at nodes.now number }
{
    match nodes.get(number) {
        Some(node) => node.name.as_str(),
        None => "",
    }
}
