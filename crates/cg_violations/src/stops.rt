//! The positions of all routes, in order.
ghost use Rattle.std.specs.Prelude.{◌≡◌, ◌++◌, ◌∷◌, ◌^◌, ◌<◌, map, IfOk, OnOk};
ghost use Rattle.cg_model.specs.Mapping.{positions_after, of_route, positions};
ghost use Rattle.cg_check.specs.Claims.{position_of, next_of};

use cg_arch::Arch;
use cg_check::{Stop, delay, edge_into, leaves};
use cg_model::{Kernel, Mapping, Route};
use std::alloc::{AllocError, Global};

/// Returns the stop after `stop` on a path that continues to `resource`.
fn next(arch: &Arch, stop: Stop, resource: u32) -> Stop
    requires { stop.time < 2 ^ 63 }
    ensures { result ≡ next_of arch.now stop resource }
{
    Stop {
        source: stop.source,
        resource,
        time: stop.time + delay(arch, resource),
        from: Some(stop.resource),
    }
}

/// Adds the stops of a path to `stops`: `start`, and those on the resources of `links`, to which it continues.
fn push_path(
    stops: &mut Vec<Stop>,
    arch: &Arch,
    start: Stop,
    links: &[u32],
) -> Result<(), AllocError>
    requires { start.time < 2 ^ 33 }
    ensures { OnOk result (map position_of stops.new.items ≡ map position_of stops.old.items ++ (position_of start ∷ positions_after arch.now start.source start.resource start.time links.now)) }
{
    let mut stop = start;
    stops.push(stop)?;
    for resource in links {
        stop = next(arch, stop, *resource);
        stops.push(stop)?;
    }
    Ok(())
}

/// Adds the stops of `route` to `stops`.
fn push_route(
    stops: &mut Vec<Stop>,
    arch: &Arch,
    kernel: &Kernel,
    mapping: &Mapping,
    route: &Route,
) -> Result<(), AllocError>
    ensures { OnOk result (map position_of stops.new.items ≡ map position_of stops.old.items ++ of_route arch.now kernel.now mapping.now route.now) }
{
    if let Some(edge) = edge_into(kernel, route) {
        if let [first, links @ ..] = route.path.as_slice() {
            let start = Stop {
                source: edge.source,
                resource: *first,
                time: leaves(arch, mapping, edge.source),
                from: None,
            };
            push_path(stops, arch, start, links)?;
        }
    }
    Ok(())
}

/// Returns the stops of all routes of `mapping`, in the order of routes and paths.
#[tactic(auto, unfolding(cg_model::specs::Mapping::positions))]
pub fn all_stops(
    alloc: Global,
    arch: &Arch,
    kernel: &Kernel,
    mapping: &Mapping,
) -> Result<Vec<Stop>, AllocError>
    ensures { IfOk result (λ stops. map position_of stops.items ≡ positions arch.now kernel.now mapping.now) }
{
    let mut stops = Vec::new(alloc);
    for route in mapping.routes() {
        push_route(&mut stops, arch, kernel, mapping, route)?;
    }
    Ok(stops)
}
