//! The faults of a mapping, counted by its places and routes alone.
ghost use Rattle.std.specs.Prelude.{◌≡◌, ◌+◌, ◌*◌, ◌-◌, ◌^◌, ◌<◌, min, max, [], IfOk, count_by};
ghost use Rattle.cg_model.specs.Mapping.{place as place_of};
ghost use Rattle.cg_check.specs.Rules.{is_shared};
ghost use Rattle.cg_search_respond.specs.Faults as spec;

use crate::claims::extra_claims;
use crate::faults::{LOST, SHARED};
use cg_arch::Arch;
use cg_check::is_after;
use cg_model::{Kernel, Mapping, OrderEdge, Place, Route};
use std::alloc::{AllocError, Global};

/// Checks whether `place` is on a unit of `arch`.
fn is_placed(arch: &Arch, place: Place) -> bool
    ensures { result ≡ spec.is_placed arch.now place }
{
    (place.unit as usize) < arch.units().len()
}

/// Checks whether one of the places `earlier` has the unit and the slot of `place` at the interval `ii`.
fn is_among(earlier: &[Place], ii: u32, place: Place) -> bool
    requires { 0 < ii }
    ensures { result ≡ is_shared ii earlier.now place }
{
    earlier.iter().any(|other| other.unit == place.unit && other.time % ii == place.time % ii)
}

/// Checks whether `place` is on a unit of `arch` in a slot of the interval `ii` in which one of the places `earlier` is.
fn adds_node(arch: &Arch, ii: u32, earlier: &[Place], place: Place) -> bool
    requires { 0 < ii }
    ensures { result ≡ spec.adds_node arch.now ii earlier.now place }
{
    is_placed(arch, place) && is_among(earlier, ii, place)
}

/// Counts the nodes above one in the slots of units of `arch` at the interval `ii`, by the places of all nodes.
fn shared_nodes(arch: &Arch, ii: u32, places: &[Place]) -> u64
    requires { 0 < ii }
    ensures { result ≡ spec.count_after (spec.adds_node arch.now ii) [] places.now }
{
    let mut count = 0;
    for node in 0..places.len() {
        if adds_node(arch, ii, &places[..node], places[node]) {
            count += 1;
        }
    }
    count
}

/// Counts the nodes that aren't on a unit of `arch`.
fn unplaced_nodes(arch: &Arch, places: &[Place]) -> usize
    ensures { result ≡ count_by (spec.is_unplaced arch.now) places.now }
{
    places
        .iter()
        .filter(|place| !is_placed(arch, **place))
        .count()
}

/// Checks whether `route` is empty.
fn is_unrouted(route: &Route) -> bool
    ensures { result ≡ spec.is_unrouted route.now }
{
    route.path.as_slice().len() == 0
}

/// Counts the routes that are empty.
fn unrouted_edges(routes: &[Route]) -> usize
    ensures { result ≡ count_by spec.is_unrouted routes.now }
{
    routes.iter().filter(|route| is_unrouted(*route)).count()
}

/// Returns the place of `node`; past the last node, unit 0 in cycle 0.
fn place(mapping: &Mapping, node: u32) -> Place
    ensures { result ≡ place_of mapping.now node }
{
    match mapping.places().get(node as usize) {
        Some(place) => *place,
        None => Place { unit: 0, time: 0 },
    }
}

/// Checks whether the nodes of `edge` are on units of `arch`, and its target doesn't begin after its source.
fn is_broken(arch: &Arch, mapping: &Mapping, edge: &OrderEdge) -> bool
    ensures { result ≡ spec.is_broken arch.now mapping.now edge.now }
{
    is_placed(arch, place(mapping, edge.from))
        && (is_placed(arch, place(mapping, edge.to)) && !is_after(mapping, edge))
}

/// Counts the broken order edges of `kernel`.
fn broken_edges(arch: &Arch, kernel: &Kernel, mapping: &Mapping) -> usize
    ensures { result ≡ count_by (spec.is_broken arch.now mapping.now) kernel.now.order }
{
    kernel
        .order()
        .iter()
        .filter(|edge| is_broken(arch, mapping, *edge))
        .count()
}

/// Returns the faults by the number of `claims` above one, the number of nodes above one in a unit's slot, `shared`, and
/// the number of nodes and edges that are `lost`: at least 1, and at most the greatest word.
fn weighted(claims: u64, shared: u64, lost: u128) -> u32
    requires { lost < 2 ^ 66 }
    ensures { result ≡ min (2 ^ 32 - 1) (max 1 (claims + 3 * shared + 5 * lost)) }
{
    let weight = claims as u128 + SHARED as u128 * shared as u128 + LOST as u128 * lost;
    if weight == 0 {
        1
    } else if weight < u32::MAX as u128 {
        weight as u32
    } else {
        u32::MAX
    }
}

/// Counts the faults of `mapping`, a mapping of `kernel` on `arch` that isn't legal.
#[tactic(auto, unfolding(crate::specs::Faults::faults_of, crate::specs::Faults::weight_of))]
pub(crate) fn mapping_faults(
    alloc: Global,
    arch: &Arch,
    kernel: &Kernel,
    mapping: &Mapping,
) -> Result<u32, AllocError>
    requires { 0 < mapping.now.ii }
    ensures { IfOk result (λ n. n ≡ spec.faults_of arch.now kernel.now mapping.now) }
{
    let claims = extra_claims(alloc, arch, kernel, mapping)?;
    let shared = shared_nodes(arch, mapping.ii(), mapping.places());
    let unplaced = unplaced_nodes(arch, mapping.places());
    let unrouted = unrouted_edges(mapping.routes());
    let broken = broken_edges(arch, kernel, mapping);
    let lost = unplaced as u128 + unrouted as u128 + broken as u128;
    Ok(weighted(claims, shared, lost))
}
