//! The nodes that meet on a unit in a slot, and the positions that meet on a resource in a slot.
ghost use Rattle.std.specs.Prelude.{◌≡◌, ◌&&◌, ℕ, Some, None, not, map, option_map, if◌then◌else◌};
ghost use Rattle.cg_model.specs.First.{first_such};
ghost use Rattle.cg_model.specs.Mapping.{place as place_of, same_from as same_from_by};
ghost use Rattle.cg_check.specs.Rules.{is_on as is_on_by};
ghost use Rattle.cg_check.specs.Claims.{position_of, alike as alike_by};
ghost use Rattle.cg_violations.specs.Faults as spec;

use crate::sharing::{are_one, slot_of};
use cg_check::{Sharing, Stop};
use cg_model::{Mapping, Place};

/// A resource in a slot of an interval.
#[derive(Clone, Copy)]
pub(crate) struct Spot {
    /// The interval.
    pub ii: u32,
    /// The number of the resource.
    pub resource: usize,
    /// The slot.
    pub slot: usize,
}

/// Returns the place of `node`; past the last node, unit 0 in cycle 0.
pub(crate) fn place(mapping: &Mapping, node: usize) -> Place
    ensures { result ≡ place_of mapping.now node }
{
    match mapping.places().get(node) {
        Some(place) => *place,
        None => Place { unit: 0, time: 0 },
    }
}

/// Returns `earlier`, if it has the unit and the slot of `node`.
fn meeting_at(mapping: &Mapping, node: usize, earlier: usize) -> Option<usize>
    ensures { result ≡ (if spec.meets mapping.now node earlier then Some earlier else None) }
{
    if are_one(place(mapping, earlier), place(mapping, node), mapping.ii()) {
        Some(earlier)
    } else {
        None
    }
}

/// Returns the first node before `node` that has its unit and its slot.
pub(crate) fn first_meeting(mapping: &Mapping, node: usize) -> Option<usize>
    ensures { result ≡ spec.first_meeting mapping.now node }
{
    for earlier in 0..node {
        let found = meeting_at(mapping, node, earlier);
        if found.is_some() {
            return found;
        }
    }
    None
}

/// Returns whether `stop` is on the resource of `spot` in its slot.
fn is_on(spot: Spot, stop: Stop) -> bool
    ensures { result ≡ is_on_by spot.ii spot.resource spot.slot (position_of stop) }
{
    stop.resource as usize == spot.resource && slot_of(stop.time, spot.ii) as usize == spot.slot
}

/// Returns whether two values come from one resource, or both begin their paths.
fn same_from(first: Option<u32>, second: Option<u32>) -> bool
    ensures { result ≡ same_from_by first second }
{
    match (first, second) {
        (None, None) => true,
        (Some(first), Some(second)) => first == second,
        _ => false,
    }
}

/// Returns whether two values share what `sharing` requires.
fn alike(sharing: Sharing, first: Stop, second: Stop) -> bool
    ensures { result ≡ alike_by sharing (position_of first) (position_of second) }
{
    match sharing {
        Sharing::Value => first.source == second.source && first.time == second.time,
        Sharing::Way => same_from(first.from, second.from),
    }
}

/// Returns the first of `stops` at `spot`.
pub(crate) fn first_on(stops: &[Stop], spot: Spot) -> Option<Stop>
    ensures { option_map position_of result ≡ first_such (is_on_by spot.ii spot.resource spot.slot) (map position_of stops.now) }
{
    for stop in stops {
        if is_on(spot, *stop) {
            return Some(*stop);
        }
    }
    None
}

/// Returns whether `stop` is at `spot` and doesn't share with `first` what `sharing` requires.
fn is_apart(spot: Spot, sharing: Sharing, first: Stop, stop: Stop) -> bool
    ensures { result ≡ (is_on_by spot.ii spot.resource spot.slot (position_of stop) && not (alike_by sharing (position_of first) (position_of stop))) }
{
    is_on(spot, stop) && !alike(sharing, first, stop)
}

/// Returns the first of `stops` at `spot` that doesn't share with `first` what `sharing` requires.
fn first_apart(stops: &[Stop], spot: Spot, sharing: Sharing, first: Stop) -> Option<Stop>
    ensures { option_map position_of result ≡ first_such (λ q. is_on_by spot.ii spot.resource spot.slot q && not (alike_by sharing (position_of first) q)) (map position_of stops.now) }
{
    for stop in stops {
        if is_apart(spot, sharing, first, *stop) {
            return Some(*stop);
        }
    }
    None
}

/// Returns the first of `stops` at `spot` that doesn't share with `first`, if there is one, what `sharing` requires.
pub(crate) fn first_unlike(
    stops: &[Stop],
    spot: Spot,
    sharing: Sharing,
    first: Option<Stop>,
) -> Option<Stop>
    ensures { option_map position_of result ≡ spec.first_unlike (alike_by sharing) spot.ii (map position_of stops.now) spot.resource spot.slot (option_map position_of first) }
{
    match first {
        Some(first) => first_apart(stops, spot, sharing, first),
        None => None,
    }
}
