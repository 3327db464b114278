//! Finds the first unknown keys, and the first numbers that are too large.
ghost use Rattle.std.specs.Prelude.{◌≡◌};
ghost use Rattle.std.specs.List.{position_from};
ghost use Rattle.cg_mapping.specs.Rules as spec;

use crate::fault::MappingPlace;
use crate::named::{NamedMapping, NodePlace};
use crate::written::{WrittenMapping, WrittenPlace, WrittenRoute};
use cg_model::{LATEST_TIME, Route};

/// The greatest interval of a mapping's file.
const GREATEST_INTERVAL: u32 = 65_535;

/// The greatest number of resources of a path.
const LONGEST_PATH: usize = 65_535;

/// Returns the first object with a key that the format doesn't have there.
#[tactic(auto, unfolding(crate::specs::Rules::unknown_key))]
pub fn unknown_key(written: &WrittenMapping) -> Option<MappingPlace>
    ensures { result ≡ spec.unknown_key written.now }
{
    let place = place_with_other(written.places.as_slice());
    let route = route_with_other(written.routes.as_slice());
    first_place(written.other_keys, place, route)
}

/// Returns the first number that is too large.
#[tactic(auto, unfolding(crate::specs::Rules::too_large))]
pub fn too_large(named: &NamedMapping) -> Option<MappingPlace>
    ensures { result ≡ spec.too_large named.now }
{
    let place = late_place(named.places.as_slice());
    let route = long_route(named.routes.as_slice());
    first_place(named.ii > GREATEST_INTERVAL, place, route)
}

fn first_place(file: bool, place: Option<usize>, route: Option<usize>) -> Option<MappingPlace>
    ensures { result ≡ spec.first_of file place route }
{
    if file {
        return Some(MappingPlace::File);
    }
    match place {
        Some(number) => Some(MappingPlace::Place(number)),
        None => route.map(MappingPlace::Route),
    }
}

fn place_with_other(places: &[WrittenPlace]) -> Option<usize>
    ensures { result ≡ position_from spec.place_has_other 0 places.now }
{
    for (number, place) in places.iter().enumerate() {
        if place.other_keys {
            return Some(number);
        }
    }
    None
}

fn route_with_other(routes: &[WrittenRoute]) -> Option<usize>
    ensures { result ≡ position_from spec.route_has_other 0 routes.now }
{
    for (number, route) in routes.iter().enumerate() {
        if route.other_keys {
            return Some(number);
        }
    }
    None
}

fn late_place(places: &[NodePlace]) -> Option<usize>
    ensures { result ≡ position_from spec.is_late 0 places.now }
{
    for (number, found) in places.iter().enumerate() {
        if found.place.time > LATEST_TIME {
            return Some(number);
        }
    }
    None
}

fn long_route(routes: &[Route]) -> Option<usize>
    ensures { result ≡ position_from spec.is_long 0 routes.now }
{
    for (number, route) in routes.iter().enumerate() {
        if route.path.as_slice().len() > LONGEST_PATH {
            return Some(number);
        }
    }
    None
}
