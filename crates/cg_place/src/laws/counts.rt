//! The excess of units, counted over all places.
ghost use Rattle.std.specs.Prelude.{◌≡◌, ◌<◌, ◌≤◌, length, count_by};
ghost use Rattle.cg_model.specs.Limits.{most_contexts, most_nodes};
ghost use Rattle.cg_place.specs.Counts as spec;

use cg_arch::Arch;
use cg_model::Place;

/// Returns the number of nodes beyond one in a slot of a unit, summed over all slots and units.
pub(crate) fn unit_excess(arch: &Arch, places: &[Place], ii: u32) -> u32
    requires some { 0 < ii }
    requires few { ii ≤ most_contexts }
    requires nodes { length places.now ≤ most_nodes }
    ensures { result ≡ spec.unit_excess arch.now ii places.now }
{
    let mut excess = 0;
    for unit in 0..arch.units().len() {
        excess += excess_on(places, ii, unit as u32);
    }
    excess
}

/// Returns the number of nodes beyond one in a slot of `unit`, summed over its slots.
fn excess_on(places: &[Place], ii: u32, unit: u32) -> u32
    requires some { 0 < ii }
    requires few { ii ≤ most_contexts }
    requires nodes { length places.now ≤ most_nodes }
    ensures value { result ≡ spec.excess_on ii places.now unit }
    ensures small { result ≤ 65536 }
{
    let mut excess = 0;
    for slot in 0..ii {
        excess += count_at(places, ii, unit, slot).saturating_sub(1);
    }
    excess
}

/// Returns the number of nodes that begin on `unit` in `slot`.
fn count_at(places: &[Place], ii: u32, unit: u32, slot: u32) -> u32
    requires some { 0 < ii }
    requires nodes { length places.now ≤ most_nodes }
    ensures value { result ≡ count_by (spec.stands_at ii unit slot) places.now }
    ensures small { result ≤ most_nodes }
{
    places
        .iter()
        .filter(|place| place.unit == unit && place.time % ii == slot)
        .count() as u32
}
