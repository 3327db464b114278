//! The violations of L3: a unit begins at most one node in each slot.
ghost use Rattle.std.specs.Prelude.{◌≡◌, ◌++◌, ◌%◌, ◌+◌, ◌<◌, ◌&&◌, Bool, true, [], eqb, length, take, OnOk, slice_index_or, slice_set};
ghost use Rattle.cg_list_laws.specs.Below.{lists_below};
ghost use Rattle.cg_model.specs.Kernel.{size};
ghost use Rattle.cg_check.specs.Rules.{is_shared};
ghost use Rattle.cg_check.specs.declared.rule.Rule.TheVariants.{L3};
ghost use Rattle.cg_check.specs.Slots.{AreMarks, place_in};
ghost use Rattle.cg_violations.specs.Cells.{shared_violation};
ghost use Rattle.cg_violations.specs.Violations as spec;

use crate::placing::{is_interval, push_if};
use cg_arch::Arch;
use cg_check::{Rule, RulePlace, Violation};
use cg_model::{Kernel, Mapping, Place};
use std::alloc::{AllocError, Global};

/// Returns the slot of the cycle `time` at the interval `ii`; at the interval 0 it is the cycle itself.
pub(crate) fn slot_of(time: u64, ii: u32) -> u64
    ensures { result ≡ time % ii }
{
    if ii == 0 {
        return time;
    }
    time % u64::from(ii)
}

/// Returns whether two places have one unit and one slot of the interval `ii`.
pub(crate) fn are_one(first: Place, second: Place, ii: u32) -> bool
    ensures { result ≡ (eqb first.unit second.unit && eqb (first.time % ii) (second.time % ii)) }
{
    first.unit == second.unit
        && slot_of(u64::from(first.time), ii) == slot_of(u64::from(second.time), ii)
}

/// Returns whether one of `places` has the unit and the slot of `place` at the interval `ii`.
fn is_among(places: &[Place], place: Place, ii: u32) -> bool
    ensures { result ≡ is_shared ii places.now place }
{
    places.iter().any(|earlier| are_one(*earlier, place, ii))
}

/// Sets the mark of `taken` at index `at`, and returns whether it was set.
fn take_slot(taken: &mut [bool], at: usize) -> bool
    requires { at < length taken.old }
    ensures was { (d : Bool) → result ≡ slice_index_or taken.old at d }
    ensures marks { taken.new ≡ slice_set taken.old at true }
{
    let was = taken[at];
    taken[at] = true;
    was
}

/// Takes the slot of `node` at the interval `ii` on its unit, and returns whether an earlier node has it. `taken` has a
/// mark for each slot of each of `units` units, those of a unit adjacent. A unit that doesn't exist has no marks, so
/// that for it all earlier `places` are searched.
fn is_taken(taken: &mut [bool], ii: u32, units: usize, places: &[Place], node: usize) -> bool
    requires interval { 0 < ii }
    requires node { node < length places.now }
    requires marks { AreMarks ii units (take node places.now) taken.old }
    ensures value { result ≡ is_shared ii (take node places.now) (place_in places.now node) }
    ensures marks { AreMarks ii units (take (node + 1) places.now) taken.new }
{
    let place = places[node];
    if place.unit as usize >= units {
        return is_among(&places[..node], place, ii);
    }
    let at = place.unit as usize * ii as usize + (place.time % ii) as usize;
    take_slot(taken, at)
}

/// Adds the violations of L3 to `found`, if L1 is kept.
pub(crate) fn push_shared(
    alloc: Global,
    found: &mut Vec<Violation>,
    arch: &Arch,
    kernel: &Kernel,
    mapping: &Mapping,
) -> Result<(), AllocError>
    requires { length mapping.now.places ≡ size kernel.now }
    ensures { OnOk result (found.new.items ≡ found.old.items ++ spec.violations_by L3 arch.now kernel.now mapping.now) }
{
    if !is_interval(arch, mapping) {
        return Ok(());
    }
    let units = arch.units().len();
    let mut taken = vec![in alloc; false; units * mapping.ii() as usize]?;
    push_places(found, &mut taken, mapping.ii(), units, mapping.places())?;
    Ok(())
}

/// Adds the violations of L3 by `places` to `found`, at the interval `ii` on `units` units. No mark of `taken` is set
/// before.
fn push_places(
    found: &mut Vec<Violation>,
    taken: &mut [bool],
    ii: u32,
    units: usize,
    places: &[Place],
) -> Result<(), AllocError>
    requires interval { 0 < ii }
    requires marks { AreMarks ii units [] taken.old }
    ensures { OnOk result (found.new.items ≡ found.old.items ++ lists_below (shared_violation ii places.now) (length places.now)) }
{
    for node in 0..places.len() {
        let shared = is_taken(taken, ii, units, places, node);
        push_if(found, shared, Rule::L3, RulePlace::Node(node))?;
    }
    Ok(())
}
