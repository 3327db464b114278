//! The claims above one, counted by the positions of all routes.
ghost use Rattle.std.specs.Prelude.{◌≡◌, ◌%◌, ◌<◌, ◌∷◌, ◌++◌, List, [], IfOk, OnOk, length, map, replicate, slice_index_or, slice_set};
ghost use Rattle.std.specs.List.{list_any};
ghost use Rattle.cg_model.specs.Mapping.{Position, positions};
ghost use Rattle.cg_check.specs.Claims.{position_of};
ghost use Rattle.cg_search_respond.specs.Faults as spec;
ghost use Rattle.cg_search_respond.specs.Kept.{HasClaims, list_of as list_index};

use cg_arch::Arch;
use cg_check::Stop;
use cg_model::{Items, Kernel, Mapping};
use cg_violations::all_stops;
use std::alloc::{AllocError, Global};

/// The greatest number of lists less one: the number of resources in all slots of an architecture of 4,096 resources
/// and 64 contexts.
const MOST_LISTS: usize = 262_144;

/// Returns the number of the list, of `count`, for `stop` at the interval `ii`.
#[tactic(auto, unfolding(crate::specs::Kept::list_of))]
fn list_of(count: usize, ii: u32, stop: Stop) -> usize
    requires some { 0 < count }
    requires interval { 0 < ii }
    ensures value { result ≡ list_index count ii stop.resource (stop.time % ii) }
    ensures below { result < count }
{
    let slot = (stop.time % u64::from(ii)) as usize;
    (stop.resource as usize)
        .wrapping_mul(ii as usize)
        .wrapping_add(slot)
        % count
}

/// Checks whether `stop` is one of the claims `held`.
fn is_claimed(held: &[Stop], stop: Stop) -> bool
    ensures { result ≡ list_any (λ s. spec.same_claim (position_of stop) (position_of s)) held.now }
{
    held.iter().any(|claim| {
        stop.resource == claim.resource && (stop.source == claim.source && stop.time == claim.time)
    })
}

/// Checks whether one of the claims `held` is on the resource of `stop` in its slot of the interval `ii`.
fn is_met(held: &[Stop], ii: u32, stop: Stop) -> bool
    requires { 0 < ii }
    ensures { result ≡ list_any (λ s. spec.meets ii (position_of stop) (position_of s)) held.now }
{
    held.iter().any(|claim| {
        stop.resource == claim.resource && stop.time % u64::from(ii) == claim.time % u64::from(ii)
    })
}

/// Adds `stop` to the list of `lists` at index `at`.
fn keep(lists: &mut [Items<Stop>], at: usize, stop: Stop) -> Result<(), AllocError>
    requires { at < length lists.old }
    ensures { OnOk result (lists.new ≡ slice_set lists.old at (slice_index_or lists.old at [] ++ stop ∷ [])) }
{
    lists[at].push(stop)?;
    Ok(())
}

/// Keeps the claim of `stop` in `lists`, unless it is kept already, and returns whether it is one above the first on its
/// resource in its slot of the interval `ii`.
fn claim(lists: &mut [Items<Stop>], ii: u32, stop: Stop) -> Result<bool, AllocError>
    requires some { 0 < length lists.old }
    requires interval { 0 < ii }
    ensures adds { IfOk result (λ adds. (before : List Position) → HasClaims ii before lists.old → adds ≡ spec.adds_claim ii before (position_of stop)) }
    ensures kept { OnOk result ((before : List Position) → HasClaims ii before lists.old → HasClaims ii (before ++ position_of stop ∷ []) lists.new) }
{
    let at = list_of(lists.len(), ii, stop);
    let held = lists[at].as_slice();
    if is_claimed(held, stop) {
        return Ok(false);
    }
    let adds = is_met(held, ii, stop);
    keep(lists, at, stop)?;
    Ok(adds)
}

/// Returns `count` empty lists.
fn no_claims(alloc: Global, count: usize) -> Result<Vec<Items<Stop>>, AllocError>
    ensures { IfOk result (λ lists. lists.items ≡ replicate count []) }
{
    let mut lists = Vec::new(alloc);
    for _ in 0..count {
        lists.push(Items::new(Vec::new(alloc)))?;
    }
    Ok(lists)
}

/// Counts the claims above one of `stops` at the interval `ii`, by the empty `lists`.
fn count_claims(lists: &mut [Items<Stop>], ii: u32, stops: &[Stop]) -> Result<u64, AllocError>
    requires interval { 0 < ii }
    requires none { HasClaims ii [] lists.old }
    ensures { IfOk result (λ n. n ≡ spec.count_after (spec.adds_claim ii) [] (map position_of stops.now)) }
{
    let mut count = 0;
    for stop in stops {
        if claim(lists, ii, *stop)? {
            count += 1;
        }
    }
    Ok(count)
}

/// Counts the claims above one on the resources in the slots of `mapping`, a mapping of `kernel` on `arch`.
pub(crate) fn extra_claims(
    alloc: Global,
    arch: &Arch,
    kernel: &Kernel,
    mapping: &Mapping,
) -> Result<u64, AllocError>
    requires { 0 < mapping.now.ii }
    ensures { IfOk result (λ n. n ≡ spec.count_after (spec.adds_claim mapping.now.ii) [] (positions arch.now kernel.now mapping.now)) }
{
    let stops = all_stops(alloc, arch, kernel, mapping)?;
    let mut lists = no_claims(alloc, stops.len().min(MOST_LISTS) + 1)?;
    count_claims(&mut lists, mapping.ii(), &stops)
}
