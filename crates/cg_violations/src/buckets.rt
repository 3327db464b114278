//! Stops in buckets, so that stops that meet are found without a search through all of them.
ghost use Rattle.std.specs.Prelude.{◌≡◌, ◌<◌, ◌∷◌, ◌++◌, [], IfOk, OnOk, length, map, replicate, slice_index_or, slice_set};
ghost use Rattle.cg_check.specs.Claims.{position_of};
ghost use Rattle.cg_violations.specs.Buckets as spec;

use crate::meeting::Spot;
use crate::sharing::slot_of;
use cg_check::Stop;
use cg_model::Items;
use std::alloc::{AllocError, Global};

/// The greatest number of buckets less one: the number of resources in all slots of an architecture of 4,096 resources
/// and 64 contexts.
const MOST_BUCKETS: usize = 262_144;

/// Stops in buckets by resource and slot.
#[derive(Drop)]
pub(crate) struct Buckets {
    /// The interval.
    pub ii: u32,
    /// The stops of each bucket, in their order.
    pub lists: Vec<Items<Stop>>,
}

/// Returns the number of the bucket, of `count`, for `resource` in `slot` at the interval `ii`.
#[tactic(auto, unfolding(crate::specs::Buckets::bucket_of))]
fn bucket_of(count: usize, ii: u32, resource: usize, slot: usize) -> usize
    requires { 0 < count }
    ensures value { result ≡ spec.bucket_of count ii resource slot }
    ensures below { result < count }
{
    resource.wrapping_mul(ii as usize).wrapping_add(slot) % count
}

/// Returns the number of the bucket, of `count`, for `stop` at the interval `ii`.
fn bucket(count: usize, ii: u32, stop: Stop) -> usize
    requires { 0 < count }
    ensures value { result ≡ spec.bucket count ii (position_of stop) }
    ensures below { result < count }
{
    let slot = slot_of(stop.time, ii) as usize;
    bucket_of(count, ii, stop.resource as usize, slot)
}

/// Returns `count` empty lists.
fn no_stops(alloc: Global, count: usize) -> Result<Vec<Items<Stop>>, AllocError>
    ensures { IfOk result (λ lists. lists.items ≡ replicate count []) }
{
    let mut lists = Vec::new(alloc);
    for _ in 0..count {
        lists.push(Items::new(Vec::new(alloc)))?;
    }
    Ok(lists)
}

/// Adds `stop` to the list of `lists` at index `at`.
fn add_at(lists: &mut [Items<Stop>], at: usize, stop: Stop) -> Result<(), AllocError>
    requires { at < length lists.old }
    ensures { OnOk result (lists.new ≡ slice_set lists.old at (slice_index_or lists.old at [] ++ stop ∷ [])) }
{
    lists[at].push(stop)?;
    Ok(())
}

/// Adds each of `stops` to the list of its bucket at the interval `ii`; `lists` are empty before.
fn add_all(lists: &mut [Items<Stop>], ii: u32, stops: &[Stop]) -> Result<(), AllocError>
    requires some { 0 < length lists.old }
    requires none { spec.HasPositions (length lists.old) ii [] lists.old }
    ensures { OnOk result (spec.HasPositions (length lists.old) ii (map position_of stops.now) lists.new) }
{
    let count = lists.len();
    for stop in stops {
        let at = bucket(count, ii, *stop);
        add_at(lists, at, *stop)?;
    }
    Ok(())
}

impl Buckets {
    /// Distributes `stops` to buckets at the interval `ii`, in one pass. There are about as many buckets as stops, or
    /// one for each resource in each slot if these are fewer.
    pub(crate) fn new(alloc: Global, ii: u32, stops: &[Stop]) -> Result<Buckets, AllocError>
        ensures { IfOk result (λ made. spec.IsFilled ii (map position_of stops.now) made.ii made.lists.items) }
    {
        let count = stops.len().min(MOST_BUCKETS) + 1;
        let mut lists = no_stops(alloc, count)?;
        add_all(&mut lists, ii, stops)?;
        Ok(Buckets { ii, lists })
    }

    /// Returns the stops in the bucket of `spot`.
    pub(crate) fn of(&self, spot: Spot) -> &[Stop]
        requires { 0 < length self.now.lists.items }
        ensures { result.now ≡ slice_index_or self.now.lists.items (spec.bucket_of (length self.now.lists.items) self.now.ii spot.resource spot.slot) [] }
    {
        let lists = self.lists.as_slice();
        let at = bucket_of(lists.len(), self.ii, spot.resource, spot.slot);
        lists[at].as_slice()
    }
}
