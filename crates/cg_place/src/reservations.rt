//! The numbers of nodes that each unit begins in each slot.
ghost use Rattle.std.specs.Prelude.{◌≡◌, ◌<◌};
ghost use Rattle.cg_place.specs.Reservations as spec;

use cg_model::Place;
use std::alloc::{AllocError, Global};
use std::marker::Model;

/// The modulo reservation table (Rau 1994): the number of nodes that each unit begins in each slot, and the number of
/// nodes beyond one in a slot, in all.
#[derive(Drop)]
pub(crate) struct Reservations {
    counts: Vec<u32>,
    excess: u32,
}

impl Model for Reservations {
    ghost use Rattle.std.specs.Prelude.{◌≡◌, List, ℕ};
    ghost use Rattle.cg_place.specs.Reservations.{over};

    ghost Value = { List ℕ };

    ghost view = { λ r. r.counts.items };

    ghost invariant = { λ r. r.excess ≡ over r.counts.items };
}

impl Reservations {
    ghost use Rattle.std.specs.Prelude.{◌≡◌, ◌<◌, ◌≤◌, ◌+◌, ◌^◌, All, IfOk, length, replicate, slice_index};
    ghost use Rattle.cg_model.specs.Limits.{most_contexts, most_nodes, most_units};
    ghost use Rattle.cg_place.specs.Reservations as spec;

    /// Returns the table of `entries` entries without nodes.
    fn none(alloc: Global, entries: usize) -> Result<Reservations, AllocError>
        ensures { IfOk result (λ r. r ≡ replicate entries 0) }
    {
        Ok(Reservations {
            counts: vec![in alloc; 0u32; entries]?,
            excess: 0,
        })
    }

    /// Returns the table of the nodes with the given places.
    pub(crate) fn of(
        alloc: Global,
        units: usize,
        interval: u32,
        places: &[Place],
    ) -> Result<Reservations, AllocError>
        requires some { 0 < interval }
        requires few { interval ≤ most_contexts }
        requires units { units ≤ most_units }
        requires nodes { length places.now ≤ most_nodes }
        requires known { All (λ p. p.unit < units) places.now }
        ensures { IfOk result (spec.IsTable units interval places.now) }
    {
        let mut table = Reservations::none(alloc, units * interval as usize)?;
        for place in places {
            table.reserve(entry(interval, *place));
        }
        Ok(table)
    }

    /// Returns the number of nodes beyond one in a slot of a unit, summed over all slots and units.
    pub(crate) fn excess(&self) -> u32
        ensures { result ≡ spec.over self.now }
    {
        self.excess
    }

    /// Adds a node at `entry`.
    pub(crate) fn reserve(&mut self, entry: usize)
        requires known { entry < length self.old }
        requires few { slice_index self.old entry + 1 < 2 ^ 32 }
        requires small { spec.over self.old + 1 < 2 ^ 32 }
        ensures { self.new ≡ spec.raised self.old entry }
    {
        if self.counts[entry] > 0 {
            self.excess += 1;
        }
        self.counts[entry] += 1;
    }

    /// Removes a node at `entry`.
    pub(crate) fn release(&mut self, entry: usize)
        requires known { entry < length self.old }
        requires some { 0 < slice_index self.old entry }
        ensures { self.new ≡ spec.lowered self.old entry }
    {
        self.counts[entry] -= 1;
        if self.counts[entry] > 0 {
            self.excess -= 1;
        }
    }
}

/// Returns the number of the entry of `place`.
pub(crate) fn entry(interval: u32, place: Place) -> usize
    requires { 0 < interval }
    ensures { result ≡ spec.entry interval place }
{
    place.unit as usize * interval as usize + (place.time % interval) as usize
}
