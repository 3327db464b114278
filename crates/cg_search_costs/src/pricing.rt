//! The claims on resources in slots, and the price of one more claim.
ghost use Rattle.std.specs.Prelude.{◌<◌};

use crate::array::Wiring;
use crate::spot::Spot;
use std::alloc::{AllocError, Global};

/// The claims on resources in slots, and the price of one more claim: the sum of the resource's first price and of 3
/// for each earlier claim above one, sweep by sweep, multiplied by one more than three times the number of claims. It
/// takes about 40 bytes for each resource and slot, and 12 for each claim.
#[derive(Drop)]
pub struct Occupancy {
    spots: Vec<Spot>,
    prices: Vec<u32>,
    resources: u32,
    interval: u32,
    excess: u32,
    ghost some: { 0 < interval },
}

impl Occupancy {
    /// Returns an occupancy without claims, at the interval `ii`.
    pub fn new(alloc: Global, wiring: &Wiring, ii: u32) -> Result<Occupancy, AllocError>
        requires { 0 < ii }
    {
        let mut occupancy = Occupancy {
            spots: Vec::new(alloc),
            prices: Vec::new(alloc),
            resources: wiring.resources() as u32,
            interval: ii,
            excess: 0,
        };
        for _ in 0..ii {
            occupancy.push_slot(alloc, wiring)?;
        }
        Ok(occupancy)
    }

    /// Returns the interval, in cycles.
    #[inline]
    pub fn interval(&self) -> u32
        ensures { 0 < result }
    {
        self.interval
    }

    /// Adds a use of the claim of the value of `source` on `resource` at `time`. After an error the claims are as
    /// before.
    pub fn claim(&mut self, source: u32, resource: u32, time: u32) -> Result<(), AllocError> {
        let place = self.place(resource, time);
        if let Some(spot) = self.spots.get_mut(place) {
            if spot.claim(source, time)? {
                let more = spot.excess().min(1);
                self.excess = self.excess.saturating_add(more);
                self.reprice(place);
            }
        }
        Ok(())
    }

    /// Removes a use of the claim of `source` on `resource` at `time`; does nothing where there is no such claim.
    pub fn release(&mut self, source: u32, resource: u32, time: u32) {
        let place = self.place(resource, time);
        if let Some(spot) = self.spots.get_mut(place) {
            if spot.release(source, time) {
                let less = spot.count().min(1);
                self.excess = self.excess.saturating_sub(less);
                self.reprice(place);
            }
        }
    }

    /// Returns the price of one more claim on each resource in `slot`; empty past the last slot.
    #[inline]
    pub fn prices(&self, slot: u32) -> &[u32] {
        let start = slot as usize * self.resources as usize;
        match self.prices.get(start..start + self.resources as usize) {
            Some(prices) => prices,
            None => &[],
        }
    }

    /// Returns the price of a claim of the value of `source` on `resource` at `time`: 0 where the claim exists already,
    /// else the price in that slot. Past the last resource it is the greatest number.
    #[inline]
    pub fn due(&self, source: u32, resource: u32, time: u32) -> u32 {
        match self.spots.get(self.place(resource, time)) {
            Some(spot) if spot.is_claimed(source, time) => 0,
            Some(spot) => spot.price(),
            None => u32::MAX,
        }
    }

    /// Checks whether `resource` has more than one claim in the slot of `time`.
    #[inline]
    pub fn is_shared(&self, resource: u32, time: u32) -> bool {
        match self.spots.get(self.place(resource, time)) {
            Some(spot) => spot.excess() > 0,
            None => false,
        }
    }

    /// Returns the number of claims above one, over all resources and slots.
    #[inline]
    pub fn excess(&self) -> u32 {
        self.excess
    }

    /// Increases the price of each resource in each slot from now on, by its claims above one.
    pub fn age(&mut self) {
        for place in 0..self.spots.len() {
            self.age_at(place);
        }
    }

    /// Removes all claims and histories.
    pub fn clear(&mut self) {
        for place in 0..self.spots.len() {
            self.clear_at(place);
        }
        self.excess = 0;
    }

    /// Returns the number of `resource` in the slot of `time`; a number past all entries for a resource past the last.
    #[inline]
    fn place(&self, resource: u32, time: u32) -> usize {
        if resource < self.resources {
            let slot = time % self.interval;
            slot as usize * self.resources as usize + resource as usize
        } else {
            self.spots.len()
        }
    }

    /// Adds a slot.
    fn push_slot(&mut self, alloc: Global, wiring: &Wiring) -> Result<(), AllocError> {
        for resource in 0..self.resources {
            let spot = Spot::new(alloc, wiring.base(resource));
            self.prices.push(spot.price())?;
            self.spots.push(spot)?;
        }
        Ok(())
    }

    /// Updates the price of a place.
    #[inline]
    fn reprice(&mut self, place: usize) {
        if let Some(spot) = self.spots.get(place) {
            let price = spot.price();
            set(&mut self.prices, place, price);
        }
    }

    /// Ages a place.
    fn age_at(&mut self, place: usize) {
        if let Some(spot) = self.spots.get_mut(place) {
            if spot.excess() > 0 {
                spot.age();
                self.reprice(place);
            }
        }
    }

    /// Removes all claims and the history of a place.
    fn clear_at(&mut self, place: usize) {
        if let Some(spot) = self.spots.get_mut(place) {
            spot.clear();
            self.reprice(place);
        }
    }
}

/// Writes `number` at `place`, if there is such a place.
#[inline]
fn set(numbers: &mut [u32], place: usize, number: u32) {
    if let Some(old) = numbers.get_mut(place) {
        *old = number;
    }
}
