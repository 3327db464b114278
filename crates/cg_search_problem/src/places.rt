//! The places of nodes, and the price of placing one more node there.

use crate::lists::{count, number_at, raise};
use crate::problem::slot;
use cg_model::Place;
use std::alloc::{AllocError, Global};

/// The base of the price of a slot of a unit that has a node, relative to the prices of wires and registers of routes.
const BASE: u32 = 16;

/// The number of times that each node in a slot adds the base and the history of the slot to its price.
const FACTOR: u32 = 3;

/// The amount by which the history of a slot of a unit grows in each sweep in which several nodes begin in it.
const AGE: u32 = 2;

/// The places of nodes at an interval. A unit may begin several nodes in one slot.
#[derive(Drop)]
pub struct Places {
    ii: u32,
    places: Vec<Option<Place>>,
    counts: Vec<u32>,
    histories: Vec<u32>,
    /// The number of nodes beyond one in a unit's slot, over all slots.
    excess: u32,
    /// The number of nodes without a place.
    missing: u32,
}

impl Places {
    /// Returns places for `nodes` nodes on `units` units at the interval `ii`, with no node placed.
    pub fn new(alloc: Global, nodes: usize, units: usize, ii: u32) -> Result<Places, AllocError> {
        let slots = units.saturating_mul(ii as usize);
        let places = nowhere(alloc, nodes)?;
        let missing = count(places.as_slice());
        Ok(Places {
            ii,
            places,
            counts: vec![in alloc; 0u32; slots]?,
            histories: vec![in alloc; 0u32; slots]?,
            excess: 0,
            missing,
        })
    }

    /// Returns the place of `node`, if it has one.
    pub fn at(&self, node: u32) -> Option<Place> {
        match self.places.get(node as usize) {
            Some(place) => *place,
            None => None,
        }
    }

    /// Returns the number of the slot of the unit in which `place` is.
    fn entry(&self, place: Place) -> usize {
        let first = (place.unit as usize).saturating_mul(self.ii as usize);
        first.saturating_add(slot(self.ii, place.time) as usize)
    }

    /// Puts `node`, which is lifted, at `place`.
    pub fn put(&mut self, node: u32, place: Place) {
        if let Some(standing) = self.places.get_mut(node as usize) {
            *standing = Some(place);
            self.missing = self.missing.saturating_sub(1);
            self.enter(place);
        }
    }

    /// Counts one more node in the slot of `place`.
    fn enter(&mut self, place: Place) {
        let entry = self.entry(place);
        if let Some(count) = self.counts.get_mut(entry) {
            if *count > 0 {
                self.excess = self.excess.saturating_add(1);
            }
            *count = count.saturating_add(1);
        }
    }

    /// Lifts `node`.
    pub fn lift(&mut self, node: u32) {
        if let Some(place) = self.at(node) {
            self.leave(place);
            self.missing = self.missing.saturating_add(1);
        }
        if let Some(standing) = self.places.get_mut(node as usize) {
            *standing = None;
        }
    }

    /// Moves `node` a whole interval later, or sooner, if it has a place. Its slot stays the same.
    pub fn shift(&mut self, node: u32, is_later: bool) {
        if let Some(place) = self.at(node) {
            self.lift(node);
            self.put(
                node,
                Place {
                    unit: place.unit,
                    time: shifted(place.time, self.ii, is_later),
                },
            );
        }
    }

    /// Counts one node less in the slot of `place`.
    fn leave(&mut self, place: Place) {
        let entry = self.entry(place);
        if let Some(count) = self.counts.get_mut(entry) {
            *count = count.saturating_sub(1);
            if *count > 0 {
                self.excess = self.excess.saturating_sub(1);
            }
        }
    }

    /// Returns the price of `place` for a node.
    pub fn price(&self, place: Place) -> u32 {
        let entry = self.entry(place);
        let history = number_at(self.histories.as_slice(), entry);
        price_of(history, number_at(self.counts.as_slice(), entry))
    }

    /// Checks whether another node is placed in the unit's slot of `node`.
    pub fn is_shared(&self, node: u32) -> bool {
        match self.at(node) {
            Some(place) => number_at(self.counts.as_slice(), self.entry(place)) > 1,
            None => false,
        }
    }

    /// Returns the number of nodes beyond one in a unit's slot, over all slots.
    pub fn excess(&self) -> u32 {
        self.excess
    }

    /// Returns the number of nodes without a place.
    pub fn missing(&self) -> u32 {
        self.missing
    }

    /// Returns the time of each node, 0 where it has no place.
    pub fn times(&self, alloc: Global) -> Result<Vec<u32>, AllocError> {
        let mut times = Vec::with_capacity(alloc, self.places.len())?;
        for place in &self.places {
            times.push(time_of(*place))?;
        }
        Ok(times)
    }

    /// Returns the least time of a node, 0 where none is placed.
    pub fn least_time(&self) -> u32 {
        let mut least = None;
        for place in &self.places {
            least = sooner(least, *place);
        }
        least.unwrap_or(0)
    }

    /// Makes slots in which several nodes begin dearer.
    pub fn age(&mut self) {
        for entry in 0..self.counts.len() {
            self.age_at(entry);
        }
    }

    /// Makes slot number `entry` dearer where several nodes begin in it.
    fn age_at(&mut self, entry: usize) {
        if number_at(self.counts.as_slice(), entry) > 1 {
            raise(&mut self.histories, entry, AGE);
        }
    }

    /// Resets the prices of slots.
    pub fn forget(&mut self) {
        self.histories.fill(0);
    }
}

/// Returns no place for each of `nodes` nodes.
fn nowhere(alloc: Global, nodes: usize) -> Result<Vec<Option<Place>>, AllocError> {
    let mut places = Vec::new(alloc);
    for _ in 0..nodes {
        places.push(None)?;
    }
    Ok(places)
}

/// Returns the time `cycles` cycles later than `time`, or sooner.
pub fn shifted(time: u32, cycles: u32, is_later: bool) -> u32 {
    if is_later {
        time.saturating_add(cycles)
    } else {
        time.saturating_sub(cycles)
    }
}

/// Returns the time of `place`, 0 where there is none.
fn time_of(place: Option<Place>) -> u32 {
    match place {
        Some(place) => place.time,
        None => 0,
    }
}

/// Returns the price of a slot by its `history` and the `count` of nodes in it.
fn price_of(history: u32, count: u32) -> u32 {
    let each = history.saturating_add(BASE).saturating_mul(FACTOR);
    history.saturating_add(each.saturating_mul(count))
}

/// Returns the sooner of the time `least` and that of `place`, where there are both; else the one there is.
fn sooner(least: Option<u32>, place: Option<Place>) -> Option<u32> {
    match (least, place) {
        (Some(time), Some(place)) => Some(time.min(place.time)),
        (None, Some(place)) => Some(place.time),
        (least, None) => least,
    }
}
