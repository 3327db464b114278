//! The layers, and the data of each resource in each of them.
ghost use Rattle.std.specs.Prelude.{◌≤◌};

use crate::stand::Stand;
use crate::steps::{bit, place_in, row_of};
use cg_search_costs::{Occupancy, Wiring};
use std::alloc::{AllocError, Global};

/// The value that denotes that there is no way, in place of a price. No price is greater.
pub const UNREACHED: u32 = u32::MAX / 4;

/// The number of bytes that the layers take for each resource in each layer.
pub const ENTRY_BYTES: u64 = 24;

/// The value that denotes that a way begins or ends here, in place of a resource.
pub(crate) const NOWHERE: u32 = u32::MAX;

/// Least prices in layers of time, one layer for each cycle, with the way back. The memory for the greatest number of
/// layers so far is kept, `ENTRY_BYTES` for each resource in each layer.
#[derive(Drop)]
pub struct Layers {
    /// The least price of each resource in each layer, layer after layer.
    prices: Vec<u32>,
    /// The resource from which the way of that price comes, or to which it leads.
    before: Vec<u32>,
    /// The slots and resources that the way may use: two bits are set for each.
    masks: Vec<u128>,
    /// The number of resources.
    width: u32,
    /// The cycle of layer 0: the first one where layers are filled forward, the last one where they are filled backward.
    origin: u32,
    /// The number of layers.
    count: u32,
    /// The last layer in which an existing route is free.
    laid: u32,
    /// The price of entering each resource and going on from there, where layers are filled backward: a wire or a port
    /// in the layer that is filled, a register in the cycle after it.
    entering: Vec<u32>,
}

/// The data of a resource in a layer.
#[derive(Clone, Copy, Debug, PartialEq, Eq)]
pub(crate) struct Entry {
    /// The least price.
    pub price: u32,
    /// The resource from which the way comes, or to which it leads.
    pub before: u32,
    /// The slots and resources that the way may use.
    pub mask: u128,
}

impl Layers {
    /// Returns no layers.
    pub fn new(alloc: Global) -> Layers {
        Layers {
            prices: Vec::new(alloc),
            before: Vec::new(alloc),
            masks: Vec::new(alloc),
            width: 0,
            origin: 0,
            count: 0,
            laid: 0,
            entering: Vec::new(alloc),
        }
    }

    /// Makes layers 0 to `last`, without prices except for `from`, where the value begins in layer 0.
    pub fn begin(&mut self, wiring: &Wiring, from: Stand, last: u32) -> Result<(), AllocError> {
        self.make_blank(wiring, from.time, last)?;
        let entry = Entry {
            price: 0,
            before: NOWHERE,
            mask: 0,
        };
        self.put(place_in(0, from.resource), entry);
        Ok(())
    }

    /// Makes an existing route of the value free, where the layers are begun: branches can only leave it.
    pub fn lay(&mut self, occupancy: &Occupancy, route: &[Stand]) {
        let mut entry = Entry {
            price: 0,
            before: NOWHERE,
            mask: 0,
        };
        for stand in route {
            entry.mask |= bit(stand.resource, stand.time % occupancy.interval());
            let layer = stand.time.wrapping_sub(self.origin);
            if self.holds(layer) {
                self.lay_at(layer, stand.resource, entry);
            }
            entry.before = stand.resource;
        }
    }

    /// Makes a resource in a layer free.
    fn lay_at(&mut self, layer: u32, resource: u32, entry: Entry) {
        self.laid = self.laid.max(layer);
        self.put(self.place(layer, resource), entry);
    }

    /// Closes all layers; their memory is kept.
    pub fn close(&mut self) {
        self.count = 0;
    }

    /// Checks whether there is a layer of that number.
    #[inline]
    pub fn holds(&self, layer: u32) -> bool {
        layer < self.count
    }

    /// Returns the least price of `resource` in `layer`; `UNREACHED` where there is no way, or outside the layers.
    #[inline]
    pub fn price(&self, layer: u32, resource: u32) -> u32
        ensures { result ≤ UNREACHED }
    {
        if resource < self.width && self.holds(layer) {
            self.price_at(self.place(layer, resource)).min(UNREACHED)
        } else {
            UNREACHED
        }
    }

    /// Returns the way to `to`, a port at a time, from its beginning on; empty where there is none. The layers have to be
    /// filled forward.
    pub fn way_to(
        &self,
        alloc: Global,
        wiring: &Wiring,
        to: Stand,
    ) -> Result<Vec<Stand>, AllocError> {
        let mut path = Vec::new(alloc);
        let layer = to.time.wrapping_sub(self.origin);
        if self.price(layer, to.resource) < UNREACHED {
            self.walk_back(wiring, to.resource, layer, &mut path)?;
            path.reverse();
        }
        Ok(path)
    }

    /// Adds the way to a resource in a layer, from there back to its beginning.
    fn walk_back(
        &self,
        wiring: &Wiring,
        to: u32,
        last: u32,
        path: &mut Vec<Stand>,
    ) -> Result<(), AllocError> {
        let mut resource = to;
        let mut layer = last;
        for _ in 0..self.before.len() {
            path.push(Stand {
                resource,
                time: self.origin.saturating_add(layer),
            })?;
            let before = self.before_at(self.place(layer, resource));
            if before == NOWHERE {
                break;
            }
            if wiring.is_register(resource) {
                layer = layer.saturating_sub(1);
            }
            resource = before;
        }
        Ok(())
    }

    /// Adds the stands from the last stand of a path on to the port; nothing where there is no way. The layers have to
    /// be filled backward.
    pub fn way_on(&self, wiring: &Wiring, path: &mut Vec<Stand>) -> Result<(), AllocError> {
        if let Some(stand) = path.last().copied() {
            let layer = self.origin.wrapping_sub(stand.time);
            if self.price(layer, stand.resource) < UNREACHED {
                self.walk_on(wiring, stand.resource, layer, path)?;
            }
        }
        Ok(())
    }

    /// Adds the way from a resource in a layer, without that resource, on to its end.
    fn walk_on(
        &self,
        wiring: &Wiring,
        from: u32,
        first: u32,
        path: &mut Vec<Stand>,
    ) -> Result<(), AllocError> {
        let mut resource = from;
        let mut layer = first;
        for _ in 0..self.before.len() {
            let next = self.before_at(self.place(layer, resource));
            if next == NOWHERE {
                break;
            }
            if wiring.is_register(next) {
                layer = layer.saturating_sub(1);
            }
            resource = next;
            path.push(Stand {
                resource,
                time: self.origin.saturating_sub(layer),
            })?;
        }
        Ok(())
    }

    /// Makes layers 0 to `last` without a price, layer 0 for the cycle `origin`.
    pub(crate) fn make_blank(
        &mut self,
        wiring: &Wiring,
        origin: u32,
        last: u32,
    ) -> Result<(), AllocError> {
        let width = wiring.resources();
        let count = (last as usize + 1) * width;
        if self.prices.len() < count {
            self.prices.resize(count, UNREACHED)?;
        }
        if self.before.len() < count {
            self.before.resize(count, NOWHERE)?;
        }
        if self.masks.len() < count {
            self.masks.resize(count, 0)?;
        }
        self.width = width as u32;
        self.origin = origin;
        self.count = last.saturating_add(1);
        self.laid = 0;
        blank(&mut self.prices, count);
        Ok(())
    }

    /// Notes that no resource can be entered yet.
    pub(crate) fn enter_none(&mut self) -> Result<(), AllocError> {
        let width = self.width as usize;
        if self.entering.len() < width {
            self.entering.resize(width, UNREACHED)?;
        }
        self.entering.fill(UNREACHED);
        Ok(())
    }

    /// Notes that entering `resource` and going on from there costs `price`.
    #[inline(always)]
    pub(crate) fn enter(&mut self, resource: u32, price: u32) {
        if let Some(entering) = self.entering.get_mut(resource as usize) {
            *entering = price.min(UNREACHED);
        }
    }

    /// Returns the price of entering `resource` and going on from there.
    #[inline(always)]
    pub(crate) fn entering(&self, resource: u32) -> u32 {
        match self.entering.get(resource as usize) {
            Some(price) => *price,
            None => UNREACHED,
        }
    }

    /// Returns the number of entries.
    #[inline]
    pub(crate) fn places(&self) -> usize {
        self.before.len()
    }

    /// Returns the number of resources.
    #[inline]
    pub(crate) fn width(&self) -> u32 {
        self.width
    }

    /// Returns the cycle of layer 0.
    #[inline]
    pub fn origin(&self) -> u32 {
        self.origin
    }

    /// Returns the number of layers.
    #[inline]
    pub(crate) fn layers(&self) -> u32 {
        self.count
    }

    /// Checks whether an existing route is free in `layer` or in a later one.
    #[inline]
    pub(crate) fn is_laid(&self, layer: u32) -> bool {
        layer <= self.laid
    }

    /// Returns the place of the entry of `resource` in `layer`.
    #[inline]
    pub(crate) fn place(&self, layer: u32, resource: u32) -> usize {
        place_in(row_of(layer, self.width), resource)
    }

    /// Writes the entry at a place.
    #[inline]
    pub(crate) fn put(&mut self, place: usize, entry: Entry) {
        if let Some(price) = self.prices.get_mut(place) {
            *price = entry.price;
        }
        if let Some(before) = self.before.get_mut(place) {
            *before = entry.before;
        }
        if let Some(mask) = self.masks.get_mut(place) {
            *mask = entry.mask;
        }
    }

    /// Returns the price at a place.
    #[inline]
    pub(crate) fn price_at(&self, place: usize) -> u32 {
        match self.prices.get(place) {
            Some(price) => *price,
            None => UNREACHED,
        }
    }

    /// Returns the resource from which the way at `place` comes, or to which it leads.
    #[inline]
    pub(crate) fn before_at(&self, place: usize) -> u32 {
        match self.before.get(place) {
            Some(before) => *before,
            None => NOWHERE,
        }
    }

    /// Returns the mask of the way at `place`: the slots and resources that it may use.
    #[inline]
    pub(crate) fn mask_at(&self, place: usize) -> u128 {
        match self.masks.get(place) {
            Some(mask) => *mask,
            None => 0,
        }
    }
}

/// Sets the first `count` prices to `UNREACHED`.
fn blank(prices: &mut [u32], count: usize) {
    if let Some(first) = prices.get_mut(..count) {
        first.fill(UNREACHED);
    }
}
