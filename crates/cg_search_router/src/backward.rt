//! Least prices to the port where a value is read.
use crate::buffers::{Entry, Layers, NOWHERE, UNREACHED};
use crate::fabric::{Extent, Fabric};
use crate::stand::Stand;
use crate::steps::{Back, Spot, bit, is_turns_apart, place_in, price_in, row_of};
use cg_search_costs::Wiring;
use std::alloc::AllocError;

/// The cheapest way on from a resource.
#[derive(Clone, Copy)]
struct Onward {
    price: u32,
    /// The resource that it enters, if there is a way.
    user: u32,
}

impl Layers {
    /// Fills layers backward from `to`, a port at a time, which is in layer 0, as far as `extent`, with the least prices
    /// to the port. The price of the resource itself is not included.
    ///
    /// No way uses a resource in two layers that are a multiple of the interval apart.
    pub fn backward(
        &mut self,
        fabric: Fabric,
        to: Stand,
        extent: Extent,
    ) -> Result<(), AllocError> {
        self.make_blank(fabric.wiring, to.time, extent.last)?;
        self.enter_none()?;
        let slot = to.time % fabric.occupancy.interval();
        let entry = Entry {
            price: 0,
            before: NOWHERE,
            mask: bit(to.resource, slot),
        };
        self.put(place_in(0, to.resource), entry);
        self.enter(
            to.resource,
            price_in(fabric.occupancy.prices(slot), to.resource),
        );
        for layer in 0..self.layers() {
            if !self.fill_back(fabric, layer, extent.cap) {
                break;
            }
            self.enter(to.resource, UNREACHED);
        }
        Ok(())
    }

    /// Fills a layer with prices below `cap`: wires, each after the wires that it drives, then registers and outs.
    /// Returns whether a way leaves one of the registers.
    fn fill_back(&mut self, fabric: Fabric, layer: u32, cap: u32) -> bool {
        let interval = fabric.occupancy.interval();
        let slot = self.origin().saturating_sub(layer) % interval;
        let step = Back {
            wiring: fabric.wiring,
            layer,
            row: row_of(layer, self.width()),
            later_row: row_of(layer.saturating_sub(1), self.width()),
            slot,
            interval,
            prices: fabric.occupancy.prices(slot),
            worth: cap.min(UNREACHED),
        };
        self.leave_wires(step);
        let is_alive = self.leave_all(step, step.wiring.registers());
        self.leave_all(step, step.wiring.outs());
        self.price_registers(step);
        is_alive
    }

    /// Finds the least prices from wires, and the prices of entering them.
    fn leave_wires(&mut self, step: Back) {
        for resource in step.wiring.wires().iter().rev() {
            let onward = self.leave(step, *resource);
            let own = price_in(step.prices, *resource);
            self.enter(*resource, onward.saturating_add(own));
        }
    }

    /// Finds the least prices from other resources, and returns whether there is one.
    fn leave_all(&mut self, step: Back, resources: &[u32]) -> bool {
        let mut is_any = false;
        for resource in resources {
            if self.leave(step, *resource) < UNREACHED {
                is_any = true;
            }
        }
        is_any
    }

    /// Notes the prices of entering the registers, from the cycle before.
    fn price_registers(&mut self, step: Back) {
        for resource in step.wiring.registers() {
            let onward = self.price_at(place_in(step.row, *resource));
            let own = price_in(step.prices, *resource);
            self.enter(*resource, onward.saturating_add(own));
        }
    }

    /// Finds and returns the least price from `resource`; `UNREACHED` where there is no way.
    #[inline(always)]
    fn leave(&mut self, step: Back, resource: u32) -> u32 {
        let spot = Spot::new(resource, step.slot);
        let best = self.best_on(step, spot);
        if best.user == NOWHERE {
            return UNREACHED;
        }
        let entry = Entry {
            price: best.price,
            before: best.user,
            mask: self.mask_at(entered(step, best.user)) | spot.mark,
        };
        self.put(place_in(step.row, resource), entry);
        best.price
    }

    /// Finds the best way on from `spot`: the first of the least price below the worth.
    #[inline]
    fn best_on(&self, step: Back, spot: Spot) -> Onward {
        let mut best = Onward {
            price: step.worth,
            user: NOWHERE,
        };
        for user in step.wiring.users(spot.resource) {
            let price = self.entering(*user);
            if price < best.price && !self.is_met_on(step, spot, *user) {
                best = Onward { price, user: *user };
            }
        }
        best
    }

    /// Checks whether the way on through `user` uses `spot`.
    #[inline]
    fn is_met_on(&self, step: Back, spot: Spot, user: u32) -> bool {
        step.layer >= step.interval
            && self.mask_at(entered(step, user)) & spot.mark == spot.mark
            && self.goes_by(step, spot.resource, user)
    }

    /// Checks whether the way on through `user` uses `resource` some intervals later.
    fn goes_by(&self, step: Back, resource: u32, user: u32) -> bool {
        let mut place = user;
        let mut layer = layer_of(step.wiring, step.layer, user);
        for _ in 0..self.places() {
            if place == resource && is_turns_apart(step.layer, layer, step.interval) {
                return true;
            }
            let next = self.before_at(self.place(layer, place));
            if next == NOWHERE {
                return false;
            }
            layer = layer_of(step.wiring, layer, next);
            place = next;
        }
        false
    }
}

/// Returns the place of the entry of `user` when it is entered: for a register, in the cycle after the layer.
#[inline]
fn entered(step: Back, user: u32) -> usize {
    if step.wiring.is_register(user) {
        place_in(step.later_row, user)
    } else {
        place_in(step.row, user)
    }
}

/// Returns the layer in which a resource is entered from another in `layer`.
#[inline]
fn layer_of(wiring: &Wiring, layer: u32, resource: u32) -> u32 {
    if wiring.is_register(resource) {
        layer.saturating_sub(1)
    } else {
        layer
    }
}
