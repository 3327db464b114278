//! Least prices from where a value begins, or is already.
use crate::buffers::{Entry, Layers, NOWHERE, UNREACHED};
use crate::fabric::Fabric;
use crate::steps::{Ahead, Spot, is_turns_apart, place_in, price_in, row_of};
use cg_search_costs::{REGISTER_PRICE, Wiring};

/// The cheapest way to a resource.
#[derive(Clone, Copy)]
struct Arrival {
    price: u32,
    /// The resource from which it comes, if there is a way.
    driver: u32,
}

impl Layers {
    /// Fills the layers, which are begun, forward in time with least prices below `cap`. With a target, only resources
    /// are filled from which that port can be reached in the last layer at a price below `cap`, even if a register is
    /// entered in each cycle that is left.
    ///
    /// No way uses a resource in two layers that are a multiple of the interval apart.
    pub fn forward(&mut self, fabric: Fabric, target: Option<u32>, cap: u32) {
        let interval = fabric.occupancy.interval();
        for layer in 0..self.layers() {
            let slot = self.origin().saturating_add(layer) % interval;
            let row = row_of(layer, self.width());
            let left = self.layers().saturating_sub(layer).saturating_sub(1);
            let step = Ahead {
                wiring: fabric.wiring,
                layer,
                row,
                from: layer,
                from_row: row,
                left,
                slot,
                interval,
                prices: fabric.occupancy.prices(slot),
                worth: worth_of(target, cap, left),
                ways: ways_to(fabric.wiring, target),
            };
            if !self.fill(step, target) {
                break;
            }
        }
    }

    /// Fills a layer: registers from the layer before, then wires and ports. Returns whether a way is in it, or a route
    /// is laid in it or later.
    fn fill(&mut self, step: Ahead, target: Option<u32>) -> bool {
        let is_entered = self.enter_registers(step);
        let is_alive = is_entered || self.is_laid(step.layer);
        if is_alive {
            self.reach_all(step, step.wiring.wires());
            self.reach_ports(step, target);
        }
        is_alive
    }

    /// Finds the least prices of registers, from the layer before, and returns whether there is one.
    fn enter_registers(&mut self, step: Ahead) -> bool {
        if step.layer == 0 {
            return false;
        }
        let mut enter = step;
        enter.from = step.layer - 1;
        enter.from_row = row_of(step.layer - 1, self.width());
        self.reach_all(enter, step.wiring.registers())
    }

    /// Finds the least prices of the ports, or of the target.
    fn reach_ports(&mut self, step: Ahead, target: Option<u32>) -> bool {
        match target {
            Some(port) => self.reach(step, port),
            None => self.reach_all(step, step.wiring.ports()),
        }
    }

    /// Finds the least prices of `resources`, and returns whether there is one.
    fn reach_all(&mut self, step: Ahead, resources: &[u32]) -> bool {
        let mut is_any = false;
        for resource in resources {
            if self.reach(step, *resource) {
                is_any = true;
            }
        }
        is_any
    }

    /// Finds the least price of `resource`, where it isn't free already and the target can be reached from it, and
    /// returns whether there is one.
    #[inline(always)]
    fn reach(&mut self, step: Ahead, resource: u32) -> bool {
        let place = place_in(step.row, resource);
        let own = price_in(step.prices, resource);
        if own >= step.worth || self.price_at(place) == 0 || is_late(step, resource) {
            return false;
        }
        let spot = Spot::new(resource, step.slot);
        let best = self.least(step, spot, step.worth.saturating_sub(own));
        if best.driver == NOWHERE {
            return false;
        }
        let entry = Entry {
            price: best.price.saturating_add(own),
            before: best.driver,
            mask: self.mask_at(place_in(step.from_row, best.driver)) | spot.mark,
        };
        self.put(place, entry);
        true
    }

    /// Finds the least price of a driver of `spot` that is below `bound`, and the first driver of that price.
    #[inline(always)]
    fn least(&self, step: Ahead, spot: Spot, bound: u32) -> Arrival {
        let mut best = Arrival {
            price: bound,
            driver: NOWHERE,
        };
        for driver in step.wiring.drivers(spot.resource) {
            let price = self.price_at(place_in(step.from_row, *driver));
            if price < best.price && !self.is_met(step, spot, *driver) {
                best = Arrival {
                    price,
                    driver: *driver,
                };
            }
        }
        best
    }

    /// Checks whether the way to `driver` uses `spot` already.
    #[inline]
    fn is_met(&self, step: Ahead, spot: Spot, driver: u32) -> bool {
        step.layer >= step.interval
            && self.mask_at(place_in(step.from_row, driver)) & spot.mark == spot.mark
            && self.comes_by(step, spot.resource, driver)
    }

    /// Checks whether the way to `driver` uses `resource` some intervals before.
    fn comes_by(&self, step: Ahead, resource: u32, driver: u32) -> bool {
        let mut place = driver;
        let mut layer = step.from;
        for _ in 0..self.places() {
            if place == resource && is_turns_apart(step.layer, layer, step.interval) {
                return true;
            }
            let before = self.before_at(self.place(layer, place));
            if before == NOWHERE {
                return false;
            }
            if step.wiring.is_register(place) {
                if layer == 0 {
                    return false;
                }
                layer -= 1;
            }
            place = before;
        }
        false
    }
}

/// Returns the price at which a way is of no use in a layer with `left` layers after it.
fn worth_of(target: Option<u32>, cap: u32, left: u32) -> u32 {
    let most = cap.min(UNREACHED);
    match target {
        Some(_) => most.saturating_sub(left.saturating_mul(REGISTER_PRICE)),
        None => most,
    }
}

/// Returns the least numbers of registers on ways to the target; empty where there is no target.
fn ways_to(wiring: &Wiring, target: Option<u32>) -> &[u8] {
    match target {
        Some(port) => wiring.ways_to(port),
        None => &[],
    }
}

/// Checks whether a way through `resource` in a layer reaches the target too late.
#[inline]
fn is_late(step: Ahead, resource: u32) -> bool {
    match step.ways.get(resource as usize) {
        Some(hops) => u32::from(*hops) > step.left,
        None => false,
    }
}
