//! The estimated cost of placing a node, before any route is tried.

use crate::known::Known;
use crate::windows::Window;
use cg_model::Place;
use cg_search_problem::{Host, Places, number_at, raise};
use cg_search_state::{Routes, State};
use std::alloc::{AllocError, Global};

/// The cost of each cycle by which a value comes too late.
const LATE: u32 = 2;

/// The share, in eighths, that counts of each route that may share its beginning with a dearer one.
const SHARE: u32 = 4;

/// The cost of the routes to several consumers, which may share their beginnings.
#[derive(Clone, Copy, Drop)]
struct Fan {
    sum: u32,
    most: u32,
}

/// The costs of a node's candidates: a row of times for each unit that offers its operation.
#[derive(Drop)]
pub(crate) struct Estimates {
    /// The times of each row.
    pub(crate) window: Window,
    /// The node.
    pub(crate) node: u32,
    /// Its edges whose other ends are placed.
    pub(crate) known: Vec<Known>,
    width: usize,
    costs: Vec<u32>,
    fans: Vec<Fan>,
}

/// A unit that offers the node's operation: the row of its times.
#[derive(Clone, Copy, Drop)]
pub(crate) struct Row {
    /// The number of the row.
    pub(crate) number: u32,
    /// The unit.
    pub(crate) unit: u32,
}

/// A data edge of the node, seen from its other end.
#[derive(Clone, Copy, Drop)]
pub(crate) struct Link {
    /// The number of its layers.
    pub(crate) number: u32,
    /// The time at the other end: when the value leaves there, or has to be there.
    pub(crate) time: u32,
    /// The cycles by which the node's iteration begins after the one in which that time is counted.
    pub(crate) turns: u32,
    /// The last layer that was searched, in cycles from there.
    pub(crate) last: u32,
    /// The cost of having no route.
    pub(crate) penalty: u32,
}

impl Estimates {
    /// Returns the costs of placing `node` on each unit that offers its operation, at each time of `window`.
    pub(crate) fn of_places(
        alloc: Global,
        state: &State,
        node: u32,
        window: Window,
    ) -> Result<Estimates, AllocError> {
        let width = window.width() as usize;
        let offers = state.problem.offers.of(node);
        let entries = offers.len().saturating_mul(width);
        let mut costs = Vec::with_capacity(alloc, entries)?;
        for unit in offers {
            add_prices(&mut costs, &state.places, *unit, window)?;
        }
        Ok(Estimates {
            window,
            node,
            known: Vec::new(alloc),
            width,
            costs,
            fans: vec![in alloc; Fan { sum: 0, most: 0 }; entries]?,
        })
    }

    /// Returns the node's edges whose other ends are placed.
    pub(crate) fn into_known(self) -> Vec<Known> {
        self.known
    }

    /// Returns the cost of unit number `row` among those that offer the operation, at time number `column` of the
    /// window.
    pub(crate) fn cost(&self, row: u32, column: u32) -> u32 {
        number_at(self.costs.as_slice(), self.entry(row, column))
    }

    /// Returns the number of a candidate by its `row` and `column`.
    fn entry(&self, row: u32, column: u32) -> usize {
        (row as usize)
            .saturating_mul(self.width)
            .saturating_add(column as usize)
    }

    /// Makes a candidate dearer by `cost`.
    fn add(&mut self, row: u32, column: u32, cost: u32) {
        let entry = self.entry(row, column);
        raise(&mut self.costs, entry, cost);
    }

    /// Adds a route to a consumer, which costs `cost`, to a candidate.
    fn add_to_fan(&mut self, row: u32, column: u32, cost: u32) {
        let entry = self.entry(row, column);
        if let Some(fan) = self.fans.get_mut(entry) {
            fan.sum = fan.sum.saturating_add(cost);
            fan.most = fan.most.max(cost);
        }
    }

    /// Adds the route of an edge into the node, to the port `port` of the unit of `row`.
    pub(crate) fn add_in(&mut self, routes: &Routes, link: Link, row: u32, port: u32) {
        for column in 0..self.window.width() {
            let begin = self
                .window
                .first
                .saturating_add(column)
                .saturating_add(link.turns);
            let layer = begin.saturating_sub(link.time);
            let cost = if begin < link.time {
                too_late(link.penalty, link.time - begin)
            } else if layer > link.last {
                link.penalty
            } else {
                routes.price(link.number, layer, port).min(link.penalty)
            };
            self.add(row, column, cost);
        }
    }

    /// Adds the route of an edge out of the node, from the out of the unit `host`, which is that of `row`.
    pub(crate) fn add_out(&mut self, routes: &Routes, link: Link, row: u32, host: Host) {
        for column in 0..self.window.width() {
            let begin = self.window.first.saturating_add(column);
            let leaves = begin.saturating_add(host.latency);
            let layer = link.time.saturating_sub(leaves);
            if link.time < leaves {
                self.add(row, column, too_late(link.penalty, leaves - link.time));
            } else if layer > link.last {
                self.add(row, column, link.penalty);
            } else {
                let price = routes.price(link.number, layer, host.out);
                self.add_route_out(row, column, price, link.penalty);
            }
        }
    }

    /// Adds a route to a consumer by its `price`, or by `penalty`, the cost of having no route, where that is not
    /// greater.
    fn add_route_out(&mut self, row: u32, column: u32, price: u32, penalty: u32) {
        if price >= penalty {
            self.add(row, column, penalty);
        } else {
            self.add_to_fan(row, column, price);
        }
    }

    /// Adds the routes to consumers to all candidates: the dearest in full, and a share of the others.
    pub(crate) fn add_fans(&mut self) {
        for entry in 0..self.costs.len() {
            self.add_fan(entry);
        }
    }

    /// Adds the routes to consumers to candidate number `entry`.
    fn add_fan(&mut self, entry: usize) {
        if let Some(fan) = self.fans.get(entry).copied() {
            let others = fan.sum.saturating_sub(fan.most).saturating_mul(SHARE) / 8;
            raise(&mut self.costs, entry, fan.most.saturating_add(others));
        }
    }

    /// Makes the time number `column` dearer by `cost` on each of `rows` units.
    pub(crate) fn add_column(&mut self, rows: u32, column: u32, cost: u32) {
        for row in 0..rows {
            self.add(row, column, cost);
        }
    }
}

/// Adds to `costs` the price of `unit` at each time of `window`.
fn add_prices(
    costs: &mut Vec<u32>,
    places: &Places,
    unit: u32,
    window: Window,
) -> Result<(), AllocError> {
    for column in 0..window.width() {
        let time = window.first.saturating_add(column);
        costs.push(places.price(Place { unit, time }))?;
    }
    Ok(())
}

/// Returns the cost of a value that comes `cycles` cycles too late, where having no route costs `penalty`.
fn too_late(penalty: u32, cycles: u32) -> u32 {
    penalty.saturating_add(cycles.saturating_mul(LATE))
}
