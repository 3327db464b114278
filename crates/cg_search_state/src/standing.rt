//! The existing routes, and their claims.

use crate::ends::Leaving;
use cg_search_costs::Occupancy;
use cg_search_problem::Problem;
use cg_search_router::{Extent, Fabric, Layers, Stand};
use std::alloc::{AllocError, Global};

/// The routes of data edges by number, with their claims.
#[derive(Drop)]
pub(crate) struct Standing<'a> {
    /// The problem whose data edges are routed.
    pub(crate) problem: &'a Problem<'a>,
    routes: Vec<Option<Vec<Stand>>>,
    /// The claims, with the prices of places.
    pub(crate) occupancy: Occupancy,
}

impl<'a> Standing<'a> {
    /// Returns routes of which none exists yet.
    pub(crate) fn new(alloc: Global, problem: &'a Problem<'a>) -> Result<Standing<'a>, AllocError> {
        Ok(Standing {
            problem,
            routes: unrouted(alloc, problem.edges.len())?,
            occupancy: Occupancy::new(alloc, problem.wiring, problem.ii)?,
        })
    }

    /// Returns the fabric in which routes are searched, with the claims of the routes.
    pub(crate) fn fabric(&self) -> Fabric<'_> {
        Fabric {
            wiring: self.problem.wiring,
            occupancy: &self.occupancy,
        }
    }

    /// Returns the number of the edges.
    pub(crate) fn edges(&self) -> usize {
        self.routes.len()
    }

    /// Returns the route of `edge`, if it has one.
    pub(crate) fn route(&self, edge: u32) -> Option<&[Stand]> {
        match self.routes.get(edge as usize) {
            Some(Some(route)) => Some(route.as_slice()),
            _ => None,
        }
    }

    /// Removes the route of `edge` with its claims, which are those of `source`, and returns it.
    pub(crate) fn rip(&mut self, source: u32, edge: u32) -> Option<Vec<Stand>> {
        let route = self.take(edge);
        if let Some(stands) = &route {
            for stand in stands {
                self.occupancy.release(source, stand.resource, stand.time);
            }
        }
        route
    }

    /// Takes the route of `edge` out.
    fn take(&mut self, edge: u32) -> Option<Vec<Stand>> {
        match self.routes.get_mut(edge as usize) {
            Some(route) => route.take(),
            None => None,
        }
    }

    /// Gives `route` to `edge`, which has none, and claims its places for `source`.
    pub(crate) fn put(
        &mut self,
        source: u32,
        edge: u32,
        route: Vec<Stand>,
    ) -> Result<(), AllocError> {
        for stand in &route {
            self.occupancy.claim(source, stand.resource, stand.time)?;
        }
        if let Some(standing) = self.routes.get_mut(edge as usize) {
            *standing = Some(route);
        }
        Ok(())
    }

    /// Returns the price of the claims of `route`, a way of a value of `source`, except for the first one.
    pub(crate) fn due(&self, source: u32, route: &[Stand]) -> u32 {
        let mut sum: u32 = 0;
        for stand in route.iter().skip(1) {
            let due = self.occupancy.due(source, stand.resource, stand.time);
            sum = sum.saturating_add(due);
        }
        sum
    }

    /// Fills `layers` from where a node's value is, beginning at the time at which it leaves the unit, as far as
    /// `extent`: to the port `target`, or to all resources where there is no target.
    pub(crate) fn spread(
        &self,
        layers: &mut Layers,
        from: Leaving,
        target: Option<u32>,
        extent: Extent,
    ) -> Result<(), AllocError> {
        layers.begin(self.problem.wiring, from.at, extent.last)?;
        for edge in self.problem.outs.of(from.source) {
            if let Some(route) = self.route(*edge) {
                layers.lay(&self.occupancy, route);
            }
        }
        layers.forward(self.fabric(), target, extent.cap);
        Ok(())
    }

    /// Checks whether `edge` has no route.
    pub(crate) fn is_missing(&self, edge: u32) -> bool {
        self.route(edge).is_none()
    }

    /// Checks whether `edge` has no route, or one with a place that is claimed twice.
    pub(crate) fn is_bad(&self, edge: u32) -> bool {
        match self.route(edge) {
            Some(route) => is_crossed(&self.occupancy, route),
            None => true,
        }
    }

    /// Counts the edges that have no route.
    pub(crate) fn missing(&self) -> u32 {
        let mut sum: u32 = 0;
        for route in &self.routes {
            if route.is_none() {
                sum = sum.saturating_add(1);
            }
        }
        sum
    }

    /// Removes all routes, and resets the prices of places.
    pub(crate) fn clear(&mut self) {
        for edge in 0..self.routes.len() {
            self.drop_at(edge);
        }
        self.occupancy.clear();
    }

    /// Drops the route of `edge`, whose claims are removed too.
    fn drop_at(&mut self, edge: usize) {
        if let Some(route) = self.routes.get_mut(edge) {
            *route = None;
        }
    }
}

/// Checks whether a place of `route` is claimed twice.
fn is_crossed(occupancy: &Occupancy, route: &[Stand]) -> bool {
    for stand in route {
        if occupancy.is_shared(stand.resource, stand.time) {
            return true;
        }
    }
    false
}

/// Returns no route for each of `edges` edges.
fn unrouted(alloc: Global, edges: usize) -> Result<Vec<Option<Vec<Stand>>>, AllocError> {
    let mut routes = Vec::new(alloc);
    for _ in 0..edges {
        routes.push(None)?;
    }
    Ok(routes)
}
