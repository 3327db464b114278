//! Routes that are read out of layers that are filled already.

use crate::ends::{Connection, Ends};
use crate::pool::Filling;
use crate::routes::Routes;
use cg_search_costs::Wiring;
use cg_search_router::{Layers, Stand, UNREACHED};
use std::alloc::{AllocError, Global};

/// A way that was found, with its price.
#[derive(Drop)]
struct Found {
    price: u32,
    route: Vec<Stand>,
}

/// An existing route, off which a way may branch.
#[derive(Clone, Copy, Drop)]
struct Trunk<'a> {
    /// The number of its edge.
    edge: u32,
    /// The route.
    stands: &'a [Stand],
}

/// The point where a way branches off the existing routes of its source.
#[derive(Clone, Copy, Drop)]
struct Branch {
    /// The price from there on.
    price: u32,
    /// The edge whose route has the shared first stands; no edge where the way begins at the out.
    edge: u32,
    /// The number of shared stands, 0 where the way begins at the out.
    stands: usize,
}

impl<'a> Routes<'a> {
    /// Routes `connection`, which has no route, by the layers of buffer `number`: these layers were filled for its edge,
    /// when one of its nodes was placed as now and the other was lifted. The way in them is still the best one if no
    /// price on it has changed; else the edge is routed by layers of its own. Returns the cost of the route; None where
    /// there is no route.
    pub fn join(
        &mut self,
        alloc: Global,
        connection: Connection,
        number: u32,
    ) -> Result<Option<u32>, AllocError> {
        if !self.is_kept(number) || !self.holds(number, connection.ends.cycles()) {
            return self.connect(alloc, connection);
        }
        match self.found(alloc, number, connection.ends)? {
            Some(found) => self.put_if_best(alloc, connection, found),
            None => Ok(None),
        }
    }

    /// Gives the edge of `connection` the way `found` where its cost is still the one that was found, and less than the
    /// cap; where its cost has changed, routes the edge by layers of its own.
    fn put_if_best(
        &mut self,
        alloc: Global,
        connection: Connection,
        found: Found,
    ) -> Result<Option<u32>, AllocError> {
        let source = connection.ends.from.source;
        let price = self.standing.due(source, found.route.as_slice());
        if price != found.price {
            return self.connect(alloc, connection);
        }
        if price >= connection.cap {
            return Ok(None);
        }
        self.standing.put(source, connection.edge, found.route)?;
        Ok(Some(price))
    }

    /// Returns the way between `ends` in buffer `number`. None where there is none.
    fn found(&self, alloc: Global, number: u32, ends: Ends) -> Result<Option<Found>, AllocError> {
        let buffer = self.pool.buffer(number);
        match buffer.filling {
            Filling::Forward => found_to(alloc, self.standing.problem.wiring, &buffer.layers, ends),
            Filling::Backward => self.found_from(alloc, &buffer.layers, ends),
        }
    }

    /// Returns the way between `ends` by `layers` that are filled backward. None where there is none.
    fn found_from(
        &self,
        alloc: Global,
        layers: &Layers,
        ends: Ends,
    ) -> Result<Option<Found>, AllocError> {
        let branch = self.branch(layers, ends);
        if branch.price >= UNREACHED {
            return Ok(None);
        }
        let mut route = self.stem(alloc, ends, branch)?;
        layers.way_on(self.standing.problem.wiring, &mut route)?;
        Ok(Some(Found {
            price: branch.price,
            route,
        }))
    }

    /// Returns where a way between `ends` branches off the existing routes of its source for the least price from there
    /// on, by `layers` that are filled backward: the first such place.
    fn branch(&self, layers: &Layers, ends: Ends) -> Branch {
        let problem = self.standing.problem;
        let mut best = Branch {
            price: layers.price(ends.cycles(), ends.from.at.resource),
            edge: 0,
            stands: 0,
        };
        for edge in problem.outs.of(ends.from.source) {
            if let Some(stands) = self.standing.route(*edge) {
                let trunk = Trunk {
                    edge: *edge,
                    stands,
                };
                best = branch_on(problem.wiring, layers, trunk, best);
            }
        }
        best
    }

    /// Returns the stands between `ends` up to `branch`.
    fn stem(&self, alloc: Global, ends: Ends, branch: Branch) -> Result<Vec<Stand>, AllocError> {
        let mut stem = Vec::new(alloc);
        for stand in self.shared_stands(branch) {
            stem.push(*stand)?;
        }
        if stem.is_empty() {
            stem.push(ends.from.at)?;
        }
        Ok(stem)
    }

    /// Returns the shared stands of a way that leaves at `branch`; none where it begins at the out.
    fn shared_stands(&self, branch: Branch) -> &[Stand] {
        match self.standing.route(branch.edge) {
            Some(route) => first_of(route, branch.stands),
            None => &[],
        }
    }
}

/// Returns the way between `ends` by `layers` that are filled forward. None where there is none.
fn found_to(
    alloc: Global,
    wiring: &Wiring,
    layers: &Layers,
    ends: Ends,
) -> Result<Option<Found>, AllocError> {
    let price = layers.price(ends.cycles(), ends.to.resource);
    if price >= UNREACHED {
        return Ok(None);
    }
    let route = layers.way_to(alloc, wiring, ends.to)?;
    Ok(Some(Found { price, route }))
}

/// Returns the best of `best` and the branches off `trunk`, by `layers` that are filled backward: `best` among equals.
/// No way leaves a port.
fn branch_on(wiring: &Wiring, layers: &Layers, trunk: Trunk, best: Branch) -> Branch {
    let end = layers.origin();
    let mut best = best;
    let mut stands: usize = 0;
    for stand in trunk.stands {
        if stand.time > end {
            break;
        }
        stands = stands.saturating_add(1);
        let price = layers.price(end.saturating_sub(stand.time), stand.resource);
        if price < best.price && !wiring.is_port(stand.resource) {
            best = Branch {
                price,
                edge: trunk.edge,
                stands,
            };
        }
    }
    best
}

/// Returns the first `count` of `stands`, or none where there are fewer.
fn first_of(stands: &[Stand], count: usize) -> &[Stand] {
    match stands.get(..count) {
        Some(first) => first,
        None => &[],
    }
}
