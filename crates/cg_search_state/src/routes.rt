//! Routes of data edges, and the penalty of having none.

use crate::pool::Pool;
use crate::standing::Standing;
use cg_search_costs::REGISTER_PRICE;
use cg_search_problem::{Problem, number_at, raise};
use cg_search_router::{Layers, Stand};
use std::alloc::{AllocError, Global};

/// The first penalty of an edge without a route.
pub(crate) const PENALTY: u32 = 60;

/// The amount by which the penalty grows in each sweep.
pub(crate) const PENALTY_AGE: u32 = 30;

/// The routes of data edges by number, with the prices of places, and the layers by which routes are found.
#[derive(Drop)]
pub struct Routes<'a> {
    pub(crate) standing: Standing<'a>,
    pub(crate) pool: Pool,
    pub(crate) scratch: Layers,
    histories: Vec<u32>,
}

impl<'a> Routes<'a> {
    /// Returns routes of `problem` of which none exists yet.
    pub fn new(alloc: Global, problem: &'a Problem<'a>) -> Result<Routes<'a>, AllocError> {
        Ok(Routes {
            standing: Standing::new(alloc, problem)?,
            pool: Pool::new(alloc, problem)?,
            scratch: Layers::new(alloc),
            histories: vec![in alloc; 0u32; problem.edges.len()]?,
        })
    }

    /// Returns the route of `edge`, if it has one.
    pub fn route(&self, edge: u32) -> Option<&[Stand]> {
        self.standing.route(edge)
    }

    /// Returns the penalty of `edge` where it has no route: a value that stays for iterations costs a register in each
    /// cycle.
    pub fn penalty(&self, edge: u32) -> u32 {
        let problem = self.standing.problem;
        let history = number_at(self.histories.as_slice(), edge as usize);
        let stay = match problem.edge(edge) {
            Some(facts) => problem.turns(facts.distance).saturating_mul(REGISTER_PRICE),
            None => 0,
        };
        history.saturating_add(PENALTY).saturating_add(stay)
    }

    /// Removes the route of `edge`, if it has one.
    pub fn rip(&mut self, edge: u32) {
        let _ = self.take(edge);
    }

    /// Removes the route of `edge`, if it has one, and returns it.
    pub(crate) fn take(&mut self, edge: u32) -> Option<Vec<Stand>> {
        match self.standing.problem.edge(edge) {
            Some(facts) => self.standing.rip(facts.source, edge),
            None => None,
        }
    }

    /// Gives `route` to `edge`, which has none.
    pub(crate) fn put(&mut self, edge: u32, route: Vec<Stand>) -> Result<(), AllocError> {
        match self.standing.problem.edge(edge) {
            Some(facts) => self.standing.put(facts.source, edge, route),
            None => Ok(()),
        }
    }

    /// Checks whether `edge` has no route, or one with a place that is claimed twice.
    pub fn is_bad(&self, edge: u32) -> bool {
        self.standing.is_bad(edge)
    }

    /// Returns the claims above one, over all places.
    pub fn excess(&self) -> u32 {
        self.standing.occupancy.excess()
    }

    /// Counts the edges that have no route.
    pub fn missing(&self) -> u32 {
        self.standing.missing()
    }

    /// Makes places that are claimed twice and edges without a route dearer.
    pub fn age(&mut self) {
        self.standing.occupancy.age();
        for edge in 0..self.histories.len() {
            self.age_at(edge);
        }
    }

    /// Makes `edge` dearer where it has no route.
    fn age_at(&mut self, edge: usize) {
        if self.standing.is_missing(edge.min(u32::MAX as usize) as u32) {
            raise(&mut self.histories, edge, PENALTY_AGE);
        }
    }

    /// Removes all routes, and resets the prices of places and the penalties of edges.
    pub fn clear(&mut self) {
        self.standing.clear();
        self.histories.fill(0);
    }
}
