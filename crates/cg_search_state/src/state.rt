//! The state of a search: places and routes, and the penalties of violated order edges.

use crate::ends::{Connection, routable_ends};
use crate::routes::{PENALTY, PENALTY_AGE, Routes};
use cg_model::Place;
use cg_search_problem::{Places, Problem, count, number_at, raise, shifted};
use cg_search_router::Stand;
use std::alloc::{AllocError, Global};

/// The places of the nodes of a problem and the routes of their values.
#[derive(Drop)]
pub struct State<'a> {
    /// The problem.
    pub problem: &'a Problem<'a>,
    /// The places of nodes.
    pub places: Places,
    /// The routes of data edges.
    pub routes: Routes<'a>,
    histories: Vec<u32>,
}

/// The routes that are removed where nodes move.
#[derive(Drop)]
struct Torn {
    /// The routes that move along.
    within: Vec<Carried>,
    /// The edges of the other routes.
    border: Vec<u32>,
}

/// A route that moves along with both ends of its edge.
#[derive(Drop)]
struct Carried {
    edge: u32,
    route: Vec<Stand>,
}

impl<'a> State<'a> {
    /// Returns a state of `problem` in which no node is placed.
    pub fn new(alloc: Global, problem: &'a Problem<'a>) -> Result<State<'a>, AllocError> {
        let nodes = problem.nodes as usize;
        Ok(State {
            problem,
            places: Places::new(alloc, nodes, problem.hosts.len(), problem.ii)?,
            routes: Routes::new(alloc, problem)?,
            histories: vec![in alloc; 0u32; problem.order.len()]?,
        })
    }

    /// Returns the penalty of the order edge `tie` where it is violated.
    pub fn tie_penalty(&self, tie: u32) -> u32 {
        number_at(self.histories.as_slice(), tie as usize).saturating_add(PENALTY)
    }

    /// Checks whether the order edge `tie` is violated by nodes that are placed.
    pub fn is_broken(&self, tie: u32) -> bool {
        let problem = self.problem;
        match problem.order.get(tie as usize) {
            None => false,
            Some(edge) => match (self.places.at(edge.from), self.places.at(edge.to)) {
                (Some(before), Some(after)) => {
                    is_before(after.time, problem.turns(edge.distance), before.time)
                }
                _ => false,
            },
        }
    }

    /// Returns the connection of data edge number `edge`, for a route below the price `cap`. None where one of its nodes
    /// isn't placed, or its route would end before it begins or take more cycles than a route may take.
    pub fn connection(&self, edge: u32, cap: u32) -> Option<Connection> {
        let ends = routable_ends(self.problem, &self.places, edge)?;
        Some(Connection { edge, ends, cap })
    }

    /// Lifts `node`, and removes the routes of its edges.
    pub fn lift(&mut self, node: u32) {
        let problem = self.problem;
        for edge in problem.ins.of(node) {
            self.routes.rip(*edge);
        }
        for edge in problem.outs.of(node) {
            self.routes.rip(*edge);
        }
        self.places.lift(node);
    }

    /// Puts `node`, which is lifted, at `place`, without routes.
    pub fn put(&mut self, node: u32, place: Place) {
        self.places.put(node, place);
    }

    /// Moves each node that is marked in `members` a whole interval later, or sooner. Routes between two members move
    /// along; the edges between a member and another node are routed anew, where that costs less than to have no route.
    pub fn shift(
        &mut self,
        alloc: Global,
        members: &[bool],
        is_later: bool,
    ) -> Result<(), AllocError> {
        let torn = self.tear(alloc, members)?;
        for node in 0..self.problem.nodes {
            if is_marked(members, node) {
                self.places.shift(node, is_later);
            }
        }
        self.put_within(torn.within, is_later)?;
        self.connect_all(alloc, torn.border.as_slice())
    }

    /// Removes the routes of all edges of `members`.
    fn tear(&mut self, alloc: Global, members: &[bool]) -> Result<Torn, AllocError> {
        let mut torn = Torn {
            within: Vec::new(alloc),
            border: Vec::new(alloc),
        };
        for edge in 0..count(self.problem.edges.as_slice()) {
            self.tear_edge(members, edge, &mut torn)?;
        }
        Ok(torn)
    }

    /// Removes the route of `edge`, if it has an end among `members`, and adds it to `torn`.
    fn tear_edge(
        &mut self,
        members: &[bool],
        edge: u32,
        torn: &mut Torn,
    ) -> Result<(), AllocError> {
        let ends = match self.problem.edge(edge) {
            Some(facts) => (
                is_marked(members, facts.source),
                is_marked(members, facts.target),
            ),
            None => (false, false),
        };
        match ends {
            (true, true) => {
                if let Some(route) = self.routes.take(edge) {
                    torn.within.push(Carried { edge, route })?;
                }
            }
            (false, false) => {}
            _ => {
                self.routes.rip(edge);
                torn.border.push(edge)?;
            }
        }
        Ok(())
    }

    /// Puts the routes `within` back, an interval later or sooner.
    fn put_within(&mut self, within: Vec<Carried>, is_later: bool) -> Result<(), AllocError> {
        for carried in within {
            let mut route = carried.route;
            shift_route(&mut route, self.problem.ii, is_later);
            self.routes.put(carried.edge, route)?;
        }
        Ok(())
    }

    /// Routes `edges`, which have no routes, where that costs less than to have none.
    fn connect_all(&mut self, alloc: Global, edges: &[u32]) -> Result<(), AllocError> {
        for edge in edges {
            let cap = self.routes.penalty(*edge);
            if let Some(connection) = self.connection(*edge, cap) {
                self.routes.connect(alloc, connection)?;
            }
        }
        Ok(())
    }

    /// Raises the prices and penalties of all faults.
    pub fn age(&mut self) {
        self.routes.age();
        self.places.age();
        for tie in 0..self.histories.len() {
            self.age_at(tie);
        }
    }

    /// Raises the penalty of the order edge `tie` where it is violated.
    fn age_at(&mut self, tie: usize) {
        if self.is_broken(tie.min(u32::MAX as usize) as u32) {
            raise(&mut self.histories, tie, PENALTY_AGE);
        }
    }

    /// Removes all nodes and routes, and resets their prices.
    pub fn clear(&mut self) {
        for node in 0..self.problem.nodes {
            self.places.lift(node);
        }
        self.places.forget();
        self.routes.clear();
        self.histories.fill(0);
    }
}

/// Checks whether a node that begins `cycles` cycles after `time` begins less than a cycle after one that begins at
/// `other`.
pub fn is_before(time: u32, cycles: u32, other: u32) -> bool {
    time.saturating_add(cycles) < other.saturating_add(1)
}

/// Checks whether `node` is marked in `members`.
fn is_marked(members: &[bool], node: u32) -> bool {
    match members.get(node as usize) {
        Some(mark) => *mark,
        None => false,
    }
}

/// Moves `route` by `cycles` cycles later, or sooner.
fn shift_route(route: &mut [Stand], cycles: u32, is_later: bool) {
    for stand in route {
        stand.time = shifted(stand.time, cycles, is_later);
    }
}
