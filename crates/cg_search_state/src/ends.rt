//! Where and when routes begin and end.

use cg_search_problem::{DataEdge, Places, Problem};
use cg_search_router::Stand;

/// Where and when a node's value leaves its unit.
#[derive(Clone, Copy, Drop)]
pub struct Leaving {
    /// The node.
    pub source: u32,
    /// The out of its unit, and the time.
    pub at: Stand,
}

/// Where and when a route begins and ends.
#[derive(Clone, Copy, Drop)]
pub(crate) struct Ends {
    /// Where and when it begins.
    pub(crate) from: Leaving,
    /// The port at which it ends, and when.
    pub(crate) to: Stand,
}

/// A data edge that may be routed between its ends.
#[derive(Clone, Copy, Drop)]
pub struct Connection {
    /// The number of the edge.
    pub(crate) edge: u32,
    /// The ends of its route.
    pub(crate) ends: Ends,
    /// The price from which on a route is of no use.
    pub(crate) cap: u32,
}

/// Returns where and when the value of `edge` leaves the unit of its source. None where the source isn't placed.
pub fn leaving_of(problem: &Problem, places: &Places, edge: DataEdge) -> Option<Leaving> {
    let host = problem.host(places.at(edge.source)?.unit)?;
    Some(Leaving {
        source: edge.source,
        at: Stand {
            resource: host.out,
            time: problem.leaves(places, edge)?,
        },
    })
}

/// Returns the port at which the value of `edge` is read, and when. None where its target isn't placed.
pub fn reading_of(problem: &Problem, places: &Places, edge: DataEdge) -> Option<Stand> {
    Some(Stand {
        resource: problem.port(places, edge)?,
        time: problem.arrives(places, edge)?,
    })
}

/// Returns the ends of `edge`. None where one of its nodes isn't placed.
pub(crate) fn ends_of(problem: &Problem, places: &Places, edge: DataEdge) -> Option<Ends> {
    Some(Ends {
        from: leaving_of(problem, places, edge)?,
        to: reading_of(problem, places, edge)?,
    })
}

/// Returns the ends of the route of data edge number `edge`. None where one of its nodes isn't placed, or the route
/// would end before it begins or take more cycles than a route may take.
pub(crate) fn routable_ends(problem: &Problem, places: &Places, edge: u32) -> Option<Ends> {
    let ends = ends_of(problem, places, problem.edge(edge)?)?;
    if ends.to.time < ends.from.at.time || ends.cycles() > problem.reach() {
        return None;
    }
    Some(ends)
}

impl Ends {
    /// Returns the number of cycles of the route; 0 where it would end before it begins.
    pub(crate) fn cycles(&self) -> u32 {
        self.to.time.saturating_sub(self.from.at.time)
    }
}
