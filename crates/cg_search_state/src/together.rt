//! Nodes that must move a whole interval later, or sooner, together.

use crate::ends::ends_of;
use crate::state::State;
use cg_model::OrderEdge;
use cg_search_problem::{DataEdge, Group, Places, Problem, Tightness};
use std::alloc::{AllocError, Global};

/// Edges between places: those that would be too short by an interval less are tight.
#[derive(Clone, Copy, Drop)]
struct Placed<'a> {
    places: &'a Places,
}

impl<'a> Tightness for Placed<'a> {
    /// Checks whether, by an interval less, a route would have fewer cycles than it needs between the units.
    fn is_tight(&self, problem: &Problem, edge: DataEdge) -> bool {
        match ends_of(problem, self.places, edge) {
            Some(ends) => {
                let from = ends.from.at;
                let hops = problem.wiring.hops(from.resource, ends.to.resource);
                let needed = problem.ii.saturating_add(hops);
                ends.to.time < from.time.saturating_add(needed)
            }
            None => false,
        }
    }

    /// Checks whether, by an interval less, the target would begin less than a cycle after the source.
    fn is_tight_tie(&self, problem: &Problem, tie: OrderEdge) -> bool {
        match (self.places.at(tie.from), self.places.at(tie.to)) {
            (Some(before), Some(after)) => {
                let needed = problem.ii.saturating_add(1);
                let begin = after.time.saturating_add(problem.turns(tie.distance));
                begin < before.time.saturating_add(needed)
            }
            _ => false,
        }
    }
}

impl<'a> State<'a> {
    /// Returns for each node whether it must move along where `node` moves a whole interval later, or sooner, so that no
    /// edge becomes too short.
    pub fn along(&self, alloc: Global, node: u32, is_later: bool) -> Result<Vec<bool>, AllocError> {
        let mut group = Group::new(alloc, self.problem.nodes)?;
        group.add(node)?;
        let placed = Placed {
            places: &self.places,
        };
        group.grow(self.problem, &placed, is_later)?;
        Ok(group.into_marks())
    }
}
