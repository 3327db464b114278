//! The best response of a node.

use crate::candidates::{Candidate, cheapest, first_place};
use crate::estimating::estimate;
use crate::known::Known;
use crate::windows::window_of;
use cg_model::Place;
use cg_search_state::State;
use rand_pcg::Lcg64Xsh32;
use std::alloc::{AllocError, Global};

/// The cost of the best candidate so far, and the candidate.
#[derive(Clone, Copy, Drop)]
struct Choice {
    cost: u32,
    place: Place,
}

/// A node that is placed again.
#[derive(Drop)]
pub(crate) struct Settling<'s, 'a> {
    /// The state.
    pub(crate) state: &'s mut State<'a>,
    /// The node.
    pub(crate) node: u32,
    /// Its edges whose other ends are placed, by the layers that were searched for them while it was lifted.
    pub(crate) known: Vec<Known>,
}

/// Puts `node`, which is lifted, where it costs least, with routes for those of its edges whose ends are placed. At
/// most `tried` candidates are tried with their routes, those with the least estimates, to which `generator` adds
/// noise.
pub(crate) fn settle(
    alloc: Global,
    state: &mut State,
    node: u32,
    tried: u32,
    generator: &mut Lcg64Xsh32,
) -> Result<(), AllocError> {
    let problem = state.problem;
    let times = window_of(problem, &state.places, node);
    let costs = estimate(alloc, state, node, times)?;
    let few = cheapest(alloc, problem, &costs, tried, generator)?;
    if let Some(first) = first_place(problem, &costs) {
        let known = costs.into_known();
        let mut settling = Settling { state, node, known };
        settling.put_best(alloc, &few, first)?;
    }
    Ok(())
}

impl<'s, 'a> Settling<'s, 'a> {
    /// Puts the node where it costs least with its routes: at a candidate among `few`, or at `first` where no cost is
    /// below the greatest word.
    fn put_best(
        &mut self,
        alloc: Global,
        few: &[Candidate],
        first: Place,
    ) -> Result<(), AllocError> {
        let mut best = Choice {
            cost: u32::MAX,
            place: first,
        };
        for candidate in few {
            let place = candidate.place;
            let cost = self.cost_at(alloc, place, best.cost)?;
            if cost < best.cost {
                best = Choice { cost, place };
            }
        }
        self.state.put(self.node, best.place);
        self.wire(alloc, u32::MAX)?;
        Ok(())
    }

    /// Returns the cost of `place` with the routes of the node's edges, or a cost that isn't below `limit`. The node is
    /// lifted again.
    fn cost_at(&mut self, alloc: Global, place: Place, limit: u32) -> Result<u32, AllocError> {
        let standing = self.state.places.price(place);
        self.state.put(self.node, place);
        let own = standing.saturating_add(broken_ties(self.state, self.node));
        let routed = self.routed_cost(alloc, limit.saturating_sub(own))?;
        self.state.lift(self.node);
        Ok(own.saturating_add(routed))
    }

    /// Returns the cost of the routes of the node, or `limit` where the cost can't be less; nothing is routed where that
    /// is 0.
    fn routed_cost(&mut self, alloc: Global, limit: u32) -> Result<u32, AllocError> {
        if limit == 0 {
            Ok(0)
        } else {
            self.wire(alloc, limit)
        }
    }
}

/// Returns the penalties of the order edges of `node` that are violated.
fn broken_ties(state: &State, node: u32) -> u32 {
    let mut sum: u32 = 0;
    for tie in state.problem.ties.of(node) {
        if state.is_broken(*tie) {
            sum = sum.saturating_add(state.tie_penalty(*tie));
        }
    }
    sum
}
