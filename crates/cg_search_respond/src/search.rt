//! The search at an interval: its state, and its pace.

use crate::effort::Effort;
use crate::pace::Pace;
use crate::settling::settle;
use cg_search_problem::Problem;
use cg_search_state::State;
use std::alloc::{AllocError, Global};

/// A search for a mapping.
#[derive(Drop)]
pub(crate) struct Search<'a> {
    /// The places and routes that it has now.
    pub(crate) state: State<'a>,
    /// Its counts, and its best state.
    pub(crate) pace: Pace,
}

impl<'a> Search<'a> {
    /// Returns a search on `problem` with `effort`, in which no node is placed.
    pub(crate) fn new(
        alloc: Global,
        problem: &'a Problem<'a>,
        effort: Effort,
    ) -> Result<Search<'a>, AllocError> {
        Ok(Search {
            state: State::new(alloc, problem)?,
            pace: Pace::new(alloc, problem, effort)?,
        })
    }

    /// Makes the best response of `node`, if there are moves left.
    pub(crate) fn respond(&mut self, alloc: Global, node: u32) -> Result<(), AllocError> {
        if self.pace.has_moves() {
            self.pace.step();
            self.state.lift(node);
            let tried = self.pace.tried;
            settle(
                alloc,
                &mut self.state,
                node,
                tried,
                &mut self.pace.generator,
            )?;
        }
        Ok(())
    }
}
