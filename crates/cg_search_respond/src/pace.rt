//! The counts of a search: its moves and its least number of faults; and its best state.

use crate::effort::Effort;
use crate::faults::faults;
use crate::snapshot::Snapshot;
use cg_diagnostics::Aside;
use cg_search_problem::Problem;
use cg_search_state::State;
use rand_pcg::Lcg64Xsh32;
use std::alloc::{AllocError, Global};

/// The number of sweeps that may pass without fewer faults than before.
const STALE_SWEEPS: u32 = 60;

/// The number of moves that may pass without fewer faults.
const STALE_MOVES: u32 = 1500;

/// The number of these moves for each node, where there are many nodes.
const STALE_NODE_MOVES: u32 = 60;

/// The number of candidates of a node that are tried with their routes.
const TRIED: u32 = 12;

/// The number of these candidates in two attempts of four.
const FEW_TRIED: u32 = 6;

/// The least number of moves from one report of progress to the next.
const REPORT_MOVES: u32 = 64;

/// How an attempt ends.
#[derive(Clone, Copy, Debug, PartialEq, Eq, Drop)]
pub(crate) enum Ending {
    /// Without faults.
    Clean,
    /// With faults that don't become fewer.
    Stale,
    /// With faults, as the search is over: no moves are left, or it is given up.
    Over,
}

/// The data that a search keeps besides its state.
#[derive(Drop)]
pub(crate) struct Pace {
    /// The generator.
    pub(crate) generator: Lcg64Xsh32,
    /// The moves that were made.
    pub(crate) made: u32,
    /// The least number of faults; the greatest word where none were counted yet.
    pub(crate) least: u32,
    /// The first state with the least number of faults; one in which no node is placed where none were counted yet.
    pub(crate) best: Snapshot,
    /// The number of candidates of a node that are tried with their routes.
    pub(crate) tried: u32,
    effort: Effort,
    low: u32,
    since: u32,
    since_move: u32,
    reported: u32,
}

impl Pace {
    /// Returns the pace of a search on `problem` with `effort`.
    pub(crate) fn new(
        alloc: Global,
        problem: &Problem,
        effort: Effort,
    ) -> Result<Pace, AllocError> {
        Ok(Pace {
            generator: Lcg64Xsh32::new(effort.seed, effort.stream),
            made: 0,
            least: u32::MAX,
            best: Snapshot::new(alloc, problem)?,
            effort,
            tried: TRIED,
            low: u32::MAX,
            since: 0,
            since_move: 0,
            reported: 0,
        })
    }

    /// Checks whether moves are left.
    pub(crate) fn has_moves(&self) -> bool {
        self.made < self.effort.moves
    }

    /// Counts a move.
    pub(crate) fn step(&mut self) {
        if self.made < self.effort.moves {
            self.made += 1;
        }
    }

    /// Begins attempt number `attempt`.
    pub(crate) fn begin(&mut self, attempt: u32) {
        self.tried = if attempt % 4 < 2 { TRIED } else { FEW_TRIED };
    }

    /// Begins to count the faults of an attempt.
    pub(crate) fn open(&mut self) {
        self.low = u32::MAX;
        self.since = 0;
        self.since_move = self.made;
    }

    /// Counts the faults of `state`, where none were counted yet.
    pub(crate) fn count_once(&mut self, state: &State) -> Result<(), AllocError> {
        if self.least == u32::MAX {
            self.keep(state, faults(state))?;
        }
        Ok(())
    }

    /// Keeps `state`, which has `faults` faults, where every state before it had more.
    fn keep(&mut self, state: &State, faults: u32) -> Result<(), AllocError> {
        if faults < self.least {
            self.least = faults;
            self.best.take(state)?;
        }
        Ok(())
    }

    /// Counts the faults of `state` before a sweep. Returns how the attempt ends, if it does.
    pub(crate) fn count(&mut self, state: &State) -> Result<Option<Ending>, AllocError> {
        let found = faults(state);
        self.keep(state, found)?;
        if found < self.low {
            self.low = found;
            self.since = 0;
            self.since_move = self.made;
        } else {
            self.since = self.since.saturating_add(1);
        }
        Ok(self.ending(state.problem.nodes, found))
    }

    /// Returns how an attempt on `nodes` nodes ends at `found` faults, if it does.
    fn ending(&self, nodes: u32, found: u32) -> Option<Ending> {
        if found == 0 {
            Some(Ending::Clean)
        } else if self.is_stale(nodes) {
            Some(Ending::Stale)
        } else if !self.has_moves() || self.effort.gives_up(self.made, self.least) {
            Some(Ending::Over)
        } else {
            None
        }
    }

    /// Checks whether faults haven't become fewer for a long time, where there are `nodes` nodes.
    fn is_stale(&self, nodes: u32) -> bool {
        let moves = STALE_MOVES.max(nodes.saturating_mul(STALE_NODE_MOVES));
        self.since > STALE_SWEEPS && self.made.saturating_sub(self.since_move) > moves
    }

    /// Reports to `aside` the moves and the least faults of this search, at the interval `ii` in cycles, where enough
    /// moves were made since it last did.
    pub(crate) fn report(&mut self, ii: u32, aside: &mut dyn Aside) {
        if self.made.saturating_sub(self.reported) >= REPORT_MOVES {
            self.reported = self.made;
            aside.progress(ii, self.made, self.least);
        }
    }
}
