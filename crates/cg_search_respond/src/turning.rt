//! Moves by whole intervals: a part of the kernel moves an interval later or sooner where values then stay for a
//! shorter time. Its nodes keep their units and slots, and the routes within it are kept; only those across its border
//! are searched anew.

use crate::search::Search;
use cg_search_problem::longest_stays;
use cg_search_state::State;
use std::alloc::{AllocError, Global};

impl<'a> Search<'a> {
    /// Tries for each node to move a whole interval later and a whole interval sooner, with all nodes that must move
    /// along.
    pub(crate) fn turn_parts(&mut self, alloc: Global) -> Result<(), AllocError> {
        for node in 0..self.state.problem.nodes {
            self.turn(alloc, node, true)?;
            self.turn(alloc, node, false)?;
        }
        Ok(())
    }

    /// Moves `node` a whole interval later, where `is_later` is true, or sooner, with all nodes that must move along, if
    /// these aren't the whole kernel, the longest stays of values become less and moves are left.
    fn turn(&mut self, alloc: Global, node: u32, is_later: bool) -> Result<(), AllocError> {
        let part = self.state.along(alloc, node, is_later)?;
        if are_all(&part) || !self.pace.has_moves() {
            return Ok(());
        }
        if pays(alloc, &self.state, &part, is_later)? {
            self.pace.step();
            self.state.shift(alloc, &part, is_later)?;
        }
        Ok(())
    }
}

/// Checks whether all of `marks` are true.
fn are_all(marks: &[bool]) -> bool {
    for mark in marks {
        if !*mark {
            return false;
        }
    }
    true
}

/// Checks whether the longest stays of values become less where the nodes of `part` move a whole interval later, or
/// sooner.
fn pays(alloc: Global, state: &State, part: &[bool], is_later: bool) -> Result<bool, AllocError> {
    let problem = state.problem;
    let mut times = state.places.times(alloc)?;
    let before = longest_stays(problem, &times);
    for node in 0..times.len() {
        if is_marked(part, node) {
            go(&mut times, node, problem.ii, is_later);
        }
    }
    Ok(longest_stays(problem, &times) < before)
}

/// Checks whether the mark of number `place` is true.
fn is_marked(marks: &[bool], place: usize) -> bool {
    match marks.get(place) {
        Some(mark) => *mark,
        None => false,
    }
}

/// Makes the time of number `place` later, or sooner, by `cycles` cycles.
fn go(times: &mut [u32], place: usize, cycles: u32, is_later: bool) {
    if let Some(time) = times.get_mut(place) {
        *time = if is_later {
            time.saturating_add(cycles)
        } else {
            time.saturating_sub(cycles)
        };
    }
}
