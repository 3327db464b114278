//! Attempts: an opening, and then sweeps over the nodes that take part in a fault.

use crate::draws::shuffle;
use crate::faults::{bad_nodes, is_bad};
use crate::opening::opening;
use crate::pace::Ending;
use crate::search::Search;
use cg_diagnostics::Aside;
use std::alloc::{AllocError, Global};

/// The number of sweeps of an attempt.
const SWEEPS: u32 = 9000;

/// The number of first sweeps that go over all nodes.
const WHOLE: u32 = 2;

/// The number of sweeps from one shift of parts by whole intervals to the next.
const TURNING: u32 = 4;

/// The greatest interval at which parts are shifted only before the first sweep.
const SHORT_INTERVAL: u32 = 2;

impl<'a> Search<'a> {
    /// Makes attempt number `number`, and returns how it ends. `aside` takes the progress.
    pub(crate) fn attempt(
        &mut self,
        alloc: Global,
        number: u32,
        aside: &mut dyn Aside,
    ) -> Result<Ending, AllocError> {
        self.pace.begin(number);
        if self.open(alloc, number)? {
            self.make_sweeps(alloc, aside)
        } else {
            self.pace.count_once(&self.state)?;
            Ok(Ending::Over)
        }
    }

    /// Places the nodes one after another where none is placed, in the order of attempt number `number`. Returns whether
    /// the moves sufficed.
    fn open(&mut self, alloc: Global, number: u32) -> Result<bool, AllocError> {
        self.state.clear();
        let list = opening(alloc, self.state.problem, number, &mut self.pace.generator)?;
        for node in &list {
            if !self.pace.has_moves() {
                return Ok(false);
            }
            self.respond(alloc, *node)?;
        }
        Ok(true)
    }

    /// Makes sweeps until the attempt ends, and returns how it ends. `aside` takes the progress.
    fn make_sweeps(&mut self, alloc: Global, aside: &mut dyn Aside) -> Result<Ending, AllocError> {
        self.pace.open();
        for sweep in 0..SWEEPS {
            if let Some(ending) = self.pace.count(&self.state)? {
                return Ok(ending);
            }
            self.pace.report(self.state.problem.ii, aside);
            self.make_sweep(alloc, sweep)?;
        }
        Ok(Ending::Stale)
    }

    /// Raises the prices of faults, and then makes the best responses of the nodes that take part in a fault, or of all
    /// nodes in the first sweeps. `sweep` is the number of the sweep.
    fn make_sweep(&mut self, alloc: Global, sweep: u32) -> Result<(), AllocError> {
        self.state.age();
        if turns_parts(self.state.problem.ii, sweep) {
            self.turn_parts(alloc)?;
        }
        if sweep < WHOLE {
            self.respond_all(alloc)
        } else {
            self.respond_bad(alloc)
        }
    }

    /// Makes the best responses of all nodes, ascending.
    fn respond_all(&mut self, alloc: Global) -> Result<(), AllocError> {
        for node in 0..self.state.problem.nodes {
            self.respond(alloc, node)?;
        }
        Ok(())
    }

    /// Makes the best responses of the nodes that take part in a fault, in a random order; each only if it still takes
    /// part in one when its turn comes.
    fn respond_bad(&mut self, alloc: Global) -> Result<(), AllocError> {
        let mut list = bad_nodes(alloc, &self.state)?;
        shuffle(&mut self.pace.generator, &mut list);
        for node in &list {
            if is_bad(&self.state, *node) {
                self.respond(alloc, *node)?;
            }
        }
        Ok(())
    }
}

/// Checks whether parts of the kernel move a whole interval later or sooner in sweep number `sweep`, at the interval
/// `ii`.
fn turns_parts(ii: u32, sweep: u32) -> bool {
    sweep == 0 || ii > SHORT_INTERVAL && sweep % TURNING == 0
}
