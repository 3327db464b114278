//! The progress of a walk that is reported.

use cg_diagnostics::Aside;

/// The number of moves from one report to the next.
const REPORT_MOVES: u32 = 64;

/// The costs that a walk has had so far.
#[derive(Drop)]
pub(crate) struct Costs {
    /// The interval of the walk, in cycles.
    ii: u32,
    /// The least cost; the greatest number where there is none yet.
    least: u64,
}

impl Costs {
    /// Returns the costs of a walk at the interval `ii`, in cycles, before its first state.
    pub(crate) fn new(ii: u32) -> Costs {
        Costs {
            ii,
            least: u64::MAX,
        }
    }

    /// Notes `cost` after `k` moves, and reports the least cost to `aside` where `k` is a multiple of `REPORT_MOVES`.
    pub(crate) fn meet(&mut self, k: u32, cost: u64, aside: &mut dyn Aside) {
        self.least = self.least.min(cost);
        if k % REPORT_MOVES == 0 {
            let least = self.least.min(u64::from(u32::MAX)) as u32;
            aside.progress(self.ii, k, least);
        }
    }
}
