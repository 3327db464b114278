//! The position of a cycle in a run.

/// The position of a cycle in a run: its slot, its round, and its number modulo 4, which is the row of its results.
#[derive(Clone, Copy)]
pub(crate) struct Moment {
    pub(crate) slot: u32,
    pub(crate) round: u32,
    pub(crate) row: usize,
}

impl Moment {
    ghost use Rattle.std.specs.Prelude.{◌<◌, ◌+◌, ◌^◌, ℕ};
    ghost use Rattle.cg_datapath.specs.Moment.{IsMoment};

    /// Returns the position of the next cycle, at the interval `ii`.
    pub(crate) fn next(self, ii: u32) -> Moment
        requires slot { self.slot < ii }
        requires round { self.round + 1 < 2 ^ 32 }
        requires row { self.row < 4 }
        ensures { (c : ℕ) → IsMoment self ii c → IsMoment result ii (c + 1) }
    {
        let row = (self.row + 1) % 4;
        if self.slot + 1 == ii {
            Moment {
                slot: 0,
                round: self.round + 1,
                row,
            }
        } else {
            Moment {
                slot: self.slot + 1,
                round: self.round,
                row,
            }
        }
    }
}
