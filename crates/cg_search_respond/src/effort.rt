//! The effort of a search.

/// The effort of a search at an interval, and its random numbers.
#[derive(Clone, Copy, Debug, Drop)]
pub struct Effort {
    /// The seed of the generator.
    pub seed: u64,
    /// The number of the generator's stream.
    pub stream: u64,
    /// The greatest number of moves.
    pub moves: u32,
    /// The moves of a full search: a search that is far from a mapping after a part of them is given up; 0 where none
    /// is given up.
    pub full: u64,
}

/// A part of a full search, in twelfths, and the greatest number of faults with which it goes on after that part.
#[derive(Clone, Copy, Drop)]
struct Rung {
    twelfths: u64,
    most: u32,
}

/// The parts after which a full search may be given up.
const LADDER: [Rung; 5] = [
    Rung {
        twelfths: 1,
        most: 24,
    },
    Rung {
        twelfths: 2,
        most: 12,
    },
    Rung {
        twelfths: 4,
        most: 8,
    },
    Rung {
        twelfths: 6,
        most: 4,
    },
    Rung {
        twelfths: 8,
        most: 2,
    },
];

impl Effort {
    /// Checks whether a search is given up whose least number of faults in `made` moves is `least`.
    pub(crate) fn gives_up(&self, made: u32, least: u32) -> bool {
        for rung in &LADDER {
            if self.full > 0 && is_above(*rung, self.full, made, least) {
                return true;
            }
        }
        false
    }
}

/// Checks whether `made` moves are at least the part of `full` moves that `rung` names, and `least` faults are too
/// many.
fn is_above(rung: Rung, full: u64, made: u32, least: u32) -> bool {
    u64::from(made) >= full.saturating_mul(rung.twelfths) / 12 && least > rung.most
}
