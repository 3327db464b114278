//! Why turns were not run.

use std::alloc::AllocError;
use thiserror::Error;

/// Why turns were not run.
#[derive(Debug, Drop, Error)]
pub enum TurnsFault {
    #[error("out of memory")]
    Memory,
    /// The number of turns is above 1,000,000.
    #[error("N1 TooManyTurns turns {0}")]
    TooManyTurns(u32),
}

impl From<AllocError> for TurnsFault {
    ghost use Rattle.std.specs.Prelude.{◌≡◌};
    ghost use Rattle.cg_turns.specs.declared.fault.TurnsFault.TheVariants.{Memory};

    ghost from_gives = { λ _ e. e ≡ Memory };

    fn from(_error: AllocError) -> TurnsFault {
        TurnsFault::Memory
    }
}
