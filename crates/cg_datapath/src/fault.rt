//! Why a run was not begun.

use std::alloc::AllocError;
use thiserror::Error;

/// Why a run was not begun. The variants after `Memory` are S1 and S2.
#[derive(Clone, Copy, Debug, PartialEq, Eq, Error)]
pub enum SimFault {
    #[error("memory ran out")]
    Memory,
    /// There are more than 1,000,000 iterations: their number.
    #[error("{0} turns")]
    TooManyTurns(u32),
    /// The image has more memory words than the architecture: their number.
    #[error("{0} memory words")]
    ImageTooLarge(usize),
}

impl From<AllocError> for SimFault {
    ghost use Rattle.std.specs.Prelude.{◌≡◌};
    ghost use Rattle.cg_datapath.specs.declared.fault.SimFault.TheVariants.{Memory};

    ghost from_gives = { λ _ e. e ≡ Memory };

    fn from(_error: AllocError) -> SimFault {
        SimFault::Memory
    }
}
