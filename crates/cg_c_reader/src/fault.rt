//! Why a step of reading fails.
ghost use Rattle.std.specs.Prelude.{◌≡◌};
ghost use Rattle.cg_c_reader.specs.declared.fault.Misfit.TheVariants.{Memory};

use std::alloc::{AllocError, AllocFailed};

/// Why a step of reading fails.
#[derive(Drop)]
pub(crate) enum Misfit {
    Memory,
    /// No source goes on like this.
    Text,
    /// Too many constructs are open where the one at this position begins.
    Depth(usize),
}

impl From<AllocError> for Misfit {
    ghost from_gives = { λ _ e. e ≡ Memory };

    fn from(_error: AllocError) -> Self {
        Misfit::Memory
    }
}

impl<T: Drop> From<AllocFailed<T>> for Misfit {
    ghost from_gives = { λ _ e. e ≡ Memory };

    fn from(_error: AllocFailed<T>) -> Self {
        Misfit::Memory
    }
}
