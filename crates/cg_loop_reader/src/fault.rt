//! Why a step of reading fails.
ghost use Rattle.std.specs.Prelude.{◌≡◌};
ghost use Rattle.cg_loop_reader.specs.declared.fault.Misfit.TheVariants.{Memory};

use std::alloc::{AllocError, AllocFailed};

/// Why a step of reading fails.
#[derive(Drop)]
pub(crate) enum Misfit {
    Memory,
    /// No loop body continues like this.
    Text,
}

impl From<AllocError> for Misfit {
    ghost from_gives = { λ _ e. e ≡ Memory };

    fn from(_error: AllocError) -> Self {
        Misfit::Memory
    }
}

impl<T: Drop> From<AllocFailed<T>> for Misfit {
    ghost from_gives = { λ _ e. e ≡ Memory };

    fn from(_error: AllocFailed<T>) -> Self {
        Misfit::Memory
    }
}
