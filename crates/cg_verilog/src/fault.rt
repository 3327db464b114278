//! Why a text can't be read.
use std::alloc::{AllocError, AllocFailed};
use thiserror::Error;

/// Why a reading step stops.
#[derive(Debug, Drop)]
pub enum Misfit {
    Memory,
    /// No text continues in this way.
    Text,
}

/// Why bytes can't be read.
#[derive(Clone, Copy, Debug, PartialEq, Eq, Error)]
pub enum ModuleFault {
    #[error("memory ran out")]
    Memory,
    /// The place of the first token with which no text continues, or the length where the text ends early.
    #[error("no module goes on so at {0}")]
    Text(usize),
}

impl From<AllocError> for Misfit {
    ghost use Rattle.std.specs.Prelude.{◌≡◌};
    ghost use Rattle.cg_verilog.specs.declared.fault.Misfit.TheVariants.{Memory};

    ghost from_gives = { λ _ e. e ≡ Memory };

    fn from(_error: AllocError) -> Self {
        Misfit::Memory
    }
}

impl<T: Drop> From<AllocFailed<T>> for Misfit {
    ghost use Rattle.std.specs.Prelude.{◌≡◌};
    ghost use Rattle.cg_verilog.specs.declared.fault.Misfit.TheVariants.{Memory};

    ghost from_gives = { λ _ e. e ≡ Memory };

    fn from(_error: AllocFailed<T>) -> Self {
        Misfit::Memory
    }
}
