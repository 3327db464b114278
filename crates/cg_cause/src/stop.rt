//! The early end of a command.
ghost use Rattle.std.specs.Prelude.{◌≡◌, IfOk};
ghost use Rattle.cg_effects.specs.Outcome.{file_of};
ghost use Rattle.cg_effects.specs.Refusals.{malformed_of};
ghost use Rattle.cg_cause.specs.Allowed.{EndsBy, IsConclusion, IsRefusalOf};
ghost use Rattle.cg_cause.specs.Cause.{cause_text};

use crate::cause::Cause;
use cg_effects::{File, Outcome, malformed};
use std::alloc::{AllocError, AllocFailed, Global};

/// Why a command ended before it had an answer.
#[derive(Drop)]
pub enum Stop {
    /// The file of that name is refused, for that cause.
    Refused {
        /// The name of the file.
        file: String,
        /// The fault of the file.
        cause: Cause,
    },
    /// Memory ran out.
    Memory,
}

impl From<AllocError> for Stop {
    ghost use Rattle.std.specs.Prelude.{◌≡◌};
    ghost use Rattle.cg_cause.specs.declared.stop.Stop.TheVariants.{Memory};

    ghost from_gives = { λ _ e. e ≡ Memory };

    fn from(_error: AllocError) -> Stop {
        Stop::Memory
    }
}

impl<T: Drop> From<AllocFailed<T>> for Stop {
    ghost use Rattle.std.specs.Prelude.{◌≡◌};
    ghost use Rattle.cg_cause.specs.declared.stop.Stop.TheVariants.{Memory};

    ghost from_gives = { λ _ e. e ≡ Memory };

    fn from(_error: AllocFailed<T>) -> Stop {
        Stop::Memory
    }
}

impl Stop {
    /// Returns the stop that refuses `file` for `cause`.
    pub fn refused(alloc: Global, file: &File, cause: Cause) -> Stop
        ensures { EndsBy (λ o. o ≡ malformed_of (file_of file.now).name (cause_text cause)) result }
    {
        match String::from_str(alloc, file.name.as_str()) {
            Ok(file) => Stop::Refused { file, cause },
            Err(AllocError) => Stop::Memory,
        }
    }

    /// Returns the outcome of a command that ended early, which reports the refused file and its fault.
    pub fn outcome(&self, alloc: Global) -> Result<Outcome, AllocError>
        ensures { IfOk result (IsRefusalOf self.now) }
    {
        match self {
            Stop::Refused { file, cause } => {
                let fault = cause.text(alloc)?;
                malformed(alloc, file.as_str(), fault.as_str())
            }
            Stop::Memory => Err(AllocError),
        }
    }
}

/// Returns the outcome with which a command ended: the one it `ended` with, or that of its early end.
pub fn conclude(alloc: Global, ended: Result<Outcome, Stop>) -> Result<Outcome, AllocError>
    ensures { IfOk result (IsConclusion ended) }
{
    match ended {
        Ok(outcome) => Ok(outcome),
        Err(stop) => stop.outcome(alloc),
    }
}
