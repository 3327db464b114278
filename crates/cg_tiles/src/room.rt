//! The remaining room while parts are made.

ghost use Rattle.std.specs.Prelude.{◌≡◌};
ghost use Rattle.cg_tiles.specs.declared.room.MakingFault.TheVariants.{Memory};

use std::alloc::{AllocError, AllocFailed};
use thiserror::Error;

/// Why no parts are made.
#[derive(Clone, Copy, Debug, PartialEq, Eq, Error)]
pub enum MakingFault {
    #[error("memory ran out")]
    Memory,
    #[error("too many links")]
    TooManyLinks,
}

impl From<AllocError> for MakingFault {
    ghost from_gives = { λ _ fault. fault ≡ Memory };

    fn from(_error: AllocError) -> MakingFault {
        MakingFault::Memory
    }
}

impl<T: Drop> From<AllocFailed<T>> for MakingFault {
    ghost from_gives = { λ _ fault. fault ≡ Memory };

    fn from(_error: AllocFailed<T>) -> MakingFault {
        MakingFault::Memory
    }
}

/// The remaining room.
#[derive(Clone, Copy, Debug)]
pub struct Room {
    pub links: usize,
    /// Bytes of the names of drivers. 65,536 links with names of 40 characters take 3 million; where longer names,
    /// which no resource has, take more than 67,108,864, the result is out of memory.
    pub text: usize,
}

impl Room {
    ghost use Rattle.std.specs.Prelude.{◌≡◌, ◌+◌, IfErr, OnOk, length};
    ghost use Rattle.cg_tiles.specs.declared.room.MakingFault.TheVariants.{Memory};

    /// Uses the room for `name`.
    pub fn spend(&mut self, name: &str) -> Result<(), MakingFault>
        ensures links { self.new.links ≡ self.old.links }
        ensures text { OnOk result (self.new.text + length name.now ≡ self.old.text) }
        ensures memory { IfErr result (λ fault. fault ≡ Memory) }
    {
        if name.len() > self.text {
            return Err(MakingFault::Memory);
        }
        self.text -= name.len();
        Ok(())
    }
}
