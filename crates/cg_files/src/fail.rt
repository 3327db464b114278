//! Why a call of a store or a sink failed.
use std::alloc::{AllocError, AllocFailed};

/// Why a call of a store failed.
#[derive(Clone, Copy, Debug, PartialEq, Eq)]
pub enum StoreFail {
    /// The system, or its substitute, failed.
    Failed,
    /// The file has more bytes than the limit: the number of bytes that were seen.
    TooLong(u64),
    /// Memory ran out.
    Memory,
}

/// Why a call of a sink failed.
#[derive(Clone, Copy, Debug, PartialEq, Eq)]
pub enum SinkFail {
    /// The system, or its substitute, failed.
    Failed,
    /// Memory ran out.
    Memory,
}

impl From<AllocError> for StoreFail {
    ghost use Rattle.std.specs.Prelude.{◌≡◌};
    ghost use Rattle.cg_files.specs.declared.fail.StoreFail.TheVariants.{Memory};

    ghost from_gives = { λ _ e. e ≡ Memory };

    fn from(_error: AllocError) -> StoreFail {
        StoreFail::Memory
    }
}

impl<T: Drop> From<AllocFailed<T>> for StoreFail {
    ghost use Rattle.std.specs.Prelude.{◌≡◌};
    ghost use Rattle.cg_files.specs.declared.fail.StoreFail.TheVariants.{Memory};

    ghost from_gives = { λ _ e. e ≡ Memory };

    fn from(_error: AllocFailed<T>) -> StoreFail {
        StoreFail::Memory
    }
}

impl From<AllocError> for SinkFail {
    ghost use Rattle.std.specs.Prelude.{◌≡◌};
    ghost use Rattle.cg_files.specs.declared.fail.SinkFail.TheVariants.{Memory};

    ghost from_gives = { λ _ e. e ≡ Memory };

    fn from(_error: AllocError) -> SinkFail {
        SinkFail::Memory
    }
}
