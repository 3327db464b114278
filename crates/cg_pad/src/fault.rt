//! Why bytes are not an image.

use std::alloc::{AllocError, AllocFailed};
use thiserror::Error;

/// The part of an image that has too many words, with the number of words that the bytes give.
#[derive(Clone, Copy, Debug, PartialEq, Eq)]
pub enum TooLargePlace {
    /// The memory.
    Memory(u32),
    /// The stream of that port.
    Stream(u32, u32),
}

/// Why bytes are not an image. The variants after `Memory` are I1 to I4.
#[derive(Clone, Copy, Debug, PartialEq, Eq, Error)]
pub enum ImageFault {
    #[error("memory ran out")]
    Memory,
    /// The first bytes aren't those of an image.
    #[error("no image")]
    Magic,
    /// The bytes end early: the number of bytes.
    #[error("the bytes end after {0}")]
    Truncated(usize),
    /// A part has too many words.
    #[error("too large")]
    TooLarge(TooLargePlace),
    /// Bytes follow the last stream: the position of the first of them.
    #[error("a byte too many at {0}")]
    Trailing(usize),
}

impl From<AllocError> for ImageFault {
    ghost use Rattle.std.specs.Prelude.{◌≡◌};
    ghost use Rattle.cg_pad.specs.declared.fault.ImageFault.TheVariants.{Memory};

    ghost from_gives = { λ _ e. e ≡ Memory };

    fn from(_error: AllocError) -> ImageFault {
        ImageFault::Memory
    }
}

impl<T: Drop> From<AllocFailed<T>> for ImageFault {
    ghost use Rattle.std.specs.Prelude.{◌≡◌};
    ghost use Rattle.cg_pad.specs.declared.fault.ImageFault.TheVariants.{Memory};

    ghost from_gives = { λ _ e. e ≡ Memory };

    fn from(_error: AllocFailed<T>) -> ImageFault {
        ImageFault::Memory
    }
}
