//! Why bytes are not a valid bitstream for an architecture.

use std::alloc::{AllocError, AllocFailed};
use thiserror::Error;

/// Why bytes are not a valid bitstream for an architecture. The variants after `Memory` are B1 to B11, in this order.
/// Bits and bytes are counted from 0 at the start of the file; a bit is the first bit of the field at fault.
#[derive(Clone, Copy, Debug, PartialEq, Eq, Error)]
pub enum BitsFault {
    #[error("memory ran out")]
    Memory,
    /// The first bytes aren't those of the format.
    #[error("no bits")]
    Magic,
    /// The bytes end early: the number of bytes.
    #[error("the bytes end early")]
    Truncated(usize),
    /// The file is for another architecture: the digest in the file, and that of the architecture.
    #[error("bits of another architecture")]
    ArchMismatch([u8; 32], [u8; 32]),
    /// The header's interval or stages are invalid: both of them.
    #[error("an interval or stages that can't be")]
    BadHeader(u32, u32),
    /// A select above the number of drivers: its bit.
    #[error("no driver has that number")]
    BadSelect(usize),
    /// No operation has that code: its bit.
    #[error("no operation has that code")]
    BadOp(usize),
    /// The unit doesn't offer the operation: its bit.
    #[error("an operation that isn't offered")]
    NotOffered(usize),
    /// A field that breaks the rules of canonical configurations: its bit.
    #[error("not canonical")]
    NotCanonical(usize),
    /// A padding bit is set: the first one.
    #[error("a padding bit is set")]
    BadPadding(usize),
    /// Bytes follow the padding: the position of the first of them.
    #[error("a byte too many")]
    Trailing(usize),
    /// An output to a port that an earlier field has: the bit of its port.
    #[error("an output to a port that is used")]
    RepeatedPort(usize),
}

/// Why bytes are not a valid bitstream of the first format for an architecture: the same faults at the same places, C1
/// to C11.
pub type Bits1Fault = BitsFault;

impl From<AllocError> for BitsFault {
    ghost use Rattle.std.specs.Prelude.{◌≡◌};
    ghost use Rattle.cg_bits.specs.declared.fault.BitsFault.TheVariants.{Memory};

    ghost from_gives = { λ _ e. e ≡ Memory };

    fn from(_error: AllocError) -> BitsFault {
        BitsFault::Memory
    }
}

impl<T: Drop> From<AllocFailed<T>> for BitsFault {
    ghost use Rattle.std.specs.Prelude.{◌≡◌};
    ghost use Rattle.cg_bits.specs.declared.fault.BitsFault.TheVariants.{Memory};

    ghost from_gives = { λ _ e. e ≡ Memory };

    fn from(_error: AllocFailed<T>) -> BitsFault {
        BitsFault::Memory
    }
}
