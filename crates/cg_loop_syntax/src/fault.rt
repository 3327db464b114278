//! Why bytes are not a loop body, or a loop body has no kernel.
ghost use Rattle.std.specs.Prelude.{◌≡◌};
ghost use Rattle.cg_loop_syntax.specs.declared.fault.LoopFault.TheVariants.{Memory};

use std::alloc::{AllocError, AllocFailed};
use thiserror::Error;

/// What a kernel has too many of, with their number.
#[derive(Clone, Copy, Debug, PartialEq, Eq, Drop)]
pub enum Excess {
    /// Nodes.
    Nodes(usize),
    /// Order edges.
    Order(usize),
}

/// Why bytes are not a loop body, or a loop body has no kernel. The variants after `Memory` are Q1 to Q7, in this
/// order; `usize` is the position of a byte.
#[derive(Debug, Drop, Error)]
pub enum LoopFault {
    #[error("out of memory")]
    Memory,
    /// The text is not a loop body: the first token with which no loop body continues, or the length of the text if it
    /// ends early.
    #[error("no loop body goes on so")]
    Text(usize),
    /// A name is not declared before, or is declared for another use.
    #[error("a name that is not declared for this use")]
    UnknownName(usize),
    /// A name is declared again.
    #[error("a name that is declared already")]
    RepeatedName(usize),
    /// A carry is assigned twice: the name in the second assignment. Or it is never assigned: the name in its
    /// declaration.
    #[error("a carry that is not assigned once")]
    CarryAssign(usize),
    /// An array is empty, ends past the greatest address, or overlaps an earlier one: its name.
    #[error("an array that has no place of its own")]
    BadArray(usize),
    /// A port is too great, or an output's port is already used: its number.
    #[error("a port that is not there or not free")]
    BadPort(usize),
    /// The kernel is too large.
    #[error("a kernel that is too large")]
    TooLarge(Excess),
}

impl From<AllocError> for LoopFault {
    ghost from_gives = { λ _ fault. fault ≡ Memory };

    fn from(_error: AllocError) -> LoopFault {
        LoopFault::Memory
    }
}

impl<T: Drop> From<AllocFailed<T>> for LoopFault {
    ghost from_gives = { λ _ fault. fault ≡ Memory };

    fn from(_error: AllocFailed<T>) -> LoopFault {
        LoopFault::Memory
    }
}
