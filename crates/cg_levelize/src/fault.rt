//! Why there is no order.

ghost use Rattle.std.specs.Prelude.{◌≡◌};
ghost use Rattle.cg_levelize.specs.declared.fault.OrderFault.TheVariants.{Memory};

use cg_model::Words;
use std::alloc::AllocError;
use std::fmt;
use thiserror::Error;

/// Why no order of resources was found.
#[derive(Drop, Error)]
pub enum OrderFault {
    #[error("memory ran out")]
    Memory,
    /// A loop of resources, each driven in the same cycle by the one before it, and the first by the last. The loop
    /// begins with its least number.
    #[error("a loop of resources that drive each other in the same cycle")]
    CombinationalLoop(Words),
}

impl fmt::Debug for OrderFault {
    fn fmt<W: fmt::Write>(&self, f: &mut fmt::Formatter<W>) -> fmt::Result {
        match self {
            OrderFault::Memory => write!(f, "Memory"),
            OrderFault::CombinationalLoop(ring) => write!(
                f,
                "CombinationalLoop({:?})",
                ring.as_slice()
            ),
        }
    }
}

impl From<AllocError> for OrderFault {
    ghost from_gives = { λ _ fault. fault ≡ Memory };

    fn from(_error: AllocError) -> OrderFault {
        OrderFault::Memory
    }
}
