//! Why a netlist has no meaning over an architecture.

ghost use Rattle.std.specs.Prelude.{◌≡◌};
ghost use Rattle.cg_gates.specs.declared.fault.GateFault.TheVariants.{Memory};

use cg_model::{Items, Name};
use std::alloc::{AllocError, AllocFailed};
use std::fmt;
use thiserror::Error;

/// Why a netlist has no meaning over an architecture. The variants after `Memory` are E1 to E6, in this order.
#[derive(Drop, Error)]
pub enum GateFault {
    #[error("out of memory")]
    Memory,
    /// A declared net isn't driven by exactly one cell: the net's name.
    #[error("a net that not exactly one cell drives")]
    DriverCount(Name),
    /// A pin is connected to a net that isn't allowed for it: the cell's number.
    #[error("a pin on a wrong net")]
    PinNet(usize),
    /// Muxes form a ring: the nets that they drive, each mux before the one that it hears, starting at the net that is
    /// declared first.
    #[error("a ring of muxes")]
    MuxLoop(Items<Name>),
    /// A cell has the same name as an earlier one: its number.
    #[error("a repeated instance")]
    RepeatedInstance(usize),
    /// A cell isn't named after a resource or a unit to which it fits: its number.
    #[error("an instance that the architecture doesn't know")]
    UnknownInstance(usize),
    /// A unit has no cell: its name.
    #[error("a unit without a cell")]
    MissingUnit(Name),
}

impl fmt::Debug for GateFault {
    fn fmt<W: fmt::Write>(&self, f: &mut fmt::Formatter<W>) -> fmt::Result {
        write!(f, "{self}")
    }
}

impl From<AllocError> for GateFault {
    ghost from_gives = { λ _ fault. fault ≡ Memory };

    fn from(_error: AllocError) -> GateFault {
        GateFault::Memory
    }
}

impl<T: Drop> From<AllocFailed<T>> for GateFault {
    ghost from_gives = { λ _ fault. fault ≡ Memory };

    fn from(_error: AllocFailed<T>) -> GateFault {
        GateFault::Memory
    }
}
