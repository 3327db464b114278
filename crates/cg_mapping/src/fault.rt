//! Why bytes don't describe a mapping of a kernel on an architecture.

ghost use Rattle.std.specs.Prelude.{◌≡◌};
ghost use Rattle.cg_mapping.specs.declared.fault.MappingFault.TheVariants.{Memory};

use cg_model::Name;
use std::alloc::{AllocError, AllocFailed};
use std::fmt;
use thiserror::Error;

/// The first place of a fault: the whole file, a place or a route, counted from 0.
#[derive(Clone, Copy, Debug, PartialEq, Eq)]
pub enum MappingPlace {
    File,
    Place(usize),
    Route(usize),
}

/// A node or an edge operand for which a mapping has nothing, or more than one item.
#[derive(Drop)]
pub enum Gap {
    /// A node without exactly one place: its name.
    Node(Name),
    /// An edge operand without exactly one route: its node's name, and its number.
    Arg(Name, usize),
}

/// Why bytes don't describe a mapping. The variants after `Memory` are P1 to P6, in this order.
#[derive(Drop, Error)]
pub enum MappingFault {
    #[error("memory ran out")]
    Memory,
    #[error("no JSON value")]
    NotJson,
    #[error("wrong shape")]
    WrongShape(MappingPlace),
    #[error("unknown key")]
    UnknownKey(MappingPlace),
    #[error("unknown name")]
    UnknownName(MappingPlace),
    #[error("interval, time or path too large")]
    TooLarge(MappingPlace),
    #[error("not one place a node and one route an edge operand")]
    Incomplete(Gap),
}

impl fmt::Debug for MappingFault {
    fn fmt<W: fmt::Write>(&self, f: &mut fmt::Formatter<W>) -> fmt::Result {
        write!(f, "{self}")
    }
}

impl From<AllocError> for MappingFault {
    ghost from_gives = { λ _ fault. fault ≡ Memory };

    fn from(_error: AllocError) -> MappingFault {
        MappingFault::Memory
    }
}

impl<T: Drop> From<AllocFailed<T>> for MappingFault {
    ghost from_gives = { λ _ fault. fault ≡ Memory };

    fn from(_error: AllocFailed<T>) -> MappingFault {
        MappingFault::Memory
    }
}
