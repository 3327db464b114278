//! Why parts are not a valid architecture.

ghost use Rattle.std.specs.Prelude.{◌≡◌};
ghost use Rattle.cg_parts.specs.declared.fault.ArchFault.TheVariants.{Memory};

use crate::parts::Names;
use cg_model::Name;
use std::alloc::{AllocError, AllocFailed};
use std::fmt;
use thiserror::Error;

/// The quantity that is too large.
#[derive(Clone, Copy, Debug, PartialEq, Eq)]
pub enum TooLargePlace {
    /// More than 32 rows or columns. Parts have no grid, so only readers of tiles return this.
    Grid,
    Resources,
    Links,
    Units,
    Memory,
}

/// The owner of a bad name. Elements are counted from 0.
#[derive(Clone, Copy, Debug, PartialEq, Eq)]
pub enum NamePlace {
    Architecture,
    Element(usize),
}

/// A driver in an element's lists.
#[derive(Drop)]
pub struct DriverPlace {
    pub element: usize,
    pub name: Name,
}

/// What a hub lacks, or has in excess.
#[derive(Drop)]
pub enum HubPlace {
    /// An entry that is not a register, or is listed twice.
    Entry(Name),
    /// A link that the hub needs.
    Link { from: Name, to: Name },
}

/// Why parts are not a valid architecture. The variants after `Memory` are A1 to A9, in this order.
#[derive(Drop, Error)]
pub enum ArchFault {
    #[error("memory ran out")]
    Memory,
    #[error("too large")]
    TooLarge(TooLargePlace),
    #[error("bad name")]
    BadName(NamePlace),
    #[error("repeated name")]
    RepeatedName(usize),
    #[error("unknown driver")]
    UnknownDriver(DriverPlace),
    #[error("port as a driver")]
    PortDrives(DriverPlace),
    #[error("loop of links without delay")]
    ZeroDelayLoop(Names),
    #[error("bad unit")]
    BadUnit(usize),
    #[error("bad number of contexts")]
    BadContexts(u32),
    #[error("incomplete hub")]
    HubIncomplete(HubPlace),
}

impl fmt::Debug for ArchFault {
    fn fmt<W: fmt::Write>(&self, f: &mut fmt::Formatter<W>) -> fmt::Result {
        write!(f, "{self}")
    }
}

impl From<AllocError> for ArchFault {
    ghost from_gives = { λ _ fault. fault ≡ Memory };

    fn from(_error: AllocError) -> ArchFault {
        ArchFault::Memory
    }
}

impl<T: Drop> From<AllocFailed<T>> for ArchFault {
    ghost from_gives = { λ _ fault. fault ≡ Memory };

    fn from(_error: AllocFailed<T>) -> ArchFault {
        ArchFault::Memory
    }
}
