//! Why bytes don't describe an architecture.

ghost use Rattle.std.specs.Prelude.{◌≡◌};
ghost use Rattle.cg_grid.specs.declared.fault.TilesFault.TheVariants.{Memory};

use crate::grid::Cell;
use cg_parts::ArchFault;
use std::alloc::{AllocError, AllocFailed};
use thiserror::Error;

/// A part of a tile, counted from 0. The tile is given by its letter in the grid.
#[derive(Clone, Copy, Debug, PartialEq, Eq)]
pub struct PartPlace {
    pub tile: u8,
    pub part: usize,
}

/// The first place of a fault.
#[derive(Clone, Copy, Debug, PartialEq, Eq)]
pub enum TilesPlace {
    /// The whole file, outside the parts of tiles.
    File,
    Part(PartPlace),
}

/// Why bytes don't describe an architecture. The variants after `Memory` are M1 to M6, in this order, and then A1 to
/// A9.
#[derive(Debug, Drop, Error)]
pub enum TilesFault {
    #[error("memory ran out")]
    Memory,
    #[error("no TOML table")]
    NotToml,
    #[error("wrong shape")]
    WrongShape(TilesPlace),
    #[error("unknown key")]
    UnknownKey(TilesPlace),
    #[error("unknown tile")]
    UnknownTile(Cell),
    /// The number of the row.
    #[error("ragged grid")]
    RaggedGrid(usize),
    #[error("unknown operation")]
    UnknownOp(PartPlace),
    /// The grid is too large, or its parts are not a valid architecture. The fault is never out of memory.
    #[error("no architecture")]
    Parts(ArchFault),
}

impl From<AllocError> for TilesFault {
    ghost from_gives = { λ _ fault. fault ≡ Memory };

    fn from(_error: AllocError) -> TilesFault {
        TilesFault::Memory
    }
}

impl<T: Drop> From<AllocFailed<T>> for TilesFault {
    ghost from_gives = { λ _ fault. fault ≡ Memory };

    fn from(_error: AllocFailed<T>) -> TilesFault {
        TilesFault::Memory
    }
}
