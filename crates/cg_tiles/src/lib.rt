//! Architectures as a designer writes them, from the tiles of a file.
#![tactic(auto)]

mod counting;
mod elements;
mod lean;
mod read;
mod room;

pub use cg_arch::Arch;
pub use cg_grid::{Cell, PartPlace, TilesFault, TilesPlace, tiles_fault_text};
pub use cg_parts::ArchFault;
pub use read::read_arch;
