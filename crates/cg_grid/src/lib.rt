//! Architecture files: the description in a TOML table of tiles on a grid, its faults, and the neighbours of cells.
#![tactic(auto)]

mod fault;
mod grid;
mod part_reading;
mod reading;
mod rules;
mod texts;
mod written;

pub use fault::{PartPlace, TilesFault, TilesPlace};
pub use grid::{Cell, Grid, neighbour};
pub use reading::written_of;
pub use rules::{columns, first_fault, tile_of};
pub use texts::tiles_fault_text;
pub use written::{Header, Part, Reference, References, Side, Tile, WrittenArch, WrittenPart};
