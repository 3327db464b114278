//! The description of an architecture in its file.

use cg_model::{Items, Name};
use cg_parts::Names;
use cg_word::OpSet;

/// The location of the resource of a reference.
#[derive(Clone, Copy, Debug, PartialEq, Eq)]
pub enum Side {
    /// In the tile itself: `x`.
    Here,
    /// In the row before: `N.x`.
    North,
    /// In the column after: `E.x`.
    East,
    /// In the row after: `S.x`.
    South,
    /// In the column before: `W.x`.
    West,
    /// Anywhere, by its flat name: `/name`.
    Anywhere,
}

/// A reference to a resource: its location, and its name there.
#[derive(Drop)]
pub struct Reference {
    pub side: Side,
    pub name: Name,
}

/// The drivers written for a wire, a register or a port.
pub type References = Items<Reference>;

/// A wire, a register or a unit of a tile, by its name there.
#[derive(Drop)]
pub enum Part {
    Wire {
        name: Name,
        from: References,
    },
    Register {
        name: Name,
        from: References,
    },
    Unit {
        name: Name,
        /// The operations named in its list.
        ops: OpSet,
        /// Whether its list has an item that isn't the name of an operation.
        other_ops: bool,
        latency: u32,
        ports: Items<References>,
    },
}

/// A part, and whether its table has a key that isn't one of its shape.
#[derive(Drop)]
pub struct WrittenPart {
    pub part: Part,
    pub other_keys: bool,
}

/// The parts for a letter of the grid.
#[derive(Drop)]
pub struct Tile {
    pub letter: u8,
    pub parts: Items<WrittenPart>,
}

/// The description in a file except its tiles.
#[derive(Drop)]
pub struct Header {
    pub name: Name,
    pub contexts: u32,
    pub memory: u32,
    /// Whether rows and columns wrap around the grid's edges.
    pub torus: bool,
    /// The names of the hub's registers.
    pub hub: Names,
    /// The rows of the grid, a character for each cell: a tile's letter, or `.` where it is empty.
    pub grid: Names,
    pub other_keys: bool,
}

/// The description in a file: its tiles, in the order of their letters, and the rest.
#[derive(Drop)]
pub struct WrittenArch {
    pub header: Header,
    pub tiles: Items<Tile>,
}
