//! Places in a panel, and the sizes on which they depend.

/// A place in a panel, in pixels.
#[derive(Clone, Copy)]
pub struct Spot {
    /// The distance from the left.
    pub x: u32,
    /// The distance from the top.
    pub y: u32,
}

/// The room that the tiles of an array need.
#[derive(Clone, Copy)]
pub struct Frame {
    /// The number of rows of tiles.
    pub rows: u16,
    /// The number of columns of tiles.
    pub columns: u16,
    /// The greatest number of wires of a tile.
    pub wires: u16,
    /// The greatest number of units of a tile.
    pub units: u16,
    /// The greatest number of registers of a tile.
    pub registers: u16,
}
