//! The parts of netlists.

use cg_model::{Items, Name};

/// A net.
#[derive(Drop)]
pub struct Net {
    /// Its name.
    pub name: Name,
    /// Its width in bits.
    pub width: u32,
}

/// A pin of a cell.
#[derive(Drop)]
pub struct Pin {
    /// The port of the cell's module.
    pub port: Name,
    /// The net that is connected to it.
    pub net: Name,
}

/// A cell: an instance of a module.
#[derive(Drop)]
pub struct Cell {
    /// The name of its module.
    pub module: Name,
    /// Its own name.
    pub name: Name,
    /// Its pins in order.
    pub pins: Items<Pin>,
}
