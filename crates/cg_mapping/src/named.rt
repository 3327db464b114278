//! A mapping in the order of its file, after its names were looked up.

use cg_model::{Items, Place, Route};

/// A place, with the number of its node.
#[derive(Clone, Copy)]
pub struct NodePlace {
    pub node: u32,
    pub place: Place,
}

#[derive(Drop)]
pub struct NamedMapping {
    pub ii: u32,
    pub places: Items<NodePlace>,
    pub routes: Items<Route>,
}
