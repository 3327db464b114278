//! The description of a mapping in its file, before names are looked up.

use cg_model::{Items, Name};

/// A place, and whether its object has a key that the format doesn't have.
#[derive(Drop)]
pub struct WrittenPlace {
    pub node: Name,
    pub unit: Name,
    pub time: u32,
    pub other_keys: bool,
}

#[derive(Drop)]
pub struct WrittenRoute {
    pub to: Name,
    pub arg: u32,
    pub path: Items<Name>,
    pub other_keys: bool,
}

#[derive(Drop)]
pub struct WrittenMapping {
    pub ii: u32,
    pub places: Items<WrittenPlace>,
    pub routes: Items<WrittenRoute>,
    pub other_keys: bool,
}
