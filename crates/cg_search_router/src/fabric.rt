//! The fabric in which routes are searched.
use cg_search_costs::{Occupancy, Wiring};

/// The routing fabric and its congestion: the connections between resources, and the price of each resource in each
/// slot.
#[derive(Clone, Copy)]
pub struct Fabric<'a> {
    /// The resources and their connections.
    pub wiring: &'a Wiring,
    /// The claims on resources in slots, and the prices of further claims.
    pub occupancy: &'a Occupancy,
}

/// The extent of a search for routes.
#[derive(Clone, Copy, Debug, PartialEq, Eq)]
pub struct Extent {
    /// The last layer.
    pub last: u32,
    /// The price from which on a way is of no use.
    pub cap: u32,
}
