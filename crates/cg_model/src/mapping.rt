//! Mappings, their places and their routes.

use crate::lists::Words;
use std::marker::Model;

/// The unit and the time of a node.
#[derive(Clone, Copy, Debug, PartialEq, Eq)]
pub struct Place {
    /// The number of its unit.
    pub unit: u32,
    /// The cycle in which it begins in turn 0. In turn i it begins `i * ii` cycles later.
    pub time: u32,
}

/// The route of a value to one operand of a node.
#[derive(Drop)]
pub struct Route {
    /// The number of the node that takes the value.
    pub node: u32,
    /// The number of the operand, from 0.
    pub arg: u32,
    /// The resources on the route, by number, from the out of the source's unit to the port.
    pub path: Words,
}

/// A mapping: an interval, a place for each node in node order, and a route for each edge operand in the order of nodes
/// and operands. Contracts see it as the model's record. It need not be a mapping of any kernel, nor legal on any
/// architecture.
#[derive(Drop)]
pub struct Mapping {
    ii: u32,
    places: Vec<Place>,
    routes: Vec<Route>,
}

impl Model for Mapping {
    ghost use Rattle.cg_model.specs.Mapping as mappings;

    ghost Value = { mappings.Mapping };

    ghost view = { λ m. record { ii = m.ii; places = m.places.items; routes = m.routes.items } };
}

impl Mapping {
    ghost use Rattle.std.specs.Prelude.{◌≡◌};

    /// Returns a mapping with interval `ii`, places `places` and routes `routes`.
    pub fn new(ii: u32, places: Vec<Place>, routes: Vec<Route>) -> Mapping
        ensures { result ≡ record { ii = ii; places = places.items; routes = routes.items } }
    {
        Mapping { ii, places, routes }
    }

    /// Returns the interval: the cycles between the beginnings of two consecutive turns.
    pub fn ii(&self) -> u32
        ensures { result ≡ self.now.ii }
    {
        self.ii
    }

    /// Returns the places in node order.
    pub fn places(&self) -> &[Place]
        ensures { result.now ≡ self.now.places }
    {
        &self.places
    }

    /// Returns the routes in the order of nodes and operands.
    pub fn routes(&self) -> &[Route]
        ensures { result.now ≡ self.now.routes }
    {
        &self.routes
    }
}
