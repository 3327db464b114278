//! A copy of the part of a state that a mapping needs.

use cg_model::Place;
use cg_search_problem::{Places, Problem};
use cg_search_state::{Routes, State};
use std::alloc::{AllocError, Global};

/// The places of the nodes of a state, and the routes of its values.
#[derive(Drop)]
pub(crate) struct Snapshot {
    places: Vec<Place>,
    paths: Vec<Vec<u32>>,
}

impl Snapshot {
    /// Returns the copy of a state in which no node is placed.
    pub(crate) fn new(alloc: Global, problem: &Problem) -> Result<Snapshot, AllocError> {
        let mut places = Vec::new(alloc);
        for node in 0..problem.nodes {
            places.push(nowhere(node))?;
        }
        let mut paths = Vec::new(alloc);
        for _ in &problem.edges {
            paths.push(Vec::new(alloc))?;
        }
        Ok(Snapshot { places, paths })
    }

    /// Becomes a copy of `state`. After an error the copy is unusable.
    pub(crate) fn take(&mut self, state: &State) -> Result<(), AllocError> {
        self.take_places(&state.places);
        self.take_paths(&state.routes)
    }

    /// Copies the places of nodes.
    fn take_places(&mut self, standing: &Places) {
        let least = standing.least_time();
        let mut node: u32 = 0;
        for place in &mut self.places {
            *place = place_from(standing.at(node), least, node);
            node = node.saturating_add(1);
        }
    }

    /// Copies the resources on each route.
    fn take_paths(&mut self, standing: &Routes) -> Result<(), AllocError> {
        let mut edge: u32 = 0;
        for path in &mut self.paths {
            take_path(path, standing, edge)?;
            edge = edge.saturating_add(1);
        }
        Ok(())
    }

    /// Returns the place of `node`, with times counted from the least one; on no unit where it had no place.
    pub(crate) fn place(&self, node: u32) -> Place {
        match self.places.get(node as usize) {
            Some(place) => *place,
            None => nowhere(node),
        }
    }

    /// Returns the resources on the route of `edge`; none where it had no route.
    pub(crate) fn path(&self, edge: u32) -> &[u32] {
        match self.paths.get(edge as usize) {
            Some(path) => path.as_slice(),
            None => &[],
        }
    }
}

/// Returns `place`, that of `node`, with its time counted from `least`; on no unit where there is none.
fn place_from(place: Option<Place>, least: u32, node: u32) -> Place {
    match place {
        Some(place) => Place {
            unit: place.unit,
            time: place.time.saturating_sub(least),
        },
        None => nowhere(node),
    }
}

/// Returns a place of `node` on no unit, different from that of any other node.
fn nowhere(node: u32) -> Place {
    Place {
        unit: u32::MAX - node,
        time: 0,
    }
}

/// Makes `path` the resources on the route of `edge`; none where it has no route.
fn take_path(path: &mut Vec<u32>, standing: &Routes, edge: u32) -> Result<(), AllocError> {
    path.clear();
    if let Some(route) = standing.route(edge) {
        for stand in route {
            path.push(stand.resource)?;
        }
    }
    Ok(())
}
