//! The mapping that a copy of a state represents.
ghost use Rattle.std.specs.Prelude.{◌≡◌, ◌<◌, ◌++◌, ◌∷◌, [], ◌^◌, IfOk, OnOk, length, map};
ghost use Rattle.cg_model.specs.Kernel.{size};
ghost use Rattle.cg_model.specs.Mapping.{IsShaped, end_of, ends_of, ends_from};

use crate::snapshot::Snapshot;
use cg_model::{Items, Kernel, Mapping, Operand, Place, Route, Words};
use cg_search_problem::count;
use std::alloc::{AllocError, Global};

/// Returns the mapping of `kernel` that `snapshot` represents, at the interval `ii`, with an empty path for an edge
/// without a route.
pub(crate) fn mapping(
    alloc: Global,
    kernel: &Kernel,
    ii: u32,
    snapshot: &Snapshot,
) -> Result<Mapping, AllocError>
    ensures ii { IfOk result (λ m. m.ii ≡ ii) }
    ensures shape { IfOk result (IsShaped kernel.now) }
{
    let places = places_of(alloc, kernel, snapshot)?;
    let routes = routes_of(alloc, kernel, snapshot)?;
    Ok(Mapping::new(ii, places, routes))
}

/// Returns the place of each node of `kernel`.
fn places_of(alloc: Global, kernel: &Kernel, snapshot: &Snapshot) -> Result<Vec<Place>, AllocError>
    ensures { IfOk result (λ v. length v.items ≡ size kernel.now) }
{
    let mut places = Vec::new(alloc);
    for node in 0..kernel.nodes().len() {
        places.push(snapshot.place(node as u32))?;
    }
    Ok(places)
}

/// Returns the route of each edge operand.
fn routes_of(alloc: Global, kernel: &Kernel, snapshot: &Snapshot) -> Result<Vec<Route>, AllocError>
    ensures { IfOk result (λ v. map end_of v.items ≡ ends_from 0 kernel.now.nodes) }
{
    let nodes = kernel.nodes();
    let mut listing = Listing {
        snapshot,
        routes: Vec::new(alloc),
    };
    for node in 0..nodes.len() {
        let operands = nodes[node].operands.as_slice();
        listing.add_routes(alloc, node as u32, operands)?;
    }
    Ok(listing.routes)
}

/// The routes of a copy of a state, listed by node and operand. Edges are numbered in this order.
#[derive(Drop)]
struct Listing<'s> {
    /// The copy.
    snapshot: &'s Snapshot,
    /// The routes so far.
    routes: Vec<Route>,
}

impl<'s> Listing<'s> {
    /// Adds the routes to the operands `operands` of `node`.
    fn add_routes(
        &mut self,
        alloc: Global,
        node: u32,
        operands: &[Operand],
    ) -> Result<(), AllocError>
        requires { length operands.now < 2 ^ 32 }
        ensures { OnOk result (map end_of self.new.routes.items ≡ map end_of self.old.routes.items ++ ends_of node 0 operands.now) }
    {
        for arg in 0..operands.len() {
            self.add_route(alloc, node, arg as u32, &operands[arg])?;
        }
        Ok(())
    }

    /// Adds the route to operand `arg` of `node` if it is an edge.
    fn add_route(
        &mut self,
        alloc: Global,
        node: u32,
        arg: u32,
        operand: &Operand,
    ) -> Result<(), AllocError>
        ensures { OnOk result (map end_of self.new.routes.items ≡ map end_of self.old.routes.items ++ ends_of node arg (operand.now ∷ [])) }
    {
        match operand {
            Operand::Const(_) => Ok(()),
            Operand::Edge { .. } => {
                let edge = count(self.routes.as_slice());
                let path = path_of(alloc, self.snapshot, edge)?;
                self.routes.push(Route { node, arg, path })?;
                Ok(())
            }
        }
    }
}

/// Returns the resources on the route of `edge`; none where it has no route.
fn path_of(alloc: Global, snapshot: &Snapshot, edge: u32) -> Result<Words, AllocError> {
    let mut path = Vec::new(alloc);
    path.extend_from_slice(snapshot.path(edge))?;
    Ok(Items::new(path))
}
