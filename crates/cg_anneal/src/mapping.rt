//! The mapping that a state represents.
ghost use Rattle.std.specs.Prelude.{◌≡◌, ◌++◌, OnOk};
ghost use Rattle.cg_anneal.specs.Steps.{route_of};

use crate::walk::Walk;
use cg_model::{Mapping, Route, Words};
use cg_walk_spec::EdgeOperand;
use std::alloc::{AllocError, Global};

/// Adds the route of `edge` to `routes`, if it has one.
fn add_route(
    routes: &mut Vec<Route>,
    edge: EdgeOperand,
    route: Option<Words>,
) -> Result<(), AllocError>
    ensures { OnOk result (routes.new.items ≡ routes.old.items ++ route_of edge route) }
{
    match route {
        None => Ok(()),
        Some(path) => {
            routes.push(Route {
                node: edge.node,
                arg: edge.arg,
                path,
            })?;
            Ok(())
        }
    }
}

impl<'g, 'a> Walk<'g, 'a> {
    ghost use Rattle.std.specs.Prelude.{◌≡◌, IfOk};
    ghost use Rattle.cg_walk_spec.specs.State.{edges, routes_by, mapping_of};

    /// Takes all routes out of the walk, in the order of edge operands.
    fn take_routes(&mut self, alloc: Global) -> Result<Vec<Route>, AllocError>
        ensures { IfOk result (λ v. v.items ≡ routes_by (edges self.old.kernel) self.old.state.routes) }
    {
        self.holds();
        let mut routes = Vec::new(alloc);
        for i in 0..self.count() {
            let edge = self.operand(i);
            let route = self.take(i);
            add_route(&mut routes, edge, route)?;
        }
        Ok(routes)
    }

    /// Takes the mapping that the state represents out of the walk.
    pub(crate) fn take_mapping(&mut self, alloc: Global) -> Result<Mapping, AllocError>
        ensures { IfOk result (λ m. m ≡ mapping_of self.old.kernel self.old.ii self.old.state) }
    {
        let ii = self.interval();
        let places = self.places(alloc)?;
        let routes = self.take_routes(alloc)?;
        Ok(Mapping::new(ii, places, routes))
    }
}
