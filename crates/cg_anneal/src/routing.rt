//! Routing edge operands, and removing and restoring their routes.

use crate::walk::Walk;
use cg_model::Words;
use std::alloc::{AllocError, Global};

impl<'g, 'a> Walk<'g, 'a> {
    ghost use Rattle.std.specs.Prelude.{◌≡◌, ◌<◌, List, Option, [], ◌∷◌, All, IfOk, OnOk, ℕ, length, map, Some, None, slice_get, slice_index, slice_index_or};
    ghost use Rattle.cg_walk_spec.specs.State.{edges};
    ghost use Rattle.cg_walk_spec.specs.Walk.{edge, unrouted, with_route};
    ghost use Rattle.cg_walk_spec.specs.Pending.{Fits};
    ghost use Rattle.cg_walk_spec.specs.Pending.{Pending, Rising};
    ghost use Rattle.cg_anneal.specs.Steps.{put_back};
    ghost use Rattle.cg_anneal.specs.Walking as spec;

    /// Routes edge operand `i`, which has no route, if a path is found.
    fn route(&mut self, alloc: Global, i: u32) -> Result<(), AllocError>
        requires known { i < length (edges self.old.kernel) }
        requires none { slice_get self.old.state.routes i ≡ Some None }
        ensures { OnOk result (spec.IsRoutedBy (i ∷ []) self.old self.new) }
    {
        match self.find(alloc, i)? {
            None => Ok(()),
            Some(path) => self.set(i, path),
        }
    }

    /// Routes the edge operands of `list`, which have no routes, one after another.
    pub(crate) fn route_all(&mut self, alloc: Global, list: &[u32]) -> Result<(), AllocError>
        requires known { All (λ i. i < length (edges self.old.kernel)) list.now }
        requires rising { Rising list.now }
        requires pending { Pending list.now self.old.state }
        ensures { OnOk result (spec.IsRoutedBy list.now self.old self.new) }
    {
        for i in list {
            self.route(alloc, *i)?;
        }
        Ok(())
    }

    /// Takes the routes of the edge operands of `list` away, and returns them in that order.
    pub(crate) fn take_all(
        &mut self,
        alloc: Global,
        list: &[u32],
    ) -> Result<Vec<Option<Words>>, AllocError>
        requires known { All (λ i. i < length (edges self.old.kernel)) list.now }
        requires rising { Rising list.now }
        ensures new { OnOk result (self.new ≡ spec.at_state self.old (unrouted list.now self.old.state)) }
        ensures routes { IfOk result (λ v. v.items ≡ map (λ i. slice_index_or self.old.state.routes i None) list.now) }
    {
        let mut routes = Vec::new(alloc);
        for i in list {
            let route = self.take(*i);
            routes.push(route)?;
        }
        Ok(routes)
    }

    /// Takes the routes of the edge operands of `list` away.
    pub(crate) fn drop_all(&mut self, list: &[u32])
        requires known { All (λ i. i < length (edges self.old.kernel)) list.now }
        ensures { self.new ≡ spec.at_state self.old (unrouted list.now self.old.state) }
    {
        for i in list {
            let _ = self.take(*i);
        }
    }

    /// Gives `route` to edge operand `i`, which has none. None leaves it without one.
    fn put(&mut self, i: u32, route: Option<Words>) -> Result<(), AllocError>
        requires known { i < length (edges self.old.kernel) }
        requires none { slice_get self.old.state.routes i ≡ Some None }
        requires fits { Fits self.old.arch self.old.ii self.old.state.places (edge self.old.kernel i) route }
        ensures { OnOk result (self.new ≡ spec.at_state self.old (with_route self.old.state i route)) }
    {
        match route {
            None => Ok(()),
            Some(path) => self.set(i, path),
        }
    }

    /// Gives `routes` to the edge operands of `list`, which have none, in that order.
    pub(crate) fn put_all(
        &mut self,
        list: &[u32],
        routes: Vec<Option<Words>>,
    ) -> Result<(), AllocError>
        requires known { All (λ i. i < length (edges self.old.kernel)) list.now }
        requires rising { Rising list.now }
        requires pending { Pending list.now self.old.state }
        requires each { length routes.items ≡ length list.now }
        requires fits { (k : ℕ) → k < length list.now → Fits self.old.arch self.old.ii self.old.state.places (edge self.old.kernel (slice_index list.now k)) (slice_index_or routes.items k None) }
        ensures { OnOk result (self.new ≡ spec.at_state self.old (put_back list.now routes.items self.old.state)) }
    {
        let mut left = routes;
        for k in 0..list.len() {
            let route = left[k].take();
            self.put(list[k], route)?;
        }
        Ok(())
    }
}
