//! The current state of the walk.
ghost use Rattle.std.specs.Prelude.{◌≡◌, IfOk, replicate, None};

use crate::edges::{all, edges_of_kernel, touching};
use crate::ends::{RouteEnds, ends_between};
use cg_arch::Arch;
use cg_congestion::Usage;
use cg_congestion::laws::PlainUsage;
use cg_model::{Items, Kernel, Place, Words};
use cg_mrrg::Mrrg;
use cg_place::{Move, Placement, Task};
use cg_route::least_path;
use cg_walk_spec::EdgeOperand;
use std::alloc::{AllocError, Global};
use std::marker::Model;

/// The cost of each edge operand without a route, each order edge that is broken and each node beyond one in a slot of
/// a unit.
pub(crate) const WEIGHT: u64 = 1000;

/// The state of a walk: places, routes and histories, with a use table that has the uses of the routes.
#[derive(Drop)]
pub(crate) struct Walk<'g, 'a> {
    graph: &'g Mrrg<'a>,
    arch: &'a Arch,
    kernel: &'a Kernel,
    ii: u32,
    edges: Vec<EdgeOperand>,
    placement: Placement<'a>,
    usage: Usage<'a>,
    routes: Vec<Option<Words>>,
    missing: u32,
}

impl<'g, 'a> Model for Walk<'g, 'a> {
    ghost use Rattle.cg_anneal.specs.Walking.{Walking, IsKept};

    ghost Value = { Walking };

    ghost view = { λ w. record { arch = w.arch.now; kernel = w.kernel.now; ii = w.ii; early = w.placement.early; state = record { places = w.placement.places; routes = w.routes.items; history = w.usage.history } } };

    ghost invariant = { λ w. IsKept (record { arch = w.arch.now; kernel = w.kernel.now; ii = w.ii; early = w.placement.early; state = record { places = w.placement.places; routes = w.routes.items; history = w.usage.history } }) w.graph.now w.edges.items w.placement w.usage w.missing };
}

impl<'g, 'a> Walk<'g, 'a> {
    ghost use Rattle.std.specs.Prelude.{◌≡◌, ◌<◌, ◌≤◌, ◌+◌, ◌*◌, ◌^◌, All, IfOk, OnOk, length, Option, Some, None, slice_get, slice_index_or};
    ghost use Rattle.cg_place.specs.Placed.{moved, back, place_in};
    ghost use Rattle.cg_route.specs.Least.{IsTimedPath};
    ghost use Rattle.cg_congestion.specs.Table.{IsMore};
    ghost use Rattle.cg_walk_spec.specs.State.{edges, cost, missing, positions_by, state_positions};
    ghost use Rattle.cg_model.specs.Kernel.{size};
    ghost use Rattle.cg_place.specs.Draws.{drawn_move};
    ghost use Rattle.cg_walk_spec.specs.Walk.{edge, with_route, all_edges, aged_state, unrouted_start, IsFoundFor};
    ghost use Rattle.cg_walk_spec.specs.Walk.{touching as touching_of_kernel};
    ghost use Rattle.cg_walk_spec.specs.Ranges.{AreInRange};
    ghost use Rattle.cg_anneal.specs.Walking as spec;

    /// Returns the source of edge operand `i`, and the ends of its route by the current places.
    fn ends(&self, i: u32) -> RouteEnds
        requires { i < length (edges self.now.kernel) }
        ensures source { result.source ≡ (edge self.now.kernel i).source }
        ensures ends { spec.ends_are result ≡ spec.ends_at self.now i }
        ensures range { AreInRange self.now.arch (spec.ends_are result) }
        ensures valid { spec.IsWalking self.now }
    {
        let edge = self.edges[i as usize];
        let from = self.placement.place(edge.source);
        let to = self.placement.place(edge.node);
        ends_between(self.arch, self.ii, edge, from, to)
    }

    /// Returns the least path for edge operand `i`, None where none is found.
    pub(crate) fn find(&self, alloc: Global, i: u32) -> Result<Option<Words>, AllocError>
        requires { i < length (edges self.now.kernel) }
        ensures found { IfOk result (λ found. IsFoundFor self.now.arch self.now.kernel self.now.ii self.now.state i found) }
    {
        let ends = self.ends(i);
        let found = least_path(
            alloc,
            self.graph,
            &self.usage,
            ends.source,
            ends.start,
            ends.from,
            ends.to,
            ends.end,
        )?;
        match found {
            None => Ok(None),
            Some(path) => Ok(Some(Items::new(path))),
        }
    }

    /// Gives the route `path` to edge operand `i`, which has none, and counts its claims.
    pub(crate) fn set(&mut self, i: u32, path: Words) -> Result<(), AllocError>
        requires known { i < length (edges self.old.kernel) }
        requires none { slice_get self.old.state.routes i ≡ Some None }
        requires fits { IsTimedPath self.old.arch (spec.ends_at self.old i) path }
        ensures { OnOk result (self.new ≡ spec.at_state self.old (with_route self.old.state i (Some path))) }
    {
        let ends = self.ends(i);
        self.usage.add(ends.source, ends.start, path.as_slice())?;
        self.routes[i as usize] = Some(path);
        self.missing -= 1;
        Ok(())
    }

    /// Takes the route of edge operand `i` away with its claims, and returns it.
    pub(crate) fn take(&mut self, i: u32) -> Option<Words>
        requires known { i < length (edges self.old.kernel) }
        ensures new { self.new ≡ spec.at_state self.old (with_route self.old.state i None) }
        ensures route { result ≡ slice_index_or self.old.state.routes i None }
    {
        let ends = self.ends(i);
        match self.routes[i as usize].take() {
            None => None,
            Some(path) => {
                self.usage.remove(ends.source, ends.start, path.as_slice());
                self.missing += 1;
                Some(path)
            }
        }
    }

    /// Returns the cost of the state.
    pub(crate) fn cost(&self) -> u64
        ensures { result ≡ cost self.now.arch self.now.kernel self.now.ii self.now.state }
    {
        let heavy = u64::from(self.missing)
            + u64::from(self.placement.order_violations())
            + u64::from(self.placement.unit_excess());
        WEIGHT * heavy + self.usage.excess()
    }

    /// Counts the edge operands without a route anew.
    pub(crate) fn missing_anew(&self) -> u64
        ensures value { result ≡ missing self.now.state }
        ensures few { result < 2 ^ 31 }
    {
        self.routes.iter().filter(|route| route.is_none()).count() as u64
    }

    /// Adds the claims of the route of edge operand `i` to `usage`, if it has one.
    pub(crate) fn add_to(&self, usage: &mut PlainUsage, i: u32) -> Result<(), AllocError>
        requires known { i < length (edges self.now.kernel) }
        requires arch { usage.old.arch ≡ self.now.arch }
        requires room { length usage.old.positions ≤ length (state_positions self.now.arch self.now.kernel self.now.ii self.now.state) }
        ensures { OnOk result (IsMore usage.old usage.new (positions_by self.now.arch self.now.ii self.now.state.places (edge self.now.kernel i) (slice_index_or self.now.state.routes i None))) }
    {
        let ends = self.ends(i);
        match &self.routes[i as usize] {
            None => Ok(()),
            Some(path) => usage.add(ends.source, ends.start, path.as_slice()),
        }
    }

    /// Places a node by `change`, where no edge operand of the node has a route, and returns the move that undoes it.
    pub(crate) fn place(&mut self, change: Move) -> Move
        requires may { spec.MayPlace self.old change }
        requires alone { spec.IsAlone self.old change.node }
        ensures new { self.new ≡ spec.at_state self.old (record self.old.state { places = moved self.old.state.places change }) }
        ensures back { result ≡ back self.old.state.places change }
        ensures may { spec.MayPlace self.new result }
    {
        self.placement.apply(change)
    }

    /// Returns the walk of `task` over `graph` at its start, before edge operands are routed.
    pub(crate) fn start(
        alloc: Global,
        graph: &'g Mrrg<'a>,
        task: &Task<'a>,
    ) -> Result<Walk<'g, 'a>, AllocError>
        requires { graph.now ≡ record { arch = task.now.arch; interval = task.now.ii } }
        ensures { IfOk result (λ w. w ≡ record { arch = task.now.arch; kernel = task.now.kernel; ii = task.now.ii; early = task.now.early; state = unrouted_start task.now.arch task.now.kernel task.now.ii task.now.early }) }
    {
        task.holds();
        let arch = task.arch();
        let kernel = task.kernel();
        let ii = task.interval();
        let edges = edges_of_kernel(alloc, kernel)?;
        let routes = no_routes(alloc, edges.len())?;
        let missing = edges.len() as u32;
        let placement = Placement::start(alloc, arch, kernel, ii, task.early())?;
        let usage = Usage::new(alloc, graph)?;
        Ok(Walk {
            graph,
            arch,
            kernel,
            ii,
            edges,
            placement,
            usage,
            routes,
            missing,
        })
    }

    /// Returns the architecture.
    pub(crate) fn arch(&self) -> &'a Arch
        ensures { result.now ≡ self.now.arch }
    {
        self.arch
    }

    /// Returns the kernel.
    pub(crate) fn kernel(&self) -> &'a Kernel
        ensures { result.now ≡ self.now.kernel }
    {
        self.kernel
    }

    /// Returns the architecture's modulo routing resource graph at the interval.
    pub(crate) fn graph(&self) -> &'g Mrrg<'a>
        ensures { result.now ≡ record { arch = self.now.arch; interval = self.now.ii } }
    {
        self.graph
    }

    /// Returns the interval, in cycles.
    pub(crate) fn interval(&self) -> u32
        ensures { result ≡ self.now.ii }
    {
        self.ii
    }

    /// Returns the number of edge operands.
    pub(crate) fn count(&self) -> u32
        ensures { result ≡ length (edges self.now.kernel) }
    {
        self.edges.len() as u32
    }

    /// Returns edge operand `i`.
    pub(crate) fn operand(&self, i: u32) -> EdgeOperand
        requires { i < length (edges self.now.kernel) }
        ensures { result ≡ edge self.now.kernel i }
    {
        self.edges[i as usize]
    }

    /// Returns the place of `node`.
    pub(crate) fn place_of(&self, node: u32) -> Place
        requires { node < size self.now.kernel }
        ensures { result ≡ place_in self.now.state.places node }
    {
        self.placement.place(node)
    }

    /// Returns the places of all nodes, in their order.
    pub(crate) fn places(&self, alloc: Global) -> Result<Vec<Place>, AllocError>
        ensures { IfOk result (λ v. v.items ≡ self.now.state.places) }
    {
        let mut places = Vec::new(alloc);
        for node in 0..self.kernel.nodes().len() {
            places.push(self.place_of(node as u32))?;
        }
        Ok(places)
    }

    /// States the invariant of the walk; the call does nothing.
    pub(crate) fn holds(&self)
        ensures { spec.IsWalking self.now }
    {
        let _ = &self.graph;
    }

    /// Returns the numbers of the edge operands that touch `node`.
    pub(crate) fn touching(&self, alloc: Global, node: u32) -> Result<Vec<u32>, AllocError>
        ensures { IfOk result (λ v. v.items ≡ touching_of_kernel self.now.kernel node) }
    {
        touching(alloc, &self.edges, node)
    }

    /// Returns the numbers of all edge operands.
    pub(crate) fn all(&self, alloc: Global) -> Result<Vec<u32>, AllocError>
        ensures { IfOk result (λ v. v.items ≡ all_edges self.now.kernel) }
    {
        all(alloc, &self.edges)
    }

    /// Returns the move that the random words `w1`, `w2` and `w3` determine: node, unit and time.
    pub(crate) fn propose(&self, w1: u32, w2: u32, w3: u32) -> Move
        requires { 0 < size self.now.kernel }
        ensures value { result ≡ drawn_move self.now.arch self.now.kernel self.now.ii self.now.early w1 w2 w3 }
        ensures may { spec.MayPlace self.now result }
    {
        self.placement.propose(w1, w2, w3)
    }

    /// Adds 1 to the history of each resource and slot with more than one claim.
    pub(crate) fn age(&mut self)
        requires { All (λ h. h < 4294967295) self.old.state.history }
        ensures { self.new ≡ spec.at_state self.old (aged_state self.old.arch self.old.kernel self.old.ii self.old.state) }
    {
        self.usage.age()
    }
}

/// Returns a list of `count` missing routes.
fn no_routes(alloc: Global, count: usize) -> Result<Vec<Option<Words>>, AllocError>
    ensures { IfOk result (λ v. v.items ≡ replicate count None) }
{
    let mut routes = Vec::new(alloc);
    for _ in 0..count {
        routes.push(None)?;
    }
    Ok(routes)
}
