//! The mapping problem: the kernel as lists of edges, and the array as the search reads it.
ghost use Rattle.std.specs.Prelude.{◌≡◌, ◌<◌, IfOk};

use crate::hosts::{Host, hosts, offers};
use crate::late::Dependences;
use crate::lists::{Lists, count, number_at};
use crate::places::Places;
use crate::times::ideal;
use cg_arch::Arch;
use cg_model::{Kernel, Node, Operand, OrderEdge};
use cg_place::Task;
use cg_recur::latency;
use cg_search_costs::Wiring;
use std::alloc::{AllocError, Global};

/// The number of intervals from time 0 to the origin, from which the times of an opening are counted: a node may move
/// back by this much.
const ORIGIN: u32 = 1 << 20;

/// The number of intervals of the longest routes.
const MOST_INTERVALS: u32 = 6;

/// The number of cycles that they take in addition.
const MORE_CYCLES: u32 = 32;

/// The number of intervals by which a route may be longer than the way across the array.
const WIDER_INTERVALS: u32 = 4;

/// The number of cycles by which it may be longer in addition.
const WIDER_CYCLES: u32 = 24;

/// A data edge: a value of `source` is operand number `arg` of `target`, `distance` iterations later.
#[derive(Clone, Copy, Drop)]
pub struct DataEdge {
    /// The node whose value it is.
    pub source: u32,
    /// The node that takes it.
    pub target: u32,
    /// The number of the operand.
    pub arg: u32,
    /// The distance, in iterations.
    pub distance: u32,
}

/// A kernel on an array at an interval of `ii` cycles. Nodes, edges, order edges and units are given by number.
#[derive(Drop)]
pub struct Problem<'a> {
    /// The interval in cycles.
    pub ii: u32,
    /// The number of nodes.
    pub nodes: u32,
    /// The data edges, by node and operand.
    pub edges: Vec<DataEdge>,
    /// The data edges into each node.
    pub ins: Lists,
    /// The data edges out of each node.
    pub outs: Lists,
    /// The order edges.
    pub order: Vec<OrderEdge>,
    /// The order edges that begin or end in each node.
    pub ties: Lists,
    /// The units that offer each node's operation.
    pub offers: Lists,
    /// The units.
    pub hosts: Vec<Host>,
    /// The least latency of each node's operation.
    pub quickest: Vec<u32>,
    /// Times at which nodes may begin if values stay short, counted from the origin.
    pub ideal: Vec<u32>,
    /// The latest times of nodes at which none is later than the last of the earliest times, counted from the origin.
    pub late: Vec<u32>,
    /// The array's resources.
    pub wiring: &'a Wiring,
    ghost some: { 0 < ii },
}

impl<'a> Problem<'a> {
    /// Returns the problem that `task` poses, on the array of `wiring`.
    pub fn new(alloc: Global, task: &Task, wiring: &'a Wiring) -> Result<Problem<'a>, AllocError>
        ensures { IfOk result (λ p. p.ii ≡ task.now.ii) }
    {
        let mut problem = Problem::at_earliest(alloc, task, wiring)?;
        let times = ideal(alloc, &problem, &problem.ideal)?;
        problem.ideal = times;
        Ok(problem)
    }

    /// Returns the problem that `task` poses, with the earliest times of nodes.
    fn at_earliest(
        alloc: Global,
        task: &Task,
        wiring: &'a Wiring,
    ) -> Result<Problem<'a>, AllocError>
        ensures { IfOk result (λ p. p.ii ≡ task.now.ii) }
    {
        task.holds();
        let ii = task.interval();
        let arch = task.arch();
        let kernel = task.kernel();
        let edges = data_edges(alloc, kernel)?;
        let nodes = count(kernel.nodes());
        let ins = ends_by(alloc, nodes, &edges, End::Target)?;
        let outs = ends_by(alloc, nodes, &edges, End::Source)?;
        let order = Vec::from_slice(alloc, kernel.order())?;
        let ties = ties(alloc, nodes, &order)?;
        let quickest = quickest(alloc, arch, kernel)?;
        let early = from_origin(alloc, ii, task.early())?;
        let dependences = Dependences {
            ii,
            edges: edges.as_slice(),
            order: order.as_slice(),
            quickest: quickest.as_slice(),
        };
        let late = dependences.latest(alloc, &early)?;
        Ok(Problem {
            ii,
            nodes,
            edges,
            ins,
            outs,
            order,
            ties,
            offers: offers(alloc, arch, kernel)?,
            hosts: hosts(alloc, arch)?,
            quickest,
            ideal: early,
            late,
            wiring,
        })
    }

    /// Returns the slot of `time`.
    pub fn slot(&self, time: u32) -> u32 {
        slot(self.ii, time)
    }

    /// Returns the number of cycles of `distance` iterations.
    pub fn turns(&self, distance: u32) -> u32 {
        self.ii.saturating_mul(distance)
    }

    /// Returns the greatest number of cycles that a route may take.
    pub fn reach(&self) -> u32 {
        let long = spanned(self.ii, MOST_INTERVALS, MORE_CYCLES);
        let wide = spanned(self.ii, WIDER_INTERVALS, WIDER_CYCLES);
        long.min(wide.saturating_add(self.wiring.diameter()))
    }

    /// Returns the time at which `node` may begin if values stay short, counted from the origin.
    pub fn earliest(&self, node: u32) -> u32 {
        number_at(self.ideal.as_slice(), node as usize)
    }

    /// Returns the latest time of `node`, counted from the origin.
    pub fn latest(&self, node: u32) -> u32 {
        number_at(self.late.as_slice(), node as usize)
    }

    /// Returns the least latency of the operation of `node`.
    pub fn least_latency(&self, node: u32) -> u32 {
        number_at(self.quickest.as_slice(), node as usize)
    }

    /// Returns data edge number `edge`.
    pub fn edge(&self, edge: u32) -> Option<DataEdge> {
        self.edges.get(edge as usize).copied()
    }

    /// Returns unit number `unit`.
    pub fn host(&self, unit: u32) -> Option<Host> {
        self.hosts.get(unit as usize).copied()
    }

    /// Returns the time at which the value of `edge` leaves the unit of its source. None where the source isn't placed.
    pub fn leaves(&self, places: &Places, edge: DataEdge) -> Option<u32> {
        let place = places.at(edge.source)?;
        let host = self.host(place.unit)?;
        Some(place.time.saturating_add(host.latency))
    }

    /// Returns the time at which the value of `edge` has to be at its target, in the source's iteration. None where the
    /// target isn't placed.
    pub fn arrives(&self, places: &Places, edge: DataEdge) -> Option<u32> {
        let place = places.at(edge.target)?;
        Some(place.time.saturating_add(self.turns(edge.distance)))
    }

    /// Returns the port at which the value of `edge` is read. None where its target isn't placed.
    pub fn port(&self, places: &Places, edge: DataEdge) -> Option<u32> {
        let place = places.at(edge.target)?;
        let host = self.host(place.unit)?;
        Some(host.port(edge.arg))
    }
}

/// Returns `times` counted from the origin, at the interval `ii`.
fn from_origin(alloc: Global, ii: u32, times: &[u32]) -> Result<Vec<u32>, AllocError> {
    let origin = ii.saturating_mul(ORIGIN);
    let mut counted = Vec::with_capacity(alloc, times.len())?;
    for time in times {
        counted.push(time.saturating_add(origin))?;
    }
    Ok(counted)
}

/// Returns the cycles of `intervals` intervals of `ii` cycles, and `cycles` more.
fn spanned(ii: u32, intervals: u32, cycles: u32) -> u32 {
    ii.saturating_mul(intervals).saturating_add(cycles)
}

/// Returns the slot of `time` at the interval `ii`.
pub fn slot(ii: u32, time: u32) -> u32 {
    time.checked_rem(ii).unwrap_or(0)
}

/// An end of an edge.
#[derive(Clone, Copy, PartialEq, Eq, Drop)]
enum End {
    Source,
    Target,
}

/// Returns all data edges.
fn data_edges(alloc: Global, kernel: &Kernel) -> Result<Vec<DataEdge>, AllocError> {
    let mut edges = Vec::new(alloc);
    let mut number: u32 = 0;
    for node in kernel.nodes() {
        add_edges(&mut edges, node, number)?;
        number = number.saturating_add(1);
    }
    Ok(edges)
}

/// Adds the data edges into `node`, whose number is `number`.
fn add_edges(edges: &mut Vec<DataEdge>, node: &Node, number: u32) -> Result<(), AllocError> {
    let mut arg: u32 = 0;
    for operand in node.operands.as_slice() {
        if let Operand::Edge { from, distance, .. } = operand {
            edges.push(DataEdge {
                source: *from,
                target: number,
                arg,
                distance: *distance,
            })?;
        }
        arg = arg.saturating_add(1);
    }
    Ok(())
}

/// Returns for each node the data edges whose end `end` it is.
fn ends_by(alloc: Global, nodes: u32, edges: &[DataEdge], end: End) -> Result<Lists, AllocError> {
    let mut lists = Lists::new(alloc, nodes)?;
    let mut number: u32 = 0;
    for edge in edges {
        let node = if end == End::Source {
            edge.source
        } else {
            edge.target
        };
        lists.add(node, number)?;
        number = number.saturating_add(1);
    }
    Ok(lists)
}

/// Returns the order edges of each node; an edge from a node to itself is listed once.
fn ties(alloc: Global, nodes: u32, order: &[OrderEdge]) -> Result<Lists, AllocError> {
    let mut ties = Lists::new(alloc, nodes)?;
    let mut number: u32 = 0;
    for edge in order {
        ties.add(edge.from, number)?;
        if edge.from != edge.to {
            ties.add(edge.to, number)?;
        }
        number = number.saturating_add(1);
    }
    Ok(ties)
}

/// Returns the least latency of each node's operation.
fn quickest(alloc: Global, arch: &Arch, kernel: &Kernel) -> Result<Vec<u32>, AllocError> {
    let mut quickest = Vec::new(alloc);
    for node in kernel.nodes() {
        quickest.push(latency(arch, node.op))?;
    }
    Ok(quickest)
}
