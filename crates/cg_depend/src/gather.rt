//! Gathers the edges that a kernel's accesses need, pair by pair.
ghost use Rattle.std.specs.Prelude.{◌≡◌, ◌+◌, ◌*◌, ◌^◌, ◌<◌, ◌≤◌, ◌∷◌, [], IfOk, OnOk, flat_map};
ghost use Rattle.std.specs.List.{range_with_len};
ghost use Rattle.cg_model.specs.Kernel.{IsKernel, size};
ghost use Rattle.cg_depend.specs.Depend.{asks, asks_of};
ghost use Rattle.cg_depend.specs.Gathered.{Answers, Gains, IsGathered, ask};

use crate::accesses::Accesses;
use cg_model::{Kernel, MOST_ORDER_EDGES, OrderEdge};
use std::alloc::{AllocError, Global};

/// The edges that are needed in addition to a kernel's own.
#[derive(Drop)]
pub(crate) struct Needed {
    /// The edges in order; edges that bring the kernel above 4,096 order edges are only counted.
    pub edges: Vec<OrderEdge>,
    /// The number of order edges of the kernel with all of them.
    pub total: usize,
}

impl Needed {
    ghost use Rattle.std.specs.Prelude.{◌+◌, ◌^◌, ◌<◌, ◌≤◌, ◌∷◌, [], OnOk};
    ghost use Rattle.cg_depend.specs.Gathered.{Gains};

    /// Counts `edge`, and keeps it unless there are too many.
    fn add(&mut self, edge: OrderEdge) -> Result<(), AllocError>
        requires { self.old.total < 2 ^ 32 }
        ensures gains { OnOk result (Gains (edge ∷ []) self.old self.new) }
        ensures few { OnOk result (self.new.total ≤ self.old.total + 1) }
    {
        if self.total < MOST_ORDER_EDGES {
            self.edges.push(edge)?;
        }
        self.total += 1;
        Ok(())
    }
}

/// Adds to `needed` the edge, if any, that orders accesses of `to` after those of `from`, `least` turns later or more.
fn add_edge(
    accesses: &Accesses,
    from: u32,
    to: u32,
    least: u32,
    needed: &mut Needed,
) -> Result<(), AllocError>
    requires from { from < size accesses.now }
    requires to { to < size accesses.now }
    requires room { needed.old.total < 2 ^ 32 }
    ensures answers { OnOk result (Answers accesses.now (ask from to least ∷ []) needed.old needed.new) }
    ensures few { OnOk result (needed.new.total ≤ needed.old.total + 1) }
{
    match accesses.edge(from, to, least) {
        Some(edge) => needed.add(edge),
        None => Ok(()),
    }
}

/// Adds to `needed` the edges that the nodes `u` and `v` need.
fn add_pair(accesses: &Accesses, u: u32, v: u32, needed: &mut Needed) -> Result<(), AllocError>
    requires order { u < v }
    requires known { v < size accesses.now }
    requires room { needed.old.total + 2 ≤ 2 ^ 32 }
    ensures answers { OnOk result (Answers accesses.now (asks_of accesses.now u v) needed.old needed.new) }
    ensures few { OnOk result (needed.new.total ≤ needed.old.total + 2) }
{
    if accesses.conflict(u, v) {
        add_edge(accesses, u, v, 0, needed)?;
        add_edge(accesses, v, u, 1, needed)?;
    }
    Ok(())
}

/// Adds to `needed` the edges that the node `u` and the nodes after it need.
fn add_row(accesses: &Accesses, u: u32, needed: &mut Needed) -> Result<(), AllocError>
    requires known { u < size accesses.now }
    requires few { size accesses.now ≤ 1024 }
    requires room { needed.old.total + 2048 ≤ 2 ^ 32 }
    ensures answers { OnOk result (Answers accesses.now (flat_map (asks_of accesses.now u) (range_with_len 0 (size accesses.now))) needed.old needed.new) }
    ensures few { OnOk result (needed.new.total ≤ needed.old.total + 2048) }
{
    if !accesses.is_access(u) {
        return Ok(());
    }
    for v in u as usize + 1..accesses.size() {
        add_pair(accesses, u, v as u32, needed)?;
    }
    Ok(())
}

/// Returns the edges that the accesses of `kernel` need.
pub(crate) fn needed_edges(alloc: Global, kernel: &Kernel) -> Result<Needed, AllocError>
    ensures gathered { IfOk result (IsGathered kernel.now (asks kernel.now)) }
    ensures valid { IfOk result (λ needed. IsKernel kernel.now) }
{
    let accesses = Accesses::of(alloc, kernel)?;
    let mut needed = Needed {
        edges: Vec::new(alloc),
        total: kernel.order().len(),
    };
    for u in 0..kernel.nodes().len() {
        add_row(&accesses, u as u32, &mut needed)?;
    }
    Ok(needed)
}
