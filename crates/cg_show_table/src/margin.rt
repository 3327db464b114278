//! The least intervals that recurrences and classes of units allow, each considered alone.
ghost use Rattle.std.specs.Prelude.{◌≤◌, IfOk, MatchOption};
ghost use Rattle.cg_recur.specs.Chain.{IsShown};
ghost use Rattle.cg_recur.specs.Edges.{edge_of};
ghost use Rattle.cg_recur.specs.Recurrences.{IsRecurrence};
ghost use Rattle.cg_class.specs.Class.{IsOverfull, AreOfNodes};
ghost use Rattle.cg_bound.specs.Bound.{HasNoRecurrence, HasNoOverfull};
ghost use Rattle.cg_show_table.specs.Margin.{IsMargin, IsChain, IsLongest, IsClass, IsFullest};

use cg_arch::Arch;
use cg_bound::excludes;
use cg_check::LegalMapping;
use cg_class::{Assignment, assign};
use cg_model::Kernel;
use cg_recur::{EdgeId, Recur, recurrence};
use cg_word::OpSet;
use std::alloc::{AllocError, Global};

/// The least interval that no recurrence forbids, and a recurrence that forbids the interval below it.
#[derive(Drop)]
pub struct LongChain {
    /// The interval, in cycles.
    pub least: u32,
    /// The edges of the recurrence, beginning at that of the least node.
    pub edges: Vec<EdgeId>,
}

/// The least interval at which no class of operations is overfull, and a class that is overfull at the interval below
/// it.
#[derive(Drop)]
pub struct FullClass {
    /// The interval, in cycles.
    pub least: u32,
    /// The operations of the class.
    pub ops: OpSet,
}

/// The requirements of a lower interval.
#[derive(Drop)]
pub struct Margin {
    /// The longest recurrence; None where no chain of edges is closed.
    pub chain: Option<LongChain>,
    /// The fullest class; None where there is no node.
    pub class: Option<FullClass>,
}

/// Returns the requirements of a lower interval than that of `legal`.
pub fn margin_of(alloc: Global, legal: &LegalMapping<'_>) -> Result<Margin, AllocError>
    ensures { IfOk result (IsMargin legal.now.arch legal.now.kernel) }
{
    excludes();
    let arch = legal.arch();
    let kernel = legal.kernel();
    let _nodes = kernel.nodes();
    let ii = legal.mapping().ii();
    let chain = long_chain(alloc, arch, kernel, ii)?;
    let class = full_class(alloc, arch, kernel, ii)?;
    Ok(Margin { chain, class })
}

/// Returns the least interval that no recurrence forbids, where some recurrence forbids an interval. No recurrence
/// forbids the interval `free`.
fn long_chain(
    alloc: Global,
    arch: &Arch,
    kernel: &Kernel,
    free: u32,
) -> Result<Option<LongChain>, AllocError>
    requires some { 1 ≤ free }
    requires free { HasNoRecurrence arch.now kernel.now free }
    ensures { IfOk result (IsChain arch.now kernel.now) }
{
    match recurrence_at(alloc, arch, kernel, 0)? {
        Some(edges) => Ok(Some(least_chain(alloc, arch, kernel, edges, free)?)),
        None => Ok(None),
    }
}

/// Returns the least interval that no recurrence forbids: `edges` forbid the interval 0, and no recurrence forbids the
/// interval `free`.
fn least_chain(
    alloc: Global,
    arch: &Arch,
    kernel: &Kernel,
    edges: Vec<EdgeId>,
    free: u32,
) -> Result<LongChain, AllocError>
    requires forbids { IsRecurrence arch.now kernel.now 0 edges.items × IsShown (edge_of arch.now kernel.now) edges.items }
    requires some { 1 ≤ free }
    requires free { HasNoRecurrence arch.now kernel.now free }
    ensures { IfOk result (IsLongest arch.now kernel.now) }
{
    let mut low = 0;
    let mut high = free;
    let mut chain = edges;
    while high - low > 1 {
        let middle = low + (high - low) / 2;
        match recurrence_at(alloc, arch, kernel, middle)? {
            Some(more) => {
                low = middle;
                chain = more;
            }
            None => high = middle,
        }
    }
    Ok(LongChain {
        least: high,
        edges: chain,
    })
}

/// Returns the edges of a recurrence that forbids the interval `ii`, if there is one.
fn recurrence_at(
    alloc: Global,
    arch: &Arch,
    kernel: &Kernel,
    ii: u32,
) -> Result<Option<Vec<EdgeId>>, AllocError>
    ensures { IfOk result (λ found. MatchOption found (HasNoRecurrence arch.now kernel.now ii) (λ ids. IsRecurrence arch.now kernel.now ii ids.items × IsShown (edge_of arch.now kernel.now) ids.items)) }
{
    match recurrence(alloc, arch, kernel, ii)? {
        Recur::Cycle(ids) => Ok(Some(ids)),
        Recur::Times(_) => Ok(None),
    }
}

/// Returns the least interval at which no class of operations is overfull, where there is a node. No class is overfull
/// at the interval `free`.
fn full_class(
    alloc: Global,
    arch: &Arch,
    kernel: &Kernel,
    free: u32,
) -> Result<Option<FullClass>, AllocError>
    requires some { 1 ≤ free }
    requires free { HasNoOverfull arch.now kernel.now free }
    ensures { IfOk result (IsClass arch.now kernel.now) }
{
    match overfull_at(alloc, arch, kernel, 0)? {
        Some(ops) => Ok(Some(least_class(alloc, arch, kernel, ops, free)?)),
        None => Ok(None),
    }
}

/// Returns the least interval at which no class of operations is overfull: the class `ops` is at the interval 0, and
/// none is at the interval `free`.
fn least_class(
    alloc: Global,
    arch: &Arch,
    kernel: &Kernel,
    ops: OpSet,
    free: u32,
) -> Result<FullClass, AllocError>
    requires overfull { IsOverfull arch.now kernel.now 0 ops × AreOfNodes kernel.now ops }
    requires some { 1 ≤ free }
    requires free { HasNoOverfull arch.now kernel.now free }
    ensures { IfOk result (IsFullest arch.now kernel.now) }
{
    let mut low = 0;
    let mut high = free;
    let mut class = ops;
    while high - low > 1 {
        let middle = low + (high - low) / 2;
        match overfull_at(alloc, arch, kernel, middle)? {
            Some(more) => {
                low = middle;
                class = more;
            }
            None => high = middle,
        }
    }
    Ok(FullClass {
        least: high,
        ops: class,
    })
}

/// Returns a class of operations of nodes that is overfull at the interval `ii`, if there is one.
fn overfull_at(
    alloc: Global,
    arch: &Arch,
    kernel: &Kernel,
    ii: u32,
) -> Result<Option<OpSet>, AllocError>
    ensures { IfOk result (λ found. MatchOption found (HasNoOverfull arch.now kernel.now ii) (λ set. IsOverfull arch.now kernel.now ii set × AreOfNodes kernel.now set)) }
{
    match assign(alloc, arch, kernel, ii)? {
        Assignment::Overfull(set) => Ok(Some(set)),
        Assignment::Units(_) => Ok(None),
    }
}
