//! A network of links, each of which keeps two places apart.
ghost use Rattle.std.specs.Prelude.{◌≡◌, ◌+◌, ◌<◌, ◌≤◌, IfOk, OnOk, length};
ghost use Rattle.cg_model.specs.Kernel.{size};
ghost use Rattle.cg_bound_registers.specs.Sums.{table};
ghost use Rattle.cg_bound_flow.specs.Parts.{AllStand, Stands, Has, HasNode, HasData, HasOrder, IsGrown, IsNetwork};

use crate::instances::Instance;
use cg_bound_registers::{data_edge, hops_at, most_latency, order_edge};
use cg_recur::latency;
use std::alloc::{AllocError, Global};

/// The constraint that a link represents.
#[derive(Clone, Copy, Drop)]
pub enum Part {
    /// The value of the given node leaves no sooner than its operation's least latency allows.
    Least(u32),
    /// The value of the given node leaves no later than its operation's greatest latency allows.
    Most(u32),
    /// The data edge that is the given operand of a node: the node begins no sooner than the value is there.
    Pull(u32, u32),
    /// The data edge that is the given operand of a node: the last use of the value is no sooner than the node begins.
    Stay(u32, u32),
    /// The order edge of the given number.
    Tie(u32),
}

/// A link: its end plus `loss` cycles is no sooner than its beginning plus `gain` cycles.
#[derive(Clone, Copy, Drop)]
pub struct Link {
    pub from: usize,
    pub to: usize,
    pub gain: u64,
    pub loss: u64,
    pub part: Part,
}

/// Adds `link` to `links`.
fn add(links: &mut Vec<Link>, link: Link, instance: Instance) -> Result<(), AllocError>
    requires right { AllStand instance.arch.now instance.kernel.now (table instance.hops.now) instance.ii links.old.items }
    requires stands { Stands instance.arch.now instance.kernel.now (table instance.hops.now) instance.ii link link.part }
    ensures grown { OnOk result (IsGrown instance.entry.arch.now instance.entry.kernel.now (table instance.entry.hops.now) instance.entry.ii links.old.items links.new.items) }
    ensures has { OnOk result (Has links.new.items link.part) }
    ensures longer { OnOk result (length links.new.items ≡ length links.old.items + 1) }
{
    links.push(link)?;
    Ok(())
}

/// Adds the links of node `w` to `links`.
fn add_node(links: &mut Vec<Link>, w: u32, instance: Instance) -> Result<(), AllocError>
    requires known { w < size instance.kernel.now }
    requires right { AllStand instance.arch.now instance.kernel.now (table instance.hops.now) instance.ii links.old.items }
    ensures grown { OnOk result (IsGrown instance.entry.arch.now instance.entry.kernel.now (table instance.entry.hops.now) instance.entry.ii links.old.items links.new.items) }
    ensures has { OnOk result (HasNode links.new.items w) }
    ensures longer { OnOk result (length links.new.items ≤ length links.old.items + 2) }
{
    let nodes = instance.kernel.nodes();
    let n = nodes.len();
    let begins = w as usize;
    let leaves = n + begins;
    let op = nodes[begins].op;
    let least = Link {
        from: begins,
        to: leaves,
        gain: latency(instance.arch, op) as u64,
        loss: 0,
        part: Part::Least(w),
    };
    add(links, least, instance)?;
    let most = Link {
        from: leaves,
        to: begins,
        gain: 0,
        loss: most_latency(instance.arch, op) as u64,
        part: Part::Most(w),
    };
    add(links, most, instance)
}

/// Adds the links of the data edge that is operand `p` of node `v` to `links`, if that operand is an edge.
fn add_data(links: &mut Vec<Link>, v: u32, p: u32, instance: Instance) -> Result<(), AllocError>
    requires right { AllStand instance.arch.now instance.kernel.now (table instance.hops.now) instance.ii links.old.items }
    ensures grown { OnOk result (IsGrown instance.entry.arch.now instance.entry.kernel.now (table instance.entry.hops.now) instance.entry.ii links.old.items links.new.items) }
    ensures has { OnOk result (HasData instance.entry.kernel.now links.new.items v p) }
    ensures longer { OnOk result (length links.new.items ≤ length links.old.items + 2) }
{
    let n = instance.kernel.nodes().len();
    if let Some(edge) = data_edge(instance.kernel, v, p) {
        let source = edge.source as usize;
        let turns = instance.ii as u64 * edge.distance as u64;
        let pull = Link {
            from: n + source,
            to: edge.target as usize,
            gain: hops_at(instance.hops, edge.target, edge.arg) as u64,
            loss: turns,
            part: Part::Pull(v, p),
        };
        add(links, pull, instance)?;
        let stay = Link {
            from: edge.target as usize,
            to: n + n + source,
            gain: turns,
            loss: 0,
            part: Part::Stay(v, p),
        };
        add(links, stay, instance)?;
    }
    Ok(())
}

/// Adds the link of order edge number `e` to `links`, if there is one.
fn add_order(links: &mut Vec<Link>, e: u32, instance: Instance) -> Result<(), AllocError>
    requires right { AllStand instance.arch.now instance.kernel.now (table instance.hops.now) instance.ii links.old.items }
    ensures grown { OnOk result (IsGrown instance.entry.arch.now instance.entry.kernel.now (table instance.entry.hops.now) instance.entry.ii links.old.items links.new.items) }
    ensures has { OnOk result (HasOrder instance.entry.kernel.now links.new.items e) }
    ensures longer { OnOk result (length links.new.items ≤ length links.old.items + 1) }
{
    if let Some(edge) = order_edge(instance.kernel, e) {
        let tie = Link {
            from: edge.source as usize,
            to: edge.target as usize,
            gain: 1,
            loss: instance.ii as u64 * edge.distance as u64,
            part: Part::Tie(e),
        };
        add(links, tie, instance)?;
    }
    Ok(())
}

/// Returns the links of the network of `instance`.
pub(crate) fn all_links(alloc: Global, instance: Instance) -> Result<Vec<Link>, AllocError>
    ensures { IfOk result (λ v. IsNetwork instance.entry.arch.now instance.entry.kernel.now (table instance.entry.hops.now) instance.entry.ii v.items) }
{
    let n = instance.kernel.nodes().len() as u32;
    let mut links: Vec<Link> = Vec::new(alloc);
    for w in 0..n {
        add_node(&mut links, w, instance)?;
        add_data(&mut links, w, 0, instance)?;
        add_data(&mut links, w, 1, instance)?;
        add_data(&mut links, w, 2, instance)?;
    }
    for e in 0..instance.kernel.order().len() as u32 {
        add_order(&mut links, e, instance)?;
    }
    Ok(links)
}
