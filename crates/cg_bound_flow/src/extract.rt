//! The certificate of a flow.
ghost use Rattle.std.specs.Prelude.{◌≡◌, ℕ, ◌+◌, ◌*◌, ◌≤◌, IfOk, OnOk, length, slice_index};
ghost use Rattle.cg_bound_registers.specs.declared.dependence.Dependence as edges;
ghost use Rattle.cg_bound_registers.specs.declared.certificate.Stay as stay;
ghost use Rattle.cg_bound_registers.specs.declared.certificate.Pull as pull;
ghost use Rattle.cg_bound_registers.specs.declared.certificate.Tie as tie;
ghost use Rattle.cg_bound_registers.specs.Pressure.{data_edge, order_edge, weigh};
ghost use Rattle.cg_bound_flow.specs.declared.network.Part.TheVariants as parts;
ghost use Rattle.cg_bound_flow.specs.Network.{link};
ghost use Rattle.cg_bound_flow.specs.Taken.{on_stay, on_pull, on_tie, IsTaken, HasAtMost};

use crate::network::{Link, Part};
use cg_bound_registers::{Pressure, Pull, Stay, Tie};
use cg_recur::Kernel;
use std::alloc::{AllocError, Global};

/// Adds the edge of `part` to the edges whose stays count, if it is one of them and has a flow.
fn add_stay(list: &mut Vec<Stay>, kernel: &Kernel, part: Part, flow: u32) -> Result<(), AllocError>
    requires { (v p : ℕ) → part ≡ parts.Stay v p → flow ≤ 1 }
    ensures taken { OnOk result ((f : edges.Dependence → ℕ) →
        weigh (λ (s : stay.Stay). 1) (λ s. data_edge kernel.now s.node s.arg) f list.new.items
        ≡ weigh (λ (s : stay.Stay). 1) (λ s. data_edge kernel.now s.node s.arg) f list.old.items + flow * on_stay kernel.now f part) }
    ensures longer { OnOk result (length list.new.items ≤ length list.old.items + 1) }
{
    if flow > 0 {
        if let Part::Stay(node, arg) = part {
            list.push(Stay { node, arg })?;
        }
    }
    Ok(())
}

/// Adds the edge of `part` to the opposite data edges, if it is one of them and has a flow.
fn add_pull(list: &mut Vec<Pull>, kernel: &Kernel, part: Part, flow: u32) -> Result<(), AllocError>
    ensures taken { OnOk result ((f : edges.Dependence → ℕ) →
        weigh (λ (x : pull.Pull). x.weight) (λ x. data_edge kernel.now x.node x.arg) f list.new.items
        ≡ weigh (λ (x : pull.Pull). x.weight) (λ x. data_edge kernel.now x.node x.arg) f list.old.items + flow * on_pull kernel.now f part) }
    ensures longer { OnOk result (length list.new.items ≤ length list.old.items + 1) }
{
    if flow > 0 {
        if let Part::Pull(node, arg) = part {
            list.push(Pull {
                node,
                arg,
                weight: flow,
            })?;
        }
    }
    Ok(())
}

/// Adds the edge of `part` to the opposite order edges, if it is one of them and has a flow.
fn add_tie(list: &mut Vec<Tie>, kernel: &Kernel, part: Part, flow: u32) -> Result<(), AllocError>
    ensures taken { OnOk result ((f : edges.Dependence → ℕ) →
        weigh (λ (x : tie.Tie). x.weight) (λ x. order_edge kernel.now x.edge) f list.new.items
        ≡ weigh (λ (x : tie.Tie). x.weight) (λ x. order_edge kernel.now x.edge) f list.old.items + flow * on_tie kernel.now f part) }
    ensures longer { OnOk result (length list.new.items ≤ length list.old.items + 1) }
{
    if flow > 0 {
        if let Part::Tie(edge) = part {
            list.push(Tie { edge, weight: flow })?;
        }
    }
    Ok(())
}

/// Returns the certificate whose edges are the links with flow.
pub(crate) fn certificate(
    alloc: Global,
    kernel: &Kernel,
    links: &[Link],
    flow: &[u32],
) -> Result<Pressure, AllocError>
    requires flows { length flow.now ≡ length links.now }
    requires ones { (k v p : ℕ) → (link links.now k).part ≡ parts.Stay v p → slice_index flow.now k ≤ 1 }
    ensures taken { IfOk result (IsTaken kernel.now links.now flow.now) }
    ensures few { IfOk result (HasAtMost (length links.now)) }
{
    let mut stays = Vec::new(alloc);
    let mut pulls = Vec::new(alloc);
    let mut ties = Vec::new(alloc);
    for k in 0..links.len() {
        add_stay(&mut stays, kernel, links[k].part, flow[k])?;
        add_pull(&mut pulls, kernel, links[k].part, flow[k])?;
        add_tie(&mut ties, kernel, links[k].part, flow[k])?;
    }
    Ok(Pressure { stays, pulls, ties })
}
