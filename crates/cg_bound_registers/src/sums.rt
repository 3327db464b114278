//! Sums over the edges of a certificate.
ghost use Rattle.std.specs.Prelude.{◌≡◌, ◌^◌, ◌≤◌, length};
ghost use Rattle.cg_bound_registers.specs.Pressure.{data_edge as data_edge_of, order_edge as order_edge_of, on_edge, weigh};
ghost use Rattle.cg_bound_registers.specs.Sums.{table, value_of};

use crate::certificate::{Pull, Stay, Tie};
use crate::dependence::{Dependence, data_edge, order_edge};
use cg_model::Kernel;

/// The quantity that is summed over edges.
#[derive(Clone, Copy)]
pub(crate) enum Of {
    /// 1 if the edge leaves the given node.
    From(u32),
    /// 1 if the edge enters the given node.
    Into(u32),
    /// The distance of the edge.
    Distance,
    /// The least number of registers that the edge's value crosses.
    Hops,
    /// The number 1.
    One,
}

/// Returns the number of operand `arg` of node `node` in `hops`, which has three numbers per node; 0 past its end.
pub fn hops_at(hops: &[u32], node: u32, arg: u32) -> u32
    ensures { result ≡ table hops.now node arg }
{
    let at = 3 * node as usize + arg as usize;
    if at < hops.len() { hops[at] } else { 0 }
}

/// Returns the quantity `of` of `edge`.
pub(crate) fn value(hops: &[u32], of: Of, edge: Dependence) -> u32
    ensures { result ≡ value_of hops.now of edge }
{
    match of {
        Of::From(node) => u32::from(edge.source == node),
        Of::Into(node) => u32::from(edge.target == node),
        Of::Distance => edge.distance,
        Of::Hops => hops_at(hops, edge.target, edge.arg),
        Of::One => 1,
    }
}

/// Returns the quantity `of` of `edge`, 0 if there is no edge.
fn worth(hops: &[u32], of: Of, edge: Option<Dependence>) -> u32
    ensures { result ≡ on_edge (value_of hops.now of) edge }
{
    match edge {
        Some(edge) => value(hops, of, edge),
        None => 0,
    }
}

/// Returns the sum of `of` over the edges whose stays count.
pub(crate) fn sum_stays(kernel: &Kernel, hops: &[u32], list: &[Stay], of: Of) -> u128
    requires { length list.now ≤ 2 ^ 16 }
    ensures value { result ≡ weigh (λ (s : Stay). 1) (λ s. data_edge_of kernel.now s.node s.arg) (value_of hops.now of) list.now }
    ensures small { result ≤ 2 ^ 80 }
{
    let mut sum: u128 = 0;
    for stay in list {
        sum += worth(hops, of, data_edge(kernel, stay.node, stay.arg)) as u128;
    }
    sum
}

/// Returns the sum of `of` over the opposite data edges, each times its weight.
pub(crate) fn sum_pulls(kernel: &Kernel, hops: &[u32], list: &[Pull], of: Of) -> u128
    requires { length list.now ≤ 2 ^ 16 }
    ensures value { result ≡ weigh (λ (x : Pull). x.weight) (λ x. data_edge_of kernel.now x.node x.arg) (value_of hops.now of) list.now }
    ensures small { result ≤ 2 ^ 80 }
{
    let mut sum: u128 = 0;
    for pull in list {
        let worth = worth(hops, of, data_edge(kernel, pull.node, pull.arg)) as u64;
        sum += (pull.weight as u64 * worth) as u128;
    }
    sum
}

/// Returns the sum of `of` over the opposite order edges, each times its weight.
pub(crate) fn sum_ties(kernel: &Kernel, hops: &[u32], list: &[Tie], of: Of) -> u128
    requires { length list.now ≤ 2 ^ 16 }
    ensures value { result ≡ weigh (λ (x : Tie). x.weight) (λ x. order_edge_of kernel.now x.edge) (value_of hops.now of) list.now }
    ensures small { result ≤ 2 ^ 80 }
{
    let mut sum: u128 = 0;
    for tie in list {
        let worth = worth(hops, of, order_edge(kernel, tie.edge)) as u64;
        sum += (tie.weight as u64 * worth) as u128;
    }
    sum
}
