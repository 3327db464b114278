//! Times that show that no certificate excludes an interval.
ghost use Rattle.std.specs.Prelude.{◌≡◌, ℕ, ◌*◌, ◌^◌, ◌<◌, ◌≤◌, ◌↔◌, IsTrue, Some, slice_index};
ghost use Rattle.cg_model.specs.Kernel.{size};
ghost use Rattle.cg_bound_registers.specs.Pressure.{data_edge as data_edge_of, order_edge as order_edge_of, total};
ghost use Rattle.cg_bound_registers.specs.Sums.{table};
ghost use Rattle.cg_bound_registers.specs.Times.{longest, AreLoose, Keeps, Follows, Fits};

use crate::counts::{count_registers, most_latency};
use crate::dependence::{Dependence, data_edge, order_edge};
use crate::sums::hops_at;
use cg_recur::{Arch, Kernel, latency};

/// A schedule of nodes, with upper bounds on the stays of their values in registers.
#[derive(Drop)]
pub struct Times {
    /// The cycle in which each node begins.
    pub time: Vec<u64>,
    /// The number of cycles that its operation takes.
    pub lasts: Vec<u64>,
    /// The greatest number of cycles that its value stays in registers.
    pub longest: Vec<u64>,
}

fn at(list: &[u64], k: u32) -> u128
    ensures value { result ≡ slice_index list.now k }
    ensures small { result < 2 ^ 64 }
{
    let k = k as usize;
    if k < list.len() { list[k] as u128 } else { 0 }
}

/// Returns whether `times` keep the data edge `edge`, and its stay is at most the longest one.
fn keeps(hops: &[u32], ii: u32, times: &Times, edge: Dependence) -> bool
    ensures { IsTrue result ↔ Keeps hops.now ii times.now edge }
{
    let leaves = at(&times.time, edge.source) + at(&times.lasts, edge.source);
    let arrives = at(&times.time, edge.target) + ii as u128 * edge.distance as u128;
    leaves + hops_at(hops, edge.target, edge.arg) as u128 <= arrives
        && arrives <= leaves + at(&times.longest, edge.source)
}

/// Returns whether `times` keep the order edge `edge`.
fn follows(ii: u32, times: &Times, edge: Dependence) -> bool
    ensures { IsTrue result ↔ Follows ii times.now edge }
{
    let arrives = at(&times.time, edge.target) + ii as u128 * edge.distance as u128;
    at(&times.time, edge.source) + 1 <= arrives
}

/// Returns whether `times` keep the data edges into node `v`.
fn keeps_node(kernel: &Kernel, hops: &[u32], ii: u32, times: &Times, v: u32) -> bool
    requires { v < size kernel.now }
    ensures { IsTrue result ↔ ((p : ℕ) (a : Dependence) → data_edge_of kernel.now v p ≡ Some a → Keeps hops.now ii times.now a) }
{
    let count = kernel.nodes()[v as usize].operands.as_slice().len();
    for p in 0..count {
        if let Some(edge) = data_edge(kernel, v, p as u32) {
            if !keeps(hops, ii, times, edge) {
                return false;
            }
        }
    }
    true
}

/// Returns whether `times` keep all data edges.
fn keeps_all(kernel: &Kernel, hops: &[u32], ii: u32, times: &Times) -> bool
    ensures { IsTrue result ↔ ((v p : ℕ) (a : Dependence) → data_edge_of kernel.now v p ≡ Some a → Keeps hops.now ii times.now a) }
{
    for v in 0..kernel.nodes().len() as u32 {
        if !keeps_node(kernel, hops, ii, times, v) {
            return false;
        }
    }
    true
}

/// Returns whether `times` keep all order edges.
fn follows_all(kernel: &Kernel, ii: u32, times: &Times) -> bool
    ensures { IsTrue result ↔ ((e : ℕ) (a : Dependence) → order_edge_of kernel.now e ≡ Some a → Follows ii times.now a) }
{
    for e in 0..kernel.order().len() as u32 {
        if let Some(edge) = order_edge(kernel, e) {
            if !follows(ii, times, edge) {
                return false;
            }
        }
    }
    true
}

/// Returns whether each latency in `times` is one that a unit may have.
fn latencies_fit(arch: &Arch, kernel: &Kernel, times: &Times) -> bool
    ensures { IsTrue result ↔ ((w : ℕ) → w < size kernel.now → Fits arch.now kernel.now times.now w) }
{
    let nodes = kernel.nodes();
    for w in 0..nodes.len() {
        let op = nodes[w].op;
        let lasts = at(&times.lasts, w as u32);
        if lasts < latency(arch, op) as u128 || (most_latency(arch, op) as u128) < lasts {
            return false;
        }
    }
    true
}

/// Returns the sum of the longest stays of the first `n` nodes.
pub fn all_stays(times: &Times, n: u32) -> u128
    ensures value { result ≡ total n (longest times.now) }
    ensures small { result ≤ n * 2 ^ 64 }
{
    let mut sum: u128 = 0;
    for w in 0..n {
        sum += at(&times.longest, w);
    }
    sum
}

/// Returns whether `times` show that no certificate excludes interval `ii`: the edges allow them on latencies that
/// units have, with longest stays that fit in the registers. `hops` has three numbers per node: for each operand the
/// least number of registers that a value crosses on its way there.
pub fn check_times(arch: &Arch, kernel: &Kernel, hops: &[u32], ii: u32, times: &Times) -> bool
    ensures { IsTrue result ↔ AreLoose arch.now kernel.now (table hops.now) ii times.now }
{
    latencies_fit(arch, kernel, times)
        && keeps_all(kernel, hops, ii, times)
        && follows_all(kernel, ii, times)
        && all_stays(times, kernel.nodes().len() as u32)
            <= ii as u128 * count_registers(arch) as u128
}
