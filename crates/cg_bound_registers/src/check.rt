//! The check of a certificate by its sums.
ghost use Rattle.std.specs.Prelude.{◌≡◌, ◌^◌, ◌≤◌, ◌↔◌, IsTrue};
ghost use Rattle.cg_bound_registers.specs.Pressure as spec;
ghost use Rattle.cg_bound_registers.specs.Pressure.{gained, lost, along, against, IsBalanced, IsExcess, IsPressure};
ghost use Rattle.cg_bound_registers.specs.Sums.{table, IsShort};

use crate::certificate::Pressure;
use crate::counts::{count_registers, most_latency};
use crate::sums::{Of, sum_pulls, sum_stays, sum_ties};
use cg_recur::{Arch, Kernel, latencies_are_small, latency};

/// Returns whether the edges whose stays count, taken forward, and the others, taken backward, are a circulation, in
/// which at most one stay counts per source.
fn balances(kernel: &Kernel, p: &Pressure) -> bool
    requires short { IsShort p.now }
    ensures { IsTrue result ↔ IsBalanced kernel.now p.now }
{
    for w in 0..kernel.nodes().len() as u32 {
        let out = sum_stays(kernel, &[], &p.stays, Of::From(w));
        if out > 1 {
            return false;
        }
        let forth = sum_stays(kernel, &[], &p.stays, Of::Into(w))
            + sum_pulls(kernel, &[], &p.pulls, Of::From(w))
            + sum_ties(kernel, &[], &p.ties, Of::From(w));
        let back = out
            + sum_pulls(kernel, &[], &p.pulls, Of::Into(w))
            + sum_ties(kernel, &[], &p.ties, Of::Into(w));
        if forth != back {
            return false;
        }
    }
    true
}

/// Returns the sum of the least latencies of the nodes from which more edges are taken backward than forward, each
/// times the excess.
fn gains(arch: &Arch, kernel: &Kernel, p: &Pressure) -> u128
    requires short { IsShort p.now }
    ensures value { result ≡ gained arch.now kernel.now p.now }
    ensures small { result ≤ 2 ^ 96 }
{
    latencies_are_small(arch);
    let nodes = kernel.nodes();
    let mut gain: u128 = 0;
    for w in 0..nodes.len() {
        let out = sum_stays(kernel, &[], &p.stays, Of::From(w as u32));
        let back = sum_pulls(kernel, &[], &p.pulls, Of::From(w as u32));
        gain += back.saturating_sub(out) * latency(arch, nodes[w].op) as u128;
    }
    gain
}

/// Returns the sum of the greatest latencies of the nodes from which more edges are taken forward than backward, each
/// times the excess.
fn losses(arch: &Arch, kernel: &Kernel, p: &Pressure) -> u128
    requires short { IsShort p.now }
    ensures value { result ≡ lost arch.now kernel.now p.now }
    ensures small { result ≤ 2 ^ 123 }
{
    let nodes = kernel.nodes();
    let mut loss: u128 = 0;
    for w in 0..nodes.len() {
        let out = sum_stays(kernel, &[], &p.stays, Of::From(w as u32));
        let back = sum_pulls(kernel, &[], &p.pulls, Of::From(w as u32));
        loss += out.saturating_sub(back) * most_latency(arch, nodes[w].op) as u128;
    }
    loss
}

/// Returns the gain along the circulation: the distances of the edges whose stays count times the interval, the gained
/// latencies, the registers on ways and the order edges.
fn along(arch: &Arch, kernel: &Kernel, hops: &[u32], ii: u32, p: &Pressure) -> u128
    requires short { IsShort p.now }
    ensures value { result ≡ along arch.now kernel.now (table hops.now) ii p.now }
    ensures small { result ≤ 2 ^ 114 }
{
    let forth = ii as u128 * sum_stays(kernel, hops, &p.stays, Of::Distance)
        + gains(arch, kernel, p);
    forth + sum_pulls(kernel, hops, &p.pulls, Of::Hops) + sum_ties(kernel, hops, &p.ties, Of::One)
}

/// Returns the loss along the circulation: the distances of the opposite edges times the interval and the lost
/// latencies.
fn against(arch: &Arch, kernel: &Kernel, ii: u32, p: &Pressure) -> u128
    requires short { IsShort p.now }
    ensures value { result ≡ against arch.now kernel.now ii p.now }
    ensures small { result ≤ 2 ^ 124 }
{
    let back = sum_pulls(kernel, &[], &p.pulls, Of::Distance)
        + sum_ties(kernel, &[], &p.ties, Of::Distance);
    ii as u128 * back + losses(arch, kernel, p)
}

/// Returns whether the stays add up to more than the registers times the interval.
fn exceeds(arch: &Arch, kernel: &Kernel, hops: &[u32], ii: u32, p: &Pressure) -> bool
    requires short { IsShort p.now }
    ensures { IsTrue result ↔ IsExcess arch.now kernel.now (table hops.now) ii p.now }
{
    let room = ii as u128 * count_registers(arch) as u128 + against(arch, kernel, ii, p);
    let need = along(arch, kernel, hops, ii, p);
    room < need
}

/// Returns the least total number of cycles, by the circulation `certificate`, that the values of the edges whose stays
/// count are in registers at interval `ii`. `hops` has three numbers per node: for each operand the least number of
/// registers that a value crosses on its way there.
pub fn least_stays(
    arch: &Arch,
    kernel: &Kernel,
    hops: &[u32],
    ii: u32,
    certificate: &Pressure,
) -> u128
    requires short { IsShort certificate.now }
    ensures { result ≡ spec.least_stays arch.now kernel.now (table hops.now) ii certificate.now }
{
    along(arch, kernel, hops, ii, certificate).saturating_sub(against(
        arch,
        kernel,
        ii,
        certificate,
    ))
}

/// Returns whether `certificate` shows that no legal mapping has interval `ii`. `hops` has three numbers per node: for
/// each operand the least number of registers that a value crosses on its way there.
pub fn check_pressure(
    arch: &Arch,
    kernel: &Kernel,
    hops: &[u32],
    ii: u32,
    certificate: &Pressure,
) -> bool
    requires short { IsShort certificate.now }
    ensures { IsTrue result ↔ IsPressure arch.now kernel.now (table hops.now) ii certificate.now }
{
    balances(kernel, certificate) && exceeds(arch, kernel, hops, ii, certificate)
}
