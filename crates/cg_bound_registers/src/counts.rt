//! The greatest latencies of operations on an architecture, and its registers.
ghost use Rattle.std.specs.Prelude.{◌≡◌, ◌≤◌, max};
ghost use Rattle.cg_bound_registers.specs.Pressure.{most_latency as most_of, is_register, registers};

use cg_arch::{Arch, Kind, Op};

fn greater(a: u32, b: u32) -> u32
    ensures { result ≡ max a b }
{
    if a < b { b } else { a }
}

/// Returns the greatest latency of the units that offer `op`; 1 if no unit does.
pub fn most_latency(arch: &Arch, op: Op) -> u32
    ensures { result ≡ most_of op arch.now.units }
{
    let mut most = 1;
    for unit in arch.units() {
        if unit.ops.has(op) {
            most = greater(most, unit.latency);
        }
    }
    most
}

fn is_register_kind(kind: Kind) -> bool
    ensures { result ≡ is_register kind }
{
    match kind {
        Kind::Register => true,
        Kind::Wire => false,
        Kind::Port => false,
        Kind::Out => false,
    }
}

/// Returns the number of registers of `arch`.
pub fn count_registers(arch: &Arch) -> usize
    ensures value { result ≡ registers arch.now }
    ensures small { result ≤ 4096 }
{
    arch.resources()
        .iter()
        .filter(|r| is_register_kind(r.kind))
        .count()
}
