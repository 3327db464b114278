//! The least latencies of operations on an architecture.
ghost use Rattle.std.specs.Prelude.{◌≡◌, ◌≤◌, unwrap_or};
ghost use Rattle.cg_word.specs.declared.op.Op as ops;
ghost use Rattle.cg_recur.specs.Edges as spec;

use cg_arch::{Arch, Op};

/// Returns the cycles that `op` takes on the quickest unit that offers it; 1 if no unit does.
pub fn latency(arch: &Arch, op: Op) -> u32
    ensures { result ≡ spec.latency arch.now op }
{
    let mut least = None;
    for unit in arch.units() {
        if unit.ops.has(op) {
            least = Some(lesser(unit.latency, least));
        }
    }
    least.unwrap_or(1)
}

/// Returns the lesser of `number` and `other`, if there is another.
fn lesser(number: u32, other: Option<u32>) -> u32
    ensures { result ≡ spec.lesser number other }
{
    match other {
        None => number,
        Some(another) => number.min(another),
    }
}

/// States that no operation takes more than four cycles; the call does nothing.
pub fn latencies_are_small(arch: &Arch)
    ensures { (op : ops.Op) → spec.latency arch.now op ≤ 4 }
{
    let _units = arch.units();
}
