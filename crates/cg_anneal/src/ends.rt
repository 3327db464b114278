//! Where and when routes begin and end.
ghost use Rattle.std.specs.Prelude.{◌≡◌, ◌<◌, ◌≤◌, ◌+◌, ◌*◌, ◌^◌, length};
ghost use Rattle.cg_model.specs.Array as arrays;
ghost use Rattle.cg_model.specs.Limits.{latest_time};

use cg_arch::Arch;
use cg_model::Place;
use cg_walk_spec::EdgeOperand;

/// The source of a route, and where and when it begins and ends.
#[derive(Clone, Copy, Drop)]
pub(crate) struct RouteEnds {
    pub(crate) source: u32,
    pub(crate) from: u32,
    pub(crate) start: u32,
    pub(crate) to: u32,
    pub(crate) end: u32,
}

/// Returns the ends of the route of `edge` at interval `ii`, where its source is placed at `from` and its node at `to`.
pub(crate) fn ends_between(
    arch: &Arch,
    ii: u32,
    edge: EdgeOperand,
    from: Place,
    to: Place,
) -> RouteEnds
    requires from { from.unit < length arch.now.units }
    requires to { to.unit < length arch.now.units }
    requires port { edge.arg < length (arrays.unit arch.now to.unit).ports }
    requires start { from.time ≤ latest_time }
    requires end { to.time + ii * edge.distance < 2 ^ 32 }
    ensures source { result.source ≡ edge.source }
    ensures from { result.from ≡ (arrays.unit arch.now from.unit).out }
    ensures start { result.start ≡ from.time + (arrays.unit arch.now from.unit).latency }
    ensures to { result.to ≡ arrays.port arch.now to.unit edge.arg }
    ensures end { result.end ≡ to.time + ii * edge.distance }
{
    let source = &arch.units()[from.unit as usize];
    let target = &arch.units()[to.unit as usize];
    RouteEnds {
        source: edge.source,
        from: source.out,
        start: from.time + source.latency,
        to: target.ports.as_slice()[edge.arg as usize],
        end: to.time + ii * edge.distance,
    }
}
