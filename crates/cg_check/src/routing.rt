//! L5: each route goes along links, and brings its value in time.
ghost use Rattle.std.specs.Prelude.{◌≡◌, ◌^◌, ◌<◌, Some};
ghost use Rattle.cg_check.specs.Rules.{violated, L5, brings as brings_of, goes as goes_of, arrives as arrives_of, is_brought as is_brought_of};

use crate::edge::{DataEdge, edge_into};
use crate::model::{delay, drives, leaves, out, place, port};
use crate::rule::RulePlace;
use crate::stop::At;
use cg_arch::Arch;
use cg_model::{Kernel, Mapping, Route};

/// Returns whether `path` continues along links from `start`, and ends on the port and at the time of `end`.
fn goes(arch: &Arch, start: At, path: &[u32], end: At) -> bool
    requires { start.time < 2 ^ 33 }
    ensures { result ≡ goes_of arch.now start.resource start.time path.now end.resource end.time }
{
    let mut at = start.resource;
    let mut now = start.time;
    for next in path {
        if !drives(arch, at, *next) {
            return false;
        }
        at = *next;
        now += delay(arch, at);
    }
    at == end.resource && now == end.time
}

/// Returns whether `path` begins with the out of `source`'s unit when the value leaves it, and goes to the port and the
/// time of `end`.
fn arrives(arch: &Arch, mapping: &Mapping, source: u32, path: &[u32], end: At) -> bool
    ensures { result ≡ arrives_of arch.now mapping.now source path.now (Some end.resource) end.time }
{
    match path {
        [] => false,
        [first, rest @ ..] => {
            let unit = place(mapping, source).unit;
            let start = At {
                resource: *first,
                time: leaves(arch, mapping, source),
            };
            *first == out(arch, unit) && goes(arch, start, rest, end)
        }
    }
}

/// Returns whether `route` brings the value of its edge along links, from its source's out to its port, in time. A
/// route that ends at no data edge satisfies this.
pub fn is_brought(arch: &Arch, kernel: &Kernel, mapping: &Mapping, route: &Route) -> bool
    ensures { result ≡ is_brought_of arch.now kernel.now mapping.now route.now }
{
    match edge_into(kernel, route) {
        None => true,
        Some(edge) => brings(arch, mapping, route, edge),
    }
}

/// Returns whether `route` brings the value of `edge`.
fn brings(arch: &Arch, mapping: &Mapping, route: &Route, edge: DataEdge) -> bool
    ensures { result ≡ brings_of arch.now mapping.now route.now (Some edge) }
{
    let target = place(mapping, route.node);
    let time = u64::from(target.time) + u64::from(mapping.ii()) * u64::from(edge.distance);
    match port(arch, target.unit, route.arg) {
        None => false,
        Some(resource) => {
            let end = At { resource, time };
            arrives(arch, mapping, edge.source, route.path.as_slice(), end)
        }
    }
}

/// Returns the operand of the first route that doesn't bring its value.
#[tactic(auto, unfolding(crate::specs::Rules::violated))]
pub(crate) fn unbrought(arch: &Arch, kernel: &Kernel, mapping: &Mapping) -> Option<RulePlace>
    ensures { result ≡ violated L5 arch.now kernel.now mapping.now }
{
    let routes = mapping.routes();
    for route in routes {
        if !is_brought(arch, kernel, mapping, route) {
            return Some(RulePlace::Arg {
                node: route.node,
                arg: route.arg,
            });
        }
    }
    None
}
