//! L6 and L7: what routes that meet on a resource in a slot must share.
ghost use Rattle.std.specs.Prelude.{◌≡◌, ◌∷◌, ◌^◌, ◌<◌};
ghost use Rattle.cg_model.specs.Mapping as mappings;
ghost use Rattle.cg_check.specs.Claims as spec;
ghost use Rattle.cg_model.specs.Mapping as mappings;

use crate::edge::edge_into;
use crate::model::{delay, leaves};
use crate::stop::{Cell, Sharing, Stop};
use cg_arch::Arch;
use cg_model::{Kernel, Mapping, Route};

/// Returns whether two values come from one resource, or both begin their paths.
fn same_from(first: Option<u32>, second: Option<u32>) -> bool
    ensures { result ≡ mappings.same_from first second }
{
    match (first, second) {
        (None, None) => true,
        (Some(first), Some(second)) => first == second,
        _ => false,
    }
}

/// Returns whether two values share what `sharing` requires.
fn alike(sharing: Sharing, first: Stop, second: Stop) -> bool
    ensures { result ≡ spec.alike sharing (spec.position_of first) (spec.position_of second) }
{
    match sharing {
        Sharing::Value => first.source == second.source && first.time == second.time,
        Sharing::Way => same_from(first.from, second.from),
    }
}

/// Returns `cell` after one more value there.
fn with_claim(sharing: Sharing, cell: Cell, stop: Stop) -> Cell
    ensures { result ≡ spec.with_claim sharing cell (spec.position_of stop) }
{
    match cell {
        Cell::Free => Cell::Held(stop),
        Cell::Held(first) => {
            if alike(sharing, first, stop) {
                Cell::Held(first)
            } else {
                Cell::Clash
            }
        }
        Cell::Clash => Cell::Clash,
    }
}

/// The setting of claims: a mapping on its architecture, and what values must share.
#[derive(Clone, Copy)]
struct Claiming<'a> {
    sharing: Sharing,
    arch: &'a Arch,
    mapping: &'a Mapping,
}

/// Claims the resource and the slot of `stop` in `table`; a stop past the table claims nothing.
#[tactic(auto, unfolding(crate::specs::Claims::claimed))]
fn claim(table: &mut [Cell], claiming: Claiming, stop: Stop)
    requires { 0 < claiming.mapping.now.ii }
    ensures { table.new ≡ spec.claimed claiming.entry.sharing claiming.entry.mapping.now.ii table.old (spec.position_of stop) }
{
    let ii = claiming.mapping.ii();
    let at = stop.resource as usize * ii as usize + (stop.time % u64::from(ii)) as usize;
    if at < table.len() {
        table[at] = with_claim(claiming.sharing, table[at], stop);
    }
}

/// Returns the stop after `stop` on a path that continues to `resource`.
fn next(arch: &Arch, stop: Stop, resource: u32) -> Stop
    requires { stop.time < 2 ^ 63 }
    ensures { result ≡ spec.next_of arch.now stop resource }
{
    Stop {
        source: stop.source,
        resource,
        time: stop.time + delay(arch, resource),
        from: Some(stop.resource),
    }
}

/// Claims in `table` the stops of a path, from `start` on.
fn claim_path(table: &mut [Cell], claiming: Claiming, start: Stop, rest: &[u32])
    requires interval { 0 < claiming.mapping.now.ii }
    requires soon { start.time < 2 ^ 33 }
    ensures { table.new ≡ spec.claims claiming.entry.sharing claiming.entry.mapping.now.ii table.old (spec.position_of start ∷ mappings.positions_after claiming.entry.arch.now start.source start.resource start.time rest.now) }
{
    let mut stop = start;
    claim(table, claiming, stop);
    for resource in rest {
        stop = next(claiming.arch, stop, *resource);
        claim(table, claiming, stop);
    }
}

/// Claims in `table` the stops of `route`.
fn claim_route(table: &mut [Cell], claiming: Claiming, kernel: &Kernel, route: &Route)
    requires { 0 < claiming.mapping.now.ii }
    ensures { table.new ≡ spec.claims claiming.entry.sharing claiming.entry.mapping.now.ii table.old (mappings.of_route claiming.entry.arch.now kernel.now claiming.entry.mapping.now route.now) }
{
    if let Some(edge) = edge_into(kernel, route) {
        if let [first, rest @ ..] = route.path.as_slice() {
            let start = Stop {
                source: edge.source,
                resource: *first,
                time: leaves(claiming.arch, claiming.mapping, edge.source),
                from: None,
            };
            claim_path(table, claiming, start, rest);
        }
    }
}

/// Claims in `table` the stops of all routes.
pub(crate) fn claim_all(
    table: &mut [Cell],
    sharing: Sharing,
    arch: &Arch,
    kernel: &Kernel,
    mapping: &Mapping,
)
    requires { 0 < mapping.now.ii }
    ensures { table.new ≡ spec.claims sharing mapping.now.ii table.old (mappings.positions arch.now kernel.now mapping.now) }
{
    let claiming = Claiming {
        sharing,
        arch,
        mapping,
    };
    for route in mapping.routes() {
        claim_route(table, claiming, kernel, route);
    }
}
