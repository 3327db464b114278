//! The selects that the routes of a mapping require of the resources on their paths.
ghost use Rattle.std.specs.Prelude.{◌≡◌, ◌+◌, ◌<◌, ◌≤◌, ◌^◌, ℕ, suc, length, Contains};
ghost use Rattle.cg_model.specs.Array as arrays;
ghost use Rattle.cg_model.specs.Array.{delay};
ghost use Rattle.cg_model.specs.Kernel.{IsKernel};
ghost use Rattle.cg_model.specs.Mapping.{positions_after, of_route, positions};
ghost use Rattle.cg_model.specs.Canonical.{IsCanonical};
ghost use Rattle.cg_model.specs.Configured.{place_of};
ghost use Rattle.cg_emit.specs.Building.{with_positions, GoesInTime, IsSource};

use crate::nodes::place_of;
use cg_arch::Arch;
use cg_bits::{Config, Contexts};
use cg_check::LegalMapping;
use cg_model::{Kind, Operand, Route};

/// Returns the delay of a link into `resource`, in cycles.
fn delay_into(arch: &Arch, resource: u32) -> u32
    requires { resource < length arch.now.resources }
    ensures { result ≡ delay arch.now resource }
{
    match arch.resources()[resource as usize].kind {
        Kind::Register => 1,
        Kind::Wire | Kind::Port | Kind::Out => 0,
    }
}

/// Returns the position of `from` in `drivers`, counted from 1.
fn place_in(drivers: &[u32], from: u32) -> u32
    requires { length drivers.now + 1 < 2 ^ 32 }
    ensures { result ≡ suc (place_of from drivers.now) }
{
    let mut place = 1;
    for driver in drivers {
        if *driver == from {
            return place;
        }
        place += 1;
    }
    place
}

/// Returns the select with which `resource` takes the word of `driver`, one of its drivers.
fn select_of(arch: &Arch, resource: u32, driver: u32) -> u32
    requires { Contains (arrays.resource arch.now resource).drivers driver }
    ensures select { result ≡ suc (place_of driver (arrays.resource arch.now resource).drivers) }
    ensures few { result ≤ length (arrays.resource arch.now resource).drivers }
{
    let resource = &arch.resources()[resource as usize];
    place_in(resource.drivers.as_slice(), driver)
}

/// Sets the selects along a path that continues on `path` from the resource `from`, on which a value is at `time`. They
/// don't depend on the node whose value it is.
fn set_links(config: &mut Config, arch: &Arch, mut from: u32, mut time: u32, path: &[u32])
    requires canonical { IsCanonical arch.now config.old }
    requires path { GoesInTime arch.now from time path.now }
    ensures canonical { IsCanonical arch.now config.new }
    ensures set { (u : ℕ) → config.new ≡ with_positions arch.now (positions_after arch.now u from time path.now) config.old }
{
    for number in path {
        time += delay_into(arch, *number);
        let slot = time % config.ii();
        let select = select_of(arch, *number, from);
        config.set_select(arch, *number, slot, select);
        from = *number;
    }
}

/// Returns the node whose value `route` brings.
fn source_of(legal: &LegalMapping<'_>, route: &Route) -> u32
    requires { Contains legal.now.mapping.routes route.now }
    ensures source { IsSource legal.now.kernel route.now result }
    ensures valid { IsKernel legal.now.kernel }
{
    let _mapping = legal.mapping();
    let node = &legal.kernel().nodes()[route.node as usize];
    match &node.operands.as_slice()[route.arg as usize] {
        Operand::Edge { from, .. } => *from,
        Operand::Const(_) => unreachable!(),
    }
}

/// Sets the selects along `route`.
fn set_route(config: &mut Config, legal: &LegalMapping<'_>, route: &Route)
    requires canonical { IsCanonical legal.now.arch config.old }
    requires known { Contains legal.now.mapping.routes route.now }
    ensures canonical { IsCanonical legal.now.arch config.new }
    ensures set { config.new ≡ with_positions legal.now.arch (of_route legal.now.arch legal.now.kernel legal.now.mapping route.now) config.old }
{
    let place = place_of(legal, source_of(legal, route));
    let unit = &legal.arch().units()[place.unit as usize];
    let leaves = place.time + unit.latency;
    let (_, links) = route.path.as_slice().split_at(1);
    set_links(config, legal.arch(), unit.out, leaves, links);
}

/// Sets the selects along all routes.
pub(crate) fn set_routes(config: &mut Config, legal: &LegalMapping<'_>)
    requires { IsCanonical legal.now.arch config.old }
    ensures canonical { IsCanonical legal.now.arch config.new }
    ensures set { config.new ≡ with_positions legal.now.arch (positions legal.now.arch legal.now.kernel legal.now.mapping) config.old }
{
    for route in legal.mapping().routes() {
        set_route(config, legal, route);
    }
}
